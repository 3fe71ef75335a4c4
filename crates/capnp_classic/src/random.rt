//! The numbers that all messages are made of (Marsaglia's xorshift64*); the peers in tools/classic
//! draw the same ones.
ghost use Rattle.std.specs.Prelude.{◌<◌, ◌^◌};

/// A source of numbers.
#[derive(Clone, Copy)]
pub struct Random {
    state: u64,
}

impl Random {
    /// The source of a seed.
    pub fn new(seed: u32) -> Random {
        Random {
            state: (seed as u64).wrapping_mul(0x9e37_79b9_7f4a_7c15) | 1,
        }
    }

    /// The next number.
    fn next(&mut self) -> u32 {
        let mut state = self.state;
        state ^= state >> 12;
        state ^= state << 25;
        state ^= state >> 27;
        self.state = state;
        (state.wrapping_mul(0x2545_f491_4f6c_dd1d) >> 32) as u32
    }

    /// The next number, below a bound.
    pub fn below(&mut self, bound: u32) -> u32
        requires { 0 < bound }
        ensures { result < bound }
    {
        self.next() % bound
    }

    /// The next number, as one of two.
    pub fn flag(&mut self) -> bool {
        self.below(2) == 1
    }

    /// The next number from 0 to a bound.
    pub fn up_to(&mut self, bound: f32) -> f32 {
        f32::from((self.next() >> 16) as u16) * bound / 65535.0
    }
}
