//! Lists of numbers.
ghost use Rattle.std.specs.Prelude.{◌≡◌, ◌*◌};
ghost use Rattle.capnp_layout.specs.Element.{code_of, width, words_for};
ghost use Rattle.capnp_layout.specs.Body.{traversed_of};
ghost use Rattle.capnp_layout.specs.declared.object.Body.{Body};

use crate::element_size::ElementSize;
use crate::object::{Body, Object};
use crate::place::Place;

/// A list of numbers.
#[derive(Drop)]
pub struct NumberList<'a> {
    pub segment: &'a [u8],
    pub start: Place,
    pub size: ElementSize,
    pub count: u32,
    /// The bits of all elements. It is kept so that their size need not be looked at again.
    pub bits: u64,
    ghost bits_are: { bits ≡ count * width (code_of size) },
}

impl<'a> NumberList<'a> {
    ghost use Rattle.capnp_layout.specs.Local.{object_of};

    /// How many words it has.
    #[inline(always)]
    pub fn words(&self) -> u64
        ensures { result ≡ words_for self.now.count (width (code_of self.now.size)) }
    {
        self.bits.div_ceil(64)
    }

    /// The number of words that a reader counts against the traversal limit for it.
    #[inline(always)]
    pub fn traversed(&self) -> u64
        ensures { result ≡ traversed_of (Body.Numbers self.now.size self.now.count) }
    {
        if self.size == ElementSize::Void {
            self.count as u64
        } else {
            self.words()
        }
    }

    /// The list as an object.
    #[inline(always)]
    pub fn object(&self) -> Object<'a>
        ensures { result ≡ object_of self.now }
    {
        Object {
            segment: self.segment,
            start: self.start,
            body: Body::Numbers(self.size, self.count),
            traversed: self.traversed(),
        }
    }
}
