//! Trees of small objects, laid out as in canonical form.

use crate::random::Random;
use crate::raw::{list_pointer, push_text, push_word, struct_pointer};
use capnp::Result;

/// How many letters a text below a list of pointers has.
const LETTERS: u64 = 7;

/// What the objects of a tree are.
#[derive(Clone, Copy)]
pub enum Kind {
    /// Structs of a number, and of pointers to structs.
    Struct,
    /// Lists of pointers to such lists; the lowest point to texts of a word.
    Pointers,
    /// Lists of structs of a number and of a pointer to such a list.
    Structs,
}

/// A tree in which each object above the lowest ones points to this many others.
#[derive(Clone, Copy)]
pub struct Shape {
    kind: Kind,
    children: u64,
}

impl Shape {
    /// The shape of objects that point to this many others.
    pub fn new(kind: Kind, children: u64) -> Shape {
        Shape { kind, children }
    }

    /// The pointer to an object of this depth that begins some words after it.
    pub fn pointer(self, offset: u64, depth: u32) -> u64 {
        match self.kind {
            Kind::Pointers if depth == 0 => list_pointer(offset, 2, LETTERS + 1),
            Kind::Pointers => list_pointer(offset, 6, self.children),
            Kind::Structs => list_pointer(offset, 7, self.children.wrapping_mul(2)),
            Kind::Struct if depth == 1 => {
                struct_pointer(offset, self.children.wrapping_add(1), 0)
            }
            Kind::Struct => struct_pointer(offset, 1, self.children),
        }
    }

    /// Adds an object of this depth and all that it points to.
    pub fn push(self, words: &mut Vec<u8>, random: &mut Random, depth: u32) -> Result<()> {
        if depth == 0 {
            return match self.kind {
                Kind::Pointers => push_text(words, random, LETTERS),
                _ => Ok(()),
            };
        }
        self.push_own(words, random, depth)?;
        for _ in 0..self.children {
            self.push(words, random, depth - 1)?;
        }
        Ok(())
    }

    /// Adds the words of an object alone.
    fn push_own(self, words: &mut Vec<u8>, random: &mut Random, depth: u32) -> Result<()> {
        match self.kind {
            Kind::Struct => push_word(words, 1 + random.below(1000))?,
            Kind::Structs if depth == 1 => push_word(words, struct_pointer(self.children, 2, 0))?,
            Kind::Structs => push_word(words, struct_pointer(self.children, 1, 1))?,
            Kind::Pointers => {}
        }
        let below = self.words(depth.saturating_sub(1));
        for child in 0..self.children {
            if let Kind::Structs = self.kind {
                push_word(words, 1 + random.below(1000))?;
            }
            let after = (self.children - child)
                .wrapping_sub(1)
                .wrapping_mul(self.stride())
                .wrapping_add(child.wrapping_mul(below));
            push_word(words, self.slot(random, after, depth))?;
        }
        Ok(())
    }

    /// A pointer to an object of the depth below, or in the lowest structs a number.
    fn slot(self, random: &mut Random, after: u64, depth: u32) -> u64 {
        match self.kind {
            Kind::Pointers => self.pointer(after, depth.saturating_sub(1)),
            _ if depth == 1 => 1 + random.below(1000),
            _ => self.pointer(after, depth.saturating_sub(1)),
        }
    }

    /// How many words of an object each child takes.
    fn stride(self) -> u64 {
        match self.kind {
            Kind::Structs => 2,
            _ => 1,
        }
    }

    /// How many words an object of this depth and all that it points to take.
    fn words(self, depth: u32) -> u64 {
        let (mut words, before) = match self.kind {
            Kind::Pointers => (1_u64, 0),
            _ => (0, 1),
        };
        for _ in 0..depth {
            words = self
                .children
                .wrapping_mul(words.wrapping_add(self.stride()))
                .wrapping_add(before);
        }
        words
    }
}
