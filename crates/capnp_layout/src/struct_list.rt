//! Lists of structs.
ghost use Rattle.std.specs.Prelude.{◌≡◌};
ghost use Rattle.capnp_layout.specs.Body.{traversed_of};
ghost use Rattle.capnp_layout.specs.declared.object.Body.{Body};

use crate::object::{Body, Object};
use crate::place::Place;
use crate::pointer::Elements;

/// A list of structs.
#[derive(Drop)]
pub struct StructList<'a> {
    pub segment: &'a [u8],
    /// The place of its tag.
    pub start: Place,
    pub elements: Elements,
    /// How many words follow the tag.
    pub words: u32,
}

impl<'a> StructList<'a> {
    ghost use Rattle.capnp_layout.specs.Local.{structs_of};

    /// The number of words that a reader counts against the traversal limit for it.
    #[inline(always)]
    pub fn traversed(&self) -> u64
        ensures { result ≡ traversed_of (Body.Structs self.now.elements self.now.words) }
    {
        Body::Structs(self.elements, self.words).traversed()
    }

    /// The list as an object.
    #[inline(always)]
    pub fn object(&self) -> Object<'a>
        ensures { result ≡ structs_of self.now }
    {
        Object {
            segment: self.segment,
            start: self.start,
            body: Body::Structs(self.elements, self.words),
            traversed: self.traversed(),
        }
    }
}
