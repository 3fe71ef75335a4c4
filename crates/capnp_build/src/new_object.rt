//! New objects, as values that the root is set to.
ghost use Rattle.std.specs.Prelude.{◌≡◌};
ghost use Rattle.capnp_layout.specs.Prelude.{none, tree, count};
ghost use Rattle.capnp_build.specs.NewBody.{Fits, zero_form, output_new_object};
ghost use Rattle.capnp_wire.specs.Prelude.{HasWords};
ghost use Rattle.std.specs.Prelude.{false};

use crate::object::NewBody;
use capnp_frame::Result;
use capnp_wire::traits::{Copied, SetterInput};
use std::marker::Model;

/// New objects, as a type of a schema.
pub struct Owned;

/// A new object, all zero.
#[derive(Drop)]
pub struct NewObject {
    body: NewBody,
}

impl Model for NewObject {
    ghost use Rattle.capnp_build.specs.NewBody.{Fits};
    ghost use Rattle.capnp_build.specs.declared.object.NewBody.{NewBody};

    ghost Value = { NewBody };

    ghost view = { λ new_object. new_object.body };

    ghost invariant = { λ new_object. Fits new_object.body };
}

impl NewObject {
    /// A new object of this kind and size, all zero. The size has to fit a pointer: a list has
    /// fewer than 2^29 elements, and a struct fewer than 2^16 data words.
    pub fn new(body: NewBody) -> NewObject
        requires { Fits body }
        ensures { result ≡ body }
    {
        NewObject { body }
    }

    /// The number of words of the object.
    pub fn words(&self) -> u32
        ensures { HasWords (λ trees. trees ≡ tree (zero_form self.now) none none) false result }
    {
        let body = self.output(false);
        body.words()
    }

    fn output(&self, canonical: bool) -> NewBody
        ensures fits { Fits result }
        ensures body { result ≡ output_new_object canonical self.now }
        ensures whole { Fits self.now }
    {
        match self.body {
            NewBody::Struct(_) if canonical => NewBody::Struct(0),
            body => body,
        }
    }
}

impl SetterInput<Owned> for NewObject {
    ghost use Rattle.std.proofs.Common.{ap};

    ghost has_tree = { λ new_object trees. trees ≡ tree (zero_form new_object) none none };

    ghost fails = { λ new_object kind. ⊥ };

    ghost one = { λ new_object trees is. ap count is };

    fn measure(&self, canonical: bool) -> Result<u32> {
        Ok(self.output(canonical).words())
    }

    fn is_null(&self) -> bool {
        false
    }

    // The block is zero already.
    fn write(&self, canonical: bool, _block: &mut [u8], following: usize, next: usize) -> Copied {
        let body = self.output(canonical);
        Copied {
            pointer: body.pointer_word((next - following) as u32),
            next: next + body.words() as usize,
        }
    }
}
