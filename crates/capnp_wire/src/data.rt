//! `Data`: bytes.
mod hex;
mod reader;

use crate::layout::copy::Copied;
use crate::layout::value;
use crate::traits::{self, SetterInput};
use capnp_frame::Result;
use capnp_frame::message::ReaderSegments;
pub use hex::Hex;
pub use reader::Reader;

/// `Data`, as a type of a schema.
///
/// ```
/// let mut message = Builder::new_default(alloc);
/// message.set_root::<data::Owned, &[u8]>(key)?;
/// let read: data::Reader<'_> = message.get_root_as_reader()?;
/// assert_eq!(rt; read, key);
/// ```
pub struct Owned;

impl<'a, S: ReaderSegments> traits::Owned<'a, S> for Owned {
    type Reader = Reader<'a>;
}

// A list of bytes.
impl<'a> SetterInput<Owned> for &'a [u8] {
    ghost use Rattle.capnp_wire.specs.Values.{IsBytes, ManyBytes};
    ghost use Rattle.capnp_layout.specs.Tree.{count};
    ghost use Rattle.std.proofs.Common.{ap};

    ghost has_tree = { λ bytes trees. IsBytes bytes.now trees };

    ghost fails = { λ bytes kind. ManyBytes bytes.now kind };

    ghost one = { λ value trees is. ap count is.1 };

    fn measure(&self, _canonical: bool) -> Result<u32> {
        value::measure_bytes(self)
    }

    fn is_null(&self) -> bool {
        false
    }

    fn write(&self, _canonical: bool, block: &mut [u8], following: usize, next: usize) -> Copied {
        value::write_bytes(self, block, following, next)
    }
}
