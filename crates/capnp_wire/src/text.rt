//! `Text`.
mod display;
mod reader;

use crate::layout::copy::Copied;
use crate::layout::value;
use crate::traits::{self, SetterInput};
use capnp_frame::Result;
use capnp_frame::message::ReaderSegments;
pub use reader::Reader;

/// `Text`, as a type of a schema.
///
/// ```
/// let mut message = Builder::new_default(alloc);
/// message.set_root::<text::Owned, &str>("Alice")?;
/// assert_eq!(rt; message.size_in_words(), 2);
/// ```
pub struct Owned;

impl<'a, S: ReaderSegments> traits::Owned<'a, S> for Owned {
    type Reader = Reader<'a>;
}

// The value is a list of bytes with a zero byte at its end.
impl<'a> SetterInput<Owned> for Reader<'a> {
    ghost use Rattle.capnp_wire.specs.Values.{IsTextTree, LongText};
    ghost use Rattle.capnp_layout.specs.Tree.{count};
    ghost use Rattle.std.proofs.Common.{ap};

    ghost has_tree = { λ text trees. IsTextTree text.bytes.now trees };

    ghost fails = { λ text kind. LongText text.bytes.now kind };

    ghost one = { λ value trees is. ap count is.1 };

    fn measure(&self, _canonical: bool) -> Result<u32> {
        value::measure_text(self.bytes)
    }

    fn is_null(&self) -> bool {
        false
    }

    fn write(&self, _canonical: bool, block: &mut [u8], following: usize, next: usize) -> Copied {
        value::write_text(self.bytes, block, following, next)
    }
}

// A string is set as its bytes and a zero byte.
impl<'a> SetterInput<Owned> for &'a str {
    ghost use Rattle.capnp_wire.specs.Values.{IsTextTree, LongText};
    ghost use Rattle.capnp_layout.specs.Tree.{count};
    ghost use Rattle.std.proofs.Common.{ap};

    ghost has_tree = { λ text trees. IsTextTree text.now trees };

    ghost fails = { λ text kind. LongText text.now kind };

    ghost one = { λ value trees is. ap count is.1 };

    fn measure(&self, _canonical: bool) -> Result<u32> {
        value::measure_text(self.as_bytes())
    }

    fn is_null(&self) -> bool {
        false
    }

    fn write(&self, _canonical: bool, block: &mut [u8], following: usize, next: usize) -> Copied {
        value::write_text(self.as_bytes(), block, following, next)
    }
}
