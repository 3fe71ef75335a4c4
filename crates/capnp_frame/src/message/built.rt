//! Messages that are built, whatever type holds their segments.
ghost use Rattle.capnp_frame.specs.Writing.{IsWritable};

use crate::message::segments::ReaderSegments;

/// A message that is built: its segments are what is written of it.
///
/// For implementers: `can_be_written` does nothing. Its contract is a fact that writers use.
///
/// ```
/// let mut message = Builder::new_default(alloc);
/// message.set_root::<text::Owned, &str>("Hello, World!")?;
/// let framed = serialize::write_message_to_words(alloc, &message)?;
/// assert_eq!(rt; framed.len(), 32);
/// ```
pub trait BuiltMessage: ReaderSegments {
    /// It has a segment, so it can be written.
    ghost has_segment: { Self → Type 0 };

    /// Each segment is of whole words, and a segment table can say how many segments there are, and
    /// how many words are in each.
    fn can_be_written(&self)
        requires { has_segment self.now }
        ensures { IsWritable (Self.segments self.now) };
}
