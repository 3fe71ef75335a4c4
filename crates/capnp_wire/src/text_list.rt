//! Lists of `Text`.
use crate::{list_list, text};

/// A list of `Text` in a message.
///
/// ```
/// let names: text_list::Reader<'_, OwnedSegments> = message.get_root()?;
/// let mut length: usize = 0;
/// for name in names.iter() {
///     length = length.saturating_add(name?.len());
/// }
/// assert_eq!(rt; (names.len(), length), (2, 8));
/// ```
pub type Reader<'a, S> = list_list::Reader<'a, S, text::Reader<'a>>;

/// A list of `Text`, as a type of a schema.
///
/// ```
/// let names = [objects.text("Alice")?, objects.text("Bob")?];
/// let list: Orphan<text_list::Owned> = objects.pointer_list(&names)?;
/// objects.set_root(list);
/// assert_eq!(rt; objects.bytes().len(), 8 * 5);
/// ```
pub type Owned = list_list::Owned<text::Owned>;
