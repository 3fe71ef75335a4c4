//! Lists of `Data`.
use crate::{data, list_list};

/// A list of `Data` in a message.
///
/// ```
/// let keys: data_list::Reader<'_, OwnedSegments> = message.get_root()?;
/// let Some(key) = keys.try_get(1) else {
///     panic!(rt; "no second key");
/// };
/// assert_eq!(rt; key?, [3].as_slice());
/// assert_eq!(rt; keys.len(), 2);
/// ```
pub type Reader<'a, S> = list_list::Reader<'a, S, data::Reader<'a>>;

/// A list of `Data`, as a type of a schema.
///
/// ```
/// let keys = [objects.data(&[1, 2])?, objects.data(&[3])?];
/// let list: Orphan<data_list::Owned> = objects.pointer_list(&keys)?;
/// objects.set_root(list);
/// assert_eq!(rt; objects.bytes().len(), 8 * 5);
/// ```
pub type Owned = list_list::Owned<data::Owned>;
