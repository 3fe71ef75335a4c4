//! Lists whose elements are read by index, and iterators over them.
ghost use Rattle.std.specs.Prelude.{◌≡◌, ℕ, ◌-◌, ◌<◌, ◌^◌};
ghost use Rattle.std.specs.Iterator.{YieldsFirstBy, at_most};
ghost use Rattle.capnp_wire.specs.Lists.{FindsElement, IteratesOver, elements_left};

/// A list whose elements are read by their index.
///
/// ```
/// let ports: primitive_list::Reader<'_, u16> = message.get_root()?;
/// assert_eq!(rt; ports.try_index_move(0), Some(80));
/// assert_eq!(rt; ports.try_index_move(3), None);
/// ```
pub trait IndexMove {
    /// What an element is read as.
    type Item;

    /// What a contract sees of an element.
    ghost Element: { Type 0 };

    /// What a contract sees of an element that was read.
    ghost seen: { Self.Item → Element };

    /// The number of elements, for contracts.
    ghost size: { Self → ℕ };

    /// The element at an index below the number of elements.
    ghost element: { Self → ℕ → Element };

    /// The number of elements.
    fn len(&self) -> u32
        ensures { result ≡ size self.now };

    /// The element at this index.
    fn index_move(&self, index: u32) -> Self::Item
        requires { index < size self.now }
        ensures { seen result ≡ element self.now index };

    /// The element at this index, or `None` where the list ends before it.
    fn try_index_move(&self, index: u32) -> Option<Self::Item>
        ensures { FindsElement (size self.now) index
            (λ item. seen item ≡ element self.now index) result }
    {
        if index < self.len() {
            Some(self.index_move(index))
        } else {
            None
        }
    }
}

/// The elements of a list that is read, from the first to the last.
///
/// ```
/// let ports: primitive_list::Reader<'_, u16> = message.get_root()?;
/// let mut rest = ListIter::new(&ports);
/// assert_eq!(rt; rest.next(), Some(80));
/// assert_eq!(rt; rest.len(), 2);
/// ```
#[derive(Drop)]
pub struct ListIter<'l, L> {
    list: &'l L,
    /// The index of the next element.
    index: u32,
}

impl<'l, L: IndexMove> ListIter<'l, L> {
    /// The elements of this list.
    pub fn new(list: &'l L) -> ListIter<'l, L>
        ensures { IteratesOver (L.size list.now) list.now result }
    {
        // For the prover: the number of elements is below 2^32.
        let _ = list.len();
        ListIter { list, index: 0 }
    }
}

// Each call returns the element at the next index, and `None` from the end on.
impl<'l, L: IndexMove> Iterator for ListIter<'l, L> {
    type Item = L::Item;

    ghost next_gives = { YieldsFirstBy L.seen (elements_left L.size L.element) };

    ghost remaining = { λ elements. at_most (L.size elements.list.now - elements.index) };

    fn next(&mut self) -> Option<L::Item> {
        if self.index >= self.list.len() {
            return None;
        }
        let element = self.list.index_move(self.index);
        self.index += 1;
        Some(element)
    }

    fn size_hint(&self) -> (usize, Option<usize>) {
        let left = self.len();
        (left, Some(left))
    }
}

impl<'l, L: IndexMove> ExactSizeIterator for ListIter<'l, L> {
    fn len(&self) -> usize {
        self.list.len().saturating_sub(self.index) as usize
    }
}
