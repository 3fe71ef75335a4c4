//! Sources of the elements of lists, which make each element only when it is needed.
ghost use Rattle.std.specs.Prelude.{◌≡◌, ℕ, ◌<◌, List, length, get_or};
ghost use Rattle.capnp_frame.specs.declared.error.ErrorKind.{ErrorKind};
ghost use Rattle.capnp_layout.specs.Prelude.{Trees};
ghost use Rattle.capnp_values.specs.Fields.{IsSettled};
ghost use Rattle.capnp_values.specs.Sources.{IsAsDeclared};

use crate::borrowed::Borrowed;
use crate::element::Element;
use crate::fields::Fields;
use capnp_wire::traits::SetterInput;

/// Values in order, each made only when it is needed: once to be measured, and again to be
/// written.
///
/// ```
/// let names = ["Ann", "Bo"];
/// let source = Names { names: &names };
/// assert_eq!(rt; (source.len(), source.get(1)), (2, "Bo"));
/// let list: LazyPointerList<text::Owned, Names<'_>> = LazyPointerList::new(source);
/// message.set_root::<text_list::Owned, LazyPointerList<text::Owned, Names<'_>>>(list)?;
/// ```
pub trait ValueSource<T> {
    /// Identifies a value: its index, or what it is made of.
    type Item;

    /// The type of the values.
    type Value: SetterInput<T> + Drop;

    /// What identifies each of the values, in order.
    ghost items: { Self → List Self.Item };

    /// The value of an item has this tree.
    ghost has_tree: { Self → Self.Item → Trees → Type 0 };

    /// With which errors an item's value fails. It then has no tree.
    ghost fails: { Self → Self.Item → ErrorKind → Type 0 };

    /// How many values there are.
    fn len(&self) -> usize
        ensures { result ≡ length (items self.now) };

    /// The value at an index.
    fn get(&self, index: usize) -> Self::Value
        requires { index < length (items self.now) }
        ensures { (item : Self.Item) × (item ≡ get_or (items self.now) index item)
            × IsAsDeclared (Self.Value.has_tree result) (has_tree self.now item)
            (Self.Value.fails result) (fails self.now item) };
}

/// Structs of one size in order, each made only when it is needed: once to be measured, and again
/// to be written; in canonical form twice for each.
///
/// ```
/// let numbers = [7, 8];
/// let source = Numbers { numbers: &numbers };
/// assert_eq!(rt; (source.len(), source.get(1).words[0]), (2, 8));
/// let list = LazyStructList::new(source);
/// message.set_root::<struct_list::Owned, LazyStructList<Numbers<'_>>>(list)?;
/// ```
pub trait StructSource {
    /// Identifies a struct: its index, or what it is made of.
    type Item;

    /// The type of the structs.
    type Value: Fields + Element + Drop;

    /// What identifies each of the structs, in order.
    ghost items: { Self → List Self.Item };

    /// The words of the data section of an item's struct.
    ghost words: { Self → Self.Item → List ℕ };

    /// The fields of an item's struct are these trees, in order.
    ghost has_trees: { Self → Self.Item → Trees → Type 0 };

    /// With which errors an item's struct fails: a field of it has no tree.
    ghost fails: { Self → Self.Item → ErrorKind → Type 0 };

    /// How many structs there are.
    fn len(&self) -> usize
        ensures { result ≡ length (items self.now) };

    /// The struct at an index.
    fn get(&self, index: usize) -> Self::Value
        requires { index < length (items self.now) }
        ensures { (item : Self.Item) × (item ≡ get_or (items self.now) index item)
            × (Self.Value.words result ≡ words self.now item)
            × IsAsDeclared (Self.Value.has_trees result) (has_trees self.now item)
            (Self.Value.fails result) (fails self.now item) };

    /// The trees have room, and each has fewer than 2^29 words.
    ghost settled: { (source : Self) (item : Self.Item) (trees : Trees) →
        has_trees source item trees → IsSettled Self.Value.size trees };
}

// Each value of a slice is its own item.
impl<'a, T, V: SetterInput<T>> ValueSource<T> for &'a [V] {
    type Item = V;

    type Value = Borrowed<'a, V>;

    ghost items = { λ source. source.now };

    ghost has_tree = { λ source item trees. V.has_tree item trees };

    ghost fails = { λ source item kind. V.fails item kind };

    fn len(&self) -> usize {
        <[V]>::len(*self)
    }

    fn get(&self, index: usize) -> Borrowed<'a, V> {
        let values: &'a [V] = *self;
        Borrowed::new(&values[index])
    }
}

// Each struct of a slice is its own item.
impl<'a, E: Fields + Element> StructSource for &'a [E] {
    type Item = E;

    type Value = Borrowed<'a, E>;

    ghost items = { λ source. source.now };

    ghost words = { λ source item. E.words item };

    ghost has_trees = { λ source item trees. E.has_trees item trees };

    ghost fails = { λ source item kind. E.fails item kind };

    ghost settled = { λ source item trees is. E.settled item trees is };

    fn len(&self) -> usize {
        <[E]>::len(*self)
    }

    fn get(&self, index: usize) -> Borrowed<'a, E> {
        let structs: &'a [E] = *self;
        Borrowed::new(&structs[index])
    }
}
