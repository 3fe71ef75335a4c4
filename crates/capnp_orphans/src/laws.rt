//! Facts about orphans, each the contract of a function that does nothing. `specs/OrphanLaws.antt`
//! has facts for proofs, about the trees of values of any kind.
ghost use Rattle.std.specs.Prelude.{◌≡◌, ◌+◌, ◌*◌, ◌≤◌, ℕ, List, [], ◌∷◌, ◌++◌};
ghost use Rattle.capnp_layout.specs.Prelude.{Form, Trees, null, none};
ghost use Rattle.capnp_orphans.specs.Orphans.{AreOrphans, IsOrphan};
ghost use Rattle.capnp_orphans.specs.Segments.{Segment, body_of};
ghost use Rattle.capnp_orphans.specs.Holds.{AreTrees, AreValues, HoldsValue};
ghost use Rattle.capnp_orphans.specs.Adding.{Keeps};
ghost use Rattle.capnp_orphans.specs.Copied.{data_up_to};
ghost use Rattle.capnp_wire.specs.Prelude.{field, Struct};

use capnp_wire::traits::SetterInput;

/// An orphan's tree stays the same when words are appended to the segment.
pub fn orphans_stay()
    ensures { (body more : List ℕ) (word : ℕ) (form : Form) (children : Trees) →
        IsOrphan body word form children → IsOrphan (body ++ more) word form children }
{}

/// Null is an orphan of every segment.
pub fn null_is_an_orphan()
    ensures { (body : List ℕ) → IsOrphan body 0 null none }
{}

/// Two steps together keep the orphans that each of them keeps.
pub fn steps_keep_orphans()
    ensures { (first second third : Segment) → Keeps first second → Keeps second third →
        Keeps first third }
{}

/// Orphans in order keep their trees in order, where each orphan keeps its tree.
pub fn orphans_in_order_stay()
    ensures { (old new : Segment) (words : List ℕ) (trees : Trees) → Keeps old new →
        AreOrphans (body_of old) words trees → AreOrphans (body_of new) words trees }
{}

/// Orphans of values in order are still orphans of these values, where each orphan keeps its tree.
pub fn values_stay<T, V: SetterInput<T>>()
    ensures { (old new : Segment) (values : List V) (words : List ℕ) → Keeps old new →
        AreValues V.has_tree (body_of old) values words →
        AreValues V.has_tree (body_of new) values words }
{}

/// The orphans of values with the orphan of one more value: the step of a loop over values.
pub fn next_value<T, V: SetterInput<T>>()
    ensures { (old new : Segment) (values : List V) (words : List ℕ) (value : V) (word : ℕ) →
        Keeps old new → AreValues V.has_tree (body_of old) values words →
        HoldsValue (V.has_tree value) (body_of new) word →
        AreValues V.has_tree (body_of new) (values ++ value ∷ []) (words ++ word ∷ []) }
{}

/// The trees of orphans of values are the trees of the values.
pub fn values_are_trees<T, V: SetterInput<T>>()
    ensures { (body : List ℕ) (values : List V) (words : List ℕ) →
        AreValues V.has_tree body values words →
        (children : Trees) × AreOrphans body words children × AreTrees V.has_tree values children }
{}

/// A field of the data words of a struct stays the same where these words are cut after it, or
/// filled up with zeros.
pub fn fields_stay()
    ensures { (fields : Struct) (count width offset : ℕ) → width * (offset + 1) ≤ 64 * count →
        field (data_up_to fields count) width offset ≡ field fields.words width offset }
{}
