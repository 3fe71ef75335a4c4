//! Facts about the trees of messages, each the contract of a function that does nothing.
ghost use Rattle.std.specs.Prelude.{◌≡◌, ◌+◌, Some, slice_get, ◌<◌, ◌≤◌, ◌^◌, ◌↔◌, ℕ, List, [], ◌∷◌, Option, None, Bool, false};
ghost use Rattle.capnp_frame.specs.declared.error.ErrorKind.{ErrorKind};
ghost use Rattle.capnp_layout.specs.Tree.{is_null};
ghost use Rattle.capnp_layout.specs.Prelude.{Form, Trees, none, tree, depth, total_words, trim, Shape, PointsTo, word_at, At, Below, root, layout, canon, pointer_to, far_pointer, Laid, AllHaveRoom, AllWords, PointerError, WalkError, Within};
ghost use Rattle.capnp_wire.specs.Canonical.{IsCanonical, TestsAreExact};
ghost use Rattle.capnp_wire.specs.Views.{Pointer};
ghost use Rattle.capnp_wire.specs.Values.{IsCanonicalForm};
ghost use Rattle.capnp_layout.specs.declared.place.Place.{Place};

/// At most one tree is at each of some places, and the words counted for these trees are
/// determined.
pub fn one_tree_at_a_place()
    ensures { (m : List (List ℕ)) (places : List Place) (some others : Trees) (x y : ℕ) →
        At m places some x → At m places others y → (some ≡ others) × (x ≡ y) }
{}

/// At most one object is at a place.
pub fn one_object_at_a_place()
    ensures { (m : List (List ℕ)) (place : Place) (some other : Shape) →
        PointsTo m place some → PointsTo m place other → some ≡ other }
{}

/// Where pointers go from an object back to itself, there is no tree.
pub fn cycle_has_no_tree()
    ensures { (m : List (List ℕ)) (place : Place) (form : Form) (children : Trees) (traversed : ℕ) →
        Below m place place → At m (place ∷ []) (tree form children none) traversed → ⊥ }
{}

/// Where a pointer is invalid, there is no object within the nesting depth left.
pub fn invalid_pointer_has_no_object()
    ensures { (m : List (List ℕ)) (place : Place) (nesting : ℕ) (kind : ErrorKind) (shape : Shape) →
        PointerError m place nesting kind → PointsTo m place shape →
        (is_null shape.form ≡ false → 0 < nesting) → ⊥ }
{}

/// A pointer at a place fails with at most one error, at each nesting depth left.
pub fn one_error_at_a_place()
    ensures { (m : List (List ℕ)) (place : Place) (nesting : ℕ) (kind other : ErrorKind) →
        PointerError m place nesting kind → PointerError m place nesting other → kind ≡ other }
{}

/// Where a walk over some pointers fails, they point to no trees within its nesting depth and its
/// traversal limit.
pub fn failed_walk_has_no_trees()
    ensures { (m : List (List ℕ)) (places : List Place) (nesting traversed : ℕ) (limit : Option ℕ)
        (kind : ErrorKind) (trees : Trees) →
        WalkError m places nesting limit kind → At m places trees traversed → depth trees ≤ nesting →
        Within limit traversed → ⊥ }
{}

/// A walk stops with at most one error.
pub fn one_error_of_a_walk()
    ensures { (m : List (List ℕ)) (places : List Place) (nesting : ℕ) (limit : Option ℕ)
        (kind other : ErrorKind) →
        WalkError m places nesting limit kind → WalkError m places nesting limit other →
        kind ≡ other }
{}

/// The root of the one segment in which a tree is laid out is that tree.
pub fn root_of_a_layout()
    ensures { (form : Form) (children : Trees) → AllHaveRoom (tree form children none) →
        total_words (tree form children none) < 2 ^ 29 →
        (traversed : ℕ)
        × At (layout (tree form children none) ∷ []) (root ∷ []) (tree form children none) traversed }
{}

/// Where a tree's body is this many words after its pointer, in any segment, the pointer points to
/// the tree.
pub fn tree_after_its_pointer()
    ensures { (m : List (List ℕ)) (segment word offset : ℕ) (words : List ℕ)
        (form : Form) (children : Trees) →
        slice_get m segment ≡ Some words → AllHaveRoom (tree form children none) →
        total_words (tree form children none) < 2 ^ 29 → offset < 2 ^ 29 →
        slice_get words word ≡ Some (pointer_to (tree form children none) offset) →
        Laid words (word + 1 + offset) (tree form children none) →
        (traversed : ℕ)
        × At m (record { segment = segment; word = word } ∷ []) (tree form children none) traversed }
{}

/// Where a tree's body follows its landing pad, a far pointer to the landing pad points to the
/// tree.
pub fn tree_after_its_landing_pad()
    ensures { (m : List (List ℕ)) (place : Place) (segment landing_pad : ℕ) (words : List ℕ)
        (form : Form) (children : Trees) →
        slice_get m segment ≡ Some words → AllHaveRoom (tree form children none) →
        total_words (tree form children none) < 2 ^ 29 → is_null form ≡ false → landing_pad < 2 ^ 29 →
        word_at m place ≡ Some (far_pointer segment landing_pad) →
        slice_get words landing_pad ≡ Some (pointer_to (tree form children none) 0) →
        Laid words (landing_pad + 1) (tree form children none) →
        (traversed : ℕ) × At m (place ∷ []) (tree form children none) traversed }
{}

/// The root of a canonical form is the trimmed tree.
pub fn root_of_a_canonical_form()
    ensures { (form : Form) (children : Trees) → AllHaveRoom (tree form children none) →
        total_words (trim (tree form children none)) < 2 ^ 29 →
        (traversed : ℕ)
        × At (canon (tree form children none) ∷ []) (root ∷ []) (trim (tree form children none)) traversed }
{}

/// Trees that differ, once trimmed, have different canonical forms.
pub fn canonical_forms_differ()
    ensures { (f g : Form) (h k : Trees) → AllHaveRoom (tree f h none) →
        total_words (trim (tree f h none)) < 2 ^ 29 → AllHaveRoom (tree g k none) →
        total_words (trim (tree g k none)) < 2 ^ 29 →
        canon (tree f h none) ≡ canon (tree g k none) →
        trim (tree f h none) ≡ trim (tree g k none) }
{}

/// The trees in a message have room for their fields.
pub fn trees_have_room()
    ensures { (m : List (List ℕ)) (places : List Place) (trees : Trees) (traversed : ℕ) →
        AllWords m → At m places trees traversed → AllHaveRoom trees }
{}

/// The canonical forms of two pointers are equal exactly where their trees are equal once trimmed.
pub fn equal_forms_are_of_equal_trees()
    ensures { (pointer other : Pointer) (words others : List ℕ)
        (form : IsCanonicalForm pointer words) (other_form : IsCanonicalForm other others) →
        (words ≡ others) ↔ (trim form.trees ≡ trim other_form.trees) }
{}

/// A canonical form, as the one segment of a message, is canonical.
pub fn a_canonical_form_is_canonical()
    ensures { (pointer : Pointer) (words : List ℕ) → IsCanonicalForm pointer words →
        IsCanonical (words ∷ []) }
{}

/// For a message of one segment whose root can be read, the tests of a walk decide whether it is
/// canonical.
pub fn tests_are_exact()
    ensures { TestsAreExact }
{}
