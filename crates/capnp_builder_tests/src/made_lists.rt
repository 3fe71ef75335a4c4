//! Lists whose elements are made when they are asked for, set at the root of a message, by bytes
//! computed by hand from the encoding document, "Lists" and "Canonicalization".
use crate::values::{compare_by_each, compare_canonical};
use capnp_frame::Result;
use capnp_values::{
    Field, LazyPointerList, LazyStructList, NoFields, StructSource, StructValue, ValueSource,
};
use capnp_wire::{any_struct, struct_list, text, text_list};

// A tag for three structs of a data word and a pointer, the structs, and their texts of four bytes,
// of eight and of the zero byte alone. Each pointer points past the structs after it and the texts
// before its own.
#[rattlefmt::skip]
const PHONES: &[u8] = b"\x01\0\0\0\x37\0\0\0\x0c\0\0\0\x01\0\x01\0\
    \x01\0\0\0\0\0\0\0\x11\0\0\0\x22\0\0\0\
    \x03\x02\0\0\0\0\0\0\x0d\0\0\0\x42\0\0\0\
    \xff\xff\0\0\0\0\0\0\x09\0\0\0\x0a\0\0\0\
    123\0\0\0\0\04567890\0\0\0\0\0\0\0\0\0";

// Such structs whose numbers are zero, in canonical form: each keeps its pointer alone.
#[rattlefmt::skip]
const NO_NUMBERS: &[u8] = b"\x01\0\0\0\x17\0\0\0\x08\0\0\0\0\0\x01\0\
    \x05\0\0\0\x22\0\0\0\x05\0\0\0\x1a\0\0\0Ann\0\0\0\0\0Bo\0\0\0\0\0\0";

// Three pointers, each over those after it and the texts before its own: of four bytes, of nine,
// which take two words, and of the zero byte alone.
#[rattlefmt::skip]
const NAMES: &[u8] = b"\x01\0\0\0\x1e\0\0\0\
    \x09\0\0\0\x22\0\0\0\x09\0\0\0\x4a\0\0\0\x0d\0\0\0\x0a\0\0\0\
    Ann\0\0\0\0\0ab cd ef\0\0\0\0\0\0\0\0\0\0\0\0\0\0\0\0";

// A struct of a number, of a list of two texts and of a list of a struct.
#[rattlefmt::skip]
const PERSON: &[u8] = b"\0\0\0\0\x01\0\x02\0\x09\0\0\0\0\0\0\0\
    \x05\0\0\0\x16\0\0\0\x11\0\0\0\x17\0\0\0\
    \x05\0\0\0\x1a\0\0\0\x05\0\0\0\x22\0\0\0Bo\0\0\0\0\0\0Ann\0\0\0\0\0\
    \x04\0\0\0\x01\0\x01\0\x07\0\0\0\0\0\0\0\x01\0\0\0\x0a\0\0\0\0\0\0\0\0\0\0\0";

type Phone<'a> = StructValue<1, Field<text::Owned, &'a str, NoFields>>;

type Texts<'a> = LazyPointerList<text::Owned, Names<'a>>;

type Phones<'a> = LazyStructList<Entries<'a>>;

type AfterNames<'a> = Field<struct_list::Owned, Phones<'a>, NoFields>;

type Person<'a> = StructValue<1, Field<text_list::Owned, Texts<'a>, AfterNames<'a>>>;

/// The texts of a list.
#[derive(Drop)]
pub(crate) struct Names<'a> {
    pub(crate) names: &'a [&'a str],
}

impl<'a> ValueSource<text::Owned> for Names<'a> {
    ghost use Rattle.capnp_wire.specs.Values.{IsTextTree, LongText};

    type Item = &'a str;

    type Value = &'a str;

    ghost items = { λ source. source.names.now };

    ghost has_tree = { λ source name trees. IsTextTree name.now trees };

    ghost fails = { λ source name kind. LongText name.now kind };

    fn len(&self) -> usize {
        self.names.len()
    }

    fn get(&self, index: usize) -> &'a str {
        self.names[index]
    }
}

/// What a phone is made of.
#[derive(Clone, Copy)]
pub(crate) struct PhoneEntry<'a> {
    pub(crate) number: &'a str,
    pub(crate) kind: u64,
}

/// The phones of a list.
#[derive(Drop)]
pub(crate) struct Entries<'a> {
    pub(crate) entries: &'a [PhoneEntry<'a>],
}

impl<'a> StructSource for Entries<'a> {
    ghost use Rattle.std.specs.Prelude.{◌≡◌, ◌∷◌, []};
    ghost use Rattle.capnp_layout.specs.Tree.{none};
    ghost use Rattle.capnp_wire.specs.Values.{IsTextTree, LongText};
    ghost use Rattle.capnp_values.specs.Fields.{IsValueInFront, FieldsError};
    ghost use Rattle.capnp_values.specs.FieldLaws.{settled_none, settled_more};

    type Item = PhoneEntry<'a>;

    type Value = Phone<'a>;

    ghost items = { λ source. source.entries.now };

    ghost words = { λ source entry. entry.kind ∷ [] };

    ghost has_trees = { λ source entry trees.
        IsValueInFront (λ t. IsTextTree entry.number.now t) (λ t. t ≡ none) trees };

    ghost fails = { λ source entry kind. FieldsError (λ t. IsTextTree entry.number.now t)
        (λ k. LongText entry.number.now k) (λ k. ⊥) kind };

    ghost settled = { λ source entry trees is. settled_more 0 trees
        (λ t. IsTextTree entry.number.now t) (λ t. t ≡ none) is
        (settled_none is.rest is.others) };

    fn len(&self) -> usize {
        self.entries.len()
    }

    fn get(&self, index: usize) -> Phone<'a> {
        let entry = self.entries[index];
        StructValue::new([entry.kind], Field::new(entry.number, NoFields))
    }
}

fn entry<'a>(number: &'a str, kind: u64) -> PhoneEntry<'a> {
    PhoneEntry { number, kind }
}

#[test]
fn made_lists_of_structs_are_at_the_root(rt: HostRuntime) -> Result<()> {
    let entries = [entry("123", 1), entry("4567890", 0x203), entry("", 65535)];
    let list = LazyStructList::new(Entries { entries: &entries });
    compare_by_each::<struct_list::Owned, Phones<'_>>(&rt, &list, PHONES)?;
    let zeros = [entry("Ann", 0), entry("Bo", 0)];
    let list = LazyStructList::new(Entries { entries: &zeros });
    compare_canonical::<struct_list::Owned, Phones<'_>>(&rt, &list, NO_NUMBERS)
}

#[test]
fn made_lists_of_pointers_are_at_the_root(rt: HostRuntime) -> Result<()> {
    let names = ["Ann", "ab cd ef", ""];
    let list = LazyPointerList::new(Names { names: &names });
    compare_by_each::<text_list::Owned, Texts<'_>>(&rt, &list, NAMES)
}

// Both as fields of a struct.
#[test]
fn made_lists_are_in_structs(rt: HostRuntime) -> Result<()> {
    let names = ["Bo", "Ann"];
    let entries = [entry("", 7)];
    let phones = LazyStructList::new(Entries { entries: &entries });
    let texts = LazyPointerList::new(Names { names: &names });
    let person = StructValue::new([9], Field::new(texts, Field::new(phones, NoFields)));
    compare_by_each::<any_struct::Owned, Person<'_>>(&rt, &person, PERSON)
}
