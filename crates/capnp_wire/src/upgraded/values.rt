//! Lists that were read, as values: each is the list that is there, with all below it, within the
//! nesting depth left and the traversal limit.
//!
//! Where another writer wrote numbers or pointers as larger structs, a view of them knows no more
//! than their first fields, so the rest would be lost silently. Such a view is no value, and fails
//! with `WrongPointerKind`. The pointer to the list, an `any_pointer::Reader`, is always a value.
use crate::layout::copy::Copied;
use crate::layout::value;
use crate::object_content::wrong_kind;
use crate::primitive_element::PrimitiveElement;
use crate::traits::SetterInput;
use crate::upgraded::enum_list::EnumList;
use crate::upgraded::list_list::ListList;
use crate::upgraded::number_list::{NumberList, Numbers};
use crate::upgraded::pointer_list::PointerList;
use crate::upgraded::struct_list::{StructElements, StructList};
use crate::{any_pointer_list, list_list, primitive_list, struct_list};
use capnp_frame::Result;
use capnp_frame::message::ReaderSegments;

// The value is the list of the numbers.
impl<'a, T: PrimitiveElement> SetterInput<primitive_list::Owned<T>> for NumberList<'a, T> {
    ghost use Rattle.capnp_wire.specs.UpgradedValues.{IsNumberListValue, NumberListValueError, one_number_list};

    ghost has_tree = { λ list trees. IsNumberListValue T.code list trees };

    ghost fails = { λ list kind. NumberListValueError T.code list kind };

    ghost one = { λ list trees is. one_number_list T.code list trees is };

    fn measure(&self, canonical: bool) -> Result<u32> {
        match &self.numbers {
            Numbers::InPlace(list) => list.measure(canonical),
            Numbers::OfStructs(_) => Err(wrong_kind()),
        }
    }

    fn is_null(&self) -> bool {
        false
    }

    fn write(&self, canonical: bool, block: &mut [u8], following: usize, next: usize) -> Copied {
        match &self.numbers {
            Numbers::InPlace(list) => list.write(canonical, block, following, next),
            Numbers::OfStructs(_) => Copied { pointer: 0, next },
        }
    }
}

// The value is the list of the enum's numbers.
impl<'a, E> SetterInput<primitive_list::Owned<u16>> for EnumList<'a, E> {
    ghost use Rattle.capnp_wire.specs.UpgradedValues.{IsNumberListValue, NumberListValueError, one_number_list};

    ghost has_tree = { λ list trees. IsNumberListValue 3 list.numbers trees };

    ghost fails = { λ list kind. NumberListValueError 3 list.numbers kind };

    ghost one = { λ list trees is. one_number_list 3 list.numbers trees is };

    fn measure(&self, canonical: bool) -> Result<u32> {
        self.numbers.measure(canonical)
    }

    fn is_null(&self) -> bool {
        false
    }

    fn write(&self, canonical: bool, block: &mut [u8], following: usize, next: usize) -> Copied {
        self.numbers.write(canonical, block, following, next)
    }
}

// The value is the list of the structs. Numbers that are read as structs stay a list of numbers,
// and pointers that are read as structs become structs of one pointer each.
impl<'a, S: ReaderSegments> SetterInput<struct_list::Owned> for StructList<'a, S> {
    ghost use Rattle.capnp_wire.specs.UpgradedValues.{IsStructListValue, StructListValueError, one_struct_list};

    ghost has_tree = { λ list trees. IsStructListValue S.segments list trees };

    ghost fails = { λ list kind. StructListValueError S.segments list kind };

    ghost one = { λ list trees is. one_struct_list S.segments list trees is };

    fn measure(&self, canonical: bool) -> Result<u32> {
        match &self.elements {
            StructElements::InPlace(list) => list.measure(canonical),
            StructElements::Numbers(numbers) => value::measure_numbers(numbers.size, numbers.count),
        }
    }

    fn is_null(&self) -> bool {
        false
    }

    fn write(&self, canonical: bool, block: &mut [u8], following: usize, next: usize) -> Copied {
        match &self.elements {
            StructElements::InPlace(list) => list.write(canonical, block, following, next),
            StructElements::Numbers(numbers) => value::write_numbers(
                &numbers.as_value(),
                block,
                following,
                next,
            ),
        }
    }
}

// The value is the list of the pointers.
impl<'a, S: ReaderSegments> SetterInput<any_pointer_list::Owned> for PointerList<'a, S> {
    ghost use Rattle.capnp_wire.specs.UpgradedValues.{IsPointerListValue, PointerListValueError};
    ghost use Rattle.capnp_layout.specs.Tree.{count};
    ghost use Rattle.std.proofs.Common.{ap};

    ghost has_tree = { λ list trees. IsPointerListValue S.segments list trees };

    ghost fails = { λ list kind. PointerListValueError S.segments list kind };

    ghost one = { λ list trees is. ap count is.1.whole };

    fn measure(&self, canonical: bool) -> Result<u32> {
        match self.consecutive() {
            Some(list) => list.measure(canonical),
            None => Err(wrong_kind()),
        }
    }

    fn is_null(&self) -> bool {
        false
    }

    fn write(&self, canonical: bool, block: &mut [u8], following: usize, next: usize) -> Copied {
        match self.consecutive() {
            Some(list) => list.write(canonical, block, following, next),
            None => Copied { pointer: 0, next },
        }
    }
}

// The value is the list of the pointers, whose views are values of the elements' type.
impl<'a, S: ReaderSegments, T, V: SetterInput<T>> SetterInput<list_list::Owned<T>>
    for ListList<'a, S, V> {
    ghost use Rattle.capnp_wire.specs.UpgradedValues.{IsPointerListValue, PointerListValueError};
    ghost use Rattle.capnp_layout.specs.Tree.{count};
    ghost use Rattle.std.proofs.Common.{ap};

    ghost has_tree = { λ list trees. IsPointerListValue S.segments list.pointers trees };

    ghost fails = { λ list kind. PointerListValueError S.segments list.pointers kind };

    ghost one = { λ list trees is. ap count is.1.whole };

    fn measure(&self, canonical: bool) -> Result<u32> {
        self.pointers.measure(canonical)
    }

    fn is_null(&self) -> bool {
        false
    }

    fn write(&self, canonical: bool, block: &mut [u8], following: usize, next: usize) -> Copied {
        self.pointers.write(canonical, block, following, next)
    }
}
