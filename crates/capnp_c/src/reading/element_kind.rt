//! As what the elements of a list are read.
ghost use Rattle.std.specs.Prelude.{◌≡◌, slice_get};

use capnp_layout::element_size::ElementSize;

/// As what the elements of a list are read, whatever wrote them.
#[derive(Clone, Copy)]
pub(crate) enum ElementKind {
    Numbers(ElementSize),
    Pointers,
    Structs,
}

// The kinds, by their codes in list pointers.
const ELEMENT_KINDS: [ElementKind; 8] = [
    ElementKind::Numbers(ElementSize::Void),
    ElementKind::Numbers(ElementSize::Bit),
    ElementKind::Numbers(ElementSize::Byte),
    ElementKind::Numbers(ElementSize::TwoBytes),
    ElementKind::Numbers(ElementSize::FourBytes),
    ElementKind::Numbers(ElementSize::EightBytes),
    ElementKind::Pointers,
    ElementKind::Structs,
];

impl ElementKind {
    /// The kind of this code in a list pointer; `None` where no kind has it.
    pub(crate) fn of_code(code: u8) -> Option<ElementKind>
        ensures { result ≡ slice_get ELEMENT_KINDS code }
    {
        ELEMENT_KINDS.get(code as usize).copied()
    }
}
