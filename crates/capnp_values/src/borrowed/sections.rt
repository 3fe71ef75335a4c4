//! Borrowed structs.
use crate::borrowed::Borrowed;
use crate::element::Element;
use crate::fields::Fields;
use capnp_frame::Result;
use capnp_wire::traits::TreeWords;

// Has the fields of the struct.
impl<'a, F: Fields> Fields for Borrowed<'a, F> {
    ghost size = { F.size };

    ghost has_trees = { λ fields trees. F.has_trees fields.value.now trees };

    ghost fails = { λ fields kind. F.fails fields.value.now kind };

    ghost settled = { λ fields trees is. F.settled fields.value.now trees is };

    fn count() -> u32 {
        F::count()
    }

    fn measure(&self, canonical: bool) -> Result<TreeWords> {
        self.value.measure(canonical)
    }

    fn untrimmed(&self) -> Result<u64> {
        self.value.untrimmed()
    }

    fn kept(&self, canonical: bool) -> u32 {
        self.value.kept(canonical)
    }

    fn write(
        &self,
        canonical: bool,
        block: &mut [u8],
        slot: usize,
        count: u32,
        next: usize,
    ) -> usize {
        self.value.write(canonical, block, slot, count, next)
    }
}

// Has the data words of the struct.
impl<'a, E: Element> Element for Borrowed<'a, E> {
    ghost data_words = { E.data_words };

    ghost words = { λ element. E.words element.value.now };

    fn data_words() -> usize {
        E::data_words()
    }

    fn words(&self) -> &[u64] {
        self.value.words()
    }
}
