//! Consecutive values of one type: how many words they have, and how they are written.
ghost use Rattle.std.specs.Prelude.{◌≡◌, ◌+◌, ◌<◌, ◌≤◌, ◌^◌, false, length};
ghost use Rattle.capnp_layout.specs.Prelude.{words_of};
ghost use Rattle.capnp_wire.specs.Prelude.{IsFreeFrom};
ghost use Rattle.capnp_values.specs.Measured.{MeasuresValue};
ghost use Rattle.capnp_values.specs.Lists.{AreItems, ValuesError, HasRoomForItems, AreItemsWritten};

use crate::measured::both;
use crate::sources::ValueSource;
use capnp_frame::Result;
use capnp_layout::pointer_word::put_word;
use capnp_wire::traits::{SetterInput, TreeWords};

/// The number of words of all these values, untrimmed and in the form that is written.
///
/// Fails as the first value does that fails untrimmed.
pub(crate) fn measure_items<T, S: ValueSource<T>>(items: &S, canonical: bool) -> Result<TreeWords>
    requires { length (S.items items.now) < 2 ^ 29 }
    ensures { MeasuresValue (AreItems (S.has_tree items.now) (S.items items.now))
        (ValuesError (S.has_tree items.now) (S.fails items.now) (S.items items.now)) canonical result }
{
    if !canonical {
        return untrimmed_items::<T, S>(items);
    }
    let mut words = TreeWords {
        untrimmed: 0,
        output: 0,
    };
    let count = items.len();
    for index in 0..count {
        let item = items.get(index);
        let own = item.measure_part(canonical)?;
        words = both(words, own);
    }
    Ok(words)
}

// The number of words of all these values, where no canonical form is written.
// Speed: one sum serves for both numbers, and stays in a register (`tools/time building`).
fn untrimmed_items<T, S: ValueSource<T>>(items: &S) -> Result<TreeWords>
    requires { length (S.items items.now) < 2 ^ 29 }
    ensures { MeasuresValue (AreItems (S.has_tree items.now) (S.items items.now))
        (ValuesError (S.has_tree items.now) (S.fails items.now) (S.items items.now)) false result }
{
    let mut words = 0;
    let count = items.len();
    for index in 0..count {
        let item = items.get(index);
        let own = item.measure(false)?;
        words += own as u64;
    }
    Ok(TreeWords {
        untrimmed: words,
        output: words,
    })
}

/// Writes pointers to these values into a block, from a word on, and the values themselves after
/// them, where the block is zero. Returns the first word after the values.
pub(crate) fn write_items<T, S: ValueSource<T>>(
    items: &S,
    canonical: bool,
    block: &mut [u8],
    first: usize,
) -> usize
    requires room { HasRoomForItems (AreItems (S.has_tree items.now) (S.items items.now)) canonical
        (first + length (S.items items.now)) (length (words_of block.old)) }
    requires free { IsFreeFrom (first + length (S.items items.now)) block.old }
    ensures written { AreItemsWritten (AreItems (S.has_tree items.now) (S.items items.now)) canonical
        first (length (S.items items.now)) (words_of block.old) (words_of block.new) result }
    ensures len { length block.new ≡ length block.old }
{
    let count = items.len();
    let mut next = first + count;
    for index in 0..count {
        let slot = first + index;
        let item = items.get(index);
        let copied = item.write(canonical, block, slot + 1, next);
        put_word(block, slot, copied.pointer);
        next = copied.next;
    }
    next
}
