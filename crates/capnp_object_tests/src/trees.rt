//! Segments of many objects in few words, over which walks are long.
use capnp_frame::Result;
use capnp_frame_tests::long_lists::append;
use std::alloc::Global;

// A struct of two pointers.
const TWO: u64 = 2 << 48;

fn append_zeros(bytes: &mut Vec<u8>, words: u16) -> Result<()> {
    for _ in 0..words {
        append(bytes, 0)?;
    }
    Ok(())
}

/// Structs of a given number of data words and two pointers, both of them to the next struct: a
/// tree of 2^40 - 1 structs.
pub fn doublings(alloc: Global, data_words: u16) -> Result<Vec<u8>> {
    let next = TWO + ((data_words as u64) << 32);
    let mut bytes: Vec<u8> = Vec::new(alloc);
    append(&mut bytes, next)?;
    for _ in 0..39 {
        append_zeros(&mut bytes, data_words)?;
        append(&mut bytes, next + 4)?;
        append(&mut bytes, next)?;
    }
    append_zeros(&mut bytes, data_words)?;
    append_zeros(&mut bytes, 2)?;
    Ok(bytes)
}

/// A list of 65,536 pointers, all of them to the same list of 8,192 zero words.
pub fn shared_lists(alloc: Global) -> Result<Vec<u8>> {
    let mut bytes: Vec<u8> = Vec::new(alloc);
    append(&mut bytes, 0x0008_0006_0000_0001)?;
    for left in (0..65536).rev() {
        append(&mut bytes, 0x0001_0005_0000_0001 + 4 * left)?;
    }
    append_zeros(&mut bytes, 8192)?;
    Ok(bytes)
}
