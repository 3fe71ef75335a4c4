//! Copies of a few words or bytes, without a call and without a loop.
ghost use Rattle.std.specs.Prelude.{◌≡◌, ◌≤◌, ◌*◌, length, take, replicate};

use std::simd::prelude::*;

// Copies words: up to eight by two moves of one size, which may overlap, and more by one copy.
// Speed: a call of `memcpy` costs more than a short run (`capnp_ls unpack` of short runs).
#[inline(always)]
pub(crate) fn copy_run(count: usize, bytes: &[u8], buffer: &mut [u8])
    requires bytes { count ≤ length bytes.now }
    requires room { count ≤ length buffer.old }
    ensures { take count buffer.new ≡ take count bytes.now }
{
    if count == 0 {
        return;
    }
    if count < 8 || count > 64 {
        copy_front(count, bytes, buffer);
    } else if count <= 16 {
        copy_ends::<8>(count, bytes, buffer);
    } else if count <= 32 {
        copy_ends::<16>(count, bytes, buffer);
    } else {
        copy_ends::<32>(count, bytes, buffer);
    }
}

// Copies at most eight bytes, by two moves of one size.
#[inline(always)]
pub(crate) fn copy_bytes(count: usize, bytes: &[u8], buffer: &mut [u8])
    requires few { count ≤ 8 }
    requires bytes { count ≤ length bytes.now }
    requires room { count ≤ length buffer.old }
    ensures { take count buffer.new ≡ take count bytes.now }
{
    if count == 0 {
        return;
    }
    if count <= 2 {
        copy_ends::<1>(count, bytes, buffer);
    } else if count <= 4 {
        copy_ends::<2>(count, bytes, buffer);
    } else {
        copy_ends::<4>(count, bytes, buffer);
    }
}

// Copies a given number of bytes by two moves, of their first and of their last bytes, each of at
// least half of them.
#[inline(always)]
fn copy_ends<const N: usize>(count: usize, bytes: &[u8], buffer: &mut [u8])
    requires part { N ≤ count }
    requires twice { count ≤ 2 * N }
    requires bytes { count ≤ length bytes.now }
    requires room { count ≤ length buffer.old }
    ensures { take count buffer.new ≡ take count bytes.now }
{
    let cut = count - N;
    move_front::<N>(bytes, buffer);
    move_front::<N>(&bytes[cut..], &mut buffer[cut..]);
}

// Moves the first bytes as one vector.
// Speed: a copy from slice to slice would first test whether they overlap.
#[inline(always)]
pub(crate) fn move_front<const N: usize>(bytes: &[u8], buffer: &mut [u8])
    requires bytes { N ≤ length bytes.now }
    requires room { N ≤ length buffer.old }
    ensures { take N buffer.new ≡ take N bytes.now }
{
    Simd::<u8, N>::from_slice(bytes).copy_to_slice(buffer);
}

// Copies any number of bytes.
// Speed: it is a call, so the loops around it keep their registers.
#[inline(never)]
pub(crate) fn copy_front(count: usize, bytes: &[u8], buffer: &mut [u8])
    requires bytes { count ≤ length bytes.now }
    requires room { count ≤ length buffer.old }
    ensures { take count buffer.new ≡ take count bytes.now }
{
    if count == 0 {
        return;
    }
    buffer[..count].copy_from_slice(&bytes[..count]);
}

#[inline(always)]
pub(crate) fn clear_front(count: usize, buffer: &mut [u8])
    requires { count ≤ length buffer.old }
    ensures { take count buffer.new ≡ replicate count 0 }
{
    buffer[..count].fill(0);
}
