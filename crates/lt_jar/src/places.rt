//! Where a byte is first in a text.
ghost use Rattle.std.specs.Prelude.{◌≡◌, ◌≤◌, length, not, take};
ghost use Rattle.std.specs.List.{prefix_len};
ghost use Rattle.memchr.specs.Find.{IsFirstByte, is_byte};

use memchr::memchr_iter;
use std::simd::prelude::*;

/// How many bytes of a text are looked at together: a vector of 256 bits.
pub const TOGETHER: usize = 32;

/// How many of the first 32 bytes of a text come before the first that is `byte`, or 32 if none of them is. The text
/// must have at least 32.
#[inline(always)]
fn count_before(byte: u8, text: &[u8]) -> usize
    requires { 32 ≤ length text.now }
    ensures { result ≡ prefix_len (λ other. not (is_byte byte other)) (take 32 text.now) }
{
    let bits = u8x32::from_slice(text)
        .simd_eq(u8x32::splat(byte))
        .to_bitmask();
    if bits == 0 {
        TOGETHER
    } else {
        bits.trailing_zeros() as usize
    }
}

/// Where a byte is first in a text, counted from 0: the hyphen of `a-b-c` is at 1. None if the text doesn't have it.
/// It is likely to be near, so the first 32 bytes are looked at together.
#[inline(always)]
pub fn first_place(byte: u8, text: &[u8]) -> Option<usize>
    ensures { IsFirstByte (is_byte byte) text.now result }
{
    if TOGETHER <= text.len() {
        let count = count_before(byte, text);
        if count < TOGETHER {
            return Some(count);
        }
    }
    memchr_iter(byte, text).next()
}
