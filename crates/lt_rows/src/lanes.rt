//! Finding and counting a byte in a text of which 64 bytes are looked at together.
ghost use Rattle.std.specs.Prelude.{◌≡◌, ◌<◌, ◌≤◌, ◌+◌, ◌==◌, ◌↔◌, ℕ, List, IfSome, MatchOption, count_by, length, slice_index, take};
ghost use Rattle.std.specs.Int.{bit_at};
ghost use Rattle.lt_rows.specs.Lanes.{AreBitsFrom};
ghost use Rattle.lt_rows.specs.Plain.{IsNextPlace};
ghost use Rattle.lt_rows.specs.Splitting.{IsFreeOf};

use std::simd::prelude::*;

/// How many bytes are looked at together: a vector of 512 bits. A `u64` has one bit for each of these bytes.
pub(crate) const LANES: usize = 64;

/// Where a byte is among the first 64 of a text: bit k is set where it is at place k. The text must have at least 64
/// bytes.
#[inline(always)]
fn bits_of(byte: u8, text: &[u8]) -> u64
    requires { 64 ≤ length text.now }
    ensures { (k : ℕ) → k < 64 → (bit_at result k ≡ 1) ↔ (slice_index text.now k ≡ byte) }
{
    u8x64::from_slice(text)
        .simd_eq(u8x64::splat(byte))
        .to_bitmask()
}

/// How many of the first 64 bytes of a text are equal to `byte`. The text must have at least 64 bytes.
#[inline(always)]
fn count_in_lanes(byte: u8, text: &[u8]) -> usize
    requires { 64 ≤ length text.now }
    ensures { result ≡ count_by (λ other. other == byte) (take 64 text.now) }
{
    u8x64::from_slice(text)
        .simd_eq(u8x64::splat(byte))
        .to_bitmask()
        .count_ones() as usize
}

/// The lowest `count` of the bits, with the others cleared. `count` must be less than 64, by which a `u64` can be
/// shifted.
#[inline(always)]
fn bits_below(bits: u64, count: usize) -> u64
    requires { count < 64 }
    ensures { (k : ℕ) → (bit_at result k ≡ 1) ↔ ((k < count) × (bit_at bits k ≡ 1)) }
{
    bits & ((1 << count) - 1)
}

/// Where a byte is in a row, from its place 0 on: bit k is set where it is at place k. The row is the first `count`
/// bytes of `text`. `count` must be less than 64, and the text must have at least 64 bytes.
#[inline(always)]
pub(crate) fn bits_in(byte: u8, text: &[u8], count: usize) -> u64
    requires { (count < 64) × (64 ≤ length text.now) }
    ensures { AreBitsFrom byte 0 (take count text.now) result }
{
    bits_below(bits_of(byte, text), count)
}

/// Clears the lowest bit that is set and gives its place, for example 3 of the bits 3 and 7. None if no bit is set. The
/// bits don't tell of which byte and row they are, so the clauses hold for every byte and row whose places from `start`
/// on they may be: the answer is the next place of the byte (`next`), it is inside of the row (`inside`), and the bits
/// that are left are the places behind it (`rest`).
#[inline(always)]
pub(crate) fn take_lowest(bits: &mut u64) -> Option<usize>
    ensures next { (byte start : ℕ) (row : List ℕ) → AreBitsFrom byte start row bits.old → IsNextPlace byte start row result }
    ensures inside { (byte start : ℕ) (row : List ℕ) → AreBitsFrom byte start row bits.old → IfSome result (λ end. end < length row) }
    ensures rest { (byte start : ℕ) (row : List ℕ) → AreBitsFrom byte start row bits.old → MatchOption result (Unit {0}) (λ end. AreBitsFrom byte (end + 1) row bits.new) }
{
    let all = *bits;
    if all == 0 {
        return None;
    }
    let lowest = all.trailing_zeros() as usize;
    *bits = all & !(1 << lowest);
    Some(lowest)
}

/// A number of bytes at the front of a text of which none is `one` or `other`. The text is looked at in blocks of 64,
/// up to the first block that has one of the two; a last block of fewer than 64 is not looked at.
pub(crate) fn free_front(one: u8, other: u8, text: &[u8]) -> usize
    ensures inside { result ≤ length text.now }
    ensures free { IsFreeOf one (take result text.now) × IsFreeOf other (take result text.now) }
{
    let mut at = 0;
    while LANES <= text.len() - at {
        let rest = &text[at..];
        if bits_of(one, rest) | bits_of(other, rest) != 0 {
            return at;
        }
        at += LANES;
    }
    at
}

/// How many bytes of a text are equal to `byte`, counted one by one.
fn count_each(byte: u8, text: &[u8]) -> usize
    ensures { result ≡ count_by (λ other. other == byte) text.now }
{
    text.iter().filter(|other| **other == byte).count()
}

/// How many bytes of a text are equal to `byte`: 2 of `a-b-c` are hyphens. They are counted in blocks of 64.
pub fn count_of(byte: u8, text: &[u8]) -> usize
    ensures { result ≡ count_by (λ other. other == byte) text.now }
{
    let mut at = 0;
    let mut count = 0;
    while LANES <= text.len() - at {
        count += count_in_lanes(byte, &text[at..]);
        at += LANES;
    }
    count + count_each(byte, &text[at..])
}
