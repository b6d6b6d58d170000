//! Splitting bytes at a byte.
ghost use Rattle.std.specs.Prelude.{◌≤◌, ◌↔◌, IsTrue, length, take};
ghost use Rattle.lt_rows.specs.Splitting.{IsFreeOf, IsNear, IsPlaceOf, SplitsAt};

use lt_jar::{TOGETHER, first_place};
use memchr::memchr2;

/// What is before the first place of a byte in a text, and what is after it: `a-b-c` is split into `a` and `b-c` at a
/// hyphen. None if the text doesn't have the byte.
#[tactic(auto, using(crate::proofs::SplitLemmas::free_front, crate::proofs::SplitLemmas::free_whole, crate::proofs::SplitLemmas::split_at))]
#[inline(always)]
pub fn split_first(byte: u8, bytes: &[u8]) -> Option<(&[u8], &[u8])>
    ensures { SplitsAt byte bytes.now result }
{
    match first_place(byte, bytes) {
        Some(index) => Some((&bytes[..index], &bytes[index + 1..])),
        None => None,
    }
}

/// The first `count` bytes of a text, which must have so many. If they are fewer than 32, it is the first 32, or the
/// whole of a shorter text: a search looks at 32 bytes together.
#[inline(always)]
fn near(text: &[u8], count: usize) -> &[u8]
    requires { count ≤ length text.now }
    ensures { IsNear count text.now result.now }
{
    &text[..text.len().min(count.max(TOGETHER))]
}

/// Where a byte is first among the first `count` bytes of a text, which must have so many. None if it is not among
/// them.
#[tactic(auto, using(crate::proofs::NearLemmas::none_near, crate::proofs::NearLemmas::none_before, crate::proofs::NearLemmas::place_near))]
#[inline(always)]
pub(crate) fn place_within(byte: u8, text: &[u8], count: usize) -> Option<usize>
    requires { count ≤ length text.now }
    ensures { IsPlaceOf byte (take count text.now) result }
{
    match first_place(byte, near(text, count)) {
        Some(index) => { if index < count { Some(index) } else { None } }
        None => None,
    }
}

/// Whether neither byte is among the first `count` bytes of a text, which must have so many.
#[tactic(auto, using(crate::proofs::NearLemmas::neither_near, crate::proofs::NearLemmas::neither_before, crate::proofs::NearLemmas::either_near))]
#[inline(always)]
pub(crate) fn is_free_of_both(one: u8, other: u8, text: &[u8], count: usize) -> bool
    requires { count ≤ length text.now }
    ensures { IsTrue result ↔ (IsFreeOf one (take count text.now) × IsFreeOf other (take count text.now)) }
{
    match memchr2(one, other, near(text, count)) {
        Some(index) => count <= index,
        None => true,
    }
}
