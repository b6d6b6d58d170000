//! The fields of rows in which each separator parts fields.
ghost use Rattle.std.specs.Prelude.{◌≡◌, ◌<◌, ◌≤◌, ◌+◌, ◌-◌, ℕ, List, IfSome, MatchOption, length, take};
ghost use Rattle.memchr.specs.Find.{is_byte, places_from};
ghost use Rattle.lt_rows.specs.Plain.{IsNextPlace, IsPlain};
ghost use Rattle.lt_rows.specs.Rows.{HasFewer, IsFieldAt};
ghost use Rattle.lt_rows.specs.Splitting.{IsNear};

use crate::lanes::LANES;
use crate::rows::Separator;
use crate::short_rows::short_field_at;
use lt_jar::TOGETHER;
use memchr::{Memchr, memchr_iter};

/// The first `count` bytes of a text, which must have so many, and up to 32 bytes after them. So a search that looks
/// at 32 bytes together can do so up to the last of the `count`.
#[inline(always)]
fn with_more(text: &[u8], count: usize) -> &[u8]
    requires { count ≤ length text.now }
    ensures { IsNear count text.now result.now }
{
    &text[..text.len().min(count.saturating_add(TOGETHER))]
}

/// The next of the places of a byte. None if no place is left, or the next one is not below `count`. `places` doesn't
/// tell of which byte and text it has the places, so `next` and `rest` hold for every byte and every text `near` whose
/// places from `start` on they may be: the answer is the next place among the first `count` bytes (`next`), and the
/// places that are left are those behind it (`rest`).
#[inline(always)]
fn next_within(places: &mut Memchr<'_>, count: usize) -> Option<usize>
    ensures within { IfSome result (λ end. end < count) }
    ensures next { (byte start : ℕ) (text near : List ℕ) → IsNear count text near → start ≤ count → places.old ≡ places_from (is_byte byte) near start (length near - start)
        → IsNextPlace byte start (take count text) result }
    ensures rest { (byte start : ℕ) (near : List ℕ) → places.old ≡ places_from (is_byte byte) near start (length near - start)
        → MatchOption result (Unit {0}) (λ end. places.new ≡ places_from (is_byte byte) near (end + 1) (length near - (end + 1))) }
{
    match places.next() {
        Some(end) => { if end < count { Some(end) } else { None } }
        None => None,
    }
}

/// Where the field of a row that comes after `before` others begins and ends. None if the row has no such field. The
/// row is the first `count` bytes of `text`, and each separator in it must part fields. A row of less than 64 bytes is
/// looked at in one step, if the text has 64.
#[inline(always)]
pub(crate) fn plain_field_at(
    separator: Separator,
    text: &[u8],
    count: usize,
    before: usize,
) -> Option<(usize, usize)>
    requires count { count ≤ length text.now }
    requires plain { IsPlain separator (take count text.now) }
    ensures { MatchOption result (HasFewer separator before (take count text.now)) (λ p. IsFieldAt separator before (take count text.now) p.0 p.1) }
{
    if count < LANES && LANES <= text.len() {
        return short_field_at(separator, text, count, before);
    }
    let near = with_more(text, count);
    let mut places = memchr_iter(separator.byte(), near);
    let mut start = 0;
    for _field in 0..before {
        match next_within(&mut places, count) {
            Some(end) => start = end + 1,
            None => return None,
        }
    }
    match next_within(&mut places, count) {
        Some(end) => Some((start, end)),
        None => Some((start, count)),
    }
}
