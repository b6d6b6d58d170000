//! The fields of rows of less than 64 bytes in which each separator parts fields.
ghost use Rattle.std.specs.Prelude.{◌<◌, ◌≤◌, MatchOption, length, take};
ghost use Rattle.lt_rows.specs.Plain.{IsPlain};
ghost use Rattle.lt_rows.specs.Rows.{HasFewer, IsFieldAt};

use crate::lanes::{bits_in, take_lowest};
use crate::rows::Separator;

/// Where the field of a row that comes after `before` others begins and ends. None if the row has no such field. The
/// row is the first `count` bytes of `text`, and each separator in it must part fields. `count` must be less than 64,
/// and the text must have at least 64 bytes, which are looked at together.
#[inline(always)]
pub(crate) fn short_field_at(
    separator: Separator,
    text: &[u8],
    count: usize,
    before: usize,
) -> Option<(usize, usize)>
    requires near { (count < 64) × (64 ≤ length text.now) }
    requires plain { IsPlain separator (take count text.now) }
    ensures { MatchOption result (HasFewer separator before (take count text.now)) (λ p. IsFieldAt separator before (take count text.now) p.0 p.1) }
{
    let mut bits = bits_in(separator.byte(), text, count);
    let mut start = 0;
    for _field in 0..before {
        match take_lowest(&mut bits) {
            Some(end) => start = end + 1,
            None => return None,
        }
    }
    match take_lowest(&mut bits) {
        Some(end) => Some((start, end)),
        None => Some((start, count)),
    }
}
