//! The line that lookup finds among those so far. A range falls back to a tag, and so finds it, if it becomes the tag
//! when subtags at its end are cut off (RFC 4647, 3.4): `zh-Hant-HK` falls back to `zh-Hant` and `zh`.
ghost use Rattle.std.specs.Prelude.{◌↔◌, IsTrue, MatchOption, OnOk, length};
ghost use Rattle.lt_answers.specs.Closest as spec;

use crate::matching::without_return;
use lt_range::{LanguageRange, MatchingTable, TagSubtags, known_subtags};
use lt_registry::Lookup;
use lt_tag::OutOfMemory;
use std::alloc::Global;

/// A line that a range finds.
#[derive(Drop)]
pub(crate) struct Closest {
    /// The place of the range, counted from 0.
    range: usize,
    /// How many subtags the tag of the line has, in its extlang form (RFC 5646, 4.5).
    count: usize,
    /// The line as it stands.
    pub(crate) line: Vec<u8>,
}

/// The index of the first range that falls back to a tag, and so finds it in lookup. None if no range falls back to it.
fn first_falling(ranges: &[LanguageRange], tag: &TagSubtags) -> Option<usize>
    ensures { MatchOption result (spec.NoneFalls ranges.now (length ranges.now) tag.now) (spec.FallsFirst ranges.now tag.now) }
{
    for (place, range) in ranges.iter().enumerate() {
        if range.falls_back_to(tag) {
            return Some(place);
        }
    }
    None
}

/// Whether a tag that lookup finds is closer than what is found so far: an earlier range finds it, or the same range finds it
/// and it has more subtags. `range` is the index of the range that finds the tag, and `count` is how many subtags it has.
fn is_closer(closest: &Option<Closest>, range: usize, count: usize) -> bool
    ensures { IsTrue result ↔ spec.IsCloser closest.now range count }
{
    match closest {
        Some(other) => { range < other.range || (range == other.range && other.count < count) }
        None => true,
    }
}

/// Makes `line` the closest one, if its tag, whose subtags are `tag`, is closer than what is found so far. Since the
/// lines before it are not kept, the clause holds for any lines of which `closest` is the closest: afterwards it is the
/// closest of them and `line`. Refused where memory runs out.
fn take_subtags(
    alloc: Global,
    ranges: &[LanguageRange],
    tag: &TagSubtags,
    line: &[u8],
    closest: &mut Option<Closest>,
) -> Result<(), OutOfMemory>
    ensures { OnOk result (spec.TakesSubtags ranges.now tag.now line.now closest.old closest.new) }
{
    let Some(range) = first_falling(ranges, tag) else {
        return Ok(());
    };
    let count = tag.subtags().len();
    if is_closer(closest, range, count) {
        let line = Vec::from_slice(alloc, line)?;
        *closest = Some(Closest { range, count, line });
    }
    Ok(())
}

/// Makes a line the closest one if it is a tag that a range finds, and that range comes before the
/// range that found the closest line so far, or is the same and this tag has more subtags. The caller cuts a long line
/// to `LONGEST_KEPT` bytes, since the bytes after them change nothing. The clause holds for any lines before, which are
/// not kept, and any line that is cut to `line`. Refused where memory runs out.
pub(crate) fn take_line<L: Lookup>(
    alloc: Global,
    table: &MatchingTable<L>,
    ranges: &[LanguageRange],
    line: &[u8],
    closest: &mut Option<Closest>,
) -> Result<(), OutOfMemory>
    ensures { OnOk result (spec.TakesLine (L.listed table.now) ranges.now line.now closest.old closest.new) }
{
    match known_subtags(alloc, table, without_return(line))? {
        Some(subtags) => take_subtags(alloc, ranges, &subtags, line, closest),
        None => Ok(()),
    }
}
