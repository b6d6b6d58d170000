//! Serving one of the lines of a reader by preferences.
ghost use Rattle.std.specs.Prelude.{◌≡◌, [], OnOk};
ghost use Rattle.std.specs.List.{slice_get};
ghost use Rattle.lt_answers.specs.Searching.{SearchesLines};
ghost use Rattle.lt_answers.specs.Selection.{longest_kept};
ghost use Rattle.lt_answers.specs.Served.{AreTagLines, PutsLine, ServesAmong, ServesOf, TakesTag, texts_of};

use crate::looking::in_memory;
use crate::matching::without_return;
use crate::selecting;
use lt_jar::Device;
use lt_range::{MatchingTable, Preference, TagSubtags, best, known_subtags};
use lt_registry::Lookup;
use lt_stream::{Lines, ToolFault, run_text};
use lt_tag::OutOfMemory;
use std::alloc::Global;
use std::io::Read;

/// What keeps the lines that are tags.
#[derive(Drop)]
struct Keeping<'a, L: Lookup> {
    table: &'a MatchingTable<L>,
    /// The lines that are tags.
    lines: Vec<Vec<u8>>,
    /// The subtags by which these lines are matched, in the same order.
    tags: Vec<TagSubtags>,
}

impl<'a, L: Lookup> Lines for Keeping<'a, L> {
    ghost longest = { longest_kept };

    /// The table is that of the beginning, nothing is written, and the lines that are tags are kept with their subtags.
    ghost answered = { λ first here lines bytes. (here.table.now ≡ first.table.now) × (bytes ≡ [])
        × AreTagLines (L.listed here.table.now) lines (texts_of here.lines.items) here.tags.items };

    /// As many bytes of a line as tell which tag it is, or that it is too long to be one.
    fn longest(&self) -> usize {
        selecting::LONGEST_KEPT
    }

    /// Keeps the line if it is a tag. Nothing is written for a line.
    fn take_line(
        &mut self,
        alloc: Global,
        line: &[u8],
        _owed: &mut Vec<u8>,
    ) -> Result<(), OutOfMemory> {
        take_tag(alloc, self.table, line, &mut self.lines, &mut self.tags)
    }
}

/// Appends a line to `lines`, and the subtags of its tag to `tags`. Refused where memory runs out.
fn put_line(
    alloc: Global,
    line: &[u8],
    subtags: TagSubtags,
    lines: &mut Vec<Vec<u8>>,
    tags: &mut Vec<TagSubtags>,
) -> Result<(), OutOfMemory>
    ensures { OnOk result (PutsLine line.now subtags lines.old.items lines.new.items tags.old.items tags.new.items) }
{
    lines.push(Vec::from_slice(alloc, line)?)?;
    tags.push(subtags)?;
    Ok(())
}

/// Appends a line to `lines`, and its subtags to `tags`, if it is a tag that has an extlang form (RFC 5646, 4.5). The
/// caller cuts a long line to `LONGEST_KEPT` bytes, since the bytes after them change nothing. The clause holds for any
/// lines before of which `lines` are those that are tags, and any line that is cut to `line`. Refused where memory runs
/// out.
fn take_tag<L: Lookup>(
    alloc: Global,
    table: &MatchingTable<L>,
    line: &[u8],
    lines: &mut Vec<Vec<u8>>,
    tags: &mut Vec<TagSubtags>,
) -> Result<(), OutOfMemory>
    ensures { OnOk result (TakesTag (L.listed table.now) line.now lines.old.items lines.new.items tags.old.items tags.new.items) }
{
    match known_subtags(alloc, table, without_return(line))? {
        Some(subtags) => put_line(alloc, line, subtags, lines, tags),
        None => Ok(()),
    }
}

/// The line at a place, counted from 0. None if the place is after the last line.
fn line_at(mut lines: Vec<Vec<u8>>, place: usize) -> Option<Vec<u8>>
    ensures { result ≡ slice_get lines.items place }
{
    if place < lines.len() {
        Some(lines.remove(place))
    } else {
        None
    }
}

/// The line that preferences serve of these lines, whose subtags are `tags`. None if the preferences serve none of
/// them. The clause holds for every registry and all lines of a reader of which `lines` are those that are tags.
fn served(preferences: &[Preference], lines: Vec<Vec<u8>>, tags: &[TagSubtags]) -> Option<Vec<u8>>
    ensures { ServesOf preferences.now lines.items tags.now result }
{
    let place = best(preferences, tags)?;
    line_at(lines, place)
}

/// The line of a reader that is to be served by preferences, such as those of an Accept-Language header (RFC 9110,
/// 12.5.4), as it stands. Of the lines that are tags, it is the one that [`best`] chooses. None if the preferences
/// serve no line: the caller takes a default then.
///
/// A line is matched as the tag that it is, in each of its spellings: `yue` is served `zh-yue`. No
/// line is served that is no valid tag, or a tag that has no extlang form.
///
/// A byte order mark of UTF-8 before the first line is passed over. A line feed ends a line, and bytes after the last line
/// feed are a line too. A carriage return that ends a line is no part of the tag, and stays with the line. The lines that are
/// tags are kept up to the end, so that memory grows with them. Of an unfinished line no more than 1,026 bytes are kept.
///
/// - `Utf16`, if the bytes begin with a byte order mark of UTF-16.
/// - `Read`, if a read fails.
/// - `TooManyTurns`, if all 10,000,000 reads were made and the last gave bytes.
/// - `OutOfMemory`, if memory runs out.
pub fn serve_line<L: Lookup, R: Read>(
    alloc: Global,
    table: &MatchingTable<L>,
    preferences: &[Preference],
    input: &mut Device<R>,
) -> Result<Option<Vec<u8>>, ToolFault>
    ensures { SearchesLines (ServesAmong (L.listed table.now) preferences.now) R.remaining input.old input.new result }
{
    let keeping = Keeping {
        table,
        lines: Vec::new(alloc),
        tags: Vec::new(alloc),
    };
    let mut none = Device::new(Vec::new(alloc));
    let (keeping, end) = run_text(alloc, keeping, input, &mut none);
    in_memory(end)?;
    let Keeping {
        table: _,
        lines,
        tags,
    } = keeping;
    Ok(served(preferences, lines, &tags))
}
