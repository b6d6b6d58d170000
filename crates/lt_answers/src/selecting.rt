//! Writing those lines of a reader that language ranges select.
ghost use Rattle.std.specs.Prelude.{◌≡◌};
ghost use Rattle.lt_answers.specs.Selecting.{SelectsLines};
ghost use Rattle.lt_answers.specs.Selection.{AreOwed, IsSelected, longest_kept};

use crate::matching::is_selected;
use lt_jar::Device;
use lt_range::{LanguageRange, MatchingTable, Scheme};
use lt_registry::Lookup;
use lt_stream::{Lines, ToolFault, run_text};
use lt_tag::OutOfMemory;
use std::alloc::Global;
use std::io::{Read, Write};

/// The most bytes that are kept of a line: 1,024 of the longest tag, one more by which a line is known to be too long,
/// and a carriage return.
pub(crate) const LONGEST_KEPT: usize = 1026;

/// What selects lines.
#[derive(Drop)]
struct Selecting<'a, L: Lookup> {
    table: &'a MatchingTable<L>,
    scheme: Scheme,
    ranges: &'a [LanguageRange],
    /// How many lines were selected so far.
    count: u64,
}

impl<'a, L: Lookup> Lines for Selecting<'a, L> {
    ghost longest = { longest_kept };

    /// The table, the scheme and the ranges are those of the beginning, and the bytes are the selected lines, `count`
    /// of them.
    ghost answered = { λ first here lines bytes. (here.table.now ≡ first.table.now) × (here.scheme ≡ first.scheme) × (here.ranges.now ≡ first.ranges.now)
        × AreOwed (IsSelected (L.listed here.table.now) here.scheme here.ranges.now) lines bytes here.count };

    /// As many bytes of a line as tell which tag it is; a longer line is too long to be one, and is not selected.
    fn longest(&self) -> usize {
        LONGEST_KEPT
    }

    /// Appends the line and a line feed if it is selected, and counts it.
    fn take_line(
        &mut self,
        alloc: Global,
        line: &[u8],
        owed: &mut Vec<u8>,
    ) -> Result<(), OutOfMemory> {
        if !is_selected(alloc, self.table, self.scheme, self.ranges, line)? {
            return Ok(());
        }
        owed.extend_from_slice(line)?;
        owed.push(b'\n')?;
        self.count += 1;
        Ok(())
    }
}

/// Writes the lines of a reader that one of the ranges matches by the scheme, in their order and as they stand, each
/// ended by a line feed, and tells how many there are. A line is matched as the tag that it is, by the subtags of its
/// extlang form (RFC 5646, 4.5; RFC 4647, 3.3): the ranges of `zh` and `yue` select `yue-HK`. No range matches a line
/// that is no valid tag, or a tag that has no extlang form.
///
/// A byte order mark of UTF-8 before the first line is passed over. A line feed ends a line, and bytes after the last
/// line feed are a line too. A carriage return that ends a line is no part of the tag, and is written with the line.
/// Before each read the selected ones of the lines that ended so far are written. Of an unfinished line no more than
/// 1,026 bytes are kept: 1,024 as the longest tag has, one more by which a line is known to be too long to be a tag,
/// and a carriage return.
///
/// - `Utf16`, if the bytes begin with a byte order mark of UTF-16: nothing has been written.
/// - `Read`, if a read fails: what is owed for each line whose line feed was read has been written.
/// - `TooManyTurns`, if all 10,000,000 reads were made and the last gave bytes: what is owed for these lines has been written.
/// - `Write`, if a write fails or takes none of some bytes, and `OutOfMemory`, if memory runs out: the first bytes of
///   what is owed have been written, perhaps none.
pub fn select_lines<L: Lookup, R: Read, W: Write>(
    alloc: Global,
    table: &MatchingTable<L>,
    scheme: Scheme,
    ranges: &[LanguageRange],
    input: &mut Device<R>,
    output: &mut Device<W>,
) -> Result<u64, ToolFault>
    ensures { SelectsLines (IsSelected (L.listed table.now) scheme ranges.now) R.remaining W.contents input.old input.new output.old output.new result }
{
    let selecting = Selecting {
        table,
        scheme,
        ranges,
        count: 0,
    };
    let (selecting, end) = run_text(alloc, selecting, input, output);
    end?;
    Ok(selecting.count)
}
