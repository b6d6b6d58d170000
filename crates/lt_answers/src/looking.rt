//! Looking up one of the lines of a reader.
ghost use Rattle.std.specs.Prelude.{◌≡◌, []};
ghost use Rattle.std.specs.Option.{option_map};
ghost use Rattle.lt_answers.specs.Closest as spec;
ghost use Rattle.lt_answers.specs.Closest.{Holds};
ghost use Rattle.lt_answers.specs.LookedUp.{LooksUp};
ghost use Rattle.lt_answers.specs.Searching.{SearchesLines};
ghost use Rattle.lt_answers.specs.Selection.{longest_kept};

use crate::closest::{Closest, take_line};
use crate::selecting;
use lt_jar::Device;
use lt_range::{LanguageRange, MatchingTable};
use lt_registry::Lookup;
use lt_stream::{Lines, ToolFault, run_text};
use lt_tag::OutOfMemory;
use std::alloc::Global;
use std::io::Read;

/// What looks up lines.
#[derive(Drop)]
struct LookingUp<'a, L: Lookup> {
    table: &'a MatchingTable<L>,
    ranges: &'a [LanguageRange],
    /// The closest line so far, if a range finds any.
    closest: Option<Closest>,
}

impl<'a, L: Lookup> Lines for LookingUp<'a, L> {
    ghost longest = { longest_kept };

    /// The table and the ranges are those of the beginning, nothing is written, and `closest` is the closest of the
    /// lines.
    ghost answered = { λ first here lines bytes. (here.table.now ≡ first.table.now) × (here.ranges.now ≡ first.ranges.now)
        × (bytes ≡ []) × Holds (L.listed here.table.now) here.ranges.now lines here.closest };

    /// As many bytes of a line as tell which tag it is, or that it is too long to be one.
    fn longest(&self) -> usize {
        selecting::LONGEST_KEPT
    }

    /// Takes the line if it is closer than what is found so far. Nothing is written for a line.
    fn take_line(
        &mut self,
        alloc: Global,
        line: &[u8],
        _owed: &mut Vec<u8>,
    ) -> Result<(), OutOfMemory> {
        take_line(alloc, self.table, self.ranges, line, &mut self.closest)
    }
}

impl<'a, L: Lookup> LookingUp<'a, L> {
    /// The line that was found, or None if none was. `self.entry` is `self` as it came in.
    fn into_line(self) -> Option<Vec<u8>>
        ensures { result ≡ option_map (λ closest. closest.line) self.entry.closest }
    {
        let LookingUp {
            table: _,
            ranges: _,
            closest,
        } = self;
        match closest {
            Some(found) => Some(found.line),
            None => None,
        }
    }
}

/// How a run ends if what it writes is kept in memory: a write fails then only if memory runs out, so `Write` becomes
/// `OutOfMemory`.
pub(crate) fn in_memory(end: Result<(), ToolFault>) -> Result<(), ToolFault>
    ensures { result ≡ spec.in_memory end }
{
    match end {
        Err(ToolFault::Write) => Err(ToolFault::OutOfMemory),
        other => other,
    }
}

/// The line of a reader that lookup finds by a language priority list (RFC 4647, 3.4), as it stands. Only the first
/// range that finds a line counts. Of the lines that it finds, the answer is the one to which the range is cut the
/// least, and of equal ones the first. None if no range finds a line: the caller takes a default then.
///
/// A line is looked up as the tag that it is, by the subtags of its extlang form (RFC 5646, 4.5): the range of `yue-HK` finds
/// `zh-yue`, and then `zh`. No range finds a line that is no valid tag, or a tag that has no extlang form. A range that begins
/// with `*` finds no line.
///
/// A byte order mark of UTF-8 before the first line is passed over. A line feed ends a line, and bytes after the last line
/// feed are a line too. A carriage return that ends a line is no part of the tag, and stays with the line. No more than the
/// closest line so far and 1,026 bytes of the unfinished line are kept.
///
/// - `Utf16`, if the bytes begin with a byte order mark of UTF-16.
/// - `Read`, if a read fails.
/// - `TooManyTurns`, if all 10,000,000 reads were made and the last gave bytes.
/// - `OutOfMemory`, if memory runs out.
pub fn look_up_line<L: Lookup, R: Read>(
    alloc: Global,
    table: &MatchingTable<L>,
    ranges: &[LanguageRange],
    input: &mut Device<R>,
) -> Result<Option<Vec<u8>>, ToolFault>
    ensures { SearchesLines (LooksUp (L.listed table.now) ranges.now) R.remaining input.old input.new result }
{
    let looking = LookingUp {
        table,
        ranges,
        closest: None,
    };
    let mut none = Device::new(Vec::new(alloc));
    let (looking, end) = run_text(alloc, looking, input, &mut none);
    in_memory(end)?;
    Ok(looking.into_line())
}
