//! Runs over the lines of a reader.
ghost use Rattle.std.specs.Prelude.{◌≡◌, ◌<◌, ◌+◌, ◌^◌};
ghost use Rattle.lt_lines.specs.Answering.{one_if};
ghost use Rattle.lt_lines.specs.Reading as spec;
ghost use Rattle.lt_lines.specs.Owed.{ground_of, terms};
ghost use Rattle.lt_lines.specs.Running.{RunsLines};
ghost use Rattle.lt_lines.specs.TagLines.{RunsTags};

use crate::bases::Basis;
use crate::forms::LineForm;
use crate::marked::Marked;
use lt_canon::Checked;
use lt_jar::Device;
use lt_registry::Lookup;
use lt_stream::{Pieces, Tallies, ToolFault, run_pieces};
use std::alloc::Global;
use std::io::{Read, Write};
use std::mem;

/// How many lines a run answered, and how many of them it refused.
#[derive(Clone, Copy, Debug, PartialEq, Eq)]
pub struct Counts {
    /// The lines that were answered.
    pub lines: u64,
    /// How many of these were refused: for their tag, or with `NoColumn` or `BadReturn`.
    pub refused: u64,
}

impl Counts {
    /// Counts a line, and whether it was refused. Both counts must have room for one more.
    pub(crate) fn count(&mut self, refused: bool)
        requires { (self.old.lines + 1 < 2 ^ 64) × (self.old.refused + 1 < 2 ^ 64) }
        ensures lines { self.new.lines ≡ self.old.lines + 1 }
        ensures refused { self.new.refused ≡ self.old.refused + one_if refused }
    {
        self.lines += 1;
        if refused {
            self.refused += 1;
        }
    }
}

/// A text that is read, and by what its lines are answered.
#[derive(Drop)]
struct Reading<'a, L: Lookup> {
    basis: &'a Basis<'a, L>,
    form: LineForm,
    text: Marked,
}

impl<'a, L: Lookup, W: Write> Pieces<Device<W>> for Reading<'a, L> {
    type Answer = Counts;

    /// Between two pieces the basis and the form are those of the beginning, and the answers to all whole lines so far
    /// are written.
    ghost taken = { λ first start now read here. (terms (ground_of L.listed here.basis.now) here.form ≡ terms (ground_of L.listed first.basis.now) first.form)
        × spec.IsReading (terms (ground_of L.listed first.basis.now) first.form) W.contents start now read here.text };

    /// A piece ends the run only by a fault.
    ghost stopped = { λ first start now read here result. spec.StopsReading (terms (ground_of L.listed first.basis.now) first.form) W.contents start now read here.text.answering.tallies result };

    /// At the end all that is owed is written and counted, or a fault ended the run.
    ghost finished = { λ first start now read here result. spec.EndsReading (terms (ground_of L.listed first.basis.now) first.form) W.contents start now read here.text.answering.tallies result };

    /// Answers the lines that the piece ends, and writes the answers. Refused with `Utf16` at a byte order mark of
    /// UTF-16, with `BadTsv` or `BadCsv` at a row or a record that is too long, and where memory runs out or a write
    /// fails. Else it gives None, since only a refusal ends the run here.
    fn take_piece(
        &mut self,
        alloc: Global,
        piece: &[u8],
        output: &mut Device<W>,
    ) -> Result<Option<Counts>, ToolFault> {
        self.text
            .take_piece(alloc, self.basis, self.form, piece, output)?;
        Ok(None)
    }

    /// Answers a last line without a line feed, if there is one, writes the answers that wait, and gives the counts of
    /// lines. Refused with `BadCsv` if the text ends within quotes, and where memory runs out or a write fails.
    fn finish(&mut self, alloc: Global, output: &mut Device<W>) -> Result<Counts, ToolFault> {
        self.text.finish(alloc, self.basis, self.form, output)
    }
}

/// Answers each line of a reader by one line, in order, each ended by a line feed, as its form says. A tag is answered by its
/// canonical text; or by `! `, the name of the fault and its place; or by `! ReplacementRepeats ` and the variant in
/// lower case. If the basis has a code that is the first subtag of a text, the text is read with the registered subtag
/// in its place; a text that is refused is shown as it was given, in its row and in the tallies.
///
/// A line feed ends a line, in CSV only outside of quotes. What follows the last line feed is a line too, unless it is empty.
/// Before each read the answers to all lines that ended so far are written. A row or a record is kept whole until it is
/// answered. A byte order mark of UTF-8 before rows or records is written as it is, and is no part of the first.
/// `tallies` is replaced by the tallies of this run: how many of the lines that it answered were refused, by fault.
/// After `Write` and `OutOfMemory` they say nothing.
///
/// - `BadCsv`, if the reader's bytes end within the quotes of a record, or a record is longer than 16,777,216 bytes: the
///   records before it have been answered.
/// - `BadTsv`, if a row is longer than that: the rows before it have been answered.
/// - `Utf16`, if rows or records begin with a byte order mark of UTF-16: nothing has been written. Before tags no mark is
///   looked for, and each line is answered as it is.
/// - `Read`, if a read fails: what is owed for each line whose line feed was read has been written.
/// - `TooManyTurns`, if all 10,000,000 reads were made and the last gave bytes: as much has been written as after `Read`.
/// - `Write`, if a write fails or takes none of some bytes, and `OutOfMemory`, if memory runs out: the first bytes of
///   what is owed have been written, perhaps none.
pub fn run_tallied<L: Lookup, R: Read, W: Write>(
    alloc: Global,
    basis: &Basis<'_, L>,
    form: LineForm,
    input: &mut Device<R>,
    output: &mut Device<W>,
    tallies: &mut Tallies,
) -> Result<Counts, ToolFault>
    ensures { RunsLines (terms (ground_of L.listed basis.now) form) R.remaining W.contents input.old input.new output.old output.new tallies.new result }
{
    let mut reading = Reading {
        basis,
        form,
        text: Marked::new(alloc, form),
    };
    let end = run_pieces(alloc, &mut reading, input, output);
    mem::swap(tallies, &mut reading.text.answering.tallies);
    end
}

/// Takes each line of a reader as a tag, and answers it, in order, by one line with a line feed: its canonical text; or
/// `! `, the name of the fault and its place; or `! ReplacementRepeats ` and the variant in lower case. It is
/// [`run_tallied`] for tags, without a table of codes and without tallies.
///
/// - `Read`, if a read fails: what is owed for each line whose line feed was read has been written.
/// - `TooManyTurns`, if all 10,000,000 reads were made and the last gave bytes: as much has been written as after `Read`.
/// - `Write`, if a write fails or takes none of some bytes, and `OutOfMemory`, if memory runs out: the first bytes of
///   what is owed have been written, perhaps none.
pub fn run_lines<L: Lookup, R: Read, W: Write>(
    alloc: Global,
    checked: &Checked<L>,
    input: &mut Device<R>,
    output: &mut Device<W>,
) -> Result<Counts, ToolFault>
    ensures { RunsTags (L.listed checked.now) R.remaining W.contents input.old input.new output.old output.new result }
{
    let basis = Basis {
        checked,
        codes: None,
    };
    let mut tallies = Tallies::new(alloc);
    run_tallied(alloc, &basis, LineForm::Tag, input, output, &mut tallies)
}
