//! Runs over the lines of a reader. The first bytes of a line, its front, are kept until its line feed comes, and the
//! answers that wait to be written are owed.
ghost use Rattle.std.specs.Prelude.{◌≡◌, ◌<◌, ◌≤◌, List, ℕ, [], IfOk, OnOk, vec_len};
ghost use Rattle.lt_stream.specs.Lines.{HasLine, RunsOverLines, TakesLine};
ghost use Rattle.lt_stream.specs.Lined as spec;

use crate::device_output::write_text;
use crate::faults::ToolFault;
use crate::pieces::{Pieces, run_pieces};
use lt_jar::Device;
use lt_rows::split_first;
use lt_tag::OutOfMemory;
use std::alloc::{AllocError, Global};
use std::io::{Read, Write};

/// Answers wait to be written until they are this many bytes, as many as a read may give, or until the next read.
const FULL: usize = 65536;

/// What answers lines, one by one.
pub trait Lines {
    /// The most bytes that are kept of a line.
    ghost longest: { ℕ };

    /// What is true of `self` at the beginning and `self` now, once it has answered these lines with these bytes.
    ghost answered: { Self → Self → List (List ℕ) → List ℕ → Type 0 };

    /// The most bytes that are kept of a line: its answer is the same whatever follows them.
    fn longest(&self) -> usize
        ensures { result ≡ longest };

    /// Answers a line, of which `line` is the front that is kept: its first bytes, at most `longest`. The answer is
    /// appended to `owed`, where answers wait to be written. The clause holds for each line with this front, whatever
    /// was answered before. The lines answered must be so few that 64 bits count them with this one. Refused where
    /// memory runs out.
    fn take_line(
        &mut self,
        alloc: Global,
        line: &[u8],
        owed: &mut Vec<u8>,
    ) -> Result<(), OutOfMemory>
        requires { HasLine answered self.old }
        ensures { OnOk result (TakesLine answered longest line.now owed.old.items owed.new.items self.old self.new) };
}

/// Lines that come in pieces, and the answers to them that wait to be written.
#[derive(Drop)]
pub(crate) struct Lined<A> {
    answers: A,
    /// The front of the last line, which no line feed ended so far: its first bytes, as many as the answers need.
    kept: Vec<u8>,
    /// Answers that are not yet written.
    owed: Vec<u8>,
}

impl<A: Lines> Lined<A> {
    /// The state before any line is read: nothing is kept or owed.
    pub(crate) fn new(alloc: Global, answers: A) -> Lined<A>
        ensures answers { result.answers ≡ answers }
        ensures kept { result.kept.items ≡ [] }
        ensures owed { result.owed.items ≡ [] }
    {
        Lined {
            answers,
            kept: Vec::new(alloc),
            owed: Vec::new(alloc),
        }
    }

    /// Appends a further part of the line to the front that is kept, which grows to at most `longest` bytes. Refused
    /// where memory runs out.
    fn keep(&mut self, part: &[u8]) -> Result<(), AllocError>
        ensures { OnOk result (spec.KeepsMore A.longest part.now self.old self.new) }
    {
        let room = self.answers.longest().saturating_sub(self.kept.len());
        self.kept.extend_from_slice(&part[..part.len().min(room)])?;
        Ok(())
    }

    /// Answers the line whose front is kept. Nothing of it is kept then, and the answer waits to be written. The
    /// lines answered must be so few that 64 bits count them with this one. Refused where memory runs out.
    fn end_line(&mut self, alloc: Global) -> Result<(), OutOfMemory>
        requires { HasLine A.answered self.old.answers }
        ensures { OnOk result (spec.EndsLine A.answered A.longest self.old self.new) }
    {
        self.answers.take_line(alloc, &self.kept, &mut self.owed)?;
        self.kept.clear();
        Ok(())
    }

    /// Writes the answers that wait, so that none waits then (`emptied`). Refused if a write fails: then the first
    /// bytes of what waited were written, perhaps none (`writes`).
    fn write<W: Write>(&mut self, output: &mut Device<W>) -> Result<(), ToolFault>
        ensures writes { spec.WritesOwed W.contents self.old self.new output.old output.new result }
        ensures emptied { OnOk result (self.new.owed.items ≡ []) }
    {
        write_text(&self.owed, output)?;
        self.owed.clear();
        Ok(())
    }

    /// Writes the answers that wait if they are `FULL` bytes or more, and else nothing. Refused as `write` is.
    fn write_much<W: Write>(&mut self, output: &mut Device<W>) -> Result<(), ToolFault>
        ensures writes { spec.WritesOwed W.contents self.old self.new output.old output.new result }
        ensures emptied { OnOk result (spec.full ≤ vec_len self.old.owed → self.new.owed.items ≡ []) }
    {
        if self.owed.len() < FULL {
            return Ok(());
        }
        self.write(output)
    }

    /// Answers a last line that has no line feed, if there is one. The lines answered must be so few that 64 bits
    /// count them with this one. Refused where memory runs out.
    fn end_last(&mut self, alloc: Global) -> Result<(), OutOfMemory>
        requires { HasLine A.answered self.old.answers }
        ensures { OnOk result (spec.EndsLast A.answered A.longest self.old self.new) }
    {
        if self.kept.is_empty() {
            return Ok(());
        }
        self.end_line(alloc)
    }

    /// What has answered the lines, given back at the end.
    pub(crate) fn into_answers(self) -> A
        ensures { result ≡ self.answers }
    {
        let Lined {
            answers,
            kept: _,
            owed: _,
        } = self;
        answers
    }
}

impl<A: Lines, W: Write> Pieces<Device<W>> for Lined<A> {
    type Answer = ();

    /// Between two pieces the whole lines so far are answered, and all answers written.
    ghost taken = { λ first. spec.IsTaken (A.answered first.answers) A.longest W.contents };

    /// A piece ends the run only by a fault, with a front of the answers written.
    ghost stopped = { λ first start now read _ result. spec.Stops (A.answered first.answers) W.contents start now read result };

    /// At the end all lines are answered and all answers written, or a fault ended the run as above.
    ghost finished = { λ first. spec.Finishes (A.answered first.answers) W.contents };

    /// Answers the lines that the piece ends, and writes the answers. It gives None, or the fault that ends the run: a
    /// failed write, or lack of memory.
    fn take_piece(
        &mut self,
        alloc: Global,
        piece: &[u8],
        output: &mut Device<W>,
    ) -> Result<Option<()>, ToolFault> {
        let mut rest = piece;
        while let Some((line, after)) = split_first(b'\n', rest) {
            self.keep(line)?;
            self.end_line(alloc)?;
            self.write_much(output)?;
            rest = after;
        }
        self.keep(rest)?;
        self.write(output)?;
        Ok(None)
    }

    /// Answers a last line that has no line feed, and writes the answers. Refused if a write fails, or where memory
    /// runs out.
    fn finish(&mut self, alloc: Global, output: &mut Device<W>) -> Result<(), ToolFault> {
        self.end_last(alloc)?;
        self.write(output)?;
        Ok(())
    }
}

/// Answers the lines of a reader, in their order, and gives back what answered them. `answers` must have answered
/// nothing before (`first`), and must keep at least one byte of a line (`some`): by that byte the run knows at the end
/// that there is a last line without a line feed.
///
/// A line feed ends a line, and the bytes after the last line feed are a line too, if there are any. Before each read
/// the answers to all lines that ended so far are written. Of a line that goes on, at most `longest` bytes are kept.
///
/// - `Read`, if a read fails: the answer to each line whose line feed was read has been written.
/// - `TooManyTurns`, if all 10,000,000 reads were made and the last gave bytes: the same answers have been written.
/// - `Write`, if a write fails or takes none of some bytes, and `OutOfMemory`, if memory runs out: the first bytes of
///   the answers have been written, perhaps none.
pub fn run_lines<A: Lines + Drop, R: Read, W: Write>(
    alloc: Global,
    answers: A,
    input: &mut Device<R>,
    output: &mut Device<W>,
) -> (A, Result<(), ToolFault>)
    requires first { A.answered answers answers [] [] }
    requires some { 0 < A.longest }
    ensures { RunsOverLines (A.answered answers) R.remaining W.contents input.old input.new output.old output.new result.0 result.1 }
{
    let mut lined = Lined::new(alloc, answers);
    let end = run_pieces(alloc, &mut lined, input, output);
    (lined.into_answers(), end)
}
