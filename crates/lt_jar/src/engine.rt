//! The engine that reads records from pieces of a text. A contract speaks of the fields of the record so far as
//! `fields_in` the engine, and of the bytes that are kept of a line as `partial`.
ghost use Rattle.std.specs.Prelude.{◌≤◌, vec_len};

use crate::drafts::{Draft, LONGEST_LINE, Progress};
use crate::faults::JarFaultKind;
use crate::jars::{JarField, Record};
use crate::lines::{split_line, split_text};
use std::alloc::Global;

/// What is read so far of a line and of a record.
#[derive(Drop)]
pub(crate) struct Engine {
    /// The bytes so far of the line that is being read: at most those of the longest line, 65,536.
    partial: Vec<u8>,
    /// The fields so far of the record that is being read.
    draft: Draft,
    /// How many records ended before it.
    ended: usize,
    /// The number of the line.
    line: u64,
    ghost short: { vec_len partial ≤ 65536 },
}

impl Engine {
    ghost use Rattle.std.specs.Prelude.{◌≡◌, ◌<◌, ◌+◌, ◌++◌, ◌^◌, [], length};
    ghost use Rattle.lt_jar.specs.Lines.{IsOneLine};
    ghost use Rattle.lt_jar.specs.Pieces.{EndsLine, FinishesOr, KeepsBytes, TakesPiece, fields_in};
    ghost use Rattle.lt_jar.specs.Reading as reading;
    ghost use Rattle.lt_jar.specs.Views.{IsTaken};

    /// Nothing read so far.
    pub(crate) fn new(alloc: Global) -> Engine
        ensures empty { (result.partial.items ≡ []) × (fields_in result ≡ []) }
        ensures start { (result.ended ≡ 0) × (result.line ≡ 1) }
    {
        Engine {
            partial: Vec::new(alloc),
            draft: Draft::new(alloc),
            ended: 0,
            line: 1,
        }
    }

    /// Takes the end of a line, and tells whether the line ends the record. `last` has those of its bytes, without the
    /// line feed, that come after the bytes kept from earlier pieces. The number of the next line must fit in 64 bits.
    /// Refused with what is wrong with the line, or where memory runs out. A line that is refused is not counted. The
    /// clause `counted` supposes that no line feed is kept, as callers know.
    fn end_line(&mut self, alloc: Global, last: &[u8]) -> Result<Progress, JarFaultKind>
        requires { self.old.line + 1 < 2 ^ 64 }
        ensures taken { IsTaken result (reading.take_line self.old.ended (fields_in self.old)
            (self.old.partial.items ++ last.now)) (fields_in self.new) }
        ensures ended { self.new.ended ≡ self.old.ended }
        ensures counted { IsOneLine self.old.partial.items → EndsLine self.old self.new result }
    {
        let taken = if self.partial.is_empty() {
            self.draft.take_line(alloc, last, self.ended)
        } else {
            self.partial.extend_from_slice(last)?;
            self.draft.take_line(alloc, &self.partial, self.ended)
        };
        self.partial.clear();
        let progress = taken?;
        self.line += 1;
        Ok(progress)
    }

    /// Takes the end of a line as `end_line` does, with the same demand on its number and the same clauses. `last` is
    /// UTF-8, and is not checked again if no byte of the line is kept.
    #[inline(always)]
    fn end_text(&mut self, alloc: Global, last: &str) -> Result<Progress, JarFaultKind>
        requires { self.old.line + 1 < 2 ^ 64 }
        ensures taken { IsTaken result (reading.take_line self.old.ended (fields_in self.old)
            (self.old.partial.items ++ last.now)) (fields_in self.new) }
        ensures ended { self.new.ended ≡ self.old.ended }
        ensures counted { IsOneLine self.old.partial.items → EndsLine self.old self.new result }
    {
        if !self.partial.is_empty() {
            return self.end_line(alloc, last.as_bytes());
        }
        let progress = self.draft.take_text(alloc, last, self.ended)?;
        self.line += 1;
        Ok(progress)
    }

    /// Keeps the bytes of a line whose end is not read yet, after those that are kept, and changes nothing else.
    /// Refused if the line is too long, or where memory runs out.
    fn keep(&mut self, part: &[u8]) -> Result<(), JarFaultKind>
        ensures kept { KeepsBytes self.old self.new part.now result }
        ensures same { (fields_in self.new ≡ fields_in self.old) × (self.new.ended ≡ self.old.ended) × (self.new.line ≡ self.old.line) }
    {
        if part.is_empty() {
            return Ok(());
        }
        if part.len() > LONGEST_LINE.saturating_sub(self.partial.len()) {
            return Err(JarFaultKind::LineTooLong);
        }
        self.partial.extend_from_slice(part)?;
        Ok(())
    }

    /// Takes a piece of the text up to the end of a record, and gives what follows that. None if the piece is used up
    /// and the record goes on. The kept bytes must have no line feed. The number of the line and the length of the
    /// piece must add up to less than 2^64, so that all lines of the piece have numbers. Refused at the first line with
    /// a fault, or where memory runs out.
    pub(crate) fn take<'p>(
        &mut self,
        alloc: Global,
        piece: &'p [u8],
    ) -> Result<Option<&'p [u8]>, JarFaultKind>
        requires begun { IsOneLine self.old.partial.items }
        requires room { self.old.line + length piece.now < 2 ^ 64 }
        ensures { TakesPiece self.old self.new piece.now result }
    {
        let mut rest = piece;
        while let Some((line, after)) = split_line(rest) {
            match self.end_line(alloc, line)? {
                Progress::GoesOn => rest = after,
                Progress::Ends => return Ok(Some(after)),
            }
        }
        self.keep(rest)?;
        Ok(None)
    }

    /// Takes a piece of the text that is UTF-8, as `take` does and with the same demands. Its lines are not looked at
    /// again for UTF-8.
    pub(crate) fn take_text<'p>(
        &mut self,
        alloc: Global,
        piece: &'p str,
    ) -> Result<Option<&'p str>, JarFaultKind>
        requires begun { IsOneLine self.old.partial.items }
        requires room { self.old.line + length piece.now < 2 ^ 64 }
        ensures { TakesPiece self.old self.new piece.now result }
    {
        let mut rest = piece;
        while let Some((line, after)) = split_text(rest) {
            match self.end_text(alloc, line)? {
                Progress::GoesOn => rest = after,
                Progress::Ends => return Ok(Some(after)),
            }
        }
        self.keep(rest.as_bytes())?;
        Ok(None)
    }

    /// Takes the end of the text, and tells whether a record ends there. The kept bytes must have no line feed, and
    /// the number after that of the line must fit in 64 bits. Refused if the last line, without a line feed, has a
    /// fault, or where memory runs out.
    pub(crate) fn finish(&mut self, alloc: Global) -> Result<bool, JarFaultKind>
        requires begun { IsOneLine self.old.partial.items }
        requires room { self.old.line + 1 < 2 ^ 64 }
        ensures { FinishesOr self.old self.new result }
    {
        if self.partial.is_empty() {
            return Ok(!self.draft.is_empty());
        }
        self.end_line(alloc, b"")?;
        Ok(!self.draft.is_empty())
    }

    /// Begins a record, without fields, and changes nothing else. Its fields will be written over those of the record
    /// before.
    pub(crate) fn begin_record(&mut self)
        ensures fields { fields_in self.new ≡ [] }
        ensures same { (self.new.partial.items ≡ self.old.partial.items) × (self.new.ended ≡ self.old.ended)
            × (self.new.line ≡ self.old.line) }
    {
        self.draft.clear();
    }

    /// Takes out the record that ended, and counts it: fewer than 100,000, the most of a text, must have been counted
    /// before. Another one begins. The kept bytes and the number of the line stay.
    pub(crate) fn take_record(&mut self, alloc: Global) -> Record
        requires { self.old.ended < 100000 }
        ensures record { result ≡ fields_in self.old }
        ensures begun { (fields_in self.new ≡ []) × (self.new.ended ≡ self.old.ended + 1) }
        ensures same { (self.new.partial.items ≡ self.old.partial.items) × (self.new.line ≡ self.old.line) }
    {
        self.ended += 1;
        self.draft.take_record(alloc)
    }

    /// Counts the record that ended: fewer than 100,000, the most of a text, must have been counted before. All else
    /// stays, its fields too, as they are lent until the next call.
    pub(crate) fn count_record(&mut self)
        requires { self.old.ended < 100000 }
        ensures ended { self.new.ended ≡ self.old.ended + 1 }
        ensures same { (self.new.partial.items ≡ self.old.partial.items) × (fields_in self.new ≡ fields_in self.old)
            × (self.new.line ≡ self.old.line) }
    {
        self.ended += 1;
    }

    /// The fields so far of the record.
    pub(crate) fn fields(&self) -> &[JarField]
        ensures { result.now ≡ fields_in self.now }
    {
        self.draft.fields()
    }

    /// The number of the line that is being read, counted from 1.
    pub(crate) fn line(&self) -> u64
        ensures { result ≡ self.now.line }
    {
        self.line
    }
}
