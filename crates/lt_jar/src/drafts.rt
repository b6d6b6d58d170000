//! The record that is being read. A field is written over one of the record before, so that a registry is read without
//! an allocation for each field. What a reader keeps grows to the longest bodies that came.
//!
//! A contract speaks of the fields of the record so far, `take count fields.items`. `IsTaken result said fields` says
//! that the answer is what the definition computes (`said`), after which the record has these fields; or it is
//! OutOfMemory.
ghost use Rattle.std.specs.Prelude.{◌≡◌, ◌≤◌, ◌<◌, [], IfSome, OnOk, get_or, string_bytes, take, vec_len};
ghost use Rattle.lt_jar.specs.LineKinds as lines;
ghost use Rattle.lt_jar.specs.Reading as reading;
ghost use Rattle.lt_jar.specs.Views.{IsTaken, line_in, taken_in};

use crate::faults::JarFaultKind;
use crate::jars::{JarField, Record};
use crate::lines::{LineKind, body_again, kind_of};
use crate::words::are_same;
use std::alloc::{AllocError, Global};

/// The most bytes of a line, with its carriage return and without its line feed: a text with a longer one is no
/// registry, or lacks its line feeds.
pub(crate) const LONGEST_LINE: usize = 65_536;

/// The most records of a text: IANA's registry of May 2025 has less than a tenth of them.
const MOST_RECORDS: usize = 100_000;

/// What a line does to a record.
#[derive(Clone, Copy)]
pub(crate) enum Progress {
    GoesOn,
    Ends,
}

/// The fields so far of a record. Those of records before are kept behind them, and their memory is used again.
#[derive(Drop)]
pub(crate) struct Draft {
    fields: Vec<JarField>,
    /// How many of them are of this record.
    count: usize,
    ghost within: { count ≤ vec_len fields },
    ghost named: { reading.AreNamed fields.items },
}

impl Draft {
    /// A draft of a record without fields.
    pub(crate) fn new(alloc: Global) -> Draft
        ensures { take result.count result.fields.items ≡ [] }
    {
        Draft {
            fields: Vec::new(alloc),
            count: 0,
        }
    }

    /// Whether the record has no field yet.
    pub(crate) fn is_empty(&self) -> bool
        ensures { IsTrue result ↔ (take self.now.count self.now.fields.items ≡ []) }
    {
        self.count == 0
    }

    /// The fields of the record so far.
    pub(crate) fn fields(&self) -> &[JarField]
        ensures { result.now ≡ take self.now.count self.now.fields.items }
    {
        &self.fields[..self.count]
    }

    /// Leaves no field, and keeps the memory of all for the next record.
    pub(crate) fn clear(&mut self)
        ensures { take self.new.count self.new.fields.items ≡ [] }
    {
        self.count = 0;
    }

    /// Takes the next line, and tells whether it ends the record. `ended` is how many records have ended before this
    /// one. Refused with what is wrong with the line, or where memory runs out.
    pub(crate) fn take_line(
        &mut self,
        alloc: Global,
        line: &[u8],
        ended: usize,
    ) -> Result<Progress, JarFaultKind>
        ensures { IsTaken result (reading.take_line ended (take self.old.count self.old.fields.items) line.now)
            (take self.new.count self.new.fields.items) }
    {
        if line.len() > LONGEST_LINE {
            return Err(JarFaultKind::LineTooLong);
        }
        match simdutf8::compat::from_utf8(line) {
            Ok(line) => self.take_short_line(alloc, line, ended),
            Err(_) => Err(JarFaultKind::NotUtf8),
        }
    }

    /// Takes the next line, which is UTF-8, as `take_line` does. `ended` is how many records have ended before this
    /// one.
    pub(crate) fn take_text(
        &mut self,
        alloc: Global,
        line: &str,
        ended: usize,
    ) -> Result<Progress, JarFaultKind>
        ensures { IsTaken result (reading.take_line ended (take self.old.count self.old.fields.items) line.now)
            (take self.new.count self.new.fields.items) }
    {
        if LONGEST_LINE < line.len() {
            return Err(JarFaultKind::LineTooLong);
        }
        self.take_short_line(alloc, line, ended)
    }

    /// Takes the next line, which is UTF-8, as `take_line` does, without a look at its length. Most lines separate
    /// records, or begin a field with the name that the field in its place had in the record before. Then the name is
    /// neither looked for nor written.
    fn take_short_line(
        &mut self,
        alloc: Global,
        line: &str,
        ended: usize,
    ) -> Result<Progress, JarFaultKind>
        ensures { IsTaken result (reading.take_kind ended (take self.old.count self.old.fields.items) (lines.line_of line.now))
            (take self.new.count self.new.fields.items) }
    {
        if let b"%%" = line.as_bytes() {
            return Ok(self.separate());
        }
        match self.body_again(line) {
            Some(body) => self.put_body(body, ended),
            None => self.take_any_line(alloc, line, ended),
        }
    }

    /// What a line that separates records does to this record: it ends it, if it has a field.
    fn separate(&self) -> Progress
        ensures { taken_in result (take self.now.count self.now.fields.items) ≡ reading.separated (take self.now.count self.now.fields.items) }
    {
        if self.is_empty() {
            Progress::GoesOn
        } else {
            Progress::Ends
        }
    }

    /// Takes the next line as `take_short_line` does, whatever its kind. It is not inlined: most lines are of the kinds
    /// that `take_short_line` tries first.
    #[inline(never)]
    fn take_any_line(
        &mut self,
        alloc: Global,
        line: &str,
        ended: usize,
    ) -> Result<Progress, JarFaultKind>
        ensures { IsTaken result (reading.take_kind ended (take self.old.count self.old.fields.items) (lines.line_of line.now))
            (take self.new.count self.new.fields.items) }
    {
        self.take_kind(alloc, kind_of(line), ended)
    }

    /// What the body begins with, if the line begins a field with the name that the field in its place had in the
    /// record before. The name is there already then, and is not written again. None for any other line, and for some
    /// that write such a field in another way, for example with a space before the colon.
    #[inline(always)]
    fn body_again<'l>(&self, line: &'l str) -> Option<&'l str>
        ensures { IfSome result (λ body. reading.BeginsAgain self.now.count self.now.fields.items line.now body.now) }
    {
        if self.count < self.fields.len() {
            body_again(line, &self.fields[self.count].name)
        } else {
            None
        }
    }

    /// Takes a line that is of this kind, and tells whether it ends the record. If it begins a field, the name must
    /// have only letters, digits and hyphens. `ended` is how many records have ended before this one. Refused if it
    /// is a bad line or can't stand here, or where memory runs out.
    fn take_kind(
        &mut self,
        alloc: Global,
        kind: LineKind<'_>,
        ended: usize,
    ) -> Result<Progress, JarFaultKind>
        requires { lines.HasName (line_in kind) }
        ensures { IsTaken result (reading.take_kind ended (take self.old.count self.old.fields.items) (line_in kind.entry))
            (take self.new.count self.new.fields.items) }
    {
        match kind {
            LineKind::Blank => Ok(Progress::GoesOn),
            LineKind::Separator => Ok(self.separate()),
            LineKind::Continuation(text) => self.continue_field(text),
            LineKind::Start(name, body) => self.start_field(alloc, name, body, ended),
            LineKind::Bad => Err(JarFaultKind::BadLine),
        }
    }

    /// Puts the text of a continuation line after the body of the last field. Refused if there is no field, or where
    /// memory runs out.
    fn continue_field(&mut self, text: &str) -> Result<Progress, JarFaultKind>
        ensures { IsTaken result (reading.continued text.now (take self.old.count self.old.fields.items)) (take self.new.count self.new.fields.items) }
    {
        if self.count == 0 {
            return Err(JarFaultKind::LeadingContinuation);
        }
        lengthen(&mut self.fields[self.count - 1].body, text)?;
        Ok(Progress::GoesOn)
    }

    /// Begins a field with this name, which must have only letters, digits and hyphens, and with a body that begins
    /// with `body`. `ended` is how many records have ended before this one. Refused if the record is one too many, or
    /// where memory runs out.
    fn start_field(
        &mut self,
        alloc: Global,
        name: &str,
        body: &str,
        ended: usize,
    ) -> Result<Progress, JarFaultKind>
        requires { lines.IsNamed name.now }
        ensures { IsTaken result (reading.started ended (name.now, body.now) (take self.old.count self.old.fields.items))
            (take self.new.count self.new.fields.items) }
    {
        if self.count == self.fields.len() {
            self.fields.push(JarField {
                name: String::new(alloc),
                body: String::new(alloc),
            })?;
        }
        let field = &mut self.fields[self.count];
        field.name.clear();
        field.name.push_str(name)?;
        self.put_body(body, ended)
    }

    /// Begins a field whose name is in its place already, behind the fields so far, where there must be one. The clause
    /// reads it there by `get_or`, whose default is `nothing`. `body` is what its body begins with.
    /// `ended` is how many records have ended before this one. Refused if the record is one too many, or where memory
    /// runs out.
    #[inline(always)]
    fn put_body(&mut self, body: &str, ended: usize) -> Result<Progress, JarFaultKind>
        requires { self.old.count < vec_len self.old.fields }
        ensures { IsTaken result (reading.started ended ((get_or self.old.fields.items self.old.count reading.nothing).0, body.now)
            (take self.old.count self.old.fields.items)) (take self.new.count self.new.fields.items) }
    {
        if self.count == 0 && ended >= MOST_RECORDS {
            return Err(JarFaultKind::TooManyRecords);
        }
        write_over(&mut self.fields[self.count].body, body)?;
        self.count += 1;
        Ok(Progress::GoesOn)
    }

    /// Takes out the record, and drops the fields of records before; the draft has no fields then.
    pub(crate) fn take_record(&mut self, alloc: Global) -> Record
        ensures record { result ≡ take self.old.count self.old.fields.items }
        ensures empty { take self.new.count self.new.fields.items ≡ [] }
    {
        self.fields.truncate(self.count);
        self.count = 0;
        Record {
            fields: std::mem::replace(&mut self.fields, Vec::new(alloc)),
        }
    }
}

ghost use Rattle.std.specs.Prelude.{◌↔◌, IsTrue};

/// Makes `text` the same as `other`. Often it is already, and nothing is written. Refused where memory runs out.
#[inline(always)]
fn write_over(text: &mut String, other: &str) -> Result<(), AllocError>
    ensures { OnOk result (string_bytes text.new ≡ other.now) }
{
    if are_same(text.as_bytes(), other.as_bytes()) {
        return Ok(());
    }
    text.clear();
    text.push_str(other)
}

/// Puts a further text after a body, with a space between them if neither is empty. Refused where memory runs out.
fn lengthen(body: &mut String, text: &str) -> Result<(), AllocError>
    ensures { OnOk result (string_bytes body.new ≡ reading.lengthened (string_bytes body.old) text.now) }
{
    if text.is_empty() {
        return Ok(());
    }
    if !body.is_empty() {
        body.push(' ')?;
    }
    body.push_str(text)
}
