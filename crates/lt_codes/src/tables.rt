//! Reading the text of a table.
ghost use Rattle.std.specs.Prelude.{◌≡◌, ◌≤◌, ◌<◌, ◌↔◌, ◌∷◌, [], IfErr, IfOk, IsTrue, MatchOption, length};
ghost use Rattle.lt_jar.specs.Lines.{content_of, lines_of};
ghost use Rattle.lt_codes.specs.Adding.{AddsCodes, AddsRow};
ghost use Rattle.lt_codes.specs.Rows.{codes_in};
ghost use Rattle.lt_codes.specs.Index.{IsCode};
ghost use Rattle.lt_codes.specs.Tables as spec;
ghost use Rattle.lt_codes.specs.Tables.{Agrees, IsTable, RefusesTable};
ghost use Rattle.std.specs.List.{All};

use crate::codes::CodeTable;
use crate::faults::{TableFault, TableFaultKind};
use crate::rows::{Row, fields_of};
use lt_rows::{split_first, split_mark};
use lt_subtag::Subtag;
use std::alloc::Global;

/// The most bytes of a table: 1 MiB.
pub(crate) const LONGEST_TABLE: usize = 1_048_576;

/// Whether the table has `registered` for a code, or doesn't have the code.
fn agrees(table: &CodeTable, code: &Subtag, registered: &Subtag) -> bool
    ensures { IsTrue result ↔ Agrees table.now (record { code = code.now; registered = registered.now }) }
{
    match table.registered(code.bytes()) {
        Some(other) => other == registered,
        None => true,
    }
}

/// The number of the last line that bytes reach, counted from 1.
pub(crate) fn line_reached(bytes: &[u8]) -> u64
    ensures { result ≡ spec.line_reached bytes.now }
{
    let feeds = bytes.iter().filter(|byte| **byte == b'\n').count();
    feeds as u64 + 1
}

/// Adds the codes of a row. Each of them must be three letters in lower case, and the subtag that is registered for
/// them at least two bytes long. Refused with `RepeatedCode` if the table has another subtag for one of them, and with
/// `OutOfMemory` where memory runs out.
fn add_row(table: &mut CodeTable, row: Row) -> Result<(), TableFaultKind>
    requires { All IsCode (codes_in row) }
    ensures { AddsRow table.old table.new row result }
{
    let registered = row.registered();
    let Row {
        bibliographic,
        terminologic,
        two_letters: _,
    } = row;
    if !agrees(table, &bibliographic, &registered) {
        return Err(TableFaultKind::RepeatedCode);
    }
    match terminologic {
        Some(code) => {
            if !agrees(table, &code, &registered) {
                return Err(TableFaultKind::RepeatedCode);
            }
            table.push(bibliographic, registered.copy())?;
            table.push(code, registered)?;
        }
        None => table.push(bibliographic, registered)?,
    }
    Ok(())
}

/// Adds the codes of a line, or nothing if it is that of a range. Refused with the first fault of the line, or where
/// memory runs out.
fn add_line(table: &mut CodeTable, line: &[u8]) -> Result<(), TableFaultKind>
    ensures { AddsCodes table.old table.new line.now result }
{
    let Ok(_) = str::from_utf8(line) else {
        return Err(TableFaultKind::NotUtf8);
    };
    let Some(fields) = fields_of(line) else {
        return Err(TableFaultKind::BadRow);
    };
    if fields.are_of_range() {
        return Ok(());
    }
    match fields.row() {
        Some(row) => add_row(table, row),
        None => Err(TableFaultKind::BadCode),
    }
}

/// The first line of a text, and what follows its line feed, which is shorter than the text, so that reading ends. None
/// if the text is empty.
#[tactic(auto, using(crate::proofs::SplitLemmas::line_next, crate::proofs::SplitLemmas::line_last))]
fn next_line(text: &[u8]) -> Option<(&[u8], &[u8])>
    ensures { MatchOption result (lines_of text.now ≡ []) (λ p. (lines_of text.now ≡ p.0.now ∷ lines_of p.1.now) × (length p.1.now < length text.now)) }
{
    if text.is_empty() {
        return None;
    }
    match split_first(b'\n', text) {
        Some((line, rest)) => Some((line, rest)),
        None => Some((text, &[])),
    }
}

/// The line without the carriage return that may end it.
fn content(line: &[u8]) -> &[u8]
    ensures { result.now ≡ content_of line.now }
{
    match line.last() {
        Some(b'\r') => &line[..line.len() - 1],
        _ => line,
    }
}

impl CodeTable {
    /// The table that a text is: lines of five fields in UTF-8, `ger|deu|de|German|allemand`. The first field is the
    /// bibliographic code, the second the terminologic one, if it is another, and the third that of two letters, if
    /// there is one. A byte order mark before the first line is no part of it, nor is a carriage return that ends a
    /// line. A line whose first field is a range, `qaa-qtz`, and whose second and third fields are empty adds nothing.
    ///
    /// A text of more than 1,048,576 bytes is refused as `TableTooLong`. Any other text is refused at its first line
    /// with a fault, with the first fault of that line in the order of [`TableFaultKind`]. `OutOfMemory` comes where
    /// memory runs out.
    pub fn from_bytes(alloc: Global, text: &[u8]) -> Result<CodeTable, TableFault>
        ensures table { IfOk result (λ table. IsTable text.now table) }
        ensures refused { IfErr result (RefusesTable text.now) }
    {
        if text.len() > LONGEST_TABLE {
            return Err(TableFault {
                kind: TableFaultKind::TableTooLong,
                line: line_reached(text),
            });
        }
        let mut line = 1;
        let Ok(mut table) = CodeTable::new(alloc) else {
            return Err(TableFault {
                kind: TableFaultKind::OutOfMemory,
                line,
            });
        };
        let (_, mut rest) = split_mark(text);
        while let Some((part, after)) = next_line(rest) {
            match add_line(&mut table, content(part)) {
                Ok(()) => {}
                Err(kind) => return Err(TableFault { kind, line }),
            }
            line += 1;
            rest = after;
        }
        Ok(table)
    }
}
