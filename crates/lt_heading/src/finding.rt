//! Finding the column that has a name in the heading, which is the first row of a reader. The bytes that were read for
//! it, the front, are given too, since the rows in them are still to be answered.
ghost use Rattle.std.specs.Prelude.{◌≡◌, ◌≤◌, ℕ, List, IfOk, length, string_bytes};
ghost use Rattle.std.specs.Option.{option_map};
ghost use Rattle.lt_stream.specs.declared.faults.ToolFault.TheVariants.{OutOfMemory};
ghost use Rattle.lt_heading.specs.Finding.{FindsColumn, PicksColumn};
ghost use Rattle.lt_heading.specs.Headings as spec;
ghost use Rattle.lt_heading.specs.Names.{IsFound, shown_line, shown_names};
ghost use Rattle.lt_heading.specs.declared.finding.ColumnFault.TheVariants.{Heading};

use crate::first_rows::{FirstRow, Heading};
use crate::names::{Found, Looked, append_shown, look_up};
use lt_jar::Device;
use lt_rows::Separator;
use lt_stream::{ToolFault, run_pieces};
use std::alloc::{AllocError, Global};
use std::io::Read;

/// The only column that has the name.
#[derive(Drop)]
pub struct FoundColumn {
    /// Its number, counted from 1.
    pub number: usize,
    /// All bytes that were read to find it.
    pub front: Vec<u8>,
}

/// Why no column was found.
#[derive(Debug, Drop)]
pub enum ColumnFault {
    /// The heading can't be read, or memory ran out.
    Heading(ToolFault),
    /// No column has the name, or more than one, as this line says.
    Name(String),
}

/// With this, `?` turns a fault of reading into `Heading` with this fault, as `from_gives` says.
impl From<ToolFault> for ColumnFault {
    ghost from_gives = { λ fault given. given ≡ Heading fault };

    fn from(fault: ToolFault) -> ColumnFault {
        ColumnFault::Heading(fault)
    }
}

/// With this, `?` turns a lack of memory into `Heading` with `OutOfMemory`.
impl From<AllocError> for ColumnFault {
    ghost from_gives = { λ _ given. given ≡ Heading OutOfMemory };

    fn from(_error: AllocError) -> ColumnFault {
        ColumnFault::Heading(ToolFault::OutOfMemory)
    }
}

/// The line that says why a name is not found, for example `error: no column has the name "x"; names: "a" "b"`, where
/// `whose` is `no column`, `shown` is ` "x"` and `listed` is ` "a" "b"`. Refused where memory runs out.
fn line_of(alloc: Global, whose: &str, shown: &str, listed: &str) -> Result<String, AllocError>
    ensures { IfOk result (λ line. string_bytes line ≡ shown_line whose.now shown.now listed.now) }
{
    let mut line = format!(in alloc; "error: {whose} has the name")?;
    line.push_str(shown)?;
    line.push_str("; names:")?;
    line.push_str(listed)?;
    line.push('\n')?;
    Ok(line)
}

/// The number of the only column that has a name, by what `looked` says. If there is none, or more than one, it is
/// refused with the line that says so; if memory runs out, with `Heading(OutOfMemory)`. `looked` doesn't keep the names
/// of the heading, so the clause holds for every list of names of which it is true.
fn pick_column(alloc: Global, looked: &Looked, name: &str) -> Result<usize, ColumnFault>
    ensures { (names : List (List ℕ)) → IsFound name.now names looked.now.found → string_bytes looked.now.listed ≡ shown_names names → PicksColumn name.now names result }
{
    let whose = match looked.found {
        Found::Only(number) => return Ok(number),
        Found::Missing => "no column",
        Found::Repeated => "more than one column",
    };
    let mut shown = String::new(alloc);
    append_shown(&mut shown, alloc, name.as_bytes())?;
    Err(ColumnFault::Name(line_of(alloc, whose, &shown, &looked.listed)?))
}

/// The first row of a text, which ends at the index `end`, or None if the text is empty and so has no row. The index
/// must be within the text, or at its end.
fn heading_in(text: &[u8], end: usize) -> Option<&[u8]>
    requires { end ≤ length text.now }
    ensures { option_map (λ row. row.now) result ≡ spec.heading_in text.now end }
{
    if text.is_empty() {
        return None;
    }
    Some(&text[..end])
}

/// Finds the only column that has a name in the heading of rows, which is the first of them, after a byte order mark of
/// UTF-8. The texts of its fields are the names. In a quoted field each doubled quote is one quote, and a carriage return
/// that ends the heading is no part of the last name. Two names are equal if all their bytes are. If there is no row,
/// no column has a name. It reads until the heading is whole, and gives all bytes that it read.
///
/// - `Name`, if no column has the name, or more than one: the text is one line that says so and has the first 64 names, each
///   cut to 64 bytes.
/// - `Heading`, if the heading can't be read: `BadCsv(1)` if the reader's bytes end within its quotes, `BadCsv(1)` or
///   `BadTsv(1)` if it is longer than 16,777,216 bytes, `Utf16` if the bytes begin with a byte order mark of UTF-16, `Read`
///   if a read fails, `TooManyTurns` if all 10,000,000 reads were made and the last gave bytes; and `OutOfMemory`.
pub fn find_column<R: Read>(
    alloc: Global,
    separator: Separator,
    name: &str,
    input: &mut Device<R>,
) -> Result<FoundColumn, ColumnFault>
    ensures { FindsColumn separator name.now R.remaining input.old input.new result }
{
    let mut reading = Heading {
        separator,
        first: FirstRow::new(alloc),
    };
    let end = run_pieces(alloc, &mut reading, input, &mut ())?;
    let Heading {
        first,
        separator: _,
    } = reading;
    let heading = heading_in(&first.text, end);
    let looked = look_up(alloc, separator, heading, name.as_bytes())?;
    let number = pick_column(alloc, &looked, name)?;
    let front = first.into_bytes()?;
    Ok(FoundColumn { number, front })
}
