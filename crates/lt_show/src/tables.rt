//! The rows of a tag as a table for people. `told` is the text that it is appended to.
ghost use Rattle.std.specs.Prelude.{◌≡◌, ◌++◌, OnOk, map, replicate};
ghost use Rattle.lt_show.specs.Tables as spec;
ghost use Rattle.lt_show.specs.Tables.{field_line, fields_text, padded, row_line, row_text, rows_text, table_of};
ghost use Rattle.lt_show.specs.Fields.{shown_fields};

use crate::fields::{fields_of, is_shown};
use crate::listings::Listing;
use crate::rows::{Row, cut, rows_of};
use lt_jar::{JarField, Record};
use lt_registry::Lookup;
use lt_tag::{OutOfMemory, Tag, write_tag};
use std::alloc::Global;

/// The width of the first column, of places: three digits, since a text of at most 1,024 bytes has at most 512 parts.
const PLACE: usize = 3;

/// The width of the column of names of fields: the longest that are shown have 15 characters, for example `Preferred-Value`.
const NAME: usize = 15;

/// Appends `count` spaces (32).
fn append_spaces(told: &mut Vec<u8>, count: usize) -> Result<(), OutOfMemory>
    ensures { OnOk result (told.new.items ≡ told.old.items ++ replicate count 32) }
{
    for _ in 0..count {
        told.push(b' ')?;
    }
    Ok(())
}

/// Appends a cell, with spaces up to the width of its column, and two more.
fn append_padded(told: &mut Vec<u8>, width: usize, cell: &[u8]) -> Result<(), OutOfMemory>
    ensures { OnOk result (told.new.items ≡ told.old.items ++ padded width cell.now) }
{
    told.extend_from_slice(cell)?;
    append_spaces(told, width.saturating_sub(cell.len()))?;
    told.extend_from_slice(b"  ")?;
    Ok(())
}

/// The byte that is shown for a byte of a text: a space for a control character of ASCII (0 to 31, and 127), else the
/// byte itself.
fn shown_byte(byte: u8) -> u8
    ensures { result ≡ spec.shown_byte byte }
{
    if byte < b' ' || byte == 127 {
        b' '
    } else {
        byte
    }
}

/// Appends a text with a space for each control character of ASCII, so that a line feed or an escape in it does nothing at a
/// terminal. Refused where memory runs out; a part may then have been appended.
pub fn append_printable(told: &mut Vec<u8>, text: &[u8]) -> Result<(), OutOfMemory>
    ensures { OnOk result (told.new.items ≡ told.old.items ++ map spec.shown_byte text.now) }
{
    for byte in text {
        told.push(shown_byte(*byte))?;
    }
    Ok(())
}

/// Appends the line of a field of a record: its name and its body, to the right of the column of places.
fn append_field(told: &mut Vec<u8>, field: &JarField) -> Result<(), OutOfMemory>
    ensures { OnOk result (told.new.items ≡ told.old.items ++ field_line field.now) }
{
    // The column of places, and the two spaces after it.
    told.extend_from_slice(b"     ")?;
    append_padded(told, NAME, field.name().as_bytes())?;
    append_printable(told, field.body().as_bytes())?;
    told.push(b'\n')?;
    Ok(())
}

/// Appends a line for each of a record's fields whose name is shown.
fn append_fields(told: &mut Vec<u8>, fields: &[JarField]) -> Result<(), OutOfMemory>
    ensures { OnOk result (told.new.items ≡ told.old.items ++ fields_text (shown_fields fields.now)) }
{
    for field in fields {
        if is_shown(field.name()) {
            append_field(told, field)?;
        }
    }
    Ok(())
}

/// How wide the columns of rows are.
#[derive(Clone, Copy)]
struct Widths {
    /// The column of what the rows are about.
    subject: usize,
    /// The column of their texts.
    text: usize,
}

/// How wide the columns of rows are: each is as wide as its longest cell. `text` is the text of the tag, out of which
/// the texts of the rows are cut.
fn widths_of(text: &[u8], rows: &[Row]) -> Widths
    ensures { result ≡ spec.widths_of text.now rows.now }
{
    let mut subject = 0;
    let mut longest = 0;
    for row in rows {
        subject = subject.max(row.subject.name().len());
        longest = longest.max(cut(text, row.start, row.length).len());
    }
    Widths {
        subject,
        text: longest,
    }
}

/// Appends what the registry has for a row: `record 190`, `not registered`, or nothing for a part of a kind that no
/// registry registers, for example a singleton.
fn append_listing(told: &mut Vec<u8>, alloc: Global, listing: Listing) -> Result<(), OutOfMemory>
    ensures { OnOk result (told.new.items ≡ told.old.items ++ spec.listing_text listing) }
{
    match listing {
        Listing::Unlisted => {}
        Listing::Unregistered => told.extend_from_slice(b"not registered")?,
        Listing::Record(number) => {
            told.extend_from_slice(format!(in alloc; "record {number}")?.as_bytes())?;
        }
    }
    Ok(())
}

/// Appends the line of a row. `text` is the text of the tag, out of which the row's text is cut. If the row is about a
/// part of a kind that no registry registers, for example a singleton, the row's text ends the line.
fn append_row_line(
    told: &mut Vec<u8>,
    alloc: Global,
    widths: Widths,
    text: &[u8],
    row: &Row,
) -> Result<(), OutOfMemory>
    ensures { OnOk result (told.new.items ≡ told.old.items ++ row_line widths text.now row.now) }
{
    let place = row.place;
    append_padded(told, PLACE, format!(in alloc; "{place}")?.as_bytes())?;
    append_padded(told, widths.subject, row.subject.name().as_bytes())?;
    let cell = cut(text, row.start, row.length);
    match row.listing {
        Listing::Unlisted => told.extend_from_slice(cell)?,
        listing => {
            append_padded(told, widths.text, cell)?;
            append_listing(told, alloc, listing)?;
        }
    }
    told.push(b'\n')?;
    Ok(())
}

/// Appends the line of a row, and one for each shown field of its record. `text` is the text of the tag, and the
/// records are those of the registry's file.
fn append_row(
    told: &mut Vec<u8>,
    alloc: Global,
    widths: Widths,
    text: &[u8],
    records: &[Record],
    row: &Row,
) -> Result<(), OutOfMemory>
    ensures { OnOk result (told.new.items ≡ told.old.items ++ row_text widths text.now records.now row.now) }
{
    append_row_line(told, alloc, widths, text, row)?;
    match row.listing {
        Listing::Record(number) => append_fields(told, fields_of(records, number)),
        _ => Ok(()),
    }
}

/// Appends what is shown of a tag for people: a line with the tag in conventional case, and then for each of its [`rows_of`] a
/// line with the place, the kind, the text and the number of the record, or that it is not registered, and below it a line
/// for each field of the record that [`is_shown`]. The records are those of the registry's file. The only refusal is
/// running out of memory, after which a part of it may have been appended.
///
/// ```text
/// zh-x-a
/// 1    Language             zh  record 190
///      Description      Chinese
///      Scope            macrolanguage
/// 2    PrivateUseSingleton  x
/// 3    PrivateUse           a
/// ```
pub fn append_table<L: Lookup>(
    told: &mut Vec<u8>,
    alloc: Global,
    table: &L,
    records: &[Record],
    tag: &Tag,
) -> Result<(), OutOfMemory>
    ensures { OnOk result (told.new.items ≡ told.old.items ++ table_of (L.listed table.now) records.now tag.now) }
{
    let text = write_tag(alloc, tag)?;
    let rows = rows_of(alloc, table, tag)?;
    told.extend_from_slice(&text)?;
    told.push(b'\n')?;
    append_rows(told, alloc, &text, records, &rows)?;
    Ok(())
}

/// Appends the lines of rows and of the fields of their records. `text` is the text of the tag, and the records are
/// those of the registry's file.
fn append_rows(
    told: &mut Vec<u8>,
    alloc: Global,
    text: &[u8],
    records: &[Record],
    rows: &[Row],
) -> Result<(), OutOfMemory>
    ensures { OnOk result (told.new.items ≡ told.old.items ++ rows_text text.now records.now rows.now) }
{
    let widths = widths_of(text, rows);
    for row in rows {
        append_row(told, alloc, widths, text, records, row)?;
    }
    Ok(())
}
