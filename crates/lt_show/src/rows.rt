//! A row for each part of a tag, and one for the whole tag if that is registered as redundant.
ghost use Rattle.std.specs.Prelude.{◌≡◌, ◌++◌, IfOk, OnOk, drop, take};
ghost use Rattle.std.specs.Option.{option_copied};
ghost use Rattle.lt_tag.specs.Texts.{text_of};
ghost use Rattle.lt_show.specs.Rows as spec;

use crate::listings::{Listing, Subject, listed, look_up};
use crate::placing::{Part, parts};
use lt_registry::Lookup;
use lt_tag::{OutOfMemory, Tag, write_tag};
use std::alloc::Global;

/// What is shown of a part of a tag, or of the whole of it.
#[derive(Clone, Copy, Debug, PartialEq, Eq)]
pub struct Row {
    /// Its place among the parts of the tag, counted from 1; for the whole of the tag, 1.
    pub place: usize,
    /// What it is.
    pub subject: Subject,
    /// Where its first byte is in the text that `write_tag` gives, counted from 0.
    pub start: usize,
    /// How many bytes it has.
    pub length: usize,
    /// What the registry has for it.
    pub listing: Listing,
}

/// The bytes of a text from the index `start` on, `length` of them or as many as there are.
pub(crate) fn cut(text: &[u8], start: usize, length: usize) -> &[u8]
    ensures { result.now ≡ take length (drop start text.now) }
{
    let rest = text.get(start..).unwrap_or(&[]);
    &rest[..length.min(rest.len())]
}

/// The row of a part of a tag: `text` is the text of the tag, and `place` that of the part among its parts, counted
/// from 1.
fn row_of<L: Lookup>(table: &L, tag: &Tag, text: &[u8], place: usize, part: &Part) -> Row
    ensures { result ≡ spec.row_of (L.listed table.now) tag.now text.now place part.now }
{
    let text = cut(text, part.start, part.length);
    Row {
        place,
        subject: Subject::Part(part.kind),
        start: part.start,
        length: part.length,
        listing: look_up(table, tag, part.kind, text),
    }
}

/// The row of a whole tag that is registered as redundant (RFC 5646, 2.2.8), or no row. `text` must be the text of the
/// tag, since its length is that of the row.
fn whole_rows<L: Lookup>(
    alloc: Global,
    table: &L,
    tag: &Tag,
    text: &[u8],
) -> Result<Vec<Row>, OutOfMemory>
    requires { text.now ≡ text_of tag.now }
    ensures { IfOk result (λ rows. rows.items ≡ spec.whole_rows (L.listed table.now) tag.now) }
{
    let mut rows = Vec::new(alloc);
    // A grandfathered tag is one part, whose row has its record.
    if tag.grandfathered().is_some() {
        return Ok(rows);
    }
    if let Listing::Record(number) = listed(table.whole(tag)) {
        rows.push(Row {
            place: 1,
            subject: Subject::Whole,
            start: 0,
            length: text.len(),
            listing: Listing::Record(number),
        })?;
    }
    Ok(rows)
}

/// What a registry has for the parts of a tag: a row for the whole tag if that is registered as redundant (RFC 5646,
/// 2.2.8), and then one for each part, in order. A grandfathered tag is one part. The subtags of the source of a `t`
/// extension are looked up as those of a tag.
///
/// `de-CH` has a `Language` at place 1, with the number of the record of `de`, and a `Region` at place 2 with that of
/// `CH`. The only refusal is running out of memory.
pub fn rows_of<L: Lookup>(alloc: Global, table: &L, tag: &Tag) -> Result<Vec<Row>, OutOfMemory>
    ensures { IfOk result (λ rows. rows.items ≡ spec.rows_of (L.listed table.now) tag.now) }
{
    let text = write_tag(alloc, tag)?;
    let parts = parts(alloc, tag)?;
    let mut rows = whole_rows(alloc, table, tag, &text)?;
    for (index, part) in parts.iter().enumerate() {
        rows.push(row_of(table, tag, &text, index + 1, part))?;
    }
    Ok(rows)
}
