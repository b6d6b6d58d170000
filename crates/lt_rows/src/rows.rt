//! The fields of a row.
ghost use Rattle.std.specs.Prelude.{◌≡◌, ◌≤◌, ◌<◌, ◌↔◌, IsTrue, MatchOption, drop, length, slice_index, take};
ghost use Rattle.lt_rows.specs.Plain.{IsPlain};
ghost use Rattle.lt_rows.specs.Rows.{EndsField, HasFewer, HasField, HasReturn, IsFieldAt, IsQuoted, IsTextIn, Skips, separator};
ghost use Rattle.lt_rows.specs.Splitting.{IsFreeOf};
ghost use Rattle.lt_rows.specs.declared.rows.Separator.TheVariants as separators;

use crate::plain_rows::plain_field_at;
use crate::quotes::split_outside;
use crate::splitting::{place_within, split_first};

/// What is between the fields of a row.
#[derive(Clone, Copy, Debug, PartialEq, Eq)]
pub enum Separator {
    /// A tab.
    Tab,
    /// This byte outside of quotes: a comma in RFC 4180.
    Delimiter(u8),
}

impl Separator {
    /// The byte that parts fields.
    pub fn byte(self) -> u8
        ensures { result ≡ separator self }
    {
        match self {
            Separator::Tab => b'\t',
            Separator::Delimiter(byte) => byte,
        }
    }

    /// Where the first field of the rest of a row ends, or None if no separator ends it. The rest is the first `count`
    /// bytes of `text`, which must have so many. `is_line` may be true only if the rest has no line feeds (10).
    #[inline(always)]
    fn field_end(self, is_line: bool, text: &[u8], count: usize) -> Option<usize>
        requires count { count ≤ length text.now }
        requires line { IsTrue is_line → IsFreeOf 10 (take count text.now) }
        ensures { EndsField self (take count text.now) result }
    {
        match self {
            Separator::Tab => place_within(b'\t', text, count),
            Separator::Delimiter(delimiter) => {
                if begins_quoted(text, count) {
                    return quoted_end(delimiter, text, count);
                }
                if is_line {
                    return place_within(delimiter, text, count);
                }
                end_outside(delimiter, &text[..count])
            }
        }
    }
}

/// Whether a quote (34) is the first of the first `count` bytes of a text, which must have so many.
#[inline(always)]
fn begins_quoted(text: &[u8], count: usize) -> bool
    requires { count ≤ length text.now }
    ensures { IsTrue result ↔ ((0 < count) × (slice_index text.now 0 ≡ 34)) }
{
    count > 0 && text[0] == b'"'
}

/// Where the first delimiter outside of quotes is in the rest of a row. None if no delimiter is outside of quotes.
fn end_outside(delimiter: u8, rest: &[u8]) -> Option<usize>
    ensures { EndsField (separators.Delimiter delimiter) rest.now result }
{
    match split_outside(delimiter, delimiter, rest) {
        Some((field, _)) => Some(field.len()),
        None => None,
    }
}

/// Where the first delimiter outside of quotes is among the first `count` bytes of a text. None if no delimiter is
/// outside of quotes. The text must have so many bytes, at least one, and begin with a quote (34). It is likely that no
/// quote is doubled in its field, so the next quote is looked for first.
#[inline(always)]
fn quoted_end(delimiter: u8, text: &[u8], count: usize) -> Option<usize>
    requires count { (0 < count) × (count ≤ length text.now) }
    requires quote { slice_index text.now 0 ≡ 34 }
    ensures { EndsField (separators.Delimiter delimiter) (take count text.now) result }
{
    if delimiter != b'"' {
        if let Some(within) = place_within(b'"', &text[1..], count - 1) {
            // Behind the quote that opens, `within` bytes, and the quote that closes.
            let end = within + 2;
            if end == count {
                return None;
            }
            if text[end] == delimiter {
                return Some(end);
            }
        }
    }
    end_outside(delimiter, &text[..count])
}

/// Where the rest of a row begins after `before` fields, or None if the row has no field after them. The row is the
/// first `count` bytes of `text`, which must have so many. `is_line` may be true only if the row has no line feeds
/// (10).
#[inline(always)]
fn skip_fields(
    separator: Separator,
    is_line: bool,
    text: &[u8],
    count: usize,
    before: usize,
) -> Option<usize>
    requires count { count ≤ length text.now }
    requires line { IsTrue is_line → IsFreeOf 10 (take count text.now) }
    ensures { MatchOption result (HasFewer separator before (take count text.now)) (λ at. (at ≤ count) × Skips separator before (take count text.now) (drop at (take count text.now))) }
{
    let mut at = 0;
    for _field in 0..before {
        match separator.field_end(is_line, &text[at..], count - at) {
            Some(end) => at += end + 1,
            None => return None,
        }
    }
    Some(at)
}

/// Where the field of a row that comes after `before` others begins and ends, or None if the row has no such field. The
/// row is the first `count` bytes of `text`, which must have so many. `is_line` may be true only of a row without line
/// feeds (10), and `is_plain` only of a row in which each separator parts fields.
#[inline(always)]
pub(crate) fn field_at(
    separator: Separator,
    is_line: bool,
    is_plain: bool,
    text: &[u8],
    count: usize,
    before: usize,
) -> Option<(usize, usize)>
    requires count { count ≤ length text.now }
    requires line { IsTrue is_line → IsFreeOf 10 (take count text.now) }
    requires plain { IsTrue is_plain → IsPlain separator (take count text.now) }
    ensures { MatchOption result (HasFewer separator before (take count text.now)) (λ p. IsFieldAt separator before (take count text.now) p.0 p.1) }
{
    if is_plain {
        return plain_field_at(separator, text, count, before);
    }
    let start = skip_fields(separator, is_line, text, count, before)?;
    match separator.field_end(is_line, &text[start..], count - start) {
        Some(end) => Some((start, start + end)),
        None => Some((start, count)),
    }
}

/// The field of a row that comes after `count` others, with what is before it and what follows it: `(before, field, after)`.
/// None if the row has no such field.
pub fn find_field(separator: Separator, row: &[u8], count: usize) -> Option<(&[u8], &[u8], &[u8])>
    ensures { MatchOption result (HasFewer separator count row.now) (λ p. HasField separator count row.now p.0.now p.1.now p.2.now) }
{
    let (start, end) = field_at(separator, false, false, row, row.len(), count)?;
    Some((&row[..start], &row[start..end], &row[end..]))
}

/// Whether a carriage return is in a row of CSV, outside of quotes. False of a row of TSV. The row must be given
/// without the carriage return that may end its line.
#[tactic(auto, using(crate::proofs::RowLemmas::free_of_none, crate::proofs::RowLemmas::not_free))]
pub fn has_return(separator: Separator, row: &[u8]) -> bool
    ensures { IsTrue result ↔ HasReturn separator row.now }
{
    match separator {
        Separator::Tab => false,
        Separator::Delimiter(byte) => {
            // A row without any carriage return is answered without a look at its quotes.
            split_first(b'\r', row).is_some() && split_outside(byte, b'\r', row).is_some()
        }
    }
}

/// The quote at both ends of a field, or no bytes if it has none, and the text between them. Only fields of CSV have quotes.
pub fn text_in(separator: Separator, field: &[u8]) -> (&'static [u8], &[u8])
    ensures { IsTextIn separator field.now result.0.now result.1.now }
{
    match separator {
        Separator::Delimiter(_) if is_quoted(field) => (b"\"", &field[1..field.len() - 1]),
        _ => (b"", field),
    }
}

/// Whether a field begins with a quote and ends with another one.
fn is_quoted(field: &[u8]) -> bool
    ensures { IsTrue result ↔ IsQuoted field.now }
{
    field.len() > 1 && field[0] == b'"' && field[field.len() - 1] == b'"'
}
