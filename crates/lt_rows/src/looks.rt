//! A look at a row finds what the row is answered by: a carriage return outside of quotes, or that it has too few
//! fields, or where the text of one field is.
ghost use Rattle.std.specs.Prelude.{◌≡◌, ◌≤◌, ◌↔◌, ℕ, List, IsTrue, drop, length, take};
ghost use Rattle.lt_rows.specs.Looks.{AreLackedIn, HasTextAt, IsLookAt, IsPlainLine, LacksIn, ends_quoted};
ghost use Rattle.lt_rows.specs.Plain.{IsPlain};
ghost use Rattle.lt_rows.specs.Rows.{IsFieldAt, Skips};
ghost use Rattle.lt_rows.specs.Quotes.{is_quoted, place_at};
ghost use Rattle.lt_rows.specs.Splitting.{IsFreeOf};
ghost use Rattle.lt_rows.specs.declared.quotes.Place.TheVariants as places;

use crate::lanes::free_front;
use crate::quotes::{Place, after_text};
use crate::rows::{Separator, field_at, has_return, text_in};
use crate::splitting::{is_free_of_both, place_within, split_first};

/// Where the text of a field is in its row.
#[derive(Clone, Copy, Debug, PartialEq, Eq)]
pub struct TextAt {
    /// The place of its first byte.
    pub start: usize,
    /// The place after its last byte.
    pub end: usize,
}

/// What a row is answered by. The first of these that is true of the row is found.
#[derive(Clone, Copy, Debug, PartialEq, Eq)]
pub enum Found {
    /// The row is of CSV, and a carriage return is in it, outside of quotes.
    Return,
    /// The row has too few fields to have the one that is looked for.
    Fewer,
    /// Where the text of the field is.
    Text(TextAt),
}

/// A row that was looked at for one of its fields.
#[derive(Clone, Copy, Debug, PartialEq, Eq)]
pub struct Look {
    /// Whether the row ends within quotes. A row of TSV never does.
    pub is_open: bool,
    /// What it is answered by.
    pub found: Found,
}

/// Which bytes are in no row of a text, as far as that is known. A `false` says nothing.
#[derive(Clone, Copy, Debug, PartialEq, Eq)]
pub struct Lacks {
    /// Whether it is known that no row has a carriage return.
    pub returns: bool,
    /// Whether it is known that no row has a quote.
    pub quotes: bool,
}

/// Whether a text doesn't have this byte.
fn is_free_of(byte: u8, text: &[u8]) -> bool
    ensures { IsTrue result ↔ IsFreeOf byte text.now }
{
    match split_first(byte, text) {
        Some(_) => false,
        None => true,
    }
}

/// Whether a text doesn't have this byte. Its first `front` bytes must be known to be free of it, and are not looked
/// at.
fn is_free_from(byte: u8, text: &[u8], front: usize) -> bool
    requires { (front ≤ length text.now) × IsFreeOf byte (take front text.now) }
    ensures { IsTrue result ↔ IsFreeOf byte text.now }
{
    is_free_of(byte, &text[front..])
}

/// Whether a text lacks carriage returns, and whether it lacks quotes. A front of it that has neither is looked at only
/// once.
pub fn lacks_of(text: &[u8]) -> Lacks
    ensures { AreLackedIn text.now result }
{
    let front = free_front(b'\r', b'"', text);
    Lacks {
        returns: is_free_from(b'\r', text, front),
        quotes: is_free_from(b'"', text, front),
    }
}

/// Whether the first `count` bytes of a text, which must have so many, are a record of CSV without line feeds and
/// carriage returns. What `lacks` says must be true of them. If it says that they lack carriage returns, they must
/// have no line feeds either, and are not looked at.
#[inline(always)]
fn is_plain_line(separator: Separator, lacks: Lacks, text: &[u8], count: usize) -> bool
    requires count { count ≤ length text.now }
    requires lacks { LacksIn (take count text.now) lacks }
    ensures { IsTrue result ↔ IsPlainLine separator (take count text.now) }
{
    match separator {
        Separator::Tab => false,
        Separator::Delimiter(_) => lacks.returns || is_free_of_both(b'\r', b'\n', text, count),
    }
}

/// Whether each separator in a row parts fields, as far as that is known. Each tab does. Each delimiter does if the row
/// has no line feeds (10) by `is_line` and no quotes by `lacks`. The function sees no row, so the clause holds for
/// every row of which `is_line` and `lacks` are true.
fn is_plain(separator: Separator, is_line: bool, lacks: Lacks) -> bool
    ensures { (row : List ℕ) → LacksIn row lacks → (IsTrue is_line → IsFreeOf 10 row) → IsTrue result → IsPlain separator row }
{
    match separator {
        Separator::Tab => true,
        Separator::Delimiter(_) => is_line && lacks.quotes,
    }
}

/// Whether the first `count` bytes of a text end within quotes, if they are read from `start` on, as from where a
/// field begins. The text must have so many bytes, and `start` must be at most `count`.
#[tactic(auto, using(crate::proofs::LookLemmas::closed_rest, crate::proofs::LookLemmas::rest_slice))]
#[inline(always)]
fn is_open_from(delimiter: u8, text: &[u8], count: usize, start: usize) -> bool
    requires { (start ≤ count) × (count ≤ length text.now) }
    ensures { result ≡ is_quoted (place_at delimiter places.Fresh (drop start (take count text.now))) }
{
    match place_within(b'"', &text[start..], count - start) {
        Some(_) => after_text(delimiter, Place::Fresh, &text[start..count]).is_quoted(),
        None => false,
    }
}

/// Whether a row ends within quotes. The row is the first `count` bytes of `text`, which must have so many. `start`
/// must be at most `count`. The clause holds if one of the row's fields begins there, after any number of fields
/// (`before`), so that the fields before `start` need no look. What `lacks` says must be true of the row.
#[tactic(auto, using(crate::proofs::LookLemmas::closed_row))]
#[inline(always)]
fn is_open(separator: Separator, lacks: Lacks, text: &[u8], count: usize, start: usize) -> bool
    requires count { (start ≤ count) × (count ≤ length text.now) }
    requires lacks { LacksIn (take count text.now) lacks }
    ensures { (before : ℕ) → Skips separator before (take count text.now) (drop start (take count text.now)) → result ≡ ends_quoted separator (take count text.now) }
{
    if lacks.quotes {
        return false;
    }
    match separator {
        Separator::Tab => false,
        Separator::Delimiter(delimiter) => {
            // A delimiter that is a quote may begin quoted text, so the place at `start` is not known.
            if delimiter == b'"' {
                is_open_from(delimiter, text, count, 0)
            } else {
                is_open_from(delimiter, text, count, start)
            }
        }
    }
}

/// Where the text of a field is: between its quotes, if it has them. The field goes from `start` to `end` of a row,
/// which must be places in it, in this order. The clause holds for the field after any number of others (`before`).
#[inline(always)]
fn text_at(separator: Separator, row: &[u8], start: usize, end: usize) -> TextAt
    requires { (start ≤ end) × (end ≤ length row.now) }
    ensures { (before : ℕ) → IsFieldAt separator before row.now start end → HasTextAt separator before row.now result }
{
    let (quotes, text) = text_in(separator, &row[start..end]);
    let first = start + quotes.len();
    TextAt {
        start: first,
        end: first + text.len(),
    }
}

/// Looks in a row for the field that comes after `before` others, and whether the row ends within quotes. It finds
/// `Return` if a carriage return is outside of quotes, else `Fewer` if the row has no such field, else the `Text` of
/// the field. The row is the first `count` bytes of a text, which must have so many. What `lacks` says must be true of
/// the row. If `lacks` says that the row lacks carriage returns, the row must have no line feeds either.
#[inline(always)]
pub fn look_at(separator: Separator, lacks: Lacks, text: &[u8], count: usize, before: usize) -> Look
    requires count { count ≤ length text.now }
    requires lacks { LacksIn (take count text.now) lacks }
    ensures { IsLookAt separator before (take count text.now) result }
{
    let row = &text[..count];
    let is_line = is_plain_line(separator, lacks, text, count);
    if !is_line && has_return(separator, row) {
        return Look {
            is_open: is_open(separator, lacks, text, count, 0),
            found: Found::Return,
        };
    }
    let is_plain = is_plain(separator, is_line, lacks);
    match field_at(separator, is_line, is_plain, text, count, before) {
        Some((start, end)) => Look {
            is_open: is_open(separator, lacks, text, count, start),
            found: Found::Text(text_at(separator, row, start, end)),
        },
        None => Look {
            is_open: is_open(separator, lacks, text, count, 0),
            found: Found::Fewer,
        },
    }
}
