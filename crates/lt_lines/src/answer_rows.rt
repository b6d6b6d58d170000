//! The line that answers a row, appended to the answers `lines`. A row is kept (`--keep`) if it stays as it is and two
//! fields are added; else the canonical text replaces the text of its field, and one field is added. `recent` has the
//! answers that were given lately; they are right (`AreRecent`) if each is the answer that is owed for its text.
ghost use Rattle.std.specs.Prelude.{◌≡◌, ◌≤◌, ◌++◌, ◌&&◌, [], IfOk, OnOk, length, take};
ghost use Rattle.lt_jar.specs.Lines.{content_of};
ghost use Rattle.lt_rows.specs.Looks.{HasTextAt, IsLookAt};
ghost use Rattle.lt_rows.specs.Rows.{HasReturn};
ghost use Rattle.lt_lines.specs.Answering.{AppendsHeadingReply, AppendsKept, AppendsReplyAmong, AppendsRowReply, AreRecent, EndsRefused};
ghost use Rattle.lt_lines.specs.Looks.{IsRowLook};
ghost use Rattle.lt_lines.specs.Owed.{end_of, ground_of, row_line, with_canonical};

use crate::answer_lines::{append_told, without_return};
use crate::bases::Basis;
use crate::forms::{LineForm, RowForm};
use crate::line_looks::{UNKNOWN, look_at_row};
use crate::recent_answers::{RecentAnswers, append_field};
use lt_canon::TextRefusal;
use lt_registry::Lookup;
use lt_rows::{Found, Look, Separator, TextAt, has_return};
use lt_tag::OutOfMemory;
use std::alloc::{AllocError, Global};

/// Appends the end of the answer to `line`: a line feed, after a carriage return if `line` ends with one.
#[inline(always)]
fn append_end(lines: &mut Vec<u8>, line: &[u8]) -> Result<(), AllocError>
    ensures { OnOk result (lines.new.items ≡ lines.old.items ++ end_of line.now) }
{
    match line.last() {
        Some(b'\r') => lines.extend_from_slice(b"\r\n"),
        _ => {
            lines.push(b'\n')?;
            Ok(())
        }
    }
}

/// Appends `row`, then `canonical` as a further field if rows are kept, then `last` as the last field, and the end of
/// the line. `line` is `row` with the carriage return that may end it, which the answer keeps.
#[inline(never)]
fn append_longer(
    lines: &mut Vec<u8>,
    is_kept: bool,
    separator: Separator,
    row: &[u8],
    canonical: &str,
    last: &str,
    line: &[u8],
) -> Result<(), AllocError>
    ensures { OnOk result (lines.new.items ≡ lines.old.items ++ row_line separator (with_canonical is_kept separator row.now canonical.now) last.now line.now) }
{
    lines.extend_from_slice(row)?;
    if is_kept {
        lines.push(separator.byte())?;
        lines.extend_from_slice(canonical.as_bytes())?;
    }
    lines.push(separator.byte())?;
    lines.extend_from_slice(last.as_bytes())?;
    append_end(lines, line)
}

/// Ends the answer to a row, after its canonical text: appends `after`, a separator with an empty field (no fault), and the
/// line end of `line`. `after` is the rest of the row behind the text of its tag, if the canonical text replaced that;
/// it is empty if the row was kept (`--keep`).
#[inline(always)]
fn end_answered(
    lines: &mut Vec<u8>,
    separator: Separator,
    after: &[u8],
    line: &[u8],
) -> Result<(), AllocError>
    ensures { OnOk result (lines.new.items ≡ lines.old.items ++ row_line separator after.now [] line.now) }
{
    lines.extend_from_slice(after)?;
    lines.push(separator.byte())?;
    append_end(lines, line)
}

/// Ends the answer to a row that is refused: appends `text`, a separator with a field that says why, and the line end of
/// `line`. `text` is the rest of the row, from the text of its tag on; it is empty if the row was kept (`--keep`).
#[inline(never)]
fn end_refused(
    lines: &mut Vec<u8>,
    separator: Separator,
    refusal: &TextRefusal,
    text: &[u8],
    line: &[u8],
) -> Result<(), OutOfMemory>
    ensures { OnOk result (EndsRefused separator refusal.now text.now line.now lines.old.items lines.new.items) }
{
    lines.extend_from_slice(text)?;
    lines.push(separator.byte())?;
    append_told(lines, refusal)?;
    append_end(lines, line)?;
    Ok(())
}

/// Appends a row as it is, and two fields after it: the canonical text of its tag and an empty one, or an empty one and
/// why the tag is refused. Tells whether it is refused. The tag is the first `count` bytes of `text` (which must have
/// so many); what follows them changes no answer, but lets 32 bytes be looked at together. `line` is the line of the
/// row. If the answers in `recent` are right, so is this one, and they stay right.
#[inline(never)]
fn append_kept<L: Lookup>(
    lines: &mut Vec<u8>,
    alloc: Global,
    basis: &Basis<'_, L>,
    separator: Separator,
    form: RowForm,
    recent: &mut RecentAnswers,
    text: &[u8],
    count: usize,
    line: &[u8],
) -> Result<bool, OutOfMemory>
    requires { count ≤ length text.now }
    ensures owed { IfOk result (λ refused. AreRecent (L.listed basis.now.checked.now) (LineForm.Row form) recent.old
        → AppendsKept separator (ground_of L.listed basis.now) (take count text.now) line.now lines.old.items lines.new.items refused) }
    ensures recent { OnOk result (AreRecent (L.listed basis.now.checked.now) (LineForm.Row form) recent.old
        → AreRecent (L.listed basis.now.checked.now) (LineForm.Row form) recent.new) }
{
    lines.extend_from_slice(without_return(line))?;
    lines.push(separator.byte())?;
    match append_field(lines, alloc, basis, form, recent, text, count)? {
        None => {
            end_answered(lines, separator, b"", line)?;
            Ok(false)
        }
        Some(refusal) => {
            end_refused(lines, separator, &refusal, b"", line)?;
            Ok(true)
        }
    }
}

/// Appends the answer to a row whose tag stands at `place`, and tells whether the tag is refused. The row's line is the
/// first `count` bytes of `text` (which must have so many), and must have no carriage return outside of quotes but one
/// that ends it. What follows them changes no answer, but lets 32 bytes be looked at together. If the answers in
/// `recent` are right, so is this one, and they stay right. `LineForm.Row` stands in the clauses for both forms, as the
/// same is kept of the fields of rows and of records of CSV.
#[inline(always)]
fn append_found<L: Lookup>(
    lines: &mut Vec<u8>,
    alloc: Global,
    basis: &Basis<'_, L>,
    separator: Separator,
    form: RowForm,
    recent: &mut RecentAnswers,
    place: TextAt,
    text: &[u8],
    count: usize,
) -> Result<bool, OutOfMemory>
    requires count { count ≤ length text.now }
    requires place { HasTextAt separator form.before (content_of (take count text.now)) place }
    requires none { HasReturn separator (content_of (take count text.now)) → ⊥ }
    ensures owed { IfOk result (λ refused. AreRecent (L.listed basis.now.checked.now) (LineForm.Row form) recent.old
        → AppendsRowReply separator (ground_of L.listed basis.now) form (take count text.now) lines.old.items lines.new.items refused) }
    ensures recent { OnOk result (AreRecent (L.listed basis.now.checked.now) (LineForm.Row form) recent.old
        → AreRecent (L.listed basis.now.checked.now) (LineForm.Row form) recent.new) }
{
    let line = &text[..count];
    let row = without_return(line);
    let field = &text[place.start..];
    let length = place.end - place.start;
    if form.is_kept {
        return append_kept(
            lines, alloc, basis, separator, form, recent, field, length, line,
        );
    }
    lines.extend_from_slice(&row[..place.start])?;
    match append_field(lines, alloc, basis, form, recent, field, length)? {
        None => {
            end_answered(lines, separator, &row[place.end..], line)?;
            Ok(false)
        }
        Some(refusal) => {
            let rest = &row[place.start..];
            end_refused(lines, separator, &refusal, rest, line)?;
            Ok(true)
        }
    }
}

/// Looks at a row whose front was kept from an earlier piece, so that it isn't known whether its bytes lack carriage
/// returns or quotes. The row's line is the first `count` bytes of `text` (which must have so many), and `before` is
/// how many fields come before that of the tag.
#[inline(never)]
fn look_at_kept(separator: Separator, before: usize, text: &[u8], count: usize) -> Look
    requires { count ≤ length text.now }
    ensures { IsLookAt separator before (content_of (take count text.now)) result }
{
    look_at_row(separator, UNKNOWN, before, text, count)
}

/// What the look at a row found: `look`, or, if it is None, a look at the first `count` bytes of `text` (which must
/// have so many). `look` must be one at the same bytes for the same field. `before` is how many fields come before that
/// of the tag.
#[inline(always)]
fn looked_at(
    separator: Separator,
    before: usize,
    look: &Option<Look>,
    text: &[u8],
    count: usize,
) -> Look
    requires count { count ≤ length text.now }
    requires look { IsRowLook separator before (take count text.now) look.now }
    ensures { IsLookAt separator before (content_of (take count text.now)) result }
{
    match look {
        Some(look) => *look,
        None => look_at_kept(separator, before, text, count),
    }
}

/// Appends the answer to a row, and tells whether it is refused: `BadReturn` and `NoColumn` are told in its last field,
/// and so is the refusal of its tag. The row's line is the first `count` bytes of `text` (which must have so many);
/// what follows them changes no answer, but lets up to 64 bytes be looked at together. `look` must be the look at it,
/// if there was one. If the answers in `recent` are right, so is this one, and they stay right; `LineForm.Row` stands
/// in the clauses for both forms of rows.
#[inline(always)]
fn append_row<L: Lookup>(
    lines: &mut Vec<u8>,
    alloc: Global,
    basis: &Basis<'_, L>,
    separator: Separator,
    form: RowForm,
    recent: &mut RecentAnswers,
    look: &Option<Look>,
    text: &[u8],
    count: usize,
) -> Result<bool, OutOfMemory>
    requires count { count ≤ length text.now }
    requires look { IsRowLook separator form.before (take count text.now) look.now }
    ensures owed { IfOk result (λ refused. AreRecent (L.listed basis.now.checked.now) (LineForm.Row form) recent.old
        → AppendsRowReply separator (ground_of L.listed basis.now) form (take count text.now) lines.old.items lines.new.items refused) }
    ensures recent { OnOk result (AreRecent (L.listed basis.now.checked.now) (LineForm.Row form) recent.old
        → AreRecent (L.listed basis.now.checked.now) (LineForm.Row form) recent.new) }
{
    let line = &text[..count];
    let row = without_return(line);
    match looked_at(separator, form.before, look, text, count).found {
        Found::Return => {
            append_longer(lines, form.is_kept, separator, row, "", "BadReturn", line)?;
            Ok(true)
        }
        Found::Fewer => {
            append_longer(lines, form.is_kept, separator, row, "", "NoColumn", line)?;
            Ok(true)
        }
        Found::Text(place) => append_found(
            lines, alloc, basis, separator, form, recent, place, text, count,
        ),
    }
}

/// Appends the answer to `line`, a heading: the heading, and the names of the fields that are added, `langtag` (only if
/// rows are kept) and `langtag_fault`. Tells whether the heading is refused. It is, with `BadReturn`, if a carriage
/// return is in it outside of quotes.
#[inline(never)]
fn append_heading(
    lines: &mut Vec<u8>,
    is_kept: bool,
    separator: Separator,
    line: &[u8],
) -> Result<bool, AllocError>
    ensures { IfOk result (λ refused. AppendsHeadingReply is_kept separator line.now lines.old.items lines.new.items refused) }
{
    let heading = without_return(line);
    if has_return(separator, heading) {
        append_longer(lines, is_kept, separator, heading, "", "BadReturn", line)?;
        return Ok(true);
    }
    append_longer(
        lines,
        is_kept,
        separator,
        heading,
        "langtag",
        "langtag_fault",
        line,
    )?;
    Ok(false)
}

/// Appends the answer to a line, and tells whether it is refused. The line is a heading if it is the first of all
/// (`is_first`) and the form has one; else it is a row. It is the first `count` bytes of `text` (which must have so
/// many); what follows them changes no answer, but lets up to 64 bytes be looked at together. `look` must be the look
/// at it, if there was one. If the answers in `recent` are right, so is this one, and they stay right; `LineForm.Row`
/// stands in the clauses for both forms of rows.
#[inline(always)]
pub(crate) fn append_among<L: Lookup>(
    lines: &mut Vec<u8>,
    alloc: Global,
    basis: &Basis<'_, L>,
    separator: Separator,
    form: RowForm,
    is_first: bool,
    recent: &mut RecentAnswers,
    look: &Option<Look>,
    text: &[u8],
    count: usize,
) -> Result<bool, OutOfMemory>
    requires count { count ≤ length text.now }
    requires look { IsRowLook separator form.before (take count text.now) look.now }
    ensures owed { IfOk result (λ refused. AreRecent (L.listed basis.now.checked.now) (LineForm.Row form) recent.old
        → AppendsReplyAmong separator (ground_of L.listed basis.now) form (form.has_heading && is_first) (take count text.now) lines.old.items lines.new.items refused) }
    ensures recent { OnOk result (AreRecent (L.listed basis.now.checked.now) (LineForm.Row form) recent.old
        → AreRecent (L.listed basis.now.checked.now) (LineForm.Row form) recent.new) }
{
    if form.has_heading && is_first {
        let refused = append_heading(lines, form.is_kept, separator, &text[..count])?;
        return Ok(refused);
    }
    append_row(
        lines, alloc, basis, separator, form, recent, look, text, count,
    )
}
