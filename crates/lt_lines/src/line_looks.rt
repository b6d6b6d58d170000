//! Lines of rows that are looked at before they are answered. A look finds whether the row ends within quotes, and
//! where the text of its field is, or why there is none.
ghost use Rattle.std.specs.Prelude.{◌≡◌, ◌≤◌, MatchOption, length, take};
ghost use Rattle.lt_jar.specs.Lines.{content_of};
ghost use Rattle.lt_rows.specs.Looks.{IsLookAt, LacksIn};
ghost use Rattle.lt_rows.specs.Quotes.{is_quoted};
ghost use Rattle.lt_lines.specs.Answering as spec;
ghost use Rattle.lt_lines.specs.Looks.{IsAhead, IsKnownToLack};

use crate::answer_lines::without_return;
use crate::forms::LineForm;
use lt_rows::{Lacks, Look, Place, Separator, after_text, lacks_of, look_at};

/// What is known to be lacking in a text of which nothing is known: neither carriage returns nor quotes.
pub(crate) const UNKNOWN: Lacks = Lacks {
    returns: false,
    quotes: false,
};

/// Which bytes the lines of a piece are known to lack: carriage returns and quotes. Only pieces of CSV are looked
/// through for them; of other pieces nothing is known.
pub(crate) fn lacks_in(form: LineForm, piece: &[u8]) -> Lacks
    ensures { IsKnownToLack piece.now result }
{
    match form {
        LineForm::Csv(_, _) => lacks_of(piece),
        LineForm::Tag | LineForm::Row(_) => UNKNOWN,
    }
}

/// Looks at a row for the field that comes after `before` others. The row's line is the first `count` bytes of `text`
/// (which must have so many); what follows them changes no answer, but lets 64 bytes be looked at together. `lacks`
/// must be true of the line: it is what the line is known to lack.
#[tactic(auto, using(crate::proofs::LookLemmas::content_short))]
#[inline(always)]
pub(crate) fn look_at_row(
    separator: Separator,
    lacks: Lacks,
    before: usize,
    text: &[u8],
    count: usize,
) -> Look
    requires count { count ≤ length text.now }
    requires lacks { LacksIn (take count text.now) lacks }
    ensures { IsLookAt separator before (content_of (take count text.now)) result }
{
    let row = without_return(&text[..count]);
    look_at(separator, lacks, text, row.len(), before)
}

/// Looks at a line of `form`, the first `count` bytes of `text` (which must have so many), before it is answered. What
/// follows them changes no answer, but lets 64 bytes be looked at together. `lacks` must be true of the line: it is
/// what the line is known to lack. None if it is no row or record, or if `kept` has a front of it.
#[inline(always)]
pub(crate) fn look_ahead(
    form: LineForm,
    lacks: Lacks,
    kept: &[u8],
    text: &[u8],
    count: usize,
) -> Option<Look>
    requires count { count ≤ length text.now }
    requires lacks { LacksIn (take count text.now) lacks }
    ensures { IsAhead form kept.now (take count text.now) result }
{
    if !kept.is_empty() {
        return None;
    }
    match form {
        LineForm::Tag => None,
        LineForm::Row(row) => { Some(look_at_row(Separator::Tab, lacks, row.before, text, count)) }
        LineForm::Csv(row, delimiter) => {
            let separator = Separator::Delimiter(delimiter);
            Some(look_at_row(separator, lacks, row.before, text, count))
        }
    }
}

/// The place in a line after the bytes of `part`, by the place before them. Only a record of CSV has places within quotes.
pub(crate) fn place_then(form: LineForm, place: Place, part: &[u8]) -> Place
    ensures { result ≡ spec.place_then form place part.now }
{
    match form {
        LineForm::Tag | LineForm::Row(_) => Place::Fresh,
        LineForm::Csv(_, delimiter) => after_text(delimiter, place, part),
    }
}

/// Whether a line feed after `part` is within quotes: as the look at the line found, or, without a look, by the place before
/// `part`.
#[inline(always)]
pub(crate) fn is_open(form: LineForm, look: &Option<Look>, place: Place, part: &[u8]) -> bool
    ensures { MatchOption look.now (result ≡ is_quoted (spec.place_then form place part.now)) (λ look. result ≡ look.is_open) }
{
    match look {
        Some(look) => look.is_open,
        None => place_then(form, place, part).is_quoted(),
    }
}
