//! Answers that were given lately, so that they are not worked out again. They are right (`AreRecent`) if each is the
//! answer that is owed for its text.
ghost use Rattle.std.specs.Prelude.{◌≡◌, ◌≤◌, false, IfOk, IsTrue, List, MatchOption, OnOk, length, take};
ghost use Rattle.lt_registry.specs.Parts.{EntryParts};
ghost use Rattle.lt_codes.specs.Codes.{registered_text};
ghost use Rattle.lt_lines.specs.Answering.{AppendsTextReply, AreRecent, FieldReply};
ghost use Rattle.lt_lines.specs.Owed.{codes_in};

use crate::answer_lines::append_answer;
use crate::bases::Basis;
use crate::forms::{LineForm, RowForm};
use lt_cache::{Recent, RecentEnds};
use lt_canon::{Checked, TextRefusal, append_usual_text};
use lt_codes::CodeTable;
use lt_registry::Lookup;
use lt_tag::OutOfMemory;
use std::alloc::{AllocError, Global};

/// Answers that were given lately: those to whole texts (lines or fields), and canonical ends of texts, for example
/// `-u-nu-latn`.
#[derive(Drop)]
pub(crate) struct RecentAnswers {
    whole: Recent,
    ends: RecentEnds,
}

impl RecentAnswers {
    /// No answers so far, so that they are right by any entries `R` and form.
    pub(crate) fn new(alloc: Global) -> RecentAnswers
        ensures { (R : List EntryParts) (form : LineForm) → AreRecent R form result }
    {
        RecentAnswers {
            whole: Recent::new(alloc),
            ends: RecentEnds::new(alloc),
        }
    }
}

/// The text with the code that is its first subtag replaced by the subtag that the table has for the code. None if the
/// table has no such code, so that the text stays as it is. Refused where memory runs out.
fn replaced_text(
    alloc: Global,
    codes: &CodeTable,
    text: &[u8],
) -> Result<Option<Vec<u8>>, AllocError>
    ensures { IfOk result (λ found. MatchOption found (registered_text codes.now text.now ≡ text.now) (λ other. other.items ≡ registered_text codes.now text.now)) }
{
    let mut other = Vec::new(alloc);
    if codes.replace(text, &mut other)? {
        Ok(Some(other))
    } else {
        Ok(None)
    }
}

/// Appends the answer to a tag, and tells whether it was refused. The tag is the first `count` bytes of `text` (which
/// must have so many), read with the basis's table of codes if there is one; what follows them changes no answer, but
/// lets 32 bytes be looked at together. If the answers in `recent` are right, so is this one, and they stay right.
pub(crate) fn append_again<L: Lookup>(
    lines: &mut Vec<u8>,
    alloc: Global,
    basis: &Basis<'_, L>,
    recent: &mut RecentAnswers,
    text: &[u8],
    count: usize,
) -> Result<bool, OutOfMemory>
    requires { count ≤ length text.now }
    ensures owed { IfOk result (λ refused. AreRecent (L.listed basis.now.checked.now) LineForm.Tag recent.old
        → AppendsTextReply (L.listed basis.now.checked.now) (registered_text (codes_in basis.now.codes) (take count text.now)) lines.old.items lines.new.items refused) }
    ensures recent { OnOk result (AreRecent (L.listed basis.now.checked.now) LineForm.Tag recent.old
        → AreRecent (L.listed basis.now.checked.now) LineForm.Tag recent.new) }
{
    match basis.codes {
        None => append_read(lines, alloc, basis.checked, recent, text, count),
        Some(codes) => append_replaced(lines, alloc, basis.checked, codes, recent, text, count),
    }
}

/// Appends the answer to a tag, the first `count` bytes of `text` (which must have so many), read with the codes of a
/// table, and tells whether it was refused. What follows in `text` changes no answer, but lets 32 bytes be looked at
/// together. If the answers in `recent` are right, so is this one, and they stay right.
#[inline(never)]
fn append_replaced<L: Lookup>(
    lines: &mut Vec<u8>,
    alloc: Global,
    checked: &Checked<L>,
    codes: &CodeTable,
    recent: &mut RecentAnswers,
    text: &[u8],
    count: usize,
) -> Result<bool, OutOfMemory>
    requires { count ≤ length text.now }
    ensures owed { IfOk result (λ refused. AreRecent (L.listed checked.now) LineForm.Tag recent.old
        → AppendsTextReply (L.listed checked.now) (registered_text codes.now (take count text.now)) lines.old.items lines.new.items refused) }
    ensures recent { OnOk result (AreRecent (L.listed checked.now) LineForm.Tag recent.old
        → AreRecent (L.listed checked.now) LineForm.Tag recent.new) }
{
    match replaced_text(alloc, codes, &text[..count])? {
        None => append_read(lines, alloc, checked, recent, text, count),
        Some(other) => append_read(lines, alloc, checked, recent, &other, other.len()),
    }
}

/// Appends the answer to a tag, the first `count` bytes of `text` (which must have so many), and tells whether it was
/// refused. A text of the usual form (a language, perhaps a script, and perhaps a region) whose subtags stay as they
/// are is answered at once. Another answer that was given lately is not worked out again: if `text` has at least 32
/// bytes, it is looked for without a copy. If the answers in `recent` are right, so is this one, and they stay right.
#[inline(always)]
fn append_read<L: Lookup>(
    lines: &mut Vec<u8>,
    alloc: Global,
    checked: &Checked<L>,
    recent: &mut RecentAnswers,
    text: &[u8],
    count: usize,
) -> Result<bool, OutOfMemory>
    requires { count ≤ length text.now }
    ensures owed { IfOk result (λ refused. AreRecent (L.listed checked.now) LineForm.Tag recent.old
        → AppendsTextReply (L.listed checked.now) (take count text.now) lines.old.items lines.new.items refused) }
    ensures recent { OnOk result (AreRecent (L.listed checked.now) LineForm.Tag recent.old
        → AreRecent (L.listed checked.now) LineForm.Tag recent.new) }
{
    if append_usual_answer(lines, checked, &text[..count])? {
        return Ok(false);
    }
    append_found(lines, alloc, checked, recent, text, count)
}

/// Appends the answer to a text of the usual form whose subtags stay as they are, for example `zh-Hant-TW`, and gives
/// true. For any other text it appends nothing and gives false. Refused where memory runs out. The usual form is that
/// of `append_usual_text`: a language, perhaps a script, and perhaps a region.
#[tactic(auto, using(crate::proofs::TextLemmas::canonical_reply))]
#[inline(always)]
fn append_usual_answer<L: Lookup>(
    lines: &mut Vec<u8>,
    checked: &Checked<L>,
    text: &[u8],
) -> Result<bool, OutOfMemory>
    ensures owed { IfOk result (λ told. IsTrue told → AppendsTextReply (L.listed checked.now) text.now lines.old.items lines.new.items false) }
    ensures unchanged { IfOk result (λ told. told ≡ false → lines.new.items ≡ lines.old.items) }
{
    let told = append_usual_text(checked, text, lines)?;
    if told {
        lines.push(b'\n')?;
    }
    Ok(told)
}

/// Appends the answer to a tag, the first `count` bytes of `text` (which must have so many), and tells whether it was
/// refused. An answer that was given lately is taken; any other is worked out and put with those. What follows in
/// `text` changes no answer, but lets 32 bytes be looked at together. If the answers in `recent` are right, so is this
/// one, and they stay right.
fn append_found<L: Lookup>(
    lines: &mut Vec<u8>,
    alloc: Global,
    checked: &Checked<L>,
    recent: &mut RecentAnswers,
    text: &[u8],
    count: usize,
) -> Result<bool, OutOfMemory>
    requires { count ≤ length text.now }
    ensures owed { IfOk result (λ refused. AreRecent (L.listed checked.now) LineForm.Tag recent.old
        → AppendsTextReply (L.listed checked.now) (take count text.now) lines.old.items lines.new.items refused) }
    ensures recent { OnOk result (AreRecent (L.listed checked.now) LineForm.Tag recent.old
        → AreRecent (L.listed checked.now) LineForm.Tag recent.new) }
{
    if let Some(found) = recent.whole.find(text, count) {
        found.answer.append_to(lines)?;
        let refused = found.refused;
        recent.whole.note_again();
        return Ok(refused);
    }
    let text = &text[..count];
    let start = lines.len();
    let refused = append_answer(lines, alloc, checked, &mut recent.ends, text)?;
    recent.whole.put(text, &lines[start..], refused);
    Ok(refused)
}

/// Appends the canonical text of a field and gives None, or gives why it is refused. The field is the first `count`
/// bytes of `rest` (which must have so many), read with the basis's table of codes if there is one; what follows them
/// changes no answer, but lets 32 bytes be looked at together. If the answers in `recent` are right for rows of the
/// form `row`, which only the clauses use, so is this one, and they stay right.
#[inline(always)]
pub(crate) fn append_field<L: Lookup>(
    lines: &mut Vec<u8>,
    alloc: Global,
    basis: &Basis<'_, L>,
    row: RowForm,
    recent: &mut RecentAnswers,
    rest: &[u8],
    count: usize,
) -> Result<Option<TextRefusal>, OutOfMemory>
    requires { count ≤ length rest.now }
    ensures owed { IfOk result (λ refusal. AreRecent (L.listed basis.now.checked.now) (LineForm.Row row) recent.old
        → FieldReply (L.listed basis.now.checked.now) (registered_text (codes_in basis.now.codes) (take count rest.now)) lines.old.items lines.new.items refusal) }
    ensures recent { OnOk result (AreRecent (L.listed basis.now.checked.now) (LineForm.Row row) recent.old
        → AreRecent (L.listed basis.now.checked.now) (LineForm.Row row) recent.new) }
{
    match basis.codes {
        None => append_read_field(lines, alloc, basis.checked, row, recent, rest, count),
        Some(codes) => {
            append_replaced_field(lines, alloc, basis.checked, codes, row, recent, rest, count)
        }
    }
}

/// Appends the canonical text of a field, the first `count` bytes of `rest` (which must have so many) read with the
/// codes of a table, and gives None, or gives why it is refused. What follows in `rest` changes no answer, but lets 32
/// bytes be looked at together. If the answers in `recent` are right for rows of the form `row`, which only the clauses
/// use, so is this one, and they stay right.
#[inline(never)]
fn append_replaced_field<L: Lookup>(
    lines: &mut Vec<u8>,
    alloc: Global,
    checked: &Checked<L>,
    codes: &CodeTable,
    row: RowForm,
    recent: &mut RecentAnswers,
    rest: &[u8],
    count: usize,
) -> Result<Option<TextRefusal>, OutOfMemory>
    requires { count ≤ length rest.now }
    ensures owed { IfOk result (λ refusal. AreRecent (L.listed checked.now) (LineForm.Row row) recent.old
        → FieldReply (L.listed checked.now) (registered_text codes.now (take count rest.now)) lines.old.items lines.new.items refusal) }
    ensures recent { OnOk result (AreRecent (L.listed checked.now) (LineForm.Row row) recent.old
        → AreRecent (L.listed checked.now) (LineForm.Row row) recent.new) }
{
    match replaced_text(alloc, codes, &rest[..count])? {
        None => append_read_field(lines, alloc, checked, row, recent, rest, count),
        Some(other) => {
            append_read_field(lines, alloc, checked, row, recent, &other, other.len())
        }
    }
}

/// Appends the canonical text of a field, the first `count` bytes of `rest` (which must have so many), and gives None,
/// or gives why it is refused. A field of the usual form (a language, perhaps a script, and perhaps a region) whose
/// subtags stay as they are is answered at once. Another canonical text that was found lately is not worked out again:
/// if `rest` has at least 32 bytes, it is looked for without a copy. If the answers in `recent` are right for rows of
/// the form `row`, which only the clauses use, so is this one, and they stay right.
#[inline(always)]
fn append_read_field<L: Lookup>(
    lines: &mut Vec<u8>,
    alloc: Global,
    checked: &Checked<L>,
    row: RowForm,
    recent: &mut RecentAnswers,
    rest: &[u8],
    count: usize,
) -> Result<Option<TextRefusal>, OutOfMemory>
    requires { count ≤ length rest.now }
    ensures owed { IfOk result (λ refusal. AreRecent (L.listed checked.now) (LineForm.Row row) recent.old
        → FieldReply (L.listed checked.now) (take count rest.now) lines.old.items lines.new.items refusal) }
    ensures recent { OnOk result (AreRecent (L.listed checked.now) (LineForm.Row row) recent.old
        → AreRecent (L.listed checked.now) (LineForm.Row row) recent.new) }
{
    if append_usual_text(checked, &rest[..count], lines)? {
        return Ok(None);
    }
    append_found_field(lines, alloc, checked, row, recent, rest, count)
}

/// Appends the canonical text of a field, the first `count` bytes of `rest` (which must have so many), and gives None,
/// or gives why it is refused. A canonical text that was found lately is taken; any other is worked out and put with
/// those. What follows in `rest` changes no answer, but lets 32 bytes be looked at together. If the answers in `recent`
/// are right for rows of the form `row`, which only the clauses use, so is this one, and they stay right. It is not
/// inlined, so that the code of its caller, which a field that stays as it is takes, is short.
#[inline(never)]
fn append_found_field<L: Lookup>(
    lines: &mut Vec<u8>,
    alloc: Global,
    checked: &Checked<L>,
    row: RowForm,
    recent: &mut RecentAnswers,
    rest: &[u8],
    count: usize,
) -> Result<Option<TextRefusal>, OutOfMemory>
    requires { count ≤ length rest.now }
    ensures owed { IfOk result (λ refusal. AreRecent (L.listed checked.now) (LineForm.Row row) recent.old
        → FieldReply (L.listed checked.now) (take count rest.now) lines.old.items lines.new.items refusal) }
    ensures recent { OnOk result (AreRecent (L.listed checked.now) (LineForm.Row row) recent.old
        → AreRecent (L.listed checked.now) (LineForm.Row row) recent.new) }
{
    // For fields only canonical texts are put there, each with `false`: so what is found is never a refusal.
    if let Some(found) = recent.whole.find(rest, count) {
        found.answer.append_to(lines)?;
        recent.whole.note_again();
        return Ok(None);
    }
    let field = &rest[..count];
    let start = lines.len();
    match recent
        .ends
        .append_canonical_text(alloc, checked, field, lines)
    {
        Ok(()) => {
            recent.whole.put(field, &lines[start..], false);
            Ok(None)
        }
        Err(TextRefusal::OutOfMemory) => Err(OutOfMemory),
        Err(refusal) => Ok(Some(refusal)),
    }
}
