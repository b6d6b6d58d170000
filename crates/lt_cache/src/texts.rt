//! Canonical texts.
ghost use Rattle.std.specs.Prelude.{◌≡◌, ◌++◌, false, IsTrue, IfOk, IfErr, OnOk, OnErr, ◌↔◌};
ghost use Rattle.lt_subtag.specs.Bytes.{folded};
ghost use Rattle.lt_tag.specs.Conventional.{conventional};
ghost use Rattle.lt_tag.specs.Lists.{list_of};
ghost use Rattle.lt_check.specs.Staying.{IsStaying};
ghost use Rattle.lt_check.specs.Conditions.{IsChecked};
ghost use Rattle.lt_canon.specs.Texts.{AppendsCanonicalText, IsTextRefusal};
ghost use Rattle.lt_cache.specs.Appending.{AppendsFront};
ghost use Rattle.lt_cache.specs.SettledEnds.{AppendsEndText};

use crate::ends::is_settled_end;
use crate::keyword_ends::keyword_end;
use crate::splitting::split_end;
use lt_canon::{Checked, TextRefusal, append_looked_up_text, append_usual_text};
use lt_registry::Lookup;
use lt_tag::OutOfMemory;
use std::alloc::Global;

/// The most bytes of a text that is read as a tag.
const LONGEST_TEXT: usize = 1024;

/// Appends to `texts` a front in conventional case if each of its subtags stays as it is, and gives true; else it
/// appends nothing.
#[inline(always)]
pub(crate) fn append_front<L: Lookup>(
    checked: &Checked<L>,
    front: &[u8],
    texts: &mut Vec<u8>,
) -> Result<bool, OutOfMemory>
    // `exact` and `appended` speak of the front as a text, and `told` as a canonical core.
    ensures checked { IsChecked (L.listed checked.now) }
    ensures exact { IfOk result (λ told. IsTrue told ↔ IsStaying (L.listed checked.now) front.now) }
    ensures appended { IfOk result (λ told. IsTrue told → texts.new.items ≡ texts.old.items ++ conventional (list_of front.now)) }
    ensures unchanged { IfOk result (λ told. told ≡ false → texts.new.items ≡ texts.old.items) }
    ensures told { IfOk result (AppendsFront (L.listed checked.now) front.now texts.old.items texts.new.items) }
    ensures kept { OnErr result (texts.new.items ≡ texts.old.items) }
{
    let told = checked.usual().append_text(front, texts)?;
    Ok(told)
}

/// Appends a text in lower case.
#[inline(always)]
pub(crate) fn append_lower(text: &[u8], texts: &mut Vec<u8>) -> Result<(), OutOfMemory>
    ensures appended { OnOk result (texts.new.items ≡ texts.old.items ++ folded text.now) }
    ensures kept { OnErr result (texts.new.items ≡ texts.old.items) }
{
    let start = texts.len();
    texts.extend_from_slice(text)?;
    texts[start..].make_ascii_lowercase();
    Ok(())
}

/// Appends the canonical form of an end that is keywords or private use, and gives true. For any other end, or if
/// memory runs out, it gives false and appends nothing. Memory of its own is taken only for keywords that don't stay as
/// they are. Such an end asks nothing of a registry, so what is appended is right by every registry that passes the
/// check.
#[tactic(auto, using(crate::proofs::SettledEnds::settled_appends))]
fn append_end(alloc: Global, end: &[u8], texts: &mut Vec<u8>) -> bool
    ensures appended { IsTrue result → AppendsEndText end.now texts.old.items texts.new.items }
    ensures unchanged { result ≡ false → texts.new.items ≡ texts.old.items }
{
    if is_settled_end(end) {
        return append_lower(end, texts).is_ok();
    }
    match keyword_end(alloc, end) {
        Ok(Some(text)) => texts.extend_from_slice(&text).is_ok(),
        _ => false,
    }
}

/// Appends the canonical text of a text without reading it as a tag, if its front stays as it is and its end is keywords or
/// private use. Such a front is a language, alone or with a script, a region or both, each of which stays as it is. Tells
/// whether it did; of any other text, or where memory runs out, it appends nothing.
fn append_settled_text<L: Lookup>(
    alloc: Global,
    checked: &Checked<L>,
    text: &[u8],
    texts: &mut Vec<u8>,
) -> bool
    ensures appended { IsTrue result → AppendsCanonicalText (L.listed checked.now) text.now texts.old.items texts.new.items }
    ensures unchanged { result ≡ false → texts.new.items ≡ texts.old.items }
{
    let Some((front, end)) = split_end(text, LONGEST_TEXT) else {
        return false;
    };
    let before = texts.len();
    match append_front(checked, front, texts) {
        Ok(true) => {}
        _ => return false,
    }
    if !append_end(alloc, end, texts) {
        texts.truncate(before);
        return false;
    }
    true
}

/// Appends the canonical text of any text; it is meant for those whose subtags don't all stay as they are. It is
/// refused as [`append_canonical_text`] refuses. It is not inlined, so that the other texts pay nothing for it.
#[inline(never)]
pub(crate) fn append_other_text<L: Lookup>(
    alloc: Global,
    checked: &Checked<L>,
    text: &[u8],
    texts: &mut Vec<u8>,
) -> Result<(), TextRefusal>
    ensures appended { OnOk result (AppendsCanonicalText (L.listed checked.now) text.now texts.old.items texts.new.items) }
    ensures refusal { IfErr result (λ refusal. IsTextRefusal (L.listed checked.now) text.now refusal) }
    ensures kept { OnErr result (texts.new.items ≡ texts.old.items) }
{
    if append_settled_text(alloc, checked, text, texts) {
        return Ok(());
    }
    append_looked_up_text(alloc, checked, text, texts)
}

/// Appends the text, in conventional case, of the canonical form of the tag that a text is read as (RFC 5646, 2.1.1 and
/// 4.5), with the refusals of [`lt_canon::append_canonical_text`]. A text such as `ar-u-nu-latn` or `en-GB-x-own` is not read
/// as a tag: its end is keywords or private use, and its front is a language, alone or with a script, a region or both, each
/// of which stays as it is.
pub fn append_canonical_text<L: Lookup>(
    alloc: Global,
    checked: &Checked<L>,
    text: &[u8],
    texts: &mut Vec<u8>,
) -> Result<(), TextRefusal>
    ensures appended { OnOk result (AppendsCanonicalText (L.listed checked.now) text.now texts.old.items texts.new.items) }
    ensures refusal { IfErr result (λ refusal. IsTextRefusal (L.listed checked.now) text.now refusal) }
    ensures kept { OnErr result (texts.new.items ≡ texts.old.items) }
{
    if append_usual_text(checked, text, texts)? {
        return Ok(());
    }
    append_other_text(alloc, checked, text, texts)
}
