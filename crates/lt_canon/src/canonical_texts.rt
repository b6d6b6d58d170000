//! Canonical texts: a text is read as a tag, and the canonical form of that tag is written.
ghost use Rattle.std.specs.Prelude.{◌≡◌, IfOk, IfErr, OnOk, OnErr};
ghost use Rattle.lt_canon.specs.Texts.{AppendsCanonicalText, IsCanonicalTextOf, IsTextRefusal, RefusesTextOnlyRepeats};

use crate::canonical_tags::canonical_of;
use crate::refusals::TextRefusal;
use crate::usual_texts::append_usual_text;
use lt_check::Checked;
use lt_registry::Lookup;
use lt_tag::{append_tag, read_tag};
use std::alloc::Global;

/// Appends to `texts` the text, in conventional case, of the canonical form of the tag that `text` is read as (RFC
/// 5646, 2.1.1 and 4.5). It is refused as `canonical_text` refuses, and then leaves `texts` as it was.
pub fn append_canonical_text<L: Lookup>(
    alloc: Global,
    checked: &Checked<L>,
    text: &[u8],
    texts: &mut Vec<u8>,
) -> Result<(), TextRefusal>
    ensures appended { OnOk result (AppendsCanonicalText (L.listed checked.now) text.now texts.old.items texts.new.items) }
    ensures refusal { IfErr result (λ refusal. IsTextRefusal (L.listed checked.now) text.now refusal) }
    ensures kept { OnErr result (texts.new.items ≡ texts.old.items) }
{
    if append_usual_text(checked, text, texts)? {
        return Ok(());
    }
    append_looked_up_text(alloc, checked, text, texts)
}

/// Appends to `texts` what [`append_canonical_text`] does, with the same refusals, without asking [`append_usual_text`]
/// first. It is for a text that `append_usual_text` did not append.
#[tactic(auto, using(crate::proofs::UsualForms::appended))]
pub fn append_looked_up_text<L: Lookup>(
    alloc: Global,
    checked: &Checked<L>,
    text: &[u8],
    texts: &mut Vec<u8>,
) -> Result<(), TextRefusal>
    ensures appended { OnOk result (AppendsCanonicalText (L.listed checked.now) text.now texts.old.items texts.new.items) }
    ensures refusal { IfErr result (λ refusal. IsTextRefusal (L.listed checked.now) text.now refusal) }
    ensures kept { OnErr result (texts.new.items ≡ texts.old.items) }
{
    let tag = read_tag(alloc, text)?;
    let form = canonical_of(alloc, checked, tag)?;
    append_tag(texts, &form)?;
    Ok(())
}

/// The text, in conventional case, of the canonical form of the tag that a text is read as (RFC 5646, 2.1.1 and
/// 4.5): `IW-il` gives `he-IL`.
///
/// - `NotATag`, with the fault that `read_tag` answers, exactly where the text is read as none.
/// - `Invalid` and `ReplacementRepeats` where `canonical` refuses the tag so.
/// - `OutOfMemory` where memory runs out.
#[tactic(auto, using(crate::proofs::CanonicalForms::text_repeats_answered))]
pub fn canonical_text<L: Lookup>(
    alloc: Global,
    checked: &Checked<L>,
    text: &[u8],
) -> Result<Vec<u8>, TextRefusal>
    ensures written { IfOk result (λ canonical. IsCanonicalTextOf (L.listed checked.now) text.now canonical.items) }
    ensures repeats { IfErr result (λ refusal. RefusesTextOnlyRepeats (L.listed checked.now) text.now refusal) }
    ensures refusal { IfErr result (λ refusal. IsTextRefusal (L.listed checked.now) text.now refusal) }
{
    let mut canonical = Vec::new(alloc);
    append_canonical_text(alloc, checked, text, &mut canonical)?;
    Ok(canonical)
}
