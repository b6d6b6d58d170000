//! What a registry says of texts.
ghost use Rattle.std.specs.Prelude.{◌≡◌, IfOk, IfErr, OnOk};
ghost use Rattle.lt_tag.specs.Faults.{HasTag};
ghost use Rattle.lt_canon.specs.Texts.{IsTextRefusal};
ghost use Rattle.bcp47_c.specs.Ends.{Classifies};
ghost use Rattle.lt_canon.specs.TextAnswers.{IsEqualityOf, IsExtlangTextOf, IsPairRefusal, IsValidityRefusal};
ghost use Rattle.bcp47_c.specs.Records.{AreRowsOf};
ghost use Rattle.bcp47_c.specs.Texts.{IsReadingRefusal, IsStepCount, IsValidText};
ghost use Rattle.bcp47_c.specs.Traces.{IsPairReadingRefusal};

use crate::numbers::{DONE, class};
use crate::outcomes::{Outcome, Said, deliver, refuse};
use bcp47::{Record, Refusal, Registry, Tag, TextRefusal, append_tag};
use std::alloc::Global;

/// Puts the text of the extlang form of the tag that a text is read as (RFC 5646, 4.5) into `extlang`, in place of what
/// that held; or answers why there is none.
pub(crate) fn write_extlang(
    alloc: Global,
    registry: &Registry,
    text: &[u8],
    extlang: &mut Vec<u8>,
) -> Result<(), TextRefusal>
    ensures written { OnOk result (IsExtlangTextOf registry.now text.now extlang.new.items) }
    ensures refusal { IfErr result (λ refusal. IsTextRefusal registry.now text.now refusal) }
{
    let tag = Tag::read(alloc, text)?;
    let form = registry.extlang_form(alloc, &tag)?;
    extlang.clear();
    append_tag(extlang, &form)?;
    Ok(())
}

/// Writes the text, in conventional case, of the tag that a text is read as, and tells its class, or why it is no tag.
/// `shown` is room in which the text is made before it goes to the buffer.
pub(crate) fn classify(
    alloc: Global,
    text: &[u8],
    shown: &mut Vec<u8>,
    buffer: &mut [u8],
) -> Outcome
    ensures { Classifies text.now buffer.old buffer.new result }
{
    let tag = match Tag::read(alloc, text) {
        Ok(tag) => tag,
        Err(fault) => return refuse(&TextRefusal::from(fault), buffer),
    };
    shown.clear();
    if append_tag(shown, &tag).is_err() {
        return refuse(&TextRefusal::OutOfMemory, buffer);
    }
    let said = Said {
        status: DONE,
        detail: class(tag.class()),
        place: 0,
    };
    deliver(said, shown, buffer)
}

/// The number of steps in the explanation of the tag that a text is read as, or why there is none.
pub(crate) fn step_count(
    alloc: Global,
    registry: &Registry,
    text: &[u8],
) -> Result<usize, TextRefusal>
    ensures count { IfOk result (λ count. IsStepCount registry.now text.now count) }
    ensures refusal { IfErr result (λ refusal. IsTextRefusal registry.now text.now refusal) }
{
    let tag = Tag::read(alloc, text)?;
    let trace = registry.explain(alloc, &tag)?;
    Ok(trace.steps.len())
}

/// What a registry has for the parts of the tag that a text is read as, with the fields of these records, as an array
/// of JSON. Refused if the text is no tag or memory runs out.
pub(crate) fn rows_text(
    alloc: Global,
    registry: &Registry,
    records: &[Record],
    text: &[u8],
) -> Result<Vec<u8>, TextRefusal>
    ensures rows { IfOk result (λ rows. AreRowsOf registry.now records.now text.now rows.items) }
    ensures refusal { IfErr result (IsReadingRefusal text.now) }
{
    let tag = Tag::read(alloc, text)?;
    let mut rows = Vec::new(alloc);
    registry.append_rows(alloc, records, &tag, &mut rows)?;
    Ok(rows)
}

/// Checks that the tag that a text is read as is valid (RFC 5646, 2.2.9). Refused with what is wrong with the text or
/// the tag, or for lack of memory.
pub(crate) fn validity(alloc: Global, registry: &Registry, text: &[u8]) -> Result<(), TextRefusal>
    ensures valid { OnOk result (IsValidText registry.now text.now) }
    ensures refusal { IfErr result (λ refusal. IsValidityRefusal registry.now text.now refusal) }
{
    let tag = Tag::read(alloc, text)?;
    match registry.validate(alloc, &tag) {
        Ok(()) => Ok(()),
        Err(refused) => Err(TextRefusal::from(Refusal::from(refused))),
    }
}

/// Whether the tags that two texts are read as are equivalent, or why a text is no tag or a tag is refused.
pub(crate) fn equality(
    alloc: Global,
    registry: &Registry,
    first: &[u8],
    second: &[u8],
) -> Result<bool, TextRefusal>
    ensures answer { IfOk result (IsEqualityOf registry.now first.now second.now) }
    ensures refusal { IfErr result (λ refusal. IsPairRefusal registry.now first.now second.now refusal) }
{
    let tag = Tag::read(alloc, first)?;
    let other = Tag::read(alloc, second)?;
    Ok(registry.equivalent(alloc, &tag, &other)?)
}

/// The tags that two texts are read as, or why one of them is none, the first or else the second.
pub(crate) fn read_pair(
    alloc: Global,
    first: &[u8],
    second: &[u8],
) -> Result<(Tag, Tag), TextRefusal>
    ensures tags { IfOk result (λ tags. HasTag first.now tags.0 × HasTag second.now tags.1) }
    ensures refusal { IfErr result (IsPairReadingRefusal first.now second.now) }
{
    let tag = Tag::read(alloc, first)?;
    let other = Tag::read(alloc, second)?;
    Ok((tag, other))
}
