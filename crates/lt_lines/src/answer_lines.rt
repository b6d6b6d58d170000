//! The line that answers a text, appended to the answers `lines`. Of a refusal its name is told, and then the place of
//! the fault or the variant that steps can repeat.
ghost use Rattle.std.specs.Prelude.{◌≡◌, ◌≤◌, ◌++◌, IfOk, OnOk, vec_len};
ghost use Rattle.std.specs.Fmt.{decimal};
ghost use Rattle.lt_jar.specs.Lines.{content_of};
ghost use Rattle.lt_cache.specs.Ends.{AreEnds};
ghost use Rattle.lt_lines.specs.Answering.{AppendsTextReply};
ghost use Rattle.lt_lines.specs.Refusals.{AppendsRefusal, AppendsTold};

use itoa::Buffer;
use lt_cache::RecentEnds;
use lt_canon::{Checked, TextRefusal};
use lt_registry::Lookup;
use lt_tag::OutOfMemory;
use std::alloc::{AllocError, Global};

/// Appends a number in decimal.
fn append_number(lines: &mut Vec<u8>, number: u32) -> Result<(), AllocError>
    ensures { OnOk result (lines.new.items ≡ lines.old.items ++ decimal number) }
{
    lines.extend_from_slice(Buffer::new().format(number).as_bytes())
}

/// Appends the name of a refusal, a space, and the place of the fault or the variant that steps can repeat. Refused where
/// memory runs out, and for `TextRefusal::OutOfMemory`; a part may then have been appended.
pub(crate) fn append_told(lines: &mut Vec<u8>, refusal: &TextRefusal) -> Result<(), OutOfMemory>
    ensures { OnOk result (AppendsTold refusal.now lines.old.items lines.new.items) }
{
    lines.extend_from_slice(refusal.name().as_bytes())?;
    lines.push(b' ')?;
    match refusal {
        TextRefusal::NotATag(fault) => append_number(lines, fault.place)?,
        TextRefusal::Invalid(fault) => append_number(lines, fault.place)?,
        TextRefusal::ReplacementRepeats(variant) => lines.extend_from_slice(variant.bytes())?,
        TextRefusal::OutOfMemory => return Err(OutOfMemory),
    }
    Ok(())
}

/// Appends the line of a refusal: `! `, its name, a space, the place of the fault or the variant that steps can repeat, and a
/// line feed, for example `! BadByte 1`. Refused where memory runs out, and for `TextRefusal::OutOfMemory`, which has no
/// line; a part of the line may then have been appended.
pub fn append_refusal(lines: &mut Vec<u8>, refusal: &TextRefusal) -> Result<(), OutOfMemory>
    ensures { OnOk result (AppendsRefusal refusal.now lines.old.items lines.new.items) }
{
    lines.extend_from_slice(b"! ")?;
    append_told(lines, refusal)?;
    lines.push(b'\n')?;
    Ok(())
}

/// The line without the carriage return that may end it.
pub(crate) fn without_return(line: &[u8]) -> &[u8]
    ensures { result.now ≡ content_of line.now }
{
    match line.last() {
        Some(b'\r') => &line[..line.len() - 1],
        _ => line,
    }
}

/// Appends the line that answers a text, its canonical text or `! ` and its refusal, and tells whether it was refused.
/// `ends` are the ends of canonical texts, for example `-u-nu-latn`, that were found lately. If they are right
/// (`AreEnds`), so is the answer (`owed`), and they stay right (`ends`). In any case `lines` gets no shorter (`grown`).
/// Refused where memory runs out.
#[tactic(auto, using(crate::proofs::TextLemmas::canonical_reply))]
pub(crate) fn append_answer<L: Lookup>(
    lines: &mut Vec<u8>,
    alloc: Global,
    checked: &Checked<L>,
    ends: &mut RecentEnds,
    text: &[u8],
) -> Result<bool, OutOfMemory>
    ensures owed { IfOk result (λ refused. AreEnds (L.listed checked.now) ends.old → AppendsTextReply (L.listed checked.now) text.now lines.old.items lines.new.items refused) }
    ensures grown { OnOk result (vec_len lines.old ≤ vec_len lines.new) }
    ensures ends { AreEnds (L.listed checked.now) ends.old → AreEnds (L.listed checked.now) ends.new }
{
    match ends.append_canonical_text(alloc, checked, text, lines) {
        Ok(()) => {
            lines.push(b'\n')?;
            Ok(false)
        }
        Err(TextRefusal::OutOfMemory) => Err(OutOfMemory),
        Err(refusal) => {
            append_refusal(lines, &refusal)?;
            Ok(true)
        }
    }
}
