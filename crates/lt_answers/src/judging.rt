//! Judging one line of an explanation.
ghost use Rattle.std.specs.Prelude.{◌≡◌, ◌≢◌, ◌<◌, ◌≤◌, IfOk, MatchBool, length};
ghost use Rattle.lt_tag.specs.Texts.{text_of};
ghost use Rattle.lt_registry.specs.Validity.{IsProper};
ghost use Rattle.lt_answers.specs.Judging.{EndFlow, FlowIs, SettlesFront};

use crate::labels::{read_end, read_step};
use crate::verdicts::Verdict;
use lt_registry::Lookup;
use lt_rewrite::{ApplyFault, apply};
use lt_tag::{OutOfMemory, Tag, write_tag};
use std::alloc::Global;

/// How judging goes on after a line.
#[derive(Drop)]
pub(crate) enum Flow {
    /// The line is right, and leads on to this tag.
    Leads(Tag),
    /// The line is that of the end, and right.
    Ends,
    /// Whatever lines follow, this is the verdict.
    Settled(Verdict),
}

/// Whether `text` is the text of a tag in conventional case.
fn is_text_of(alloc: Global, tag: &Tag, text: &[u8]) -> Result<bool, OutOfMemory>
    ensures { IfOk result (λ same. MatchBool same (text.now ≡ text_of tag.now) (text.now ≢ text_of tag.now)) }
{
    let written = write_tag(alloc, tag)?;
    Ok(text == written.as_slice())
}

/// Whether `text` is longer than the text of a tag in conventional case.
fn is_longer(alloc: Global, tag: &Tag, text: &[u8]) -> Result<bool, OutOfMemory>
    ensures { IfOk result (λ longer. MatchBool longer (length (text_of tag.now) < length text.now) (length text.now ≤ length (text_of tag.now))) }
{
    let written = write_tag(alloc, tag)?;
    Ok(written.len() < text.len())
}

/// Judges the line that says that the explanation ends with `text`. That is right if `text` is the text of `here`, the
/// tag to which the lines before it lead; else the verdict is `WrongEnd`.
fn judge_end(alloc: Global, here: &Tag, text: &[u8]) -> Result<Flow, OutOfMemory>
    ensures { IfOk result (EndFlow here.now text.now) }
{
    if is_text_of(alloc, here, text)? {
        Ok(Flow::Ends)
    } else {
        Ok(Flow::Settled(Verdict::WrongEnd))
    }
}

/// Judges a line of an explanation. `here` is the tag to which the lines before it lead, which must be proper, and
/// `number` is the number of the line, counted from 1. The verdict is `WrongEnd` for the line of an end with another
/// text than that of `here`, `NoSuchStep` for a step that does not lead on from `here`, and `BadStep` for any other
/// line that is not right.
pub(crate) fn judge_line<L: Lookup>(
    alloc: Global,
    table: &L,
    number: u64,
    here: &Tag,
    line: &[u8],
) -> Result<Flow, OutOfMemory>
    requires { IsProper (L.listed table.now) here.now }
    ensures { IfOk result (FlowIs (L.listed table.now) number here.now line.now) }
{
    if let Some(text) = read_end(line) {
        return judge_end(alloc, here, text);
    }
    let Some((step, text)) = read_step(line) else {
        return Ok(Flow::Settled(Verdict::BadStep(number)));
    };
    match apply(alloc, table, here, &step) {
        Ok(next) => {
            if is_text_of(alloc, &next, text)? {
                Ok(Flow::Leads(next))
            } else {
                Ok(Flow::Settled(Verdict::BadStep(number)))
            }
        }
        Err(ApplyFault::NoSuchStep) => Ok(Flow::Settled(Verdict::NoSuchStep(number))),
        Err(ApplyFault::OutOfMemory) => Err(OutOfMemory),
    }
}

/// The most bytes of the label of a step: its kind (15, as `VariantLanguage` has), its place and its number (10 digits
/// each, as they have 32 bits), with a space after each, 38 in all.
const LONGEST_LABEL: usize = 38;

/// Judges the front of a line that goes on. `here` is the tag to which the lines before it lead, which must be proper,
/// and `number` is the number of the line, counted from 1. A front that is no longer than a label is not judged: the
/// answer is None. A longer one gives None if it is no longer than the right line, and else a verdict; so it does if it
/// names no step, or a step that does not lead on.
pub(crate) fn judge_front<L: Lookup>(
    alloc: Global,
    table: &L,
    number: u64,
    here: &Tag,
    front: &[u8],
) -> Result<Option<Verdict>, OutOfMemory>
    requires { IsProper (L.listed table.now) here.now }
    ensures { IfOk result (SettlesFront (L.listed table.now) number here.now front.now) }
{
    if front.len() <= LONGEST_LABEL {
        return Ok(None);
    }
    if let Some(text) = read_end(front) {
        if is_longer(alloc, here, text)? {
            return Ok(Some(Verdict::WrongEnd));
        }
        return Ok(None);
    }
    let Some((step, text)) = read_step(front) else {
        return Ok(Some(Verdict::BadStep(number)));
    };
    match apply(alloc, table, here, &step) {
        Ok(next) => {
            if is_longer(alloc, &next, text)? {
                Ok(Some(Verdict::BadStep(number)))
            } else {
                Ok(None)
            }
        }
        Err(ApplyFault::NoSuchStep) => Ok(Some(Verdict::NoSuchStep(number))),
        Err(ApplyFault::OutOfMemory) => Err(OutOfMemory),
    }
}
