//! The list of tags that a handle keeps, and which of them are served or accepted for an Accept-Language header.
ghost use Rattle.std.specs.Prelude.{◌≡◌, IfErr, IfOk, length, map, min};
ghost use Rattle.lt_canon.specs.declared.refusals.TextRefusal.TheVariants as refusals;
ghost use Rattle.lt_range.specs.Available.{AreAvailable, IsAvailableRefusal};
ghost use Rattle.bcp47_c.specs.Outcomes.{outcome};
ghost use Rattle.bcp47_c.specs.Serving as spec;
ghost use Rattle.bcp47_c.specs.Serving.{Accepts, Serves};

use crate::matching::range_said;
use crate::numbers::{BAD_HEADER, DONE, OUT_OF_MEMORY, accept_fault};
use crate::outcomes::{Outcome, Said, deliver, deliver_rows, ended, of_text, refusal_said};
use bcp47::{Available, AvailableRefusal, HeaderRefusal, Registry, TextRefusal};
use std::alloc::{AllocError, Global};
use std::sync::Arc;

/// The greatest number that an `int` of C has.
const GREATEST_INT: usize = 2147483647;

/// The texts with these lengths that stand one after another in `text`. If `text` ends too early, the last of them are
/// shorter or empty.
fn cut_by_lengths<'a>(
    alloc: Global,
    text: &'a [u8],
    lengths: &[usize],
) -> Result<Vec<&'a [u8]>, AllocError>
    ensures { IfOk result (λ found. map (λ piece. piece.now) found.items ≡ spec.texts_of lengths.now text.now) }
{
    let mut texts = Vec::with_capacity(alloc, lengths.len())?;
    let mut rest = text;
    for length in lengths {
        let (piece, after) = rest.split_at(rest.len().min(*length));
        texts.push(piece)?;
        rest = after;
    }
    Ok(texts)
}

/// The refusal of a list for lack of memory.
fn no_memory() -> AvailableRefusal
    ensures { result.refusal ≡ refusals.OutOfMemory }
{
    AvailableRefusal {
        refusal: TextRefusal::OutOfMemory,
        place: 0,
    }
}

/// The list of the tags whose texts stand one after another in `text`, with these lengths; or which of them is refused
/// and why, or that memory ran out. In the clause `listed` the count of the texts says that all of them are listed.
pub(crate) fn list_tags(
    alloc: Global,
    registry: &Registry,
    text: &[u8],
    lengths: &[usize],
) -> Result<Arc<Available>, AvailableRefusal>
    ensures listed { IfOk result (λ listed. AreAvailable registry.now (spec.texts_of lengths.now text.now) (length (spec.texts_of lengths.now text.now)) listed.value) }
    ensures refused { IfErr result (IsAvailableRefusal registry.now (spec.texts_of lengths.now text.now)) }
{
    let Ok(texts) = cut_by_lengths(alloc, text, lengths) else {
        return Err(no_memory());
    };
    let available = registry.available(alloc, &texts)?;
    match Arc::new(alloc, available) {
        Ok(listed) => Ok(listed),
        Err(_) => Err(no_memory()),
    }
}

/// The number of a tag as C has it, in an `int`: 2147483647, the greatest, stands for all that are greater.
fn as_int(number: usize) -> u32
    ensures { result ≡ min number 2147483647 }
{
    number.min(GREATEST_INT) as u32
}

/// Answers why a tag of a list is refused, with the number of the tag, counted from 1; if memory ran out, no tag is
/// named. No text is written.
pub(crate) fn refuse_tag(refused: &AvailableRefusal) -> Outcome
    ensures { result ≡ spec.tag_refused refused.now }
{
    let said = refusal_said(&refused.refusal);
    of_text(as_int(refused.place), deliver(said, &[], &mut []))
}

/// What an outcome says of a header that is refused: the status, the number of the fault, and the number of the list
/// element; without that number if each element is a range but one of the ranges is refused.
fn header_said(refusal: &HeaderRefusal) -> Said
    ensures { result ≡ spec.header_said refusal.now }
{
    match refusal {
        HeaderRefusal::NotAHeader(fault) => Said {
            status: BAD_HEADER,
            detail: accept_fault(fault.kind),
            place: fault.place as u64,
        },
        HeaderRefusal::BadRange(refusal) => range_said(refusal),
        HeaderRefusal::OutOfMemory => ended(OUT_OF_MEMORY),
    }
}

/// Answers why a header is refused.
fn refuse_header(refusal: &HeaderRefusal) -> Outcome
    ensures { result ≡ outcome (spec.header_said refusal.now) 0 }
{
    deliver(header_said(refusal), &[], &mut [])
}

/// What an outcome says of the tag to serve: its place, with 1 as the detail; or no place and 0 as the detail if no tag
/// is served.
fn served_said(best: Option<usize>) -> Said
    ensures { result ≡ spec.served_said best }
{
    match best {
        Some(place) => Said {
            status: DONE,
            detail: 1,
            place: place as u64,
        },
        None => ended(DONE),
    }
}

/// Tells the place, counted from 0, of the tag of `available` that is served for a header, or that there is none, or
/// why the header is refused.
pub(crate) fn answer_best(
    alloc: Global,
    registry: &Registry,
    available: &Available,
    header: &[u8],
) -> Outcome
    ensures { Serves registry.now available.now header.now result }
{
    match registry.preferences(alloc, header) {
        Ok(preferences) => {
            let said = served_said(available.best(&preferences));
            deliver(said, &[], &mut [])
        }
        Err(refusal) => refuse_header(&refusal),
    }
}

/// Writes the places, counted from 0, of the tags of `available` that a header accepts to the front of `room`, and
/// answers how many there are. If they don't fit, none is written, and BufferTooSmall is answered with their number. If
/// the header is refused or memory runs out, that is answered.
pub(crate) fn answer_accepted(
    alloc: Global,
    registry: &Registry,
    available: &Available,
    header: &[u8],
    room: &mut [usize],
) -> Outcome
    ensures { Accepts registry.now available.now header.now room.old room.new result }
{
    let preferences = match registry.preferences(alloc, header) {
        Ok(preferences) => preferences,
        Err(refusal) => return refuse_header(&refusal),
    };
    match available.filter(alloc, &preferences) {
        Ok(places) => deliver_rows(&places, &[], room, &mut []),
        Err(_) => refuse_header(&HeaderRefusal::OutOfMemory),
    }
}
