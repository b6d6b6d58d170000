//! What a call answers, and how it writes a text into a buffer. The numbers are those of `numbers.rt`.
ghost use Rattle.std.specs.Prelude.{◌≡◌};
ghost use Rattle.bcp47_c.specs.Outcomes as spec;
ghost use Rattle.bcp47_c.specs.Outcomes.{AreDelivered, IsDelivered, IsRefused};

use crate::numbers::{
    BUFFER_TOO_SMALL, DONE, INVALID, NOT_A_TAG, OUT_OF_MEMORY, REPLACEMENT_REPEATS, tag_fault,
    valid_fault,
};
use bcp47::TextRefusal;

/// What a call answers, besides the text that it writes.
#[repr(C)]
#[derive(Clone, Copy, Drop)]
pub struct Outcome {
    /// How the call ended: a status, 0 to 12, whose name `bcp47_write_status_name` writes; or 14 for a wrong number of a
    /// scheme or a section, or 18 for a header that is refused.
    pub status: u32,
    /// The number of the fault, 1 to 55, whose name `bcp47_write_fault_name` writes, or that of the class of a tag;
    /// else 0.
    pub detail: u32,
    /// The place of the fault: a subtag, a line, a record, a step or a list element, each counted from 1. If a call
    /// counts something (steps, parts, fields or tags), how many there are. For `bcp47_handle_best`, the place of the
    /// tag, counted from 0. Else 0.
    pub place: u64,
    /// How many bytes the text has, also where it does not fit the buffer.
    pub length: usize,
    /// If `bcp47_handle_match`, `bcp47_write_with` or `bcp47_handle_list` refuses one of its texts, the number of that
    /// text, counted from 1; else 0. For the other calls of two texts `bindings/c/bcp47.c` tells the number.
    pub text: u32,
    /// Always 0.
    pub reserved: u32,
}

/// What a call answers without the length of a text: the status, the detail and the place of an [`Outcome`].
#[derive(Clone, Copy, Drop)]
pub(crate) struct Said {
    pub(crate) status: u8,
    pub(crate) detail: u8,
    pub(crate) place: u64,
}

/// A status without detail and place.
pub(crate) fn ended(status: u8) -> Said
    ensures { result ≡ spec.ended status }
{
    Said {
        status,
        detail: 0,
        place: 0,
    }
}

/// Writes a text to the front of a buffer, and answers what is `said`, with the text's length. If the text doesn't fit,
/// nothing is written, and the status is `BUFFER_TOO_SMALL`, with the same length.
pub(crate) fn deliver(said: Said, text: &[u8], buffer: &mut [u8]) -> Outcome
    ensures { IsDelivered said text.now buffer.old buffer.new result }
{
    let length = text.len();
    if length > buffer.len() {
        return Outcome {
            status: u32::from(BUFFER_TOO_SMALL),
            detail: 0,
            place: 0,
            length,
            text: 0,
            reserved: 0,
        };
    }
    buffer[..length].copy_from_slice(text);
    Outcome {
        status: u32::from(said.status),
        detail: u32::from(said.detail),
        place: said.place,
        length,
        text: 0,
        reserved: 0,
    }
}

/// What an outcome says of a refusal: the status, the number of the fault, and its place.
pub(crate) fn refusal_said(refusal: &TextRefusal) -> Said
    ensures { result ≡ spec.refusal_said refusal.now }
{
    match refusal {
        TextRefusal::NotATag(fault) => Said {
            status: NOT_A_TAG,
            detail: tag_fault(fault.kind),
            place: u64::from(fault.place),
        },
        TextRefusal::Invalid(fault) => Said {
            status: INVALID,
            detail: valid_fault(fault.kind),
            place: u64::from(fault.place),
        },
        TextRefusal::ReplacementRepeats(_) => ended(REPLACEMENT_REPEATS),
        TextRefusal::OutOfMemory => ended(OUT_OF_MEMORY),
    }
}

/// The text that is written for a refusal: the variant that steps can repeat, or nothing.
fn refusal_text(refusal: &TextRefusal) -> &[u8]
    ensures { result.now ≡ spec.refusal_text refusal.now }
{
    match refusal {
        TextRefusal::ReplacementRepeats(variant) => variant.bytes(),
        _ => &[],
    }
}

/// Answers a refusal, and writes the variant that steps can repeat, if that is why.
pub(crate) fn refuse(refusal: &TextRefusal, buffer: &mut [u8]) -> Outcome
    ensures { IsRefused refusal.now buffer.old buffer.new result }
{
    deliver(refusal_said(refusal), refusal_text(refusal), buffer)
}

/// The outcome with this status. Its place is `count`, the number of rows, and `length` is how many bytes their text
/// has.
fn counted(status: u8, count: usize, length: usize) -> Outcome
    ensures { result ≡ spec.outcome (record { status = status; detail = 0; place = count }) length }
{
    Outcome {
        status: u32::from(status),
        detail: 0,
        place: count as u64,
        length,
        text: 0,
        reserved: 0,
    }
}

/// Writes rows to the front of `room`, and their text to the front of a buffer. If one of the two doesn't fit, neither
/// is written, and the status is `BUFFER_TOO_SMALL`. In both cases the number of rows is answered as the place, and the
/// length of the text.
pub(crate) fn deliver_rows<T: Copy>(
    rows: &[T],
    text: &[u8],
    room: &mut [T],
    buffer: &mut [u8],
) -> Outcome
    ensures { AreDelivered rows.now text.now room.old room.new buffer.old buffer.new result }
{
    let count = rows.len();
    let length = text.len();
    if count > room.len() || length > buffer.len() {
        return counted(BUFFER_TOO_SMALL, count, length);
    }
    room[..count].copy_from_slice(rows);
    buffer[..length].copy_from_slice(text);
    counted(DONE, count, length)
}

/// The outcome, with the number of the text that is refused; without that number if it says that memory ran out.
pub(crate) fn of_text(number: u32, outcome: Outcome) -> Outcome
    ensures { result ≡ spec.of_text number outcome }
{
    if outcome.status == u32::from(OUT_OF_MEMORY) {
        return outcome;
    }
    Outcome {
        status: outcome.status,
        detail: outcome.detail,
        place: outcome.place,
        length: outcome.length,
        text: number,
        reserved: outcome.reserved,
    }
}
