//! Whether a language range matches a tag, both by their texts.
ghost use Rattle.std.specs.Prelude.{◌≡◌};
ghost use Rattle.bcp47_c.specs.Matches as spec;
ghost use Rattle.bcp47_c.specs.Matches.{IsSchemeOf, TellsMatch};
ghost use Rattle.bcp47_c.specs.Outcomes.{IsDelivered};

use crate::numbers::{DIFFERENT, DONE, NOT_A_TAG, OUT_OF_MEMORY, REPLACEMENT_REPEATS, range_fault};
use crate::outcomes::{Outcome, Said, deliver, ended, of_text, refuse};
use bcp47::{RangeRefusal, Registry, Scheme, any_matches};
use std::alloc::Global;

/// The scheme that has a number in C, or None if none has it.
pub(crate) fn scheme_of(number: u32) -> Option<Scheme>
    ensures { IsSchemeOf number result }
{
    Some(match number {
        1 => Scheme::Basic,
        2 => Scheme::Extended,
        3 => Scheme::Lookup,
        _ => return None,
    })
}

/// What an outcome says of a range that is refused: the status, and the number of the fault for a text that is no
/// range.
pub(crate) fn range_said(refusal: &RangeRefusal) -> Said
    ensures { result ≡ spec.range_said refusal.now }
{
    match refusal {
        RangeRefusal::NotARange(fault) => Said {
            status: NOT_A_TAG,
            detail: range_fault(*fault),
            place: 0,
        },
        RangeRefusal::ReplacementRepeats(_) => ended(REPLACEMENT_REPEATS),
        RangeRefusal::OutOfMemory => ended(OUT_OF_MEMORY),
    }
}

/// The text that is written for a range that is refused: the variant that steps can repeat, or nothing.
fn range_text(refusal: &RangeRefusal) -> &[u8]
    ensures { result.now ≡ spec.range_text refusal.now }
{
    match refusal {
        RangeRefusal::ReplacementRepeats(variant) => variant.bytes(),
        _ => &[],
    }
}

/// Answers that a range is refused, and writes the variant that steps can repeat, if that is why.
fn refuse_range(refusal: &RangeRefusal, buffer: &mut [u8]) -> Outcome
    ensures { IsDelivered (spec.range_said refusal.now) (spec.range_text refusal.now) buffer.old buffer.new result }
{
    deliver(range_said(refusal), range_text(refusal), buffer)
}

/// Tells whether a language range matches the tag that `text` is read as, by a scheme. If the range is refused, or else
/// the tag, the reason is answered, and the outcome's `text` is 1 for the range and 2 for the tag. If the reason is
/// that steps can repeat a variant, the variant is written to the buffer.
pub(crate) fn answer_match(
    alloc: Global,
    registry: &Registry,
    scheme: Scheme,
    range: &[u8],
    text: &[u8],
    buffer: &mut [u8],
) -> Outcome
    ensures { TellsMatch registry.now scheme range.now text.now buffer.old buffer.new result }
{
    // Only for the proof: what holds of every registry.
    registry.promise();
    let known = match registry.ranges(alloc, range) {
        Ok(known) => known,
        Err(refusal) => return of_text(1, refuse_range(&refusal, buffer)),
    };
    let subtags = match registry.subtags_of_text(alloc, text) {
        Ok(subtags) => subtags,
        Err(refusal) => return of_text(2, refuse(&refusal, buffer)),
    };
    if any_matches(scheme, &known, &subtags) {
        deliver(ended(DONE), &[], buffer)
    } else {
        deliver(ended(DIFFERENT), &[], buffer)
    }
}
