//! What to do about a fault that refused a text.

use crate::codes::CODES;
use crate::meanings::{first_of, meaning_of, message_of};
use crate::wrapped::append_wrapped;
use lt_tag::first_hyphen;
use std::alloc::AllocError;

/// What is said of a language that is longer than a code.
const NAME_MESSAGE: &str =
    "Codes of languages have two or three letters: write en for English, de for German.";

/// The message that tells the code of two letters that BCP 47 writes for a code of three, in any letter case. None if there is
/// no message for it.
fn code_message(code: &[u8]) -> Option<&'static str> {
    match code {
        [first, second, third] => {
            let lower = [
                first.to_ascii_lowercase(),
                second.to_ascii_lowercase(),
                third.to_ascii_lowercase(),
            ];
            first_of(&CODES, &lower)
        }
        _ => None,
    }
}

/// What is before the first hyphen of a text, or all of it if it has none.
#[tactic(auto, using(lt_lines::proofs::FaultLemmas::before_found, lt_lines::proofs::FaultLemmas::before_none))]
pub(crate) fn first_subtag(text: &[u8]) -> &[u8] {
    match first_hyphen(text) {
        Some(end) => &text[..end],
        None => text,
    }
}

/// What to do about a language that is not registered; None if no more can be said. With 5 letters or more it is taken
/// for a name: codes have 2 or 3, and 4 are reserved (RFC 5646, 2.2.1).
fn language_advice(subtag: &[u8]) -> Option<&'static str> {
    match code_message(subtag) {
        Some(message) => Some(message),
        None if subtag.len() > 4 => Some(NAME_MESSAGE),
        None => None,
    }
}

/// What to do about a text whose region is not registered; None unless it ends with `-UK`, in any letter case, for
/// which ISO 3166 has GB.
fn region_advice(text: &[u8]) -> Option<&'static str> {
    if text.ends_with(b"-UK")
        || text.ends_with(b"-uk")
        || text.ends_with(b"-Uk")
        || text.ends_with(b"-uK")
    {
        Some("UK: BCP 47 writes GB.")
    } else {
        None
    }
}

/// What to do about a text that is no tag; None unless it begins with a byte order mark of UTF-16.
fn mark_advice(text: &[u8]) -> Option<&'static str> {
    if text.starts_with(b"\xff\xfe") || text.starts_with(b"\xfe\xff") {
        meaning_of(b"Utf16")
    } else {
        None
    }
}

/// What to do about `text`, which the fault with the name `fault` refuses. None if there is no advice but that for the
/// fault.
fn advice_for(fault: &[u8], text: &[u8]) -> Option<&'static str> {
    if fault == b"UnknownLanguage".as_slice() {
        language_advice(first_subtag(text))
    } else if fault == b"UnknownRegion".as_slice() {
        region_advice(text)
    } else if fault == b"BadByte".as_slice() {
        mark_advice(text)
    } else {
        None
    }
}

/// What to do about a text that may be refused for its language or its region. None if no more can be said.
fn likely_advice(text: &[u8]) -> Option<&'static str> {
    match language_advice(first_subtag(text)) {
        Some(advice) => Some(advice),
        None => region_advice(text),
    }
}

/// Appends what to do about a text that may be refused for its language or its region. Nothing if no more can be said.
pub(crate) fn append_likely(told: &mut Vec<u8>, text: &[u8]) -> Result<(), AllocError> {
    match likely_advice(text) {
        Some(advice) => append_wrapped(told, "", advice),
        None => Ok(()),
    }
}

/// Appends what to do about the only text of a run, which the fault with the name `fault` refused: advice for that text, or
/// else the message for the fault. Nothing for a fault without a message.
pub(crate) fn append_refused(
    told: &mut Vec<u8>,
    fault: &[u8],
    text: &[u8],
) -> Result<(), AllocError> {
    match advice_for(fault, text).or(message_of(fault)) {
        Some(advice) => append_wrapped(told, "", advice),
        None => Ok(()),
    }
}

/// Appends what to do about the fault with the name `fault`, which refused `text`, below the line on that fault: advice for
/// that text, or else what the fault means. Nothing for a fault without a message.
pub(crate) fn append_advice(
    told: &mut Vec<u8>,
    fault: &[u8],
    text: &[u8],
) -> Result<(), AllocError> {
    match advice_for(fault, text).or(meaning_of(fault)) {
        Some(advice) => append_wrapped(told, "  ", advice),
        None => Ok(()),
    }
}
