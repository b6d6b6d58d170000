//! Weights, such as `;q=0.5`: 500 thousandths.
ghost use Rattle.std.specs.Prelude.{◌≡◌, ◌≤◌};
ghost use Rattle.std.specs.List.{list_all};
ghost use Rattle.std.specs.Char.{is_ascii_digit};
ghost use Rattle.lt_range.specs.Weights as spec;

use crate::words::{after_blanks, cut_word};

/// Whether each byte of a text is a digit.
fn are_digits(text: &[u8]) -> bool
    ensures { result ≡ list_all is_ascii_digit text.now }
{
    text.iter().all(|byte| byte.is_ascii_digit())
}

/// Whether a text is up to three digits.
fn are_decimals(decimals: &[u8]) -> bool
    ensures { result ≡ spec.are_decimals decimals.now }
{
    decimals.len() <= 3 && are_digits(decimals)
}

/// The value of the digit at an index, `place`, or 0 after the last digit. Whatever the byte there is, the value is at
/// most 207, which is 255 less 48 (the byte `0`): so the sum in `thousandths` fits.
fn digit(decimals: &[u8], place: usize) -> u16
    ensures value { result ≡ spec.digit decimals.now place }
    ensures small { result ≤ 207 }
{
    match decimals.get(place) {
        Some(digit) => u16::from(digit.saturating_sub(b'0')),
        None => 0,
    }
}

/// What the decimals after a point stand for, in thousandths.
fn thousandths(decimals: &[u8]) -> u16
    ensures { result ≡ spec.thousandths decimals.now }
{
    100 * digit(decimals, 0) + 10 * digit(decimals, 1) + digit(decimals, 2)
}

/// The number with the digit `whole` before the point and these decimals, in thousandths. None if the number isn't from
/// 0 to 1, or if the decimals are more than three or not all digits.
fn number(whole: u8, decimals: &[u8]) -> Option<u16>
    ensures { result ≡ spec.number_of whole decimals.now }
{
    if !are_decimals(decimals) {
        return None;
    }
    match (whole, thousandths(decimals)) {
        (b'0', parts) => Some(parts),
        (b'1', 0) => Some(1000),
        _ => None,
    }
}

/// The value of a `q`, in thousandths (RFC 9110, 12.4.2). None if the text is no number from 0 to 1 with at most three
/// decimals.
fn qvalue(text: &[u8]) -> Option<u16>
    ensures { result ≡ spec.qvalue_of text.now }
{
    match text {
        [whole] => number(*whole, &[]),
        [whole, b'.', decimals @ ..] => number(*whole, decimals),
        _ => None,
    }
}

/// The value that `q=` gives, in thousandths. None if the text isn't `q=` or `Q=` and a value that `qvalue` takes, with
/// at most white space after it.
fn parameter(text: &[u8]) -> Option<u16>
    ensures { result ≡ spec.parameter_of text.now }
{
    let [b'q' | b'Q', b'=', value @ ..] = text else {
        return None;
    };
    let (word, others) = cut_word(value);
    if !after_blanks(others).is_empty() {
        return None;
    }
    qvalue(word)
}

/// The weight of a range that `text` follows, in thousandths (RFC 9110, 12.4.2): 1000 if the text is empty or white
/// space. None if it is neither that nor a weight, for example `;q=0.5`.
pub(crate) fn weight(text: &[u8]) -> Option<u16>
    ensures { result ≡ spec.weight_of text.now }
{
    match after_blanks(text) {
        [] => Some(1000),
        [b';', others @ ..] => parameter(after_blanks(others)),
        _ => None,
    }
}
