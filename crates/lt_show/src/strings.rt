//! The strings of JSON, appended to the bytes `texts`.
ghost use Rattle.std.specs.Prelude.{◌≡◌, ◌++◌, ◌∷◌, [], OnOk};
ghost use Rattle.std.specs.List.{list_all};
ghost use Rattle.lt_show.specs.Strings as spec;

use std::alloc::AllocError;

/// Whether a byte stands for itself in a string (RFC 8259, 7): it is no control character, no quote and no backslash.
fn is_plain(byte: u8) -> bool
    ensures { result ≡ spec.is_plain byte }
{
    byte >= b' ' && byte != b'"' && byte != b'\\'
}

/// Whether each byte of a text stands for itself in a string.
fn are_plain(text: &[u8]) -> bool
    ensures { result ≡ list_all spec.is_plain text.now }
{
    text.iter().all(|byte| is_plain(*byte))
}

/// The last digit of a number to the base 16, in lower case.
fn hex_digit(number: u8) -> u8
    ensures { result ≡ spec.hex_digit number }
{
    let digit = number % 16;
    if digit < 10 {
        b'0' + digit
    } else {
        b'a' - 10 + digit
    }
}

/// Appends a byte as it is in a string: itself, or its escape, which is a backslash and a quote or backslash, or `\u00`
/// and two digits to the base 16 for a control character.
fn append_escaped(texts: &mut Vec<u8>, byte: u8) -> Result<(), AllocError>
    ensures { OnOk result (texts.new.items ≡ texts.old.items ++ spec.escaped byte) }
{
    if is_plain(byte) {
        texts.push(byte)?;
        return Ok(());
    }
    match byte {
        b'"' | b'\\' => texts.extend_from_slice(&[b'\\', byte]),
        _ => texts.extend_from_slice(&[
            b'\\',
            b'u',
            b'0',
            b'0',
            hex_digit(byte / 16),
            hex_digit(byte),
        ]),
    }
}

/// Appends each byte of a text as it is in a string: itself, or its escape.
fn append_each(texts: &mut Vec<u8>, text: &[u8]) -> Result<(), AllocError>
    ensures { OnOk result (texts.new.items ≡ texts.old.items ++ spec.escaped_text text.now) }
{
    for byte in text {
        append_escaped(texts, *byte)?;
    }
    Ok(())
}

/// Appends what is between the quotes of the string of a text.
#[tactic(auto, using(crate::proofs::StringLemmas::plain_text))]
fn append_content(texts: &mut Vec<u8>, text: &[u8]) -> Result<(), AllocError>
    ensures { OnOk result (texts.new.items ≡ texts.old.items ++ spec.escaped_text text.now) }
{
    // For speed: a text without escapes is appended at once.
    if are_plain(text) {
        texts.extend_from_slice(text)
    } else {
        append_each(texts, text)
    }
}

/// Appends the string of a text of UTF-8 (RFC 8259, 7): its bytes within quotes, where a backslash is before each quote and
/// each backslash, and a control character, which is below a space, is `\u` and four digits to the base 16. For example, a tab
/// is `\u0009`. The only refusal is running out of memory, after which a part may have been appended.
#[tactic(auto, unfolding(crate::specs::Strings::string))]
pub fn append_string(texts: &mut Vec<u8>, text: &[u8]) -> Result<(), AllocError>
    ensures { OnOk result (texts.new.items ≡ texts.old.items ++ spec.string text.now) }
{
    texts.push(b'"')?;
    append_content(texts, text)?;
    texts.push(b'"')?;
    Ok(())
}
