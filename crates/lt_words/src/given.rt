//! The text of a word of the command line, or the message for a word that is not UTF-8, whose bytes are shown in it.
ghost use Rattle.std.specs.Prelude.{◌≡◌, ◌++◌, ◌∷◌, [], IfErr, IfOk, OnOk, encode_utf8, string_bytes};
ghost use Rattle.lt_words.specs.Given as spec;
ghost use Rattle.lt_words.specs.Given.{IsNoText};

use crate::faults::WordsFault;
use std::alloc::{AllocError, Global};

/// Whether a byte is shown as it is: it is printable ASCII, and no quote or backslash.
fn is_shown(byte: u8) -> bool
    ensures { result ≡ spec.is_shown byte }
{
    byte >= b' ' && byte <= b'~' && byte != b'"' && byte != b'\\'
}

/// The last digit of a number to the base 16, from `0` to `9` or from `a` to `f`: `b` of 0xab. The clause says which
/// byte it is in UTF-8.
fn hex_digit(number: u8) -> char
    ensures { encode_utf8 result ≡ spec.hex_digit number ∷ [] }
{
    let digit = number % 16;
    if digit < 10 {
        char::from(b'0' + digit)
    } else {
        char::from(b'a' - 10 + digit)
    }
}

/// Appends a byte as it is shown: as it is, or as `\x` and two digits to the base 16.
fn append_escaped(said: &mut String, byte: u8) -> Result<(), AllocError>
    ensures { OnOk result (string_bytes said.new ≡ string_bytes said.old ++ spec.escaped_byte byte) }
{
    if is_shown(byte) {
        return said.push(char::from(byte));
    }
    said.push_str("\\x")?;
    said.push(hex_digit(byte / 16))?;
    said.push(hex_digit(byte))
}

/// Bytes as they are shown: each that is printable ASCII and no quote or backslash as it is, and any other as `\x`
/// and two digits to the base 16.
pub fn escaped(alloc: Global, bytes: &[u8]) -> Result<String, AllocError>
    ensures { IfOk result (λ text. string_bytes text ≡ spec.escaped bytes.now) }
{
    let mut said = String::new(alloc);
    for byte in bytes {
        append_escaped(&mut said, *byte)?;
    }
    Ok(said)
}

/// The message for a word that is not UTF-8. Its number is counted from the program's name, which is 0, and `shown` is the
/// word with its bytes as they are shown.
fn word_line(alloc: Global, number: usize, shown: &str) -> Result<String, AllocError>
    ensures { IfOk result (λ text. string_bytes text ≡ spec.word_line number shown.now) }
{
    let mut said = format!(in alloc; "error: argument {number} is not UTF-8: ")?;
    said.push_str(shown)?;
    said.push_str("\n\nFor more information, try '--help'.\n")?;
    Ok(said)
}

/// The text of a word, which is its bytes if they are UTF-8. Its number is counted from the program's name, which is 0. Any
/// other word is refused with `Usage`, whose text tells the number and the bytes; `OutOfMemory` comes where memory runs out.
pub fn word_text(alloc: Global, number: usize, bytes: &[u8]) -> Result<String, WordsFault>
    ensures text { IfOk result (λ text. string_bytes text ≡ bytes.now) }
    ensures refused { IfErr result (IsNoText number bytes.now) }
{
    match std::str::from_utf8(bytes) {
        Ok(text) => Ok(String::from_str(alloc, text)?),
        Err(_) => {
            let shown = escaped(alloc, bytes)?;
            Err(WordsFault::Usage(word_line(alloc, number, shown.as_str())?))
        }
    }
}
