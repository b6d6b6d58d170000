//! Subtags of BCP 47 language tags (RFC 5646, 2.1): 1 to 8 letters or digits, whose case doesn't matter. A
//! program begins with the crate `bcp47`, which gives these types too.
//!
//! A *piece* is what stands between two hyphens of a text. By the clause `subtag` of a call a caller's proof knows that
//! the bytes are a subtag's. In an `impl Display`, `ghost output` is the text that `{}` writes.
#![tactic(auto)]

ghost use Rattle.std.specs.Prelude.{◌≡◌, ◌≤◌, ◌<◌, [], ◌∷◌, ◌++◌, true, length, take, drop, Err, Some};
ghost use Rattle.std.specs.Fmt.{styled_text};
ghost use Rattle.std.specs.List.{list_all};
ghost use Rattle.std.specs.Char.{is_ascii_alphanumeric};
ghost use Rattle.lt_subtag.specs.Bytes.{is_subtag, upper};
ghost use Rattle.lt_subtag.specs.Lanes.{padded, number};
ghost use Rattle.lt_subtag.specs.Shapes as shapes;
ghost use Rattle.lt_subtag.specs.Reading.{subtag_of};
ghost use Rattle.lt_subtag.specs.Reading as reading;

mod comparing;
mod lanes;
pub mod laws;

use crate::lanes::fold;
use arrayvec::ArrayVec;
use std::error::Error;
use std::fmt;
use std::marker::Model;

/// Why a piece of a text is no subtag.
#[derive(Clone, Copy, Debug, Drop, PartialEq, Eq)]
pub enum SubtagFault {
    /// It has no byte.
    Empty,
    /// A byte is no ASCII letter or digit.
    BadByte,
    /// It has more than 8 bytes.
    TooLong,
}

impl SubtagFault {
    /// The fault's name, as it is written here: `Empty`, `BadByte` or `TooLong`.
    pub fn name(self) -> &'static str
        ensures { result.now ≡ reading.name_of self }
    {
        match self {
            SubtagFault::Empty => "Empty",
            SubtagFault::BadByte => "BadByte",
            SubtagFault::TooLong => "TooLong",
        }
    }
}

impl fmt::Display for SubtagFault {
    ghost output = { λ fault. Some (reading.name_of fault) };

    /// Writes the fault's name.
    fn fmt<W: fmt::Write>(&self, f: &mut fmt::Formatter<W>) -> fmt::Result {
        f.write_str(self.name())
    }
}

impl Error for SubtagFault {}

/// How the letters of a subtag are shown (RFC 5646, 2.1.1).
#[derive(Clone, Copy, Debug, PartialEq, Eq)]
pub enum Case {
    /// All letters in lower case: `hant`.
    Lower,
    /// All letters in upper case: `HANT`.
    Upper,
    /// The first byte, where it is a letter, in upper case and the others in lower case: `Hant`.
    Title,
}

/// A subtag: 1 to 8 ASCII letters or digits (RFC 5646, 2.1). Letter case never matters: a contract sees the
/// lower-case bytes, and equality, order and hash are theirs. It is printed as them.
#[derive(Debug, Drop)]
pub struct Subtag {
    /// The lower-case bytes, and zeros after them, so that a copy is of eight bytes whatever their number.
    letters: [u8; 8],
    /// How many bytes the subtag has, from 1 to 8.
    count: u8,
}

// A contract sees a subtag as its lower-case bytes (RFC 5646, 2.1.1), the first `count` of `letters`. By `invariant`
// each subtag has 1 to 8 of them, lower-case letters or digits, and zeros after them.
impl Model for Subtag {
    ghost use Rattle.std.specs.Prelude.{◌≡◌, ◌≤◌, ℕ, List, take, true};
    ghost use Rattle.lt_subtag.specs.Bytes.{is_subtag};
    ghost use Rattle.lt_subtag.specs.Lanes.{padded};

    ghost Value = { List ℕ };

    ghost view = { λ s. take s.count s.letters };

    ghost invariant = { λ s. (s.count ≤ 8) × (is_subtag (take s.count s.letters) ≡ true) × (s.letters ≡ padded (take s.count s.letters)) };
}

impl Default for Subtag {
    ghost is_default = { λ subtag. subtag ≡ 120 ∷ [] };

    /// The subtag `x` (byte 120), which fills the unused places of an `ArrayVec`.
    #[tactic(auto, unfolding(crate::specs::Bytes::is_subtag))]
    fn default() -> Subtag {
        Subtag {
            letters: [b'x', 0, 0, 0, 0, 0, 0, 0],
            count: 1,
        }
    }
}

impl fmt::Display for Subtag {
    ghost output = { λ subtag. Some subtag };

    ghost styled_output = { λ subtag spec. Some (styled_text spec subtag) };

    /// Writes the lower-case bytes, with the formatter's width, fill and precision.
    fn fmt<W: fmt::Write>(&self, f: &mut fmt::Formatter<W>) -> fmt::Result {
        // Letters and digits are ASCII, so this gives a text.
        let text = str::from_utf8(self.bytes()).map_err(|_| fmt::Error)?;
        f.pad(text)
    }
}

impl Subtag {
    /// The subtag that the bytes spell, whatever the case of their letters: `Hant` and `HANT` give the same. A piece
    /// without bytes is refused as `Empty`. A piece with a byte that is no ASCII letter or digit is refused as
    /// `BadByte`, and any other of more than 8 bytes as `TooLong`.
    #[tactic(auto, using(crate::proofs::RunLemmas::read_holds, crate::proofs::RunLemmas::read_front))]
    pub fn read(bytes: &[u8]) -> Result<Subtag, SubtagFault>
        ensures { result ≡ subtag_of bytes.now }
    {
        if bytes.is_empty() {
            return Err(SubtagFault::Empty);
        }
        if bytes.len() > 8 {
            return Err(long_fault(bytes));
        }
        match fold(bytes) {
            Some(letters) => Ok(Subtag {
                letters,
                count: bytes.len() as u8,
            }),
            None => Err(SubtagFault::BadByte),
        }
    }

    /// The lower-case bytes, 1 to 8 of them. The clauses `subtag`, `some` and `few` tell a caller's proof so.
    #[tactic(auto, using(crate::proofs::BytesLemmas::subtag_length))]
    pub fn bytes(&self) -> &[u8]
        ensures same { result.now ≡ self.now }
        ensures subtag { is_subtag self.now ≡ true }
        ensures some { 0 < length self.now }
        ensures few { length self.now ≤ 8 }
    {
        &self.letters[..usize::from(self.count)]
    }

    /// The lower-case bytes, and zeros after them up to 8. These arrays are in the order of the subtags.
    pub fn padded(&self) -> [u8; 8]
        ensures padded { result ≡ padded self.now }
        ensures subtag { is_subtag self.now ≡ true }
    {
        self.letters
    }

    /// The lower-case bytes, and zeros after them up to 8, as one number whose most significant byte is the first.
    /// These numbers are in the order of the subtags.
    #[tactic(auto, unfolding(crate::specs::Lanes::number))]
    pub fn number(&self) -> u64
        ensures number { result ≡ number self.now }
        ensures subtag { is_subtag self.now ≡ true }
    {
        u64::from_be_bytes(self.letters)
    }

    /// An equal subtag, in place of a `clone`, which the type doesn't have.
    pub fn copy(&self) -> Subtag
        ensures { result ≡ self.now }
    {
        Subtag {
            letters: self.letters,
            count: self.count,
        }
    }

    /// The bytes with their letters in the given case (RFC 5646, 2.1.1).
    #[tactic(auto, using(crate::proofs::BytesLemmas::subtag_length))]
    pub fn cased(&self, case: Case) -> ArrayVec<u8, 8>
        ensures { result.items ≡ reading.cased case self.now }
    {
        let bytes = self.bytes();
        match case {
            Case::Lower => capitalised(bytes, 0),
            Case::Upper => capitalised(bytes, bytes.len()),
            Case::Title => capitalised(bytes, 1),
        }
    }

    /// Whether it has the form of a language: 2 to 8 letters (RFC 5646, 2.2.1).
    #[tactic(auto, unfolding(crate::specs::Shapes::is_language))]
    pub fn is_language(&self) -> bool
        ensures { result ≡ shapes.is_language self.now }
    {
        is_alphabetic(self.bytes()) && 2 <= self.count && self.count <= 8
    }

    /// Whether it has the form of an extlang: 3 letters (RFC 5646, 2.2.2).
    #[tactic(auto, unfolding(crate::specs::Shapes::is_extlang))]
    pub fn is_extlang(&self) -> bool
        ensures { result ≡ shapes.is_extlang self.now }
    {
        self.count == 3 && is_alphabetic(self.bytes())
    }

    /// Whether it has the form of a script: 4 letters (RFC 5646, 2.2.3).
    #[tactic(auto, unfolding(crate::specs::Shapes::is_script))]
    pub fn is_script(&self) -> bool
        ensures { result ≡ shapes.is_script self.now }
    {
        self.count == 4 && is_alphabetic(self.bytes())
    }

    /// Whether it has the form of a region: 2 letters or 3 digits (RFC 5646, 2.2.4).
    #[tactic(auto, unfolding(crate::specs::Shapes::is_region))]
    pub fn is_region(&self) -> bool
        ensures { result ≡ shapes.is_region self.now }
    {
        let bytes = self.bytes();
        bytes.len() == 2 && is_alphabetic(bytes) || bytes.len() == 3 && is_numeric(bytes)
    }

    /// Whether it has the form of a variant: 5 or more letters or digits, or 4 of which the first is a
    /// digit (RFC 5646, 2.2.5).
    #[tactic(auto, unfolding(crate::specs::Shapes::is_variant))]
    pub fn is_variant(&self) -> bool
        ensures { result ≡ shapes.is_variant self.now }
    {
        let bytes = self.bytes();
        5 <= bytes.len() || bytes.len() == 4 && bytes[0].is_ascii_digit()
    }

    /// Whether it is a singleton: a single digit or letter, but not `x` (RFC 5646, 2.2.6).
    #[tactic(auto, unfolding(crate::specs::Shapes::is_singleton))]
    pub fn is_singleton(&self) -> bool
        ensures { result ≡ shapes.is_singleton self.now }
    {
        match self.bytes() {
            [byte] => *byte != b'x',
            _ => false,
        }
    }

    /// Whether it has the form of a key of a `u` extension: two letters or digits (RFC 6067, 2.1).
    #[tactic(auto, unfolding(crate::specs::Shapes::is_key))]
    pub fn is_key(&self) -> bool
        ensures { result ≡ shapes.is_key self.now }
    {
        self.count == 2
    }

    /// Whether it has the form of a separator of a `t` extension: a letter and a digit (RFC 6497, 2.2).
    #[tactic(auto, unfolding(crate::specs::Shapes::is_separator))]
    pub fn is_separator(&self) -> bool
        ensures { result ≡ shapes.is_separator self.now }
    {
        match self.bytes() {
            [first, second] => first.is_ascii_lowercase() && second.is_ascii_digit(),
            _ => false,
        }
    }
}

/// Whether each byte is a digit, or a letter of either case.
fn is_alphanumeric(bytes: &[u8]) -> bool
    ensures { result ≡ list_all is_ascii_alphanumeric bytes.now }
{
    bytes.iter().all(|byte| byte.is_ascii_alphanumeric())
}

/// Whether each byte is a lower-case letter.
fn is_alphabetic(bytes: &[u8]) -> bool
    ensures { result ≡ shapes.is_alphabetic bytes.now }
{
    bytes.iter().all(|byte| byte.is_ascii_lowercase())
}

/// Whether each byte is a digit.
fn is_numeric(bytes: &[u8]) -> bool
    ensures { result ≡ shapes.is_numeric bytes.now }
{
    bytes.iter().all(|byte| byte.is_ascii_digit())
}

/// The fault with which `Subtag::read` refuses a piece of more than 8 bytes: `BadByte` if a byte is no ASCII letter or
/// digit, else `TooLong`. The piece must have more than 8 bytes.
fn long_fault(bytes: &[u8]) -> SubtagFault
    requires { 8 < length bytes.now }
    ensures { Err result ≡ subtag_of bytes.now }
{
    if is_alphanumeric(bytes) {
        SubtagFault::TooLong
    } else {
        SubtagFault::BadByte
    }
}

/// Bytes, of which there must be at most 8, with the letters among the first `capitals` in upper case and the others
/// as they are. `capitals` must be at most the number of bytes.
fn capitalised(bytes: &[u8], capitals: usize) -> ArrayVec<u8, 8>
    requires short { length bytes.now ≤ 8 }
    requires within { capitals ≤ length bytes.now }
    ensures { result.items ≡ upper (take capitals bytes.now) ++ drop capitals bytes.now }
{
    let mut shown = ArrayVec::new();
    for byte in &bytes[..capitals] {
        shown.push(byte.to_ascii_uppercase());
    }
    for rest in &bytes[capitals..] {
        shown.push(*rest);
    }
    shown
}
