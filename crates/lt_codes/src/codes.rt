//! Codes of languages, and what is registered for them. A contract sees a table as its codes, and does not see the
//! numbers and places by which they are looked up.
ghost use Rattle.std.specs.Prelude.{◌≡◌, ◌<◌, ◌≤◌, ◌++◌, ◌∷◌, [], IfOk, IfSome, IsSome, MatchBool, OnOk, length, option_map};
ghost use Rattle.std.specs.List.{All};
ghost use Rattle.lt_subtag.specs.Bytes.{folded};
ghost use Rattle.lt_codes.specs.Index as spec;

use lt_subtag::Subtag;
use std::alloc::{AllocError, Global};
use std::marker::Model;

/// A code of ISO 639-2, and the code that BCP 47 registers for the same language.
#[derive(Debug, Drop)]
pub struct Code {
    /// The code, of three letters, as `ger`.
    pub code: Subtag,
    /// The registered code, of two or three letters, as `de`.
    pub registered: Subtag,
}

/// How many numbers three letters have: 26 to the 3.
const NUMBERS: usize = 17_576;

/// A table of codes, in the order of its file.
#[derive(Debug, Drop)]
pub struct CodeTable {
    codes: Vec<Code>,
    /// For each three letters, at their number, the place of the code that they are, counted from 1; 0 if they are
    /// none.
    places: Vec<usize>,
}

impl Model for CodeTable {
    ghost use Rattle.std.specs.Prelude.{List};
    ghost use Rattle.lt_codes.specs.Index.{AreIndexed};
    ghost use Rattle.lt_codes.specs.declared.codes.Code.{Code};

    ghost Value = { List Code };

    ghost view = { λ table. table.codes.items };

    ghost invariant = { λ table. AreIndexed table.codes.items table.places.items };
}

/// The number of a letter, from 0 to 25, whatever its case. None for any other byte.
fn letter_of(byte: u8) -> Option<usize>
    ensures number { result ≡ spec.letter_of byte }
    ensures small { IfSome result (λ number. number < 26) }
{
    if byte.is_ascii_alphabetic() {
        Some(usize::from(byte.to_ascii_lowercase() - b'a'))
    } else {
        None
    }
}

/// The number of a text of three letters, whatever their case: the letters are its digits to the base 26. So it is
/// below 17,576, and an index of `places`. `aac` has 2. None for any other text.
fn number_of(text: &[u8]) -> Option<usize>
    ensures number { result ≡ spec.number_of text.now }
    ensures small { IfSome result (λ number. number < 17576) }
{
    match text {
        [first, second, third] => {
            let first = letter_of(*first)?;
            let second = letter_of(*second)?;
            let third = letter_of(*third)?;
            Some((first * 26 + second) * 26 + third)
        }
        _ => None,
    }
}

impl CodeTable {
    ghost use Rattle.lt_codes.specs.Codes.{found_in, registered_text};
    ghost use Rattle.lt_codes.specs.Index.{IsCode, number_of};

    /// A table without codes. Refused only where memory runs out.
    pub(crate) fn new(alloc: Global) -> Result<CodeTable, AllocError>
        ensures { IfOk result (λ table. table ≡ []) }
    {
        Ok(CodeTable {
            codes: Vec::new(alloc),
            places: vec![in alloc; 0usize; NUMBERS]?,
        })
    }

    /// Does nothing when it runs: by its clause a caller's proof knows the form of the codes, which every table keeps.
    pub fn know_codes(&self)
        ensures { All IsCode self.now }
    {
        let _ = &self.codes;
    }

    /// Adds a code after the others, with the subtag that is registered for it. The code must be three letters in lower
    /// case, and the subtag at least two bytes long, so that replacing a code makes a text at most one byte shorter.
    /// Refused only where memory runs out.
    pub(crate) fn push(&mut self, code: Subtag, registered: Subtag) -> Result<(), AllocError>
        requires { IsCode (record { code = code; registered = registered }) }
        ensures { OnOk result (self.new ≡ self.old ++ record { code = code; registered = registered } ∷ []) }
    {
        let number = number_of(code.bytes());
        self.codes.push(Code { code, registered })?;
        if let Some(number) = number {
            // The first of codes that are the same keeps its place.
            if self.places[number] == 0 {
                self.places[number] = self.codes.len();
            }
        }
        Ok(())
    }

    /// The subtag that is registered for a code, whatever the case of its letters: that of the first code in the table
    /// that is this text. None if the text is no code of the table.
    pub(crate) fn registered(&self, text: &[u8]) -> Option<&Subtag>
        ensures { option_map (λ subtag. subtag.now) result ≡ option_map (λ c. c.registered) (found_in self.now text.now) }
    {
        let places = &self.places;
        let number = number_of(text)?;
        let place = places[number];
        if place == 0 {
            return None;
        }
        Some(&self.codes[place - 1].registered)
    }
}
