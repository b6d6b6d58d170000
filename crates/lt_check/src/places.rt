//! The place of each subtag in a table of flags: of a language of 2 or 3 letters, a script, or a region.
ghost use Rattle.std.specs.Prelude.{◌≡◌, ◌<◌, ◌≤◌, ◌∷◌, [], IfSome};
ghost use Rattle.lt_check.specs.Places as places;

use lt_registry::Kind;

/// How many places there are: 27² and 27³ of languages, 27⁴ of scripts, 27² and 11³ of regions. A byte that is no
/// letter or no digit has a number too, so that each subtag of these lengths has a place.
pub(crate) const PLACES: usize = 553_913;

/// The place of each byte among the letters, in either case, and 26 for one that is no letter. It is a table, so that
/// no byte needs a branch.
static LETTERS: [u8; 256] = [
    26, 26, 26, 26, 26, 26, 26, 26, 26, 26, 26, 26, 26, 26, 26, 26, 26, 26, 26, 26, 26, 26, 26, 26,
    26, 26, 26, 26, 26, 26, 26, 26, 26, 26, 26, 26, 26, 26, 26, 26, 26, 26, 26, 26, 26, 26, 26, 26,
    26, 26, 26, 26, 26, 26, 26, 26, 26, 26, 26, 26, 26, 26, 26, 26, 26, 0, 1, 2, 3, 4, 5, 6, 7, 8,
    9, 10, 11, 12, 13, 14, 15, 16, 17, 18, 19, 20, 21, 22, 23, 24, 25, 26, 26, 26, 26, 26, 26, 0,
    1, 2, 3, 4, 5, 6, 7, 8, 9, 10, 11, 12, 13, 14, 15, 16, 17, 18, 19, 20, 21, 22, 23, 24, 25, 26,
    26, 26, 26, 26, 26, 26, 26, 26, 26, 26, 26, 26, 26, 26, 26, 26, 26, 26, 26, 26, 26, 26, 26, 26,
    26, 26, 26, 26, 26, 26, 26, 26, 26, 26, 26, 26, 26, 26, 26, 26, 26, 26, 26, 26, 26, 26, 26, 26,
    26, 26, 26, 26, 26, 26, 26, 26, 26, 26, 26, 26, 26, 26, 26, 26, 26, 26, 26, 26, 26, 26, 26, 26,
    26, 26, 26, 26, 26, 26, 26, 26, 26, 26, 26, 26, 26, 26, 26, 26, 26, 26, 26, 26, 26, 26, 26, 26,
    26, 26, 26, 26, 26, 26, 26, 26, 26, 26, 26, 26, 26, 26, 26, 26, 26, 26, 26, 26, 26, 26, 26, 26,
    26, 26, 26, 26, 26, 26, 26, 26, 26, 26, 26, 26,
];

/// The index of a letter in the alphabet, in either case, or 26 for any other byte.
#[inline(always)]
#[tactic(auto, using(crate::proofs::FlagLemmas::letter_reads))]
fn letter(byte: u8) -> usize
    ensures { result ≡ places.letter byte }
{
    usize::from(LETTERS[usize::from(byte)])
}

/// The value of a digit, or 10 for any other byte.
#[inline(always)]
fn digit(byte: u8) -> usize
    ensures value { result ≡ places.digit byte }
    ensures below { result ≤ 10 }
{
    // A byte below `0` wraps to more than 10.
    usize::from(byte.wrapping_sub(b'0').min(10))
}

/// The place of a language of 2 letters in the table of flags, one of the first 27² = 729.
#[inline(always)]
#[tactic(auto, using(crate::proofs::FlagLemmas::letter_few))]
pub(crate) fn language_2(a: u8, b: u8) -> usize
    ensures value { result ≡ places.language_2 a b }
    ensures within { result < 729 }
{
    letter(a) * 27 + letter(b)
}

/// The place of a language of 3 letters in the table of flags, one of the 27³ from 729 on.
#[inline(always)]
#[tactic(auto, using(crate::proofs::FlagLemmas::letter_few))]
pub(crate) fn language_3(a: u8, b: u8, c: u8) -> usize
    ensures value { result ≡ places.language_3 a b c }
    ensures within { result < 20_412 }
{
    729 + (letter(a) * 27 + letter(b)) * 27 + letter(c)
}

/// The place of a script in the table of flags, one of the 27⁴ from 20,412 on.
#[inline(always)]
#[tactic(auto, using(crate::proofs::FlagLemmas::letter_few))]
pub(crate) fn script_4(a: u8, b: u8, c: u8, d: u8) -> usize
    ensures value { result ≡ places.script_4 a b c d }
    ensures within { result < 551_853 }
{
    20_412 + ((letter(a) * 27 + letter(b)) * 27 + letter(c)) * 27 + letter(d)
}

/// The place of a region of 2 letters in the table of flags, one of the 27² from 551,853 on.
#[inline(always)]
#[tactic(auto, using(crate::proofs::FlagLemmas::letter_few))]
pub(crate) fn region_2(a: u8, b: u8) -> usize
    ensures value { result ≡ places.region_2 a b }
    ensures within { result < 552_582 }
{
    551_853 + letter(a) * 27 + letter(b)
}

/// The place of a region of 3 digits in the table of flags, one of the last 11³, from 552,582 on.
#[inline(always)]
pub(crate) fn region_3(a: u8, b: u8, c: u8) -> usize
    ensures value { result ≡ places.region_3 a b c }
    ensures within { result < 553_913 }
{
    552_582 + (digit(a) * 11 + digit(b)) * 11 + digit(c)
}

/// The place of a subtag of a kind in the table of flags, one of 553,913. None if it isn't a language of 2 or 3
/// letters, a script or a region.
pub(crate) fn place(kind: Kind, bytes: &[u8]) -> Option<usize>
    ensures value { result ≡ places.place kind bytes.now }
    ensures within { IfSome result (λ place. place < 553_913) }
{
    match (kind, bytes) {
        (Kind::Language, [a, b]) => Some(language_2(*a, *b)),
        (Kind::Language, [a, b, c]) => Some(language_3(*a, *b, *c)),
        (Kind::Script, [a, b, c, d]) => Some(script_4(*a, *b, *c, *d)),
        (Kind::Region, [a, b]) => Some(region_2(*a, *b)),
        (Kind::Region, [a, b, c]) => Some(region_3(*a, *b, *c)),
        _ => None,
    }
}
