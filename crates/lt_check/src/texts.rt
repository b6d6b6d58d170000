//! Texts of subtags that stay as they are in canonicalization, shown in conventional case. A text is *shown* if it is a
//! language of 2 or 3 letters, alone or with a script, a region or both, and each of these has its flag: so the text is
//! canonical but for letter case. For speed all is inlined into the one call that a text takes, and tests are joined by
//! `&`, so that one branch can do for all subtags of a text. The bytes that are shown are filled up with zeros to a
//! fixed length, and their count is at most this length (`few`).
ghost use Rattle.std.specs.Prelude.{◌≡◌, ◌≤◌, IfSome};
ghost use Rattle.lt_check.specs.Shown as shown;

use crate::places::{language_2, language_3, region_2, region_3, script_4};
use crate::usual_subtags::UsualSubtags;

/// What follows the language of a text, in conventional case: how many bytes it has, and they, with zeros after them.
/// The longest are nine bytes, such as `-Latn-419`.
#[derive(Clone, Copy)]
pub(crate) struct AfterLanguage {
    count: usize,
    bytes: [u8; 9],
}

/// A text in conventional case: how many bytes it has, and they, with zeros after them. The longest are twelve bytes,
/// such as `gsw-Latn-419`.
#[derive(Clone, Copy)]
pub(crate) struct Shown {
    pub(crate) count: usize,
    pub(crate) bytes: [u8; 12],
}

/// What follows the language: `bytes`, of which the first `count` are shown. None if the test `holds` is false.
#[inline(always)]
fn after_if(holds: bool, count: usize, bytes: [u8; 9]) -> Option<AfterLanguage>
    ensures { result ≡ shown.after_if holds count bytes }
{
    if holds {
        Some(AfterLanguage { count, bytes })
    } else {
        None
    }
}

/// A letter in lower case, by 0x20, the bit in which the cases differ; what another byte becomes doesn't matter, since
/// no subtag with one has a flag.
#[inline(always)]
fn lower(byte: u8) -> u8
    ensures { result ≡ shown.lower byte }
{
    byte | 0x20
}

/// A letter in upper case, by 0xdf, all bits but 0x20; what another byte becomes doesn't matter either.
#[inline(always)]
fn upper(byte: u8) -> u8
    ensures { result ≡ shown.upper_byte byte }
{
    byte & 0xdf
}

impl UsualSubtags {
    /// What follows the language, `rest`, in conventional case. None unless `rest` is nothing, or a hyphen and a
    /// script, a hyphen and a region, or both, and each of these subtags has its flag.
    #[inline(always)]
    fn after_language(&self, rest: &[u8]) -> Option<AfterLanguage>
        ensures value { result ≡ shown.after_language self.now rest.now }
        ensures few { IfSome result (λ after. after.count ≤ 9) }
    {
        match *rest {
            [] => after_if(true, 0, [0; 9]),
            [h, a, b] => after_if(
                (h == b'-') & self.has(region_2(a, b)),
                3,
                [b'-', upper(a), upper(b), 0, 0, 0, 0, 0, 0],
            ),
            [h, a, b, c] => after_if(
                (h == b'-') & self.has(region_3(a, b, c)),
                4,
                [b'-', a, b, c, 0, 0, 0, 0, 0],
            ),
            _ => self.from_script(rest),
        }
    }

    /// What follows the language, `rest`, in conventional case. None unless `rest` is a hyphen and a script, alone or
    /// with a hyphen and a region after it, and each of these subtags has its flag.
    #[inline(always)]
    #[tactic(auto, using(crate::proofs::TextLemmas::nine_reads))]
    fn from_script(&self, rest: &[u8]) -> Option<AfterLanguage>
        ensures value { result ≡ shown.from_script self.now rest.now }
        ensures few { IfSome result (λ after. after.count ≤ 9) }
    {
        match *rest {
            [h, a, b, c, d] => after_if(
                (h == b'-') & self.has(script_4(a, b, c, d)),
                5,
                [b'-', upper(a), lower(b), lower(c), lower(d), 0, 0, 0, 0],
            ),
            [h, a, b, c, d, i, e, f] => after_if(
                ((h == b'-') & (i == b'-'))
                    & (self.has(script_4(a, b, c, d)) & self.has(region_2(e, f))),
                8,
                [
                    b'-',
                    upper(a),
                    lower(b),
                    lower(c),
                    lower(d),
                    b'-',
                    upper(e),
                    upper(f),
                    0,
                ],
            ),
            [h, a, b, c, d, i, e, f, g] => after_if(
                ((h == b'-') & (i == b'-'))
                    & (self.has(script_4(a, b, c, d)) & self.has(region_3(e, f, g))),
                9,
                [b'-', upper(a), lower(b), lower(c), lower(d), b'-', e, f, g],
            ),
            _ => None,
        }
    }

    /// A text in conventional case that begins with the language `a`, `b` and goes on with `rest`. None unless all its
    /// subtags have flags, and `rest` is as `after_language` asks.
    #[inline(always)]
    fn shown_two(&self, a: u8, b: u8, rest: &[u8]) -> Option<Shown>
        ensures value { result ≡ shown.shown_two self.now a b rest.now }
        ensures few { IfSome result (λ shown. shown.count ≤ 12) }
    {
        if !self.has(language_2(a, b)) {
            return None;
        }
        match self.after_language(rest) {
            Some(after) => {
                let [s, t, u, v, w, x, y, z, last] = after.bytes;
                Some(Shown {
                    count: 2 + after.count,
                    bytes: [lower(a), lower(b), s, t, u, v, w, x, y, z, last, 0],
                })
            }
            None => None,
        }
    }

    /// A text in conventional case that begins with the language `a`, `b`, `c` and goes on with `rest`. None unless all
    /// its subtags have flags, and `rest` is as `after_language` asks.
    #[inline(always)]
    fn shown_three(&self, a: u8, b: u8, c: u8, rest: &[u8]) -> Option<Shown>
        ensures value { result ≡ shown.shown_three self.now a b c rest.now }
        ensures few { IfSome result (λ shown. shown.count ≤ 12) }
    {
        if !self.has(language_3(a, b, c)) {
            return None;
        }
        match self.after_language(rest) {
            Some(after) => {
                let [s, t, u, v, w, x, y, z, last] = after.bytes;
                Some(Shown {
                    count: 3 + after.count,
                    bytes: [lower(a), lower(b), lower(c), s, t, u, v, w, x, y, z, last],
                })
            }
            None => None,
        }
    }

    /// A text in conventional case. None unless it is a language of 2 or 3 letters, alone or with a script, a region or
    /// both, and each of them has its flag.
    #[inline(always)]
    pub(crate) fn shown(&self, text: &[u8]) -> Option<Shown>
        ensures value { result ≡ shown.shown_text self.now text.now }
        ensures few { IfSome result (λ shown. shown.count ≤ 12) }
    {
        match *text {
            [a, b, ..] if text.len() == 2 || text[2] == b'-' => { self.shown_two(a, b, &text[2..]) }
            [a, b, c, ..] => self.shown_three(a, b, c, &text[3..]),
            _ => None,
        }
    }
}
