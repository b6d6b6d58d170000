//! Byte order marks at the beginning of a text.
ghost use Rattle.std.specs.Prelude.{◌↔◌, IsTrue};
ghost use Rattle.lt_rows.specs.Marks.{Begins, IsShortOf, IsWide, MayBeMark, SplitsMark};

/// The mark of UTF-8 (RFC 3629, 6).
const UTF8: &[u8] = b"\xEF\xBB\xBF";

/// The mark of UTF-16, the high byte of a pair first (RFC 2781, 3.2).
const BIG: &[u8] = b"\xFE\xFF";

/// The mark of UTF-16, the low byte of a pair first (RFC 2781, 3.2).
const LITTLE: &[u8] = b"\xFF\xFE";

/// Whether a text begins with the bytes of `front`.
#[tactic(auto, using(crate::proofs::MarkLemmas::begins_is))]
fn begins(text: &[u8], front: &[u8]) -> bool
    ensures { IsTrue result ↔ Begins front.now text.now }
{
    text.starts_with(front)
}

/// Whether a text is the beginning of a mark, and shorter than it.
#[tactic(auto, using(crate::proofs::MarkLemmas::short_is, crate::proofs::MarkLemmas::short_length))]
fn is_short_of(mark: &[u8], text: &[u8]) -> bool
    ensures { IsTrue result ↔ IsShortOf mark.now text.now }
{
    text.len() < mark.len() && begins(mark, text)
}

/// Whether a text begins with a byte order mark of UTF-16.
pub fn is_wide(text: &[u8]) -> bool
    ensures { IsTrue result ↔ IsWide text.now }
{
    begins(text, BIG) || begins(text, LITTLE)
}

/// Whether a text may become a byte order mark when more bytes follow.
pub fn may_be_mark(text: &[u8]) -> bool
    ensures { IsTrue result ↔ MayBeMark text.now }
{
    is_short_of(UTF8, text) || is_short_of(BIG, text) || is_short_of(LITTLE, text)
}

/// The byte order mark of UTF-8 at the beginning of a text, or no bytes if it has none, and what follows.
pub fn split_mark(text: &[u8]) -> (&[u8], &[u8])
    ensures { SplitsMark text.now result.0.now result.1.now }
{
    if begins(text, UTF8) {
        text.split_at(UTF8.len())
    } else {
        text.split_at(0)
    }
}
