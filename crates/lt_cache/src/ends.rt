//! Ends of texts that are canonical but for the case of their letters.
ghost use Rattle.std.specs.Prelude.{◌≡◌, None, false, MatchOption};
ghost use Rattle.std.specs.List.{list_all};
ghost use Rattle.lt_subtag.specs.Bytes.{folded, is_subtag};
ghost use Rattle.lt_tag.specs.Lists.{list_of};
ghost use Rattle.lt_rewrite.specs.RisingKeys as rising;
ghost use Rattle.lt_cache.specs.SettledEnds as settled;

use lt_rewrite::next_key;
use lt_subtag::Subtag;
use lt_tag::cut_piece;

/// The piece as a subtag, or None if it isn't one.
#[tactic(auto, using(crate::proofs::PieceLemmas::piece_read, crate::proofs::PieceLemmas::piece_refused))]
pub(crate) fn read_piece(piece: &[u8]) -> Option<Subtag>
    ensures { MatchOption result (is_subtag (folded piece.now) ≡ false) (λ subtag. subtag ≡ folded piece.now) }
{
    Subtag::read(piece).ok()
}

/// The last key once one more piece is read; `last` is the last key before that, if there is one. It is the piece if
/// that is a key after `last` in order, and `last` if the piece is a type of that key, but not `true`. None if the
/// piece is neither.
#[tactic(auto, using(crate::proofs::PieceLemmas::next_none))]
fn key_after(last: Option<Subtag>, piece: &[u8]) -> Option<Subtag>
    ensures { result ≡ rising.next_key last (folded piece.now) }
{
    next_key(last, read_piece(piece)?)
}

/// Whether a text consists of keywords whose keys rise, and none of which has the type `true`. Such keywords are in
/// canonical form but for their case (RFC 5646, 4.5; RFC 6067, 2.1.1). The `None` of the clause says that no key is
/// before the first.
fn keys_rise(text: &[u8]) -> bool
    ensures { result ≡ rising.keys_rise None (list_of text.now) }
{
    let mut last = None;
    let mut rest = Some(text);
    while let Some(bytes) = rest {
        let (piece, after) = cut_piece(bytes);
        let Some(key) = key_after(last, piece) else {
            return false;
        };
        last = Some(key);
        rest = after;
    }
    true
}

/// Whether each piece of a text is a subtag.
fn are_subtags(text: &[u8]) -> bool
    ensures { result ≡ list_all is_subtag (list_of text.now) }
{
    text.split(|byte| *byte == b'-')
        .all(|piece| read_piece(piece).is_some())
}

/// Whether an end is of one of two kinds that are canonical but for the case of their letters. One kind is keywords of a `u`
/// extension whose keys rise, none with the type `true`, such as `-U-CO-phonebk`; the other is private use, such as `-x-own`.
pub(crate) fn is_settled_end(end: &[u8]) -> bool
    ensures { result ≡ settled.is_settled_end end.now }
{
    match end {
        [b'-', b'u' | b'U', b'-', rest @ ..] => keys_rise(rest),
        [b'-', b'x' | b'X', b'-', rest @ ..] => are_subtags(rest),
        _ => false,
    }
}
