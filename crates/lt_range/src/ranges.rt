//! Language ranges, and the reading of them.
ghost use Rattle.std.specs.Prelude.{◌≡◌, ◌++◌, Ok, IfOk, IfErr, OnOk};
ghost use Rattle.lt_subtag.specs.Shapes as shapes;
ghost use Rattle.lt_tag.specs.Rest.{pieces_left};
ghost use Rattle.lt_range.specs.Ranges.{range_of_tag};
ghost use Rattle.lt_range.specs.Spellings.{first_of};
ghost use Rattle.lt_range.specs.Reading as reading;
ghost use Rattle.lt_range.specs.Reading.{range_of, later_pieces, AppendsRead, IsRefused, IsRangeFault};

use crate::faults::RangeFault;
use crate::tag_subtags::{SubtagList, TagSubtags};
use lt_subtag::Subtag;
use lt_tag::{OutOfMemory, copy_subtags, cut_piece};
use std::alloc::Global;
use std::marker::Model;

/// A language range (RFC 4647, 2.1 and 2.2): `de-CH`, `*`, `de-*-DE`. A `*` that is not its first subtag says nothing
/// in any of the three schemes, and is not kept; so `de-*-DE` is `de-DE`.
#[derive(Debug, Drop)]
pub struct LanguageRange {
    wild: bool,
    named: Vec<Subtag>,
}

// A contract sees whether the range begins with `*`, and its other subtags.
impl Model for LanguageRange {
    ghost use Rattle.lt_range.specs.Ranges.{RangeParts};

    ghost Value = { RangeParts };

    ghost view = { λ r. record { wild = r.wild; named = r.named.items } };
}

/// Whether a piece is the special subtag `*`.
pub(crate) fn is_star(piece: &[u8]) -> bool
    ensures { result ≡ reading.is_star piece.now }
{
    match piece {
        [byte] => *byte == b'*',
        _ => false,
    }
}

/// Whether a subtag has only letters.
fn is_alphabetic(subtag: &Subtag) -> bool
    ensures { result ≡ shapes.is_alphabetic subtag.now }
{
    subtag.bytes().iter().all(|byte| byte.is_ascii_lowercase())
}

/// The subtag that a piece after the first is, or None if the piece is `*`. Refused with `BadSubtag` if it is neither.
fn later_piece(piece: &[u8]) -> Result<Option<Subtag>, RangeFault>
    ensures { result ≡ reading.later_piece piece.now }
{
    if is_star(piece) {
        return Ok(None);
    }
    match Subtag::read(piece) {
        Ok(subtag) => Ok(Some(subtag)),
        Err(fault) => Err(RangeFault::BadSubtag(fault)),
    }
}

/// The subtag that the first piece is, or None if the piece is `*`. Refused with `BadFirst` if the subtag has a digit,
/// and with `BadSubtag` if the piece is neither a subtag nor `*`.
fn first_piece(piece: &[u8]) -> Result<Option<Subtag>, RangeFault>
    ensures { result ≡ reading.first_piece piece.now }
{
    if is_star(piece) {
        return Ok(None);
    }
    match Subtag::read(piece) {
        Ok(subtag) if is_alphabetic(&subtag) => Ok(Some(subtag)),
        Ok(_) => Err(RangeFault::BadFirst),
        Err(fault) => Err(RangeFault::BadSubtag(fault)),
    }
}

/// Adds to `named` the subtags that the pieces of `pieces` are; a `*` is left out. `pieces` is the text after the first
/// hyphen, or None if there is none. Refused with the fault of the first piece that is neither a subtag nor `*`, or
/// where memory runs out.
fn append_pieces(named: &mut Vec<Subtag>, pieces: Option<&[u8]>) -> Result<(), RangeFault>
    ensures appended { OnOk result (AppendsRead named.old.items named.new.items (later_pieces (pieces_left pieces.entry))) }
    ensures refused { IfErr result (IsRefused (later_pieces (pieces_left pieces.entry))) }
{
    let mut rest = pieces;
    while let Some(bytes) = rest {
        let (piece, after) = cut_piece(bytes);
        if let Some(subtag) = later_piece(piece)? {
            named.push(subtag)?;
        }
        rest = after;
    }
    Ok(())
}

impl LanguageRange {
    /// The range that a text is, in any letter case (RFC 4647, 2.2): its subtags are of 1 to 8 letters or digits or
    /// are `*`, and the first has no digit.
    ///
    /// It is refused for the leftmost piece between hyphens that can't be where it is, or for lack of memory:
    ///
    /// - `BadSubtag`, with the fault, where that piece is neither `*` nor a subtag.
    /// - `BadFirst` where it is the first piece and has a digit.
    /// - `OutOfMemory` where memory runs out.
    pub fn read(alloc: Global, text: &[u8]) -> Result<LanguageRange, RangeFault>
        ensures range { IfOk result (λ range. range_of text.now ≡ Ok range) }
        ensures fault { IfErr result (IsRangeFault text.now) }
    {
        let (piece, rest) = cut_piece(text);
        let first = first_piece(piece)?;
        let wild = first.is_none();
        let mut named = Vec::new(alloc);
        if let Some(subtag) = first {
            named.push(subtag)?;
        }
        append_pieces(&mut named, rest)?;
        Ok(LanguageRange { wild, named })
    }

    /// The range of these subtags (RFC 4647, 2.1).
    pub(crate) fn of_list(list: SubtagList) -> LanguageRange
        ensures { result ≡ range_of_tag list }
    {
        let named = list.into_subtags();
        LanguageRange { wild: false, named }
    }

    /// The range that a tag is in its first spelling: it has the subtags of that (RFC 4647, 2.1).
    pub fn of_subtags(tag: TagSubtags) -> LanguageRange
        ensures { result ≡ range_of_tag (first_of tag) }
    {
        let (first, _others) = tag.into_lists();
        LanguageRange::of_list(first)
    }

    /// The range that has the subtags of a tag's first spelling, and others after them. The only refusal is running out
    /// of memory.
    pub(crate) fn of_front(
        alloc: Global,
        tag: TagSubtags,
        others: &[Subtag],
    ) -> Result<LanguageRange, OutOfMemory>
        ensures { IfOk result (λ range. range ≡ range_of_tag (first_of tag ++ others.now)) }
    {
        let (first, _others) = tag.into_lists();
        let mut named = first.into_subtags();
        let mut more = copy_subtags(alloc, others)?;
        named.append(&mut more)?;
        Ok(LanguageRange { wild: false, named })
    }

    /// Whether the range begins with `*`.
    pub fn begins_wild(&self) -> bool
        ensures { result ≡ self.now.wild }
    {
        self.wild
    }

    /// The subtags of the range in their order, without `*`.
    pub fn named(&self) -> &[Subtag]
        ensures { result.now ≡ self.now.named }
    {
        &self.named
    }
}
