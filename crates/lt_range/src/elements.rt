//! The list elements of a header. An element is a range and what follows it, for example `en;q=0.8`; `parts_of` is what
//! contracts see of it.
ghost use Rattle.std.specs.Prelude.{◌≡◌, map, Ok, IfOk, IfErr};
ghost use Rattle.std.specs.Option.{option_map};
ghost use Rattle.lt_range.specs.Elements.{parts_of, element_of, IsRefused};
ghost use Rattle.lt_range.specs.Headers.{comma_pieces, elements_from, IsFault, IsFaultAt};

use crate::accept_faults::{AcceptFault, AcceptFaultKind};
use crate::basic_ranges::check_range;
use crate::weights::weight;
use crate::words::{after_blanks, cut_word};
use std::alloc::{AllocError, Global};

/// A language range of a header, and its weight.
#[derive(Clone, Copy, Debug)]
pub struct WeightedRange<'a> {
    /// The text of the range, as the header has it: a basic range (RFC 4647, 2.1).
    pub range: &'a [u8],
    /// The weight in thousandths, from 0 to 1,000 (RFC 9110, 12.4.2).
    pub weight: u16,
}

/// What is before, between and after the commas of a text; the whole text if it has no comma.
pub(crate) fn cut_at_commas(alloc: Global, text: &[u8]) -> Result<Vec<&[u8]>, AllocError>
    ensures { IfOk result (λ found. map (λ piece. piece.now) found.items ≡ comma_pieces text.now) }
{
    text.split(|byte| *byte == b',').collect(alloc)
}

/// The element that a piece between commas is, or None if the piece is empty or white space. Refused if `check_range`
/// refuses its range, with its fault, and else with `BadWeight` if what follows the range is no weight.
#[tactic(auto, unfolding(crate::specs::Elements::element_of))]
fn read_element(alloc: Global, piece: &[u8]) -> Result<Option<WeightedRange<'_>>, AcceptFaultKind>
    ensures element { IfOk result (λ element. element_of piece.now ≡ Ok (option_map parts_of element)) }
    ensures fault { IfErr result (IsRefused (element_of piece.now)) }
{
    let text = after_blanks(piece);
    if text.is_empty() {
        return Ok(None);
    }
    let (range, others) = cut_word(text);
    check_range(alloc, range)?;
    match weight(others) {
        Some(weight) => Ok(Some(WeightedRange { range, weight })),
        None => Err(AcceptFaultKind::BadWeight),
    }
}

/// The element that a piece between commas is, or None if the piece is empty or white space. Refused if `read_element`
/// refuses the piece, with its fault and `place`, the number of the piece.
fn read_numbered<'a>(
    alloc: Global,
    piece: &'a [u8],
    place: usize,
) -> Result<Option<WeightedRange<'a>>, AcceptFault>
    ensures element { IfOk result (λ element. element_of piece.now ≡ Ok (option_map parts_of element)) }
    ensures fault { IfErr result (IsFaultAt (element_of piece.now) place) }
{
    match read_element(alloc, piece) {
        Ok(element) => Ok(element),
        Err(kind) => Err(AcceptFault { kind, place }),
    }
}

/// The elements that the pieces between commas are, in their order, without the empty ones. Refused with the fault of
/// the first piece that has one, or where memory runs out. Pieces are numbered from 1, the empty ones too.
pub(crate) fn read_elements<'a>(
    alloc: Global,
    pieces: &[&'a [u8]],
) -> Result<Vec<WeightedRange<'a>>, AcceptFault>
    ensures elements { IfOk result (λ elements. elements_from 1 (map (λ piece. piece.now) pieces.now) ≡ Ok (map parts_of elements.items)) }
    ensures fault { IfErr result (IsFault (elements_from 1 (map (λ piece. piece.now) pieces.now))) }
{
    let mut elements = Vec::new(alloc);
    for (index, piece) in pieces.iter().enumerate() {
        if let Some(element) = read_numbered(alloc, *piece, index + 1)? {
            elements.push(element)?;
        }
    }
    Ok(elements)
}
