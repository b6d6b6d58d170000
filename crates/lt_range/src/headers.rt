//! Reading the Accept-Language header: as a language priority list, and the ranges that are not acceptable.
ghost use Rattle.std.specs.Prelude.{◌≡◌, ◌==◌, not, filter, IfOk, IfErr};
ghost use Rattle.lt_range.specs.Headers.{elements_of, IsFault};
ghost use Rattle.lt_range.specs.Priority.{of_weight, IsPriorityList, IsReading};

use crate::accept_faults::AcceptFault;
use crate::elements::{WeightedRange, cut_at_commas, read_elements};
use std::alloc::{AllocError, Global};

/// What an Accept-Language header asks for (RFC 9110, 12.5.4).
#[derive(Debug, Drop)]
pub struct AcceptLanguage<'a> {
    /// The ranges whose weight is not 0, from the highest weight to the lowest, and those of one weight in the order of
    /// the header: a language priority list (RFC 4647, 2.3).
    pub acceptable: Vec<WeightedRange<'a>>,
    /// The ranges whose weight is 0, in the order of the header. A tag is "not acceptable" (RFC 9110, 12.4.2) where the
    /// longest range that matches it is one of these; `*` is the shortest.
    pub not_acceptable: Vec<WeightedRange<'a>>,
}

/// The elements whose weight is 0, in their order.
fn weightless<'a>(
    alloc: Global,
    elements: &[WeightedRange<'a>],
) -> Result<Vec<WeightedRange<'a>>, AllocError>
    ensures { IfOk result (λ found. found.items ≡ of_weight 0 elements.now) }
{
    elements
        .iter()
        .copied()
        .filter(|element| element.weight == 0)
        .collect(alloc)
}

/// The elements whose weight is not 0, in their order.
fn weighty<'a>(
    alloc: Global,
    elements: &[WeightedRange<'a>],
) -> Result<Vec<WeightedRange<'a>>, AllocError>
    ensures { IfOk result (λ found. found.items ≡ filter (λ e. not (e.weight == 0)) elements.now) }
{
    elements
        .iter()
        .copied()
        .filter(|element| element.weight != 0)
        .collect(alloc)
}

/// The elements whose weight is not 0: those of greater weight first, and those of equal weight in their order, as the
/// sort is stable.
fn by_priority<'a>(
    alloc: Global,
    elements: &[WeightedRange<'a>],
) -> Result<Vec<WeightedRange<'a>>, AllocError>
    ensures { IfOk result (λ found. IsPriorityList elements.now found.items) }
{
    let mut found = weighty(alloc, elements)?;
    found.sort_by(|one, other| other.weight.cmp(&one.weight))?;
    Ok(found)
}

impl<'a> AcceptLanguage<'a> {
    /// What the text of a header says, for example `da, en-gb;q=0.8, en;q=0.7`. List elements may be empty (RFC 9110,
    /// 5.6.1.2), and so may the text. Each range is one that `LanguageRange::read` reads.
    ///
    /// It is refused for the leftmost list element at fault, with the element's number:
    ///
    /// - `BadRange`, with the fault of `LanguageRange::read`, where it begins with no range.
    /// - Else `ExtendedRange` where its range has a `*` beside other subtags.
    /// - Else `BadWeight` where what follows the range is no weight.
    /// - `OutOfMemory` where memory runs out.
    pub fn read(alloc: Global, text: &'a [u8]) -> Result<AcceptLanguage<'a>, AcceptFault>
        ensures read { IfOk result (λ accept. IsReading text.now accept.acceptable.items accept.not_acceptable.items) }
        ensures fault { IfErr result (IsFault (elements_of text.now)) }
    {
        let pieces = cut_at_commas(alloc, text)?;
        let elements = read_elements(alloc, &pieces)?;
        let acceptable = by_priority(alloc, &elements)?;
        let not_acceptable = weightless(alloc, &elements)?;
        Ok(AcceptLanguage {
            acceptable,
            not_acceptable,
        })
    }
}
