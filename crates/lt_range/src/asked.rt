//! What a header asks for, as preferences.
ghost use Rattle.std.specs.Prelude.{◌≡◌, ◌++◌, [], IfErr, IfOk, OnOk, map};
ghost use Rattle.lt_range.specs.Asked.{ArePreferences, Asks, IsElementRefusal, IsHeaderRefusal, weighted};
ghost use Rattle.lt_range.specs.Elements.{parts_of};
ghost use Rattle.lt_range.specs.HeaderRefusals.{name_of, no_memory, of_accept_fault, of_range_refusal};

use crate::accept_faults::{AcceptFault, AcceptFaultKind};
use crate::elements::WeightedRange;
use crate::headers::AcceptLanguage;
use crate::matched::append_ranges;
use crate::matching_table::MatchingTable;
use crate::preferences::Preference;
use crate::ranges::LanguageRange;
use crate::refusals::RangeRefusal;
use lt_registry::Lookup;
use lt_tag::OutOfMemory;
use std::alloc::Global;
use thiserror::Error;

/// Why a text gives no preferences.
#[derive(Debug, Drop, Error)]
pub enum HeaderRefusal {
    /// The text is no Accept-Language header, for this fault, which is never that memory ran out where a call of this
    /// crate answers it.
    #[error("{0}")]
    NotAHeader(AcceptFault),
    /// One of its ranges is refused, for example a valid tag of which steps can repeat a variant. This refusal is never
    /// that memory ran out where a call of this crate answers it.
    #[error("{0}")]
    BadRange(RangeRefusal),
    /// Memory ran out.
    #[error("out of memory: free some, and ask again")]
    OutOfMemory,
}

impl HeaderRefusal {
    /// The refusal's name: that of the header's fault, for example `BadWeight`, that of the range's refusal, for
    /// example `ReplacementRepeats`, or `OutOfMemory`.
    pub fn name(&self) -> &'static str
        ensures { result.now ≡ name_of self.now }
    {
        match self {
            HeaderRefusal::NotAHeader(fault) => fault.kind.name(),
            HeaderRefusal::BadRange(refusal) => refusal.name(),
            HeaderRefusal::OutOfMemory => "OutOfMemory",
        }
    }
}

impl From<AcceptFault> for HeaderRefusal {
    ghost from_gives = { λ fault refusal. refusal ≡ of_accept_fault fault };

    fn from(fault: AcceptFault) -> HeaderRefusal {
        match fault.kind {
            AcceptFaultKind::OutOfMemory => HeaderRefusal::OutOfMemory,
            _ => HeaderRefusal::NotAHeader(fault),
        }
    }
}

impl From<RangeRefusal> for HeaderRefusal {
    ghost from_gives = { λ refusal header. header ≡ of_range_refusal refusal };

    fn from(refusal: RangeRefusal) -> HeaderRefusal {
        match refusal {
            RangeRefusal::OutOfMemory => HeaderRefusal::OutOfMemory,
            other => HeaderRefusal::BadRange(other),
        }
    }
}

impl From<OutOfMemory> for HeaderRefusal {
    ghost from_gives = { λ _ refusal. refusal ≡ no_memory };

    fn from(_error: OutOfMemory) -> HeaderRefusal {
        HeaderRefusal::OutOfMemory
    }
}

/// The elements of a header: first the acceptable ones by priority, and then the others. Refused only where memory runs
/// out.
fn all_elements(accept: AcceptLanguage<'_>) -> Result<Vec<WeightedRange<'_>>, OutOfMemory>
    ensures { IfOk result (λ all. all.items ≡ accept.entry.acceptable.items ++ accept.entry.not_acceptable.items) }
{
    let AcceptLanguage {
        mut acceptable,
        mut not_acceptable,
    } = accept;
    acceptable.append(&mut not_acceptable)?;
    Ok(acceptable)
}

/// Moves ranges to the end of `all`, each with the same weight and place. The only refusal is running out of memory.
fn append_weighted(
    ranges: &mut Vec<LanguageRange>,
    weight: u16,
    place: usize,
    all: &mut Vec<Preference>,
) -> Result<(), OutOfMemory>
    ensures moved { OnOk result (all.new.items ≡ all.old.items ++ map (weighted weight place) ranges.old.items) }
    ensures empty { OnOk result (ranges.new.items ≡ []) }
{
    while !ranges.is_empty() {
        let range = ranges.remove(0);
        all.push(Preference {
            range,
            weight,
            place,
        })?;
    }
    Ok(())
}

/// The preferences of elements, in their order. Refused at the first range that `append_ranges` refuses, with its
/// refusal, or where memory runs out.
fn preferences_of<L: Lookup>(
    alloc: Global,
    table: &MatchingTable<L>,
    elements: &[WeightedRange<'_>],
) -> Result<Vec<Preference>, RangeRefusal>
    ensures preferences { IfOk result (λ all. ArePreferences (L.listed table.now) 0 (map parts_of elements.now) all.items) }
    ensures refusal { IfErr result (λ refusal. IsElementRefusal (L.listed table.now) (map parts_of elements.now) refusal) }
{
    let mut all = Vec::new(alloc);
    let mut ranges = Vec::new(alloc);
    for place in 0..elements.len() {
        let element = &elements[place];
        append_ranges(alloc, table, element.range, &mut ranges)?;
        append_weighted(&mut ranges, element.weight, place, &mut all)?;
    }
    Ok(all)
}

/// What an Accept-Language header asks for (RFC 9110, 12.5.4): the ranges that [`append_ranges`] gives for each of its
/// ranges, with its weight. Those that are acceptable come first, from the greatest weight to the least, and then the others, in the
/// order of the header.
///
/// - `NotAHeader`, with the fault that `AcceptLanguage::read` answers, exactly where the text is no header.
/// - `BadRange`, with the refusal of `append_ranges`, where that refuses one of the ranges.
/// - `OutOfMemory` where memory runs out.
pub fn header_preferences<L: Lookup>(
    alloc: Global,
    table: &MatchingTable<L>,
    header: &[u8],
) -> Result<Vec<Preference>, HeaderRefusal>
    ensures preferences { IfOk result (λ all. Asks (L.listed table.now) header.now all.items) }
    ensures refusal { IfErr result (λ refusal. IsHeaderRefusal (L.listed table.now) header.now refusal) }
{
    let accept = AcceptLanguage::read(alloc, header)?;
    let elements = all_elements(accept)?;
    Ok(preferences_of(alloc, table, &elements)?)
}
