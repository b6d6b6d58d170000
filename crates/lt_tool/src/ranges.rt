//! The language ranges of a command line: each is read by a registry, or it is refused.
ghost use Rattle.std.specs.Prelude.{◌≡◌, ◌++◌, List, IfErr, IfOk, OnOk, map, string_bytes};
ghost use Rattle.lt_range.specs.Matched.{AreRangesOf};
ghost use Rattle.lt_range.specs.Ranges.{RangeParts};
ghost use Rattle.lt_range.specs.Refusals.{IsRangeRefusal};
ghost use Rattle.lt_tool.specs.Registries.{ByRegistry};
ghost use Rattle.lt_tool.specs.Selected as spec;
ghost use Rattle.lt_tool.specs.Selected.{AreRanges, IsRangeFault, PlansMatch, RefusesRange, scheme_for};
ghost use Rattle.lt_tool.specs.Streams.{stream};

use crate::faults::{Fault, Role};
use crate::plans::{MatchPlan, Plan};
use crate::registries::{prepared, read_registry};
use lt_jar::Device;
use lt_range::{LanguageRange, MatchingTable, RangeRefusal, Scheme, append_ranges};
use lt_registry::Lookup;
use lt_stream::ToolFault;
use lt_words::{Matching, Ranges};
use std::alloc::{AllocError, Global};
use std::io::Read;

/// A range that is refused.
#[derive(Drop)]
pub(crate) struct RefusedRange {
    /// Its number among the ranges, counted from 1.
    number: usize,
    /// Why it is refused.
    refusal: RangeRefusal,
}

/// Adds the ranges by which a text matches, or tells why the text is refused. The refusal has the text's `number`,
/// counted from 1.
fn add_ranges<L: Lookup>(
    alloc: Global,
    table: &MatchingTable<L>,
    number: usize,
    text: &[u8],
    ranges: &mut Vec<LanguageRange>,
) -> Result<(), RefusedRange>
    ensures added { OnOk result ((more : List RangeParts) × (ranges.new.items ≡ ranges.old.items ++ more) × AreRangesOf (L.listed table.now) text.now more) }
    ensures numbered { IfErr result (λ refused. refused.number ≡ number) }
    ensures refusal { IfErr result (λ refused. IsRangeRefusal (L.listed table.now) text.now refused.refusal) }
{
    match append_ranges(alloc, table, text, ranges) {
        Ok(()) => Ok(()),
        Err(refusal) => Err(RefusedRange { number, refusal }),
    }
}

/// The ranges by which the texts match; or the number of the first text that is refused, counted from 1, and why.
fn read_ranges<L: Lookup>(
    alloc: Global,
    table: &MatchingTable<L>,
    texts: &[String],
) -> Result<Vec<LanguageRange>, RefusedRange>
    ensures ranges { IfOk result (λ ranges. AreRanges (L.listed table.now) (map string_bytes texts.now) ranges.items) }
    ensures refusal { IfErr result (RefusesRange (L.listed table.now) (map string_bytes texts.now)) }
{
    let mut ranges = Vec::new(alloc);
    let mut number = 0;
    for text in texts {
        number += 1;
        add_ranges(alloc, table, number, text.as_bytes(), &mut ranges)?;
    }
    Ok(ranges)
}

/// The scheme of filtering (RFC 4647, 3.3) that the words ask for. None if they ask for lookup (3.4).
fn scheme_of(matching: Matching) -> Option<Scheme>
    ensures { result ≡ scheme_for matching }
{
    match matching {
        Matching::Basic => Some(Scheme::Basic),
        Matching::Extended => Some(Scheme::Extended),
        Matching::Lookup => None,
    }
}

/// The line that tells of a refused range: the name of its refusal and the number of the range, for example
/// `! EmptySubtag range 1`.
fn range_line(alloc: Global, refused: &RefusedRange) -> Result<String, AllocError>
    ensures { IfOk result (λ line. string_bytes line ≡ spec.range_line refused.now.number refused.now.refusal) }
{
    let (name, number) = (refused.refusal.name(), refused.number);
    format!(in alloc; "! {name} range {number}\n")
}

/// The fault with which a run ends that refuses a range. It is wrong usage, with the line that tells of the refusal. If
/// memory ran out, for the range or for that line, the fault is `ToolFault::OutOfMemory` instead.
fn fault_of(alloc: Global, refused: &RefusedRange) -> Fault
    ensures { IsRangeFault refused.now result }
{
    if let RangeRefusal::OutOfMemory = refused.refusal {
        return Fault::Run(ToolFault::OutOfMemory);
    }
    match range_line(alloc, refused) {
        Ok(line) => Fault::Usage(line),
        Err(_) => Fault::Run(ToolFault::OutOfMemory),
    }
}

/// The plan to match the lines of the input by ranges and the registry of a file; or why the registry or a range is
/// refused.
pub(crate) fn plan_match<'a, F: Read>(
    alloc: Global,
    ranges: &Ranges,
    file: &mut Device<F>,
) -> Result<Plan<'a>, Fault>
    ensures { ByRegistry (stream F.remaining file.old file.new) (PlansMatch ranges.now) result }
{
    let checked = read_registry(alloc, Role::Only, file)?;
    let table = prepared(alloc, checked)?;
    match read_ranges(alloc, &table, &ranges.texts) {
        Ok(read) => Ok(Plan::Match(MatchPlan {
            table,
            scheme: scheme_of(ranges.matching),
            ranges: read,
        })),
        Err(refused) => Err(fault_of(alloc, &refused)),
    }
}
