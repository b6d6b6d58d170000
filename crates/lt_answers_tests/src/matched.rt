//! Matching by the registry of the sample, where growths of memory are refused.
mod growths;
mod lines;

use lt_range::{LanguageRange, MatchingTable, RangeRefusal, append_ranges};
use lt_registry::SortedTable;
use lt_testing::retried;
use std::alloc::Global;

/// The ranges by which a text matches.
fn ranges_of_text(
    alloc: Global,
    table: &MatchingTable<SortedTable>,
    text: &str,
) -> Result<Vec<LanguageRange>, RangeRefusal> {
    let mut ranges = Vec::new(alloc);
    append_ranges(alloc, table, text.as_bytes(), &mut ranges)?;
    Ok(ranges)
}

/// The ranges by which a text matches, asked for again where a growth was refused.
fn ranges_of(
    alloc: Global,
    table: &MatchingTable<SortedTable>,
    text: &str,
) -> Result<Vec<LanguageRange>, RangeRefusal> {
    retried!(
        ranges_of_text(alloc, table, text),
        RangeRefusal::OutOfMemory
    )
}
