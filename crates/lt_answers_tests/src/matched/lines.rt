//! Lines that ranges select by the sample, where growths of memory are refused.
mod growths;

use super::ranges_of;
use lt_range::{LanguageRange, MatchingTable};
use lt_registry::SortedTable;
use lt_testing::again;
use std::alloc::Global;
use std::test::Fail;

/// The ranges by which texts match.
fn all_ranges(
    alloc: Global,
    table: &MatchingTable<SortedTable>,
    texts: &[&str],
) -> Result<Vec<LanguageRange>, Fail> {
    let mut ranges = again!(Vec::with_capacity(alloc, 10))?;
    for text in texts {
        ranges.append(&mut ranges_of(alloc, table, text)?)?;
    }
    Ok(ranges)
}
