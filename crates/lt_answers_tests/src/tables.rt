//! The checked table of the sample.
use lt_check::Checked;
use lt_range::MatchingTable;
use lt_registry::SortedTable;
use lt_testing::sorted_sample;
use std::alloc::Global;
use std::test::Fail;

/// The checked table of the sample. It is handed back where memory is refused.
pub fn checked_sample(alloc: Global) -> Result<Checked<SortedTable>, Fail> {
    let rejected = match Checked::new(alloc, sorted_sample(alloc)?) {
        Ok(checked) => return Ok(checked),
        Err(rejected) => rejected,
    };
    match Checked::new(alloc, rejected.table) {
        Ok(checked) => Ok(checked),
        Err(_) => Err(Fail::from("the sample is rejected")),
    }
}

/// The same table, prepared for matching. It is asked for again where memory is refused.
pub fn matching_sample(alloc: Global) -> Result<MatchingTable<SortedTable>, Fail> {
    if let Ok(table) = MatchingTable::new(alloc, checked_sample(alloc)?) {
        return Ok(table);
    }
    Ok(MatchingTable::new(alloc, checked_sample(alloc)?)?)
}
