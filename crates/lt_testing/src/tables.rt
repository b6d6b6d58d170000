//! The tables of the sample, with ample memory or where one growth of it is refused.
use super::changed_text;
use crate::again;
use lt_jar::read_jar;
use lt_registry::{ListTable, Registry, SortedTable};
use std::alloc::Global;
use std::test::Fail;

/// The entries of a registry's text, which has no fault.
pub fn registry_of(alloc: Global, text: &str) -> Result<Registry, Fail> {
    let jar = again!(read_jar(alloc, text.as_bytes()))?;
    let records = jar.records();
    if records.len() > 100_000 {
        return Err(Fail::from("too many records"));
    }
    Ok(again!(Registry::from_records(alloc, records))?)
}

/// The entries of the sample, with these lines in place of the record of this number, or after the last.
fn registry_with(alloc: Global, number: usize, lines: &str) -> Result<Registry, Fail> {
    let text = again!(changed_text(alloc, number, lines))?;
    registry_of(alloc, text.as_str())
}

/// The table of the sample, with these lines in place of the record of this number, or after the last.
pub fn sample_with(alloc: Global, number: usize, lines: &str) -> Result<ListTable, Fail> {
    Ok(ListTable::new(registry_with(alloc, number, lines)?))
}

/// The table of the sample.
pub fn sample(alloc: Global) -> Result<ListTable, Fail> {
    sample_with(alloc, 0, "")
}

/// The sorted table of these entries.
pub fn sorted(alloc: Global, registry: Registry) -> Result<SortedTable, Fail> {
    let answer = SortedTable::new(alloc, registry);
    match answer.or_else(|registry| SortedTable::new(alloc, registry)) {
        Ok(table) => Ok(table),
        Err(_) => Err(Fail::from("no memory for the table")),
    }
}

/// The sorted table of the sample.
pub fn sorted_sample(alloc: Global) -> Result<SortedTable, Fail> {
    sorted(alloc, registry_with(alloc, 0, "")?)
}
