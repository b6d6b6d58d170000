//! The tables of a registry's text.
use lt_jar::Device;
use lt_registry::{ListTable, Registry, SortedTable};
use std::alloc::Global;
use std::test::Fail;

/// The list table of a registry's text.
pub fn list_table(alloc: Global, text: &[u8]) -> Result<ListTable, Fail> {
    Ok(ListTable::new(Registry::read(alloc, &mut Device::new(text))?))
}

/// The sorted table of a registry's text.
pub fn sorted_table(alloc: Global, text: &[u8]) -> Result<SortedTable, Fail> {
    match SortedTable::new(alloc, Registry::read(alloc, &mut Device::new(text))?) {
        Ok(table) => Ok(table),
        Err(_) => Err(Fail::from("no memory for the table")),
    }
}
