//! The ends of chains and normal forms, by shortcuts.
use super::core_of;
use lt_registry::{Kind, ListTable};
use lt_rewrite::{Shortcuts, first_cycle};
use lt_subtag::Subtag;
use lt_tag::Core;
use lt_testing::again;
use std::alloc::Global;
use std::test::Fail;

/// Whether the chain of a subtag ends in another.
pub(super) fn chain_ends_in(
    alloc: Global,
    table: &ListTable,
    kind: Kind,
    text: &str,
    end: &str,
) -> Result<bool, Fail> {
    let shortcuts = again!(Shortcuts::of_table(alloc, table))?;
    let subtag = Subtag::read(text.as_bytes())?;
    match shortcuts.chain_end(table, kind, &subtag) {
        Ok(found) => Ok(found.bytes() == end.as_bytes()),
        Err(_) => Ok(false),
    }
}

/// The core normal form of a text's core.
pub(super) fn settled_core(alloc: Global, table: &ListTable, text: &str) -> Result<Core, Fail> {
    let mut core = core_of(alloc, text)?;
    if first_cycle(table).is_some() {
        return Err(Fail::from("a cycle"));
    }
    let shortcuts = Shortcuts::of_table(alloc, table)?;
    shortcuts.settle_core(table, &mut core);
    Ok(core)
}
