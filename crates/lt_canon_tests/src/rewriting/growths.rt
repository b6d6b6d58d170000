//! The calls that take memory, on their rows. Each test holds whichever growth of memory is refused:
//! `bench/growth.py` runs it once for each growth, and refuses that one alone.
use super::applying::steps_lead;
use super::shortcuts::chain_ends_in;
use super::{
    CHAINS, EXTENSIONS, LISTS, core_explaining, extension_settles_to, extensions_explaining,
    list_settles_to, sample_with_cycle,
};
use crate::steps::are_steps;
use lt_registry::Lookup;
use lt_rewrite::Shortcuts;
use lt_testing::{again, sample};
use std::test::Fail;

#[test]
fn parts_of_extensions_are_settled(rt: HostRuntime) -> Result<(), Fail> {
    let table = sample(rt.alloc())?;
    for (text, other) in EXTENSIONS {
        assert!(rt;
            extension_settles_to(rt.alloc(), &table, text, other)?,
            "{text}"
        );
    }
    Ok(())
}

#[test]
fn extensions_are_settled(rt: HostRuntime) -> Result<(), Fail> {
    let table = sample(rt.alloc())?;
    for (text, other) in &LISTS {
        assert!(rt; list_settles_to(rt.alloc(), &table, text, other)?, "{text}");
    }
    Ok(())
}

#[test]
fn steps_are_applied(rt: HostRuntime) -> Result<(), Fail> {
    let table = sample(rt.alloc())?;
    steps_lead(&rt, rt.alloc(), &table)
}

#[test]
fn steps_on_cores_are_told(rt: HostRuntime) -> Result<(), Fail> {
    let table = sample(rt.alloc())?;
    for (text, wanted) in core_explaining::ROWS {
        let steps = core_explaining::explained(rt.alloc(), &table, text)?;
        assert!(rt; are_steps(&steps, wanted), "{text}");
    }
    Ok(())
}

#[test]
fn steps_on_extensions_are_told(rt: HostRuntime) -> Result<(), Fail> {
    let table = sample(rt.alloc())?;
    for (text, wanted) in extensions_explaining::ROWS {
        let steps = extensions_explaining::explained(rt.alloc(), &table, text)?;
        assert!(rt; are_steps(&steps, wanted), "{text}");
    }
    Ok(())
}

#[test]
fn shortcuts_lead_to_ends(rt: HostRuntime) -> Result<(), Fail> {
    let table = sample(rt.alloc())?;
    for (kind, text, end) in CHAINS {
        assert!(rt;
            chain_ends_in(rt.alloc(), &table, *kind, text, end)?,
            "{text}"
        );
    }
    Ok(())
}

#[test]
fn shortcuts_tell_chains_without_end(rt: HostRuntime) -> Result<(), Fail> {
    let table = sample_with_cycle(rt.alloc())?;
    let shortcuts = again!(Shortcuts::of_table(rt.alloc(), &table))?;
    for entry in table.entries() {
        let is_on_cycle = entry.number() == 6 || entry.number() == 9;
        assert!(rt;
            shortcuts.has_end(&table, entry) != is_on_cycle,
            "{}",
            entry.number()
        );
    }
    Ok(())
}
