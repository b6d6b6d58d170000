//! The calls that take memory, on their rows. Each test holds whichever growth of memory is refused:
//! `bench/growth.py` runs it once for each growth, and refuses that one alone.
use super::answers::{appends, canonical_tags, canonical_texts};
use super::explanations::explanations;
use super::traces::traces;
use super::upgrades::{FAULTS, UPGRADES, fault};
use super::{CHANGES, checked, finding};
use lt_check::Checked;
use lt_registry::ListTable;
use lt_testing::{sample, sample_with, sorted_sample};
use std::alloc::Global;
use std::test::Fail;

/// The sample, which passes the check.
fn checked_sample(alloc: Global) -> Result<Checked<ListTable>, Fail> {
    checked(alloc, sample(alloc)?)
}

#[test]
fn tables_are_checked(rt: HostRuntime) -> Result<(), Fail> {
    assert_eq!(rt; finding(rt.alloc(), sample(rt.alloc())?)?, None);
    for row in CHANGES {
        let (number, record, code) = *row;
        let table = sample_with(rt.alloc(), number as usize, record)?;
        assert_eq!(rt; finding(rt.alloc(), table)?, Some((code, number)), "{code}");
    }
    Ok(())
}

#[test]
fn tags_are_made_canonical(rt: HostRuntime) -> Result<(), Fail> {
    canonical_tags(&rt, rt.alloc(), &checked_sample(rt.alloc())?)
}

#[test]
fn texts_are_made_canonical(rt: HostRuntime) -> Result<(), Fail> {
    let checked = checked_sample(rt.alloc())?;
    canonical_texts(&rt, rt.alloc(), &checked);
    assert!(rt; appends(rt.alloc(), &checked));
    Ok(())
}

#[test]
fn steps_are_explained(rt: HostRuntime) -> Result<(), Fail> {
    explanations(&rt, rt.alloc(), &checked_sample(rt.alloc())?)
}

#[test]
fn traces_are_verified(rt: HostRuntime) -> Result<(), Fail> {
    traces(&rt, rt.alloc(), &checked_sample(rt.alloc())?)
}

#[test]
fn upgrades_are_refused(rt: HostRuntime) -> Result<(), Fail> {
    for row in FAULTS {
        let (number, record, code) = *row;
        let older = sample(rt.alloc())?;
        let newer = sample_with(rt.alloc(), number as usize, record)?;
        assert_eq!(rt;
            fault(rt.alloc(), older, newer)?,
            Some((code, number)),
            "{code}"
        );
    }
    Ok(())
}

#[test]
fn upgrades_are_taken(rt: HostRuntime) -> Result<(), Fail> {
    for row in UPGRADES {
        let (number, record) = *row;
        let older = sorted_sample(rt.alloc())?;
        let newer = sample_with(rt.alloc(), number, record)?;
        assert_eq!(rt; fault(rt.alloc(), older, newer)?, None, "{record}");
    }
    Ok(())
}
