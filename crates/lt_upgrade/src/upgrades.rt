//! The check of a newer registry beside an older one.
ghost use Rattle.std.specs.Prelude.{◌≡◌, ◌↔◌, Contains, IsTrue, IfOk, IfErr, OnOk};
ghost use Rattle.lt_registry.specs.Entries.{NumbersRise};
ghost use Rattle.lt_upgrade.specs.Laws.{UpgradeKeepsTags};
ghost use Rattle.lt_upgrade.specs.Upgrade.{MeetsUpgrade, Upgrades, records_of};
ghost use Rattle.lt_upgrade.specs.UpgradeChecking.{IsLowestUpgradeFault, IsUpgradeFault, no_upgrade_memory, upgrade_fault_name_of};
ghost use Rattle.lt_upgrade.specs.WidestRanges.{HoldRanges};

use crate::conditions::UpgradeCondition;
use crate::upgrade_checks::{
    had_variant_language, keeps_ends, keeps_extlang, keeps_variant_language, keeps_whole,
    stays_registered,
};
use crate::upgrade_laws::upgrades_keep_tags;
use crate::widest_ranges::WidestRanges;
use lt_check::Checked;
use lt_registry::{Entry, Lookup};
use lt_tag::OutOfMemory;
use std::alloc::{AllocError, Global};
use thiserror::Error;

/// Why a newer registry is no upgrade of an older one.
#[derive(Clone, Copy, Debug, Drop, Error, PartialEq, Eq)]
pub enum UpgradeFault {
    /// The first condition that some record does not meet, and the lowest number of those records, counted from
    /// 1 with the header: of the older registry's, but for `NoNewVariantLanguage` of the newer's.
    #[error("record {number} does not meet {condition:?}: keep the older registry, or mend the newer")]
    Fails {
        condition: UpgradeCondition,
        number: u32,
    },
    /// Memory ran out.
    #[error("out of memory: free some, and check again")]
    OutOfMemory,
}

impl UpgradeFault {
    /// The fault's name, as it is printed: the code of the condition, such as `U2`, or `OutOfMemory`.
    pub fn name(self) -> &'static str
        ensures { result.now ≡ upgrade_fault_name_of self }
    {
        match self {
            UpgradeFault::Fails { condition, .. } => condition.code(),
            UpgradeFault::OutOfMemory => "OutOfMemory",
        }
    }
}

impl From<OutOfMemory> for UpgradeFault {
    ghost from_gives = { λ _ fault. fault ≡ no_upgrade_memory };

    fn from(_error: OutOfMemory) -> UpgradeFault {
        UpgradeFault::OutOfMemory
    }
}

impl From<AllocError> for UpgradeFault {
    ghost from_gives = { λ _ fault. fault ≡ no_upgrade_memory };

    fn from(_error: AllocError) -> UpgradeFault {
        UpgradeFault::OutOfMemory
    }
}

/// The conditions in the order in which they are judged.
const IN_ORDER: [UpgradeCondition; 6] = [
    UpgradeCondition::StaysRegistered,
    UpgradeCondition::SameEnds,
    UpgradeCondition::SameExtlang,
    UpgradeCondition::SameVariantLanguage,
    UpgradeCondition::NoNewVariantLanguage,
    UpgradeCondition::SameWhole,
];

/// The records of which a condition speaks: those of the newer registry for `NoNewVariantLanguage`, else those of the
/// older. Their numbers rise (`rising`), so that the first at fault has the lowest.
fn records_of<'a, A: Lookup, B: Lookup>(
    older: &'a Checked<A>,
    newer: &'a Checked<B>,
    condition: UpgradeCondition,
) -> &'a [Entry]
    ensures value { result.now ≡ records_of condition (A.listed older.now) (B.listed newer.now) }
    ensures rising { NumbersRise result.now }
{
    match condition {
        UpgradeCondition::NoNewVariantLanguage => newer.table().entries(),
        _ => older.table().entries(),
    }
}

/// Whether a record meets a condition. The record must be one of those that the condition speaks of, and `ranges` must
/// be those of the newer registry. Refused only where memory runs out.
fn meets<A: Lookup, B: Lookup>(
    alloc: Global,
    older: &Checked<A>,
    newer: &Checked<B>,
    ranges: &WidestRanges,
    condition: UpgradeCondition,
    entry: &Entry,
) -> Result<bool, OutOfMemory>
    requires ranges { HoldRanges (B.listed newer.now) ranges.now }
    requires listed { Contains (records_of condition (A.listed older.now) (B.listed newer.now)) entry.now }
    ensures { IfOk result (λ meets. IsTrue meets ↔ MeetsUpgrade condition (A.listed older.now) (B.listed newer.now) entry.now) }
{
    let table = newer.table();
    let shortcuts = newer.shortcuts();
    match condition {
        UpgradeCondition::StaysRegistered => Ok(stays_registered(table, ranges, entry)),
        UpgradeCondition::SameEnds => Ok(keeps_ends(table, shortcuts, entry)),
        UpgradeCondition::SameExtlang => Ok(keeps_extlang(table, shortcuts, entry)),
        UpgradeCondition::SameVariantLanguage => Ok(keeps_variant_language(
            table, shortcuts, entry,
        )),
        UpgradeCondition::NoNewVariantLanguage => Ok(had_variant_language(older.table(), entry)),
        UpgradeCondition::SameWhole => keeps_whole(alloc, older, newer, entry),
    }
}

/// The number of the first record that does not meet a condition, or None if each does. `ranges` must be those of the
/// newer registry. Refused only where memory runs out.
fn lowest_fault<A: Lookup, B: Lookup>(
    alloc: Global,
    older: &Checked<A>,
    newer: &Checked<B>,
    ranges: &WidestRanges,
    condition: UpgradeCondition,
) -> Result<Option<u32>, OutOfMemory>
    requires { HoldRanges (B.listed newer.now) ranges.now }
    ensures { IfOk result (IsLowestUpgradeFault (A.listed older.now) (B.listed newer.now) condition) }
{
    for entry in records_of(older, newer, condition) {
        if !meets(alloc, older, newer, ranges, condition, entry)? {
            return Ok(Some(entry.number()));
        }
    }
    Ok(None)
}

/// Whether a newer registry upgrades an older one: whether it meets each of the six
/// [conditions](UpgradeCondition) beside it. They are judged in order, each only if all records meet those before
/// it. `Fails` names the first condition that some record does not meet, and the lowest of those records.
/// `OutOfMemory` comes where memory runs out.
///
/// A tag is then valid by the newer registry if it is so by the older one, and two tags are equivalent if they are so
/// by the older. Of a tag with a canonical form by the older registry, the newer one makes what it makes of that form:
/// the same canonical form, or a refusal that names the same variant.
pub fn upgrade_check<A: Lookup, B: Lookup>(
    alloc: Global,
    older: &Checked<A>,
    newer: &Checked<B>,
) -> Result<(), UpgradeFault>
    ensures upgrades { OnOk result (Upgrades (A.listed older.now) (B.listed newer.now)) }
    ensures keeps { OnOk result (UpgradeKeepsTags (A.listed older.now) (B.listed newer.now)) }
    ensures fault { IfErr result (IsUpgradeFault (A.listed older.now) (B.listed newer.now)) }
{
    // These two do nothing but tell the proof what an upgrade keeps, and that the table passes the check.
    upgrades_keep_tags();
    let _ = older.table();
    let ranges = WidestRanges::of_entries(alloc, newer.table().entries())?;
    for condition in IN_ORDER {
        if let Some(number) = lowest_fault(alloc, older, newer, &ranges, condition)? {
            return Err(UpgradeFault::Fails { condition, number });
        }
    }
    Ok(())
}
