//! The check of a registry, condition by condition. Its parts are not inlined, so that their locals don't add up on the
//! stack.
//!
//! The *rank* of a condition is the number in its code: `MeetsBelow 10` says that all records meet C1 to C9, and a
//! verdict below 12 speaks of C1 to C11. A condition is decided *by record* if a look at one record after another does
//! it: all are but C1, C8, C10 and C11. A first pass, `all_meet`, asks for all of these at once, and its tests promise
//! something only where they give true: else each condition has a pass of its own.
ghost use Rattle.std.specs.Prelude.{◌≡◌, ◌↔◌, true, IsTrue, IfOk};
ghost use Rattle.lt_rewrite.specs.Shortcuts.{AreShortcuts};
ghost use Rattle.lt_check.specs.Conditions.{Meets, rank_of};
ghost use Rattle.lt_check.specs.WholeChecks.{MeetsBelow};
ghost use Rattle.lt_check.specs.Checking.{is_by_record, next_of, HasFittingPrefixes, HasFittingValue, IsBare, IsLowestFault, IsVerdict, IsVerdictBelow, MeetByRecord, MeetsByRecord};

use crate::conditions::Condition;
use crate::grandfathered_checks::{fits_grandfathered, validating_records};
use crate::name_checks::first_taken_name;
use crate::record_checks::{
    fits_as_extlang, has_fitting_variant_value, has_langtag_prefixes, has_no_range_value,
    has_registered_value, stands_beside_final_languages,
};
use crate::rejections::Finding;
use crate::whole_checks::{has_valid_whole, judge_whole};
use lt_registry::{Entry, EntryName, Kind, Lookup};
use lt_rewrite::Shortcuts;
use lt_tag::OutOfMemory;
use std::alloc::Global;

/// The conditions in the order in which they are judged, but for the eleventh, which is judged along with the
/// tenth.
const IN_ORDER: [Condition; 11] = [
    Condition::OwnName,
    Condition::RegisteredValue,
    Condition::EndingChain,
    Condition::FittingExtlang,
    Condition::FittingVariantValue,
    Condition::FinalPrefixes,
    Condition::LangtagPrefixes,
    Condition::FittingGrandfathered,
    Condition::ValidWhole,
    Condition::RestingWhole,
    Condition::NoRangeValue,
];

/// Whether a record meets a condition, which must be decided by record: any other has a search of its own. The
/// shortcuts must be the table's.
fn meets<L: Lookup>(
    alloc: Global,
    table: &L,
    shortcuts: &Shortcuts,
    condition: Condition,
    entry: &Entry,
) -> bool
    requires shortcuts { AreShortcuts (L.listed table.now) shortcuts.now }
    requires by_record { is_by_record condition ≡ true }
    ensures { IsTrue result ↔ Meets condition (L.listed table.now) entry.now }
{
    match condition {
        Condition::RegisteredValue => has_registered_value(table, entry),
        Condition::EndingChain => shortcuts.has_end(table, entry),
        Condition::FittingExtlang => fits_as_extlang(table, shortcuts, entry),
        Condition::FittingVariantValue => has_fitting_variant_value(table, entry),
        Condition::FinalPrefixes => stands_beside_final_languages(table, entry),
        Condition::LangtagPrefixes => has_langtag_prefixes(entry),
        Condition::ValidWhole => has_valid_whole(alloc, table, entry),
        Condition::NoRangeValue => has_no_range_value(entry),
        _ => unreachable!(),
    }
}

/// Whether a record is of a language, a script or a region that is one subtag, and has no value. Most records are so.
/// They meet each condition that is decided by record, so the first pass does not test them.
#[inline(always)]
fn is_bare(entry: &Entry) -> bool
    ensures { IsTrue result → IsBare entry.now }
{
    matches!(entry.kind(), Kind::Language | Kind::Script | Kind::Region)
        && entry.value().is_none()
        && matches!(entry.name(), EntryName::Single(_))
}

/// Whether a record meets C2 to C5, on the values of records that name subtags. The shortcuts must be the table's.
fn has_fitting_value<L: Lookup>(table: &L, shortcuts: &Shortcuts, entry: &Entry) -> bool
    requires { AreShortcuts (L.listed table.now) shortcuts.now }
    ensures { IsTrue result → HasFittingValue (L.listed table.now) entry.now }
{
    has_registered_value(table, entry)
        && shortcuts.has_end(table, entry)
        && fits_as_extlang(table, shortcuts, entry)
        && has_fitting_variant_value(table, entry)
}

/// Whether a record meets C6 (a variant whose value is a language has Prefixes, each of them one registered language
/// without a value) and C7 (each Prefix of a variant is a langtag without extensions and private use).
fn has_fitting_prefixes<L: Lookup>(table: &L, entry: &Entry) -> bool
    ensures { IsTrue result → HasFittingPrefixes (L.listed table.now) entry.now }
{
    stands_beside_final_languages(table, entry) && has_langtag_prefixes(entry)
}

/// Whether a record meets each condition that is decided by record. The shortcuts must be the table's.
#[inline(never)]
fn meets_each<L: Lookup>(alloc: Global, table: &L, shortcuts: &Shortcuts, entry: &Entry) -> bool
    requires { AreShortcuts (L.listed table.now) shortcuts.now }
    ensures { IsTrue result → MeetsByRecord (L.listed table.now) entry.now }
{
    has_fitting_value(table, shortcuts, entry)
        && has_fitting_prefixes(table, entry)
        && has_valid_whole(alloc, table, entry)
        && has_no_range_value(entry)
}

/// The first pass: whether all records meet each condition that is decided by record. The shortcuts must be the
/// table's.
fn all_meet<L: Lookup>(alloc: Global, table: &L, shortcuts: &Shortcuts) -> bool
    requires { AreShortcuts (L.listed table.now) shortcuts.now }
    ensures { IsTrue result → MeetByRecord (L.listed table.now) }
{
    for entry in table.entries() {
        if !is_bare(entry) && !meets_each(alloc, table, shortcuts, entry) {
            return false;
        }
    }
    true
}

/// The first record that does not meet the condition, or None if each does. The condition must be decided by record,
/// and the shortcuts must be the table's.
#[inline(never)]
fn first_failing<L: Lookup>(
    alloc: Global,
    table: &L,
    shortcuts: &Shortcuts,
    condition: Condition,
) -> Option<Finding>
    requires shortcuts { AreShortcuts (L.listed table.now) shortcuts.now }
    requires by_record { is_by_record condition ≡ true }
    ensures { IsLowestFault (L.listed table.now) condition result }
{
    for entry in table.entries() {
        if !meets(alloc, table, shortcuts, condition, entry) {
            let number = entry.number();
            return Some(Finding { condition, number });
        }
    }
    None
}

/// The first record that fails the condition on grandfathered tags, or None if none does. A record fails it if it is of
/// grandfathered type and its tag is none of the 26, or if it makes a regular one of the 26 valid as a langtag.
fn first_misfit<L: Lookup>(table: &L) -> Option<Finding>
    ensures { IsLowestFault (L.listed table.now) Condition.FittingGrandfathered result }
{
    let validating = validating_records(table);
    for entry in table.entries() {
        if !fits_grandfathered(table, &validating, entry) {
            let condition = Condition::FittingGrandfathered;
            let number = entry.number();
            return Some(Finding { condition, number });
        }
    }
    None
}

/// What the check finds by the tenth and the eleventh condition, or None if all records meet both. The two are judged
/// in one pass, as both need the same core normal forms. All records must meet C1 to C9, and the shortcuts must be the
/// table's. So the answer is the verdict on C1 to C11. Refused only where memory runs out.
#[inline(never)]
fn first_whole_fault<L: Lookup>(
    alloc: Global,
    table: &L,
    shortcuts: &Shortcuts,
) -> Result<Option<Finding>, OutOfMemory>
    requires shortcuts { AreShortcuts (L.listed table.now) shortcuts.now }
    requires lower { MeetsBelow 10 (L.listed table.now) }
    ensures { IfOk result (IsVerdictBelow 12 (L.listed table.now)) }
{
    let mut found = None;
    for entry in table.entries() {
        let judged = judge_whole(alloc, table, shortcuts, entry)?;
        let number = entry.number();
        if !judged.rests {
            let condition = Condition::RestingWhole;
            return Ok(Some(Finding { condition, number }));
        }
        if !judged.agrees {
            let condition = Condition::AgreeingWhole;
            found = found.or(Some(Finding { condition, number }));
        }
    }
    Ok(found)
}

/// What the check finds by a condition, or None if all records meet it. If the first pass found that all meet each
/// condition that is decided by record (`all_meet`), such a condition needs no pass of its own. All records must meet
/// the conditions of lower rank, so the answer is the verdict on this condition and those, and after C10 on C11 too
/// (`next_of`). The shortcuts must be the table's. Refused only where memory runs out.
fn lowest_fault<L: Lookup>(
    alloc: Global,
    table: &L,
    shortcuts: &Shortcuts,
    condition: Condition,
    all_meet: bool,
) -> Result<Option<Finding>, OutOfMemory>
    requires shortcuts { AreShortcuts (L.listed table.now) shortcuts.now }
    requires all { IsTrue all_meet → MeetByRecord (L.listed table.now) }
    requires lower { MeetsBelow (rank_of condition) (L.listed table.now) }
    ensures { IfOk result (IsVerdictBelow (next_of condition) (L.listed table.now)) }
{
    match condition {
        Condition::OwnName => first_taken_name(alloc, table),
        Condition::FittingGrandfathered => Ok(first_misfit(table)),
        Condition::RestingWhole | Condition::AgreeingWhole => {
            first_whole_fault(alloc, table, shortcuts)
        }
        _ if all_meet => Ok(None),
        _ => Ok(first_failing(alloc, table, shortcuts, condition)),
    }
}

/// What the check finds: the first condition that some record fails, and the lowest of the records that fail it. None
/// if each record meets each condition. The shortcuts must be the table's. Refused only where memory runs out.
#[inline(never)]
pub(crate) fn find_fault<L: Lookup>(
    alloc: Global,
    table: &L,
    shortcuts: &Shortcuts,
) -> Result<Option<Finding>, OutOfMemory>
    requires { AreShortcuts (L.listed table.now) shortcuts.now }
    ensures { IfOk result (IsVerdict (L.listed table.now)) }
{
    let all_meet = all_meet(alloc, table, shortcuts);
    for condition in IN_ORDER {
        if let Some(finding) = lowest_fault(alloc, table, shortcuts, condition, all_meet)? {
            return Ok(Some(finding));
        }
    }
    Ok(None)
}
