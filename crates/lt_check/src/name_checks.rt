//! Whether records have names of their own (C1). A look-up finds the first record of a name, so no earlier record has
//! the same subtag or tag exactly if the look-up finds this very record. Ranges have no look-up: those of the records
//! so far are kept in a set, `seen`.
ghost use Rattle.std.specs.Prelude.{◌≡◌, ◌↔◌, length, Contains, IsTrue, IfOk, Some};
ghost use Rattle.std.specs.Option.{option_copied};
ghost use Rattle.lt_registry.specs.Parts.{EntryParts};
ghost use Rattle.lt_registry.specs.Entries.{NumbersRise};
ghost use Rattle.lt_check.specs.NameChecks.{AreMarked, IsNew, MarksMore, SeesRange};
ghost use Rattle.lt_check.specs.Checking.{IsLowestFault};

use crate::conditions::Condition;
use crate::range_names::RangeNames;
use crate::rejections::Finding;
use crate::usual_subtags::{WORDS, mark};
use lt_registry::{Entry, EntryName, Lookup};
use lt_tag::OutOfMemory;
use std::alloc::Global;

/// Whether a look-up found the entry itself: one with its number. False if it found none.
fn is_entry(found: Option<&Entry>, entry: &Entry) -> bool
    ensures { IsTrue result ↔ ((other : EntryParts) × (option_copied found.entry ≡ Some other) × (other.number ≡ entry.now.number)) }
{
    match found {
        Some(found) => found.number() == entry.number(),
        None => false,
    }
}

/// Whether a record's name is new. A range is new if it is not in `seen`. Any other name is new if a look-up of it
/// finds the record itself; of a subtag whose flag was clear no look-up is made. The flag of the record's subtag is
/// then set (`flags`), or its range added to `seen` (`seen`). Numbers must rise, so that earlier records are those of
/// lower numbers. The record must be one of the table's (`there`), and `flags` must have its 8,655 words ([`WORDS`]),
/// in which the flags of the subtags of the records before are set. Refused only where memory runs out.
fn is_new<L: Lookup>(
    table: &L,
    flags: &mut [u64],
    seen: &mut RangeNames,
    entry: &Entry,
) -> Result<bool, OutOfMemory>
    requires rising { NumbersRise (L.listed table.now) }
    requires there { Contains (L.listed table.now) entry.now }
    requires room { length flags.old ≡ 8655 }
    requires flags { AreMarked (L.listed table.now) entry.now flags.old }
    ensures new { IfOk result (λ new. IsTrue new ↔ IsNew (L.listed table.now) seen.old entry.now) }
    ensures seen { IfOk result (λ _. SeesRange entry.now seen.old seen.new) }
    ensures flags { MarksMore entry.now flags.old flags.new }
{
    match entry.name() {
        EntryName::Single(subtag) => {
            let kind = entry.kind();
            Ok(mark(flags, kind, subtag) || is_entry(table.entry(kind, subtag), entry))
        }
        EntryName::Range(first, last) => seen.add(entry.kind(), first, last),
        EntryName::Whole(whole) => Ok(is_entry(table.whole(whole.tag()), entry)),
    }
}

/// The first record whose name an earlier record of its kind has, or whose tag an earlier record has; None if there is
/// none. Refused only where memory runs out.
pub(crate) fn first_taken_name<L: Lookup>(
    alloc: Global,
    table: &L,
) -> Result<Option<Finding>, OutOfMemory>
    ensures { IfOk result (IsLowestFault (L.listed table.now) Condition.OwnName) }
{
    let mut words = vec![in alloc; 0; WORDS]?;
    let flags = words.as_mut_slice();
    let mut seen = RangeNames::new(alloc);
    for entry in table.entries() {
        if !is_new(table, flags, &mut seen, entry)? {
            let condition = Condition::OwnName;
            let number = entry.number();
            return Ok(Some(Finding { condition, number }));
        }
    }
    Ok(None)
}
