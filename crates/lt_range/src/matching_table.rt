//! A table that passes the check, with what matching needs of it: the other spellings of canonical tags.
ghost use Rattle.std.specs.Prelude.{◌≡◌, ◌↔◌, IfOk, IsTrue};
ghost use Rattle.lt_tag.specs.WellFormed.{spell};
ghost use Rattle.lt_range.specs.OtherSpellings.{AreAmong, AreOthersOf, AreRows, canonical_of, MayBeRow, MayDiffer};

use crate::matching::{are_equal, are_same};
use crate::tag_subtags::SubtagList;
use lt_canon::{Refusal, canonical};
use lt_check::Checked;
use lt_registry::{Entry, EntryName, Lookup};
use lt_subtag::Subtag;
use lt_tag::{OutOfMemory, Tag};
use std::alloc::Global;
use std::marker::Model;

/// A whole tag that is not canonical, with its canonical form: `no-bok` is another spelling of `nb`.
#[derive(Drop)]
pub(crate) struct OtherSpelling {
    /// The first subtag of the canonical form: it tells most forms apart, and stands in the row itself.
    first: Subtag,
    /// The subtags of the canonical form after the first one.
    others: SubtagList,
    /// The subtags of the whole tag.
    spelled: SubtagList,
}

/// A table that passes the check, prepared for matching.
pub struct MatchingTable<L: Lookup> {
    checked: Checked<L>,
    /// The whole tags of the records that are other spellings, in the order of the records.
    rows: Vec<OtherSpelling>,
}

// Written by hand: the proof of a function that drops a table then has this one call to go through.
impl<L: Lookup + Drop> Drop for MatchingTable<L> {
    /// Drops the two parts.
    fn drop(self) {
        let MatchingTable { checked, rows } = self;
        drop(checked);
        drop(rows);
    }
}

// A contract sees it as its table. The rows are those of all its records.
impl<L: Lookup> Model for MatchingTable<L> {
    ghost use Rattle.lt_range.specs.OtherSpellings.{AreRows};

    ghost Value = { L };

    ghost view = { λ t. t.checked };

    ghost invariant = { λ t. AreRows (L.listed t.checked) (L.listed t.checked) t.rows.items };
}

/// The row of a whole tag and its canonical form. None if the two are spelled alike. The only refusal is running out of
/// memory.
fn row_of_tag(
    alloc: Global,
    tag: &Tag,
    canonical: &Tag,
) -> Result<Option<OtherSpelling>, OutOfMemory>
    ensures { IfOk result (MayDiffer (spell tag.now) (spell canonical.now)) }
{
    let canonical = SubtagList::of(alloc, canonical)?;
    let spelled = SubtagList::of(alloc, tag)?;
    if are_equal(canonical.subtags(), spelled.subtags()) {
        return Ok(None);
    }
    let Some((first, others)) = canonical.subtags().split_first() else {
        unreachable!()
    };
    Ok(Some(OtherSpelling {
        first: first.copy(),
        others: SubtagList::copy_of(alloc, others)?,
        spelled,
    }))
}

/// The row of a record. None if it is not of a whole tag, or of one that has no canonical form or is canonical. The
/// only refusal is running out of memory.
fn row_of<L: Lookup>(
    alloc: Global,
    checked: &Checked<L>,
    entry: &Entry,
) -> Result<Option<OtherSpelling>, OutOfMemory>
    ensures { IfOk result (MayBeRow (L.listed checked.now) entry.now) }
{
    let EntryName::Whole(whole) = entry.name() else {
        return Ok(None);
    };
    // So that the table is known to pass the check.
    let _ = checked.table();
    match canonical(alloc, checked, whole.tag()) {
        Ok(form) => row_of_tag(alloc, whole.tag(), &form),
        Err(Refusal::OutOfMemory) => Err(OutOfMemory),
        Err(_) => Ok(None),
    }
}

/// The rows of all records, in their order. The only refusal is running out of memory.
fn rows_of<L: Lookup>(
    alloc: Global,
    checked: &Checked<L>,
) -> Result<Vec<OtherSpelling>, OutOfMemory>
    ensures { IfOk result (λ rows. AreRows (L.listed checked.now) (L.listed checked.now) rows.items) }
{
    let mut rows = Vec::new(alloc);
    for entry in checked.table().entries() {
        match row_of(alloc, checked, entry)? {
            Some(row) => rows.push(row)?,
            None => {}
        }
    }
    Ok(rows)
}

/// Whether the canonical form of a row has these subtags.
fn is_of(row: &OtherSpelling, canonical: &[Subtag]) -> bool
    ensures { IsTrue result ↔ (canonical_of row.now ≡ canonical.now) }
{
    match canonical.split_first() {
        Some((first, others)) => {
            are_same(&row.first, first) && are_equal(row.others.subtags(), others)
        }
        None => false,
    }
}

/// The subtags of each of these spellings that has a canonical form with the subtags `canonical`, in their order. The
/// only refusal is running out of memory.
fn spellings_among(
    alloc: Global,
    rows: &[OtherSpelling],
    canonical: &[Subtag],
) -> Result<Vec<SubtagList>, OutOfMemory>
    ensures { IfOk result (λ lists. AreAmong canonical.now rows.now lists.items) }
{
    let mut lists = Vec::new(alloc);
    for row in rows {
        if is_of(row, canonical) {
            lists.push(SubtagList::copy_of(alloc, row.spelled.subtags())?)?;
        }
    }
    Ok(lists)
}

impl<L: Lookup + Drop> MatchingTable<L> {
    /// Prepares a table for matching: makes the whole tags of its records canonical, some hundred in IANA's registry.
    /// The only refusal is running out of memory.
    pub fn new(alloc: Global, checked: Checked<L>) -> Result<MatchingTable<L>, OutOfMemory>
        ensures { IfOk result (λ table. table ≡ checked) }
    {
        let rows = rows_of(alloc, &checked)?;
        Ok(MatchingTable { checked, rows })
    }
}

impl<L: Lookup> MatchingTable<L> {
    /// The table without what is prepared.
    pub fn checked(&self) -> &Checked<L>
        ensures { result.now ≡ self.now }
    {
        &self.checked
    }

    /// The other spellings of the canonical tag that has these subtags. The only refusal is running out of memory.
    pub(crate) fn other_spellings(
        &self,
        alloc: Global,
        canonical: &[Subtag],
    ) -> Result<Vec<SubtagList>, OutOfMemory>
        ensures { IfOk result (λ lists. AreOthersOf (L.listed self.now) canonical.now lists.items) }
    {
        // So that the table is known to pass the check.
        let _ = self.checked.table();
        spellings_among(alloc, &self.rows, canonical)
    }
}
