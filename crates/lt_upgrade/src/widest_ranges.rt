//! The ranges among the entries of the newer registry, to tell for U1 whether one of them covers an older range. Only
//! the *widest* are kept, which no earlier one covers. Their first ends rise, and so do their last ones, so that a
//! binary search finds the only one to ask.
ghost use Rattle.std.specs.Prelude.{◌≡◌, List, All, IfOk, length};
ghost use Rattle.std.specs.List.{list_any};
ghost use Rattle.lt_registry.specs.Parts.{EntryParts};
ghost use Rattle.lt_registry.specs.Entries.{IsEntry};
ghost use Rattle.lt_upgrade.specs.UpgradeChecking.{some_covers};
ghost use Rattle.lt_upgrade.specs.WidestRanges.{range_end, is_up_to, contains, range_row, range_rows, HoldRanges};

use lt_registry::{Entry, EntryName, Kind};
use lt_subtag::Subtag;
use std::alloc::{AllocError, Global};
use std::marker::Model;

/// An end of a range under a kind. Ends are in the order of their kinds, then of their lengths, then of
/// their letters. So a range that begins no later and ends no earlier than another is of its kind and
/// length.
#[derive(Drop, PartialEq, Eq, PartialOrd, Ord)]
pub(crate) struct RangeEnd {
    /// The kind's number, which has an order.
    kind: u8,
    /// How many letters the subtag has.
    length: usize,
    subtag: Subtag,
}

impl RangeEnd {
    /// The end of a range of this kind, by its subtag.
    fn new(kind: Kind, subtag: &Subtag) -> RangeEnd
        ensures { result ≡ range_end kind subtag.now }
    {
        RangeEnd {
            kind: kind as u8,
            length: subtag.bytes().len(),
            subtag: subtag.copy(),
        }
    }

    /// Whether the end is `other` or before it.
    fn is_up_to(&self, other: &RangeEnd) -> bool
        ensures { result ≡ is_up_to self.now other.now }
    {
        self.cmp(other).is_le()
    }
}

/// The ends of a range.
#[derive(Drop)]
pub(crate) struct RangeRow {
    first: RangeEnd,
    last: RangeEnd,
}

/// Ranges among entries, of which neither end is before that of an earlier one. What any range among the
/// entries covers, one of these covers.
#[derive(Drop)]
pub(crate) struct WidestRanges {
    rows: Vec<RangeRow>,
}

impl Model for WidestRanges {
    ghost use Rattle.std.specs.Prelude.{List};
    ghost use Rattle.lt_upgrade.specs.declared.widest_ranges.RangeRow.{RangeRow};
    ghost use Rattle.lt_upgrade.specs.WidestRanges.{EndsRise};

    ghost Value = { List RangeRow };

    ghost view = { λ r. r.rows.items };

    ghost invariant = { λ r. EndsRise r.rows.items };
}

impl WidestRanges {
    /// The widest ranges among entries, each of which must have its forms. They are refused only where memory runs out.
    pub(crate) fn of_entries(alloc: Global, entries: &[Entry]) -> Result<WidestRanges, AllocError>
        requires { All IsEntry entries.now }
        ensures { IfOk result (HoldRanges entries.now) }
    {
        let rows = range_rows(alloc, entries)?;
        Ok(WidestRanges::of_rows(rows))
    }

    /// The ranges in order, without those that end no later than an earlier one, so that each that is left ends later
    /// than the one before it. The clause says that nothing is lost: whatever range from `a` to `b` some row contained,
    /// some row still does.
    fn of_rows(mut rows: Vec<RangeRow>) -> WidestRanges
        ensures { (a b : RangeEnd) → list_any (contains a b) result ≡ list_any (contains a b) rows.items }
    {
        rows.sort_unstable_by(|row, other| row.first.cmp(&other.first));
        rows.dedup_by(|later, kept| later.last.is_up_to(&kept.last));
        WidestRanges { rows }
    }

    /// Whether one of the ranges, of the same kind and length, goes from `first` or a subtag before it to `last` or one
    /// after it. `first` and `last` must be equally long. The ranges don't keep the registry from which they were made,
    /// so the clause holds of any `R` whose ranges they are.
    pub(crate) fn cover(&self, kind: Kind, first: &Subtag, last: &Subtag) -> bool
        requires { length first.now ≡ length last.now }
        ensures { (R : List EntryParts) → HoldRanges R self.now → result ≡ some_covers R kind first.now last.now }
    {
        self.contain(&RangeEnd::new(kind, first), &RangeEnd::new(kind, last))
    }

    /// Whether one of the ranges begins no later than `first` and ends no earlier than `last`. Of those that begin no
    /// later, the last one ends last, so only that is asked.
    fn contain(&self, first: &RangeEnd, last: &RangeEnd) -> bool
        ensures { result ≡ list_any (contains first.now last.now) self.now }
    {
        let count = self.rows.partition_point(|row| row.first.is_up_to(first));
        count > 0 && last.is_up_to(&self.rows[count - 1].last)
    }
}

/// The ranges among entries, in their order. They are refused only where memory runs out.
fn range_rows(alloc: Global, entries: &[Entry]) -> Result<Vec<RangeRow>, AllocError>
    ensures { IfOk result (λ rows. rows.items ≡ range_rows entries.now) }
{
    let mut rows = Vec::new(alloc);
    for entry in entries {
        if let Some(row) = range_row(entry) {
            rows.push(row)?;
        }
    }
    Ok(rows)
}

/// The range that an entry names, or None if it names none.
fn range_row(entry: &Entry) -> Option<RangeRow>
    ensures { result ≡ range_row entry.now.kind entry.now.name }
{
    match entry.name() {
        EntryName::Range(first, last) => Some(RangeRow {
            first: RangeEnd::new(entry.kind(), first),
            last: RangeEnd::new(entry.kind(), last),
        }),
        _ => None,
    }
}
