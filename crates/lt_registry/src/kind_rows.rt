//! The rows of the records of one kind, gathered in one pass over the entries. A row is what an index has of a record:
//! numbers to search by, and the record's place among the entries.
ghost use Rattle.std.specs.Prelude.{◌≡◌, ◌++◌, [], length, IfOk, OnOk};
ghost use Rattle.std.specs.List.{cons_option};
ghost use Rattle.lt_registry.specs.Sorted as sorted;

use crate::entries::{Entry, EntryName, Kind};
use crate::rows::{RangeRow, Row};
use crate::subtag_numbers::rank_of;
use std::alloc::{AllocError, Global};

/// The rows of a kind in the order of the file.
#[derive(Drop)]
pub(crate) struct KindRows {
    /// The rows of its records of one subtag.
    pub(crate) singles: Vec<Row>,
    /// The rows of its ranges.
    pub(crate) ranges: Vec<RangeRow>,
}

impl KindRows {
    /// The rows of the records of a kind. The clause leaves the order of `singles` open, since they are sorted next.
    /// `ranges` are in the order of the file, since the first that holds a subtag counts; 0 is the place of the first
    /// entry. Refused only where memory runs out.
    pub(crate) fn of_entries(
        alloc: Global,
        entries: &[Entry],
        kind: Kind,
    ) -> Result<KindRows, AllocError>
        ensures singles { IfOk result (λ rows. sorted.AreRows (sorted.single_row kind) (λ (row : Row). row.place) entries.now (length entries.now) rows.singles.items) }
        ensures ranges { IfOk result (λ rows. rows.ranges.items ≡ sorted.range_rows kind 0 entries.now) }
    {
        let mut rows = KindRows {
            singles: Vec::new(alloc),
            ranges: Vec::new(alloc),
        };
        for (place, entry) in entries.iter().enumerate() {
            rows.put(kind, place, entry)?;
        }
        Ok(rows)
    }

    /// Puts the row of an entry behind the others, if the entry is of the kind and not of a whole tag. `place` is the
    /// entry's index. Refused only where memory runs out.
    fn put(&mut self, kind: Kind, place: usize, entry: &Entry) -> Result<(), AllocError>
        ensures singles { OnOk result (self.new.singles.items ≡ self.old.singles.items ++ cons_option (sorted.single_row kind place entry.now) []) }
        ensures ranges { OnOk result (self.new.ranges.items ≡ self.old.ranges.items ++ cons_option (sorted.range_row kind place entry.now) []) }
    {
        if entry.kind() != kind {
            return Ok(());
        }
        match entry.name() {
            EntryName::Single(subtag) => self.singles.push(Row {
                number: subtag.number(),
                place,
            })?,
            EntryName::Range(first, last) => self.ranges.push(RangeRow {
                start: rank_of(first),
                end: rank_of(last) + 1,
                place,
            })?,
            EntryName::Whole(_) => {}
        }
        Ok(())
    }
}
