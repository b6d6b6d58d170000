//! The records of one kind, sorted for a search. A row has a subtag's number, which is its bytes as one number of 64
//! bits, and the place of its record among the entries. A stretch is some subtags in a row, for which it says which
//! range is the first that holds them.
ghost use Rattle.std.specs.Prelude.{◌≡◌, ◌&&◌, List, length, find, All, IfOk};
ghost use Rattle.std.specs.Option.{option_copied};
ghost use Rattle.lt_registry.specs.Parts.{EntryParts};
ghost use Rattle.lt_registry.specs.Same as same;
ghost use Rattle.lt_registry.specs.Entries.{IsEntry};
ghost use Rattle.lt_registry.specs.Entries as forms;
ghost use Rattle.lt_registry.specs.Sorted as sorted;

use crate::entries::{Entry, Kind};
use crate::indexes::entry_at;
use crate::kind_rows::KindRows;
use crate::names::is_alphabetic;
use crate::ranges::{place_in, stretches};
use crate::rows::{Row, Stretch};
use crate::subtag_numbers::rank_of;
use lt_subtag::Subtag;
use std::alloc::{AllocError, Global};

/// The index of the records of one kind. `singles` has a row for each subtag that a record names by itself, in the
/// order of the subtags; of several such records of a subtag the first counts. `starts` says where in `singles` the
/// rows start whose subtags have the same `beginning`. `ranges` are the stretches of the ranges.
#[derive(Debug, Drop)]
pub(crate) struct KindIndex {
    kind: Kind,
    singles: Vec<Row>,
    starts: Vec<usize>,
    ranges: Vec<Stretch>,
}

impl KindIndex {
    /// The index of the records of a kind. It is refused only where memory runs out. The clause `index` speaks of the
    /// kind that the index keeps, and `kind` says that it is this one.
    pub(crate) fn of_entries(
        alloc: Global,
        entries: &[Entry],
        kind: Kind,
    ) -> Result<KindIndex, AllocError>
        ensures kind { IfOk result (λ index. index.kind ≡ kind) }
        ensures index { IfOk result (sorted.IsKindIndex entries.now) }
    {
        let KindRows { singles, ranges } = KindRows::of_entries(alloc, entries, kind)?;
        let singles = sorted_rows(singles)?;
        let starts = starts(alloc, &singles)?;
        let ranges = stretches(alloc, &ranges)?;
        Ok(KindIndex {
            kind,
            singles,
            starts,
            ranges,
        })
    }

    /// The entry of a subtag under the kind of the index: the first record that names just this subtag, or else the
    /// first range that holds it. None if there is neither. The index must be that of these entries. The entries must
    /// have their forms, so that the subtags in their names have at most the 8 bytes that a number holds.
    pub(crate) fn find<'a>(&self, entries: &'a [Entry], subtag: &Subtag) -> Option<&'a Entry>
        requires index { sorted.IsKindIndex entries.now self.now }
        requires forms { All IsEntry entries.now }
        ensures { option_copied result ≡ forms.entry entries.now self.now.kind subtag.now }
    {
        match self.single(entries, subtag) {
            Some(entry) => Some(entry),
            None => self.range(entries, subtag),
        }
    }

    /// The first record of the kind that names just this subtag, or None if there is none. The index must be that of
    /// these entries, which must have their forms.
    fn single<'a>(&self, entries: &'a [Entry], subtag: &Subtag) -> Option<&'a Entry>
        requires index { sorted.IsKindIndex entries.now self.now }
        requires forms { All IsEntry entries.now }
        ensures { option_copied result ≡ find (λ (e : EntryParts). same.same_kind e.kind self.now.kind && forms.is_named subtag.now e.name) entries.now }
    {
        let place = self.place(subtag.number())?;
        entry_at(entries, place)
    }

    /// The place of the first record that names just the subtag of this number; None if there is none. It is looked for
    /// only among the subtags with the same beginning, which are few. The numbers of the rows must rise, and the starts
    /// must be theirs.
    #[tactic(auto, using(crate::proofs::SpanLemmas::none_listed, crate::proofs::SpanLemmas::none_alike, crate::proofs::SpanLemmas::part_rises, crate::proofs::SpanLemmas::place_alike))]
    fn place(&self, number: u64) -> Option<usize>
        requires rising { sorted.RowsRise self.now.singles.items }
        requires starts { sorted.AreStarts self.now.singles.items self.now.starts.items }
        ensures { result ≡ sorted.place_of number self.now.singles.items }
    {
        let beginning = beginning(number);
        let start = *self.starts.get(beginning)?;
        let end = *self.starts.get(beginning + 1)?;
        let alike = self.singles.get(start..end)?;
        place_of(alike, number)
    }

    /// The first range of the kind that holds a subtag, or None if there is none. A range holds only subtags of
    /// letters. The index must be that of these entries, which must have their forms.
    #[tactic(auto, using(crate::proofs::RangeLemmas::range_found, crate::proofs::RangeLemmas::none_holds, lt_subtag::proofs::NumberLemmas::subtag_few))]
    fn range<'a>(&self, entries: &'a [Entry], subtag: &Subtag) -> Option<&'a Entry>
        requires index { sorted.IsKindIndex entries.now self.now }
        requires forms { All IsEntry entries.now }
        ensures { option_copied result ≡ find (λ (e : EntryParts). same.same_kind e.kind self.now.kind && forms.holds subtag.now e.name) entries.now }
    {
        if !is_alphabetic(subtag) {
            return None;
        }
        let place = place_in(&self.ranges, rank_of(subtag))?;
        entry_at(entries, place)
    }
}

/// The rows of the records of single subtags in the order of the subtags. Of several records of a subtag the first
/// stays. Refused only where memory runs out. The entries are no argument, so the clause speaks of any list `R` and any
/// kind of which `rows` are the rows.
fn sorted_rows(mut rows: Vec<Row>) -> Result<Vec<Row>, AllocError>
    ensures { IfOk result (λ singles. (R : List EntryParts) (kind : Kind) → sorted.AreRows (sorted.single_row kind) (λ (row : Row). row.place) R (length R) rows.items
        → sorted.IsSingles R kind singles.items) }
{
    // A stable sort: a file has the rows in a few rising runs, which this sort merges.
    rows.sort()?;
    rows.dedup_by_key(|row| row.number);
    Ok(rows)
}

/// The beginning of a subtag, by its number: its first byte times 32, and added to it the place of the second byte
/// among the letters, 1 for `a`; a digit, or no second byte, adds 0. These two bytes are the highest of the number's
/// eight, above 56 and 48 bits. 96 is the byte before `a`. There are fewer than 32 letters, and 31 is the most that is
/// added, whatever the byte.
fn beginning(number: u64) -> usize
    ensures { result ≡ sorted.beginning number }
{
    let first = (number >> 56) as usize;
    let second = (number >> 48) as usize % 256;
    first * 32 + second.saturating_sub(96).min(31)
}

/// The place of the record with this number, by binary search; None if no row has it. The numbers of the rows must
/// rise.
fn place_of(rows: &[Row], number: u64) -> Option<usize>
    requires { sorted.RowsRise rows.now }
    ensures { result ≡ sorted.place_of number rows.now }
{
    match rows.binary_search_by_key(&number, |row| row.number) {
        Ok(found) => Some(rows[found].place),
        Err(_) => None,
    }
}

/// A list that has, at the index of each beginning, the index of the first row of this beginning or a greater one; it
/// goes up to the last row's beginning, and then has the count of the rows. So the rows of a beginning go from its
/// start to the next start. They are refused only where memory runs out. The numbers of the rows must rise.
fn starts(alloc: Global, rows: &[Row]) -> Result<Vec<usize>, AllocError>
    requires { sorted.RowsRise rows.now }
    ensures { IfOk result (λ starts. sorted.AreStarts rows.now starts.items) }
{
    let mut starts = Vec::new(alloc);
    for (place, row) in rows.iter().enumerate() {
        starts.resize(beginning(row.number) + 1, place)?;
    }
    starts.push(rows.len())?;
    Ok(starts)
}
