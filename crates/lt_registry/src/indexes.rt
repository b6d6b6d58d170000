//! The indexes beside a list of entries, by which a `SortedTable` finds an entry. A whole record names a whole tag: it
//! is grandfathered or redundant.
ghost use Rattle.std.specs.Prelude.{◌≡◌, IfOk};
ghost use Rattle.std.specs.List.{slice_get};
ghost use Rattle.std.specs.Option.{option_copied};
ghost use Rattle.lt_registry.specs.Sorted as sorted;

use crate::entries::{Entry, Kind};
use crate::kind_index::KindIndex;
use crate::whole_index::WholeIndex;
use std::alloc::{AllocError, Global};

/// An index of each kind that is named by subtags, and of the whole records.
#[derive(Debug)]
pub(crate) struct Indexes {
    languages: KindIndex,
    extlangs: KindIndex,
    scripts: KindIndex,
    regions: KindIndex,
    variants: KindIndex,
    pub(crate) wholes: WholeIndex,
}

// Written by hand: the proof of a function that drops the indexes then has this one call to go through, and not the
// drop of each vector.
impl Drop for Indexes {
    fn drop(self) {
        let Indexes {
            languages,
            extlangs,
            scripts,
            regions,
            variants,
            wholes,
        } = self;
        drop(languages);
        drop(extlangs);
        drop(scripts);
        drop(regions);
        drop(variants);
        drop(wholes);
    }
}

impl Indexes {
    /// The indexes of entries. They are refused only where memory runs out.
    pub(crate) fn of_entries(alloc: Global, entries: &[Entry]) -> Result<Indexes, AllocError>
        ensures { IfOk result (sorted.AreIndexes entries.now) }
    {
        Ok(Indexes {
            languages: KindIndex::of_entries(alloc, entries, Kind::Language)?,
            extlangs: KindIndex::of_entries(alloc, entries, Kind::Extlang)?,
            scripts: KindIndex::of_entries(alloc, entries, Kind::Script)?,
            regions: KindIndex::of_entries(alloc, entries, Kind::Region)?,
            variants: KindIndex::of_entries(alloc, entries, Kind::Variant)?,
            wholes: WholeIndex::of_entries(alloc, entries)?,
        })
    }

    /// The index of the records of a kind by their subtags, or None for a kind of whole tags.
    pub(crate) fn of_kind(&self, kind: Kind) -> Option<&KindIndex>
        ensures { option_copied result ≡ sorted.index_of self.now kind }
    {
        match kind {
            Kind::Language => Some(&self.languages),
            Kind::Extlang => Some(&self.extlangs),
            Kind::Script => Some(&self.scripts),
            Kind::Region => Some(&self.regions),
            Kind::Variant => Some(&self.variants),
            Kind::Grandfathered | Kind::Redundant => None,
        }
    }
}

/// The entry at a place of the list, or None if there is none.
#[tactic(auto, using(std::proofs::lemmas::Option::gets))]
pub(crate) fn entry_at(entries: &[Entry], place: usize) -> Option<&Entry>
    ensures { option_copied result ≡ slice_get entries.now place }
{
    entries.get(place)
}
