//! A table that finds entries by binary search.
ghost use Rattle.std.specs.Prelude.{◌≡◌, IfOk, IfErr};

use crate::entries::{Entry, Kind};
use crate::indexes::Indexes;
use crate::lookup::Lookup;
use crate::registry::Registry;
use lt_subtag::Subtag;
use lt_tag::Tag;
use std::alloc::Global;
use std::marker::Model;

/// A table that finds entries by binary search: records of one subtag by this subtag, which is compared as a number,
/// and whole records by their tags. A subtag that no record names by itself is looked for among the ranges: the first
/// of the file that holds it counts.
#[derive(Debug)]
pub struct SortedTable {
    registry: Registry,
    indexes: Indexes,
}

// Written by hand: the proof of a function that drops a table then has this one call to go through, and not the drop of
// each vector.
impl Drop for SortedTable {
    fn drop(self) {
        let SortedTable { registry, indexes } = self;
        drop(registry);
        drop(indexes);
    }
}

// A contract sees the list of the entries.
impl Model for SortedTable {
    ghost use Rattle.std.specs.Prelude.{List};
    ghost use Rattle.lt_registry.specs.Parts.{EntryParts};
    ghost use Rattle.lt_registry.specs.Sorted.{AreIndexes};

    ghost Value = { List EntryParts };

    ghost view = { λ t. t.registry };

    ghost invariant = { λ t. AreIndexes t.registry t.indexes };
}

impl SortedTable {
    /// The table of a registry's entries. Refused only where memory runs out: then the registry is handed back.
    pub fn new(alloc: Global, registry: Registry) -> Result<SortedTable, Registry>
        ensures ok { IfOk result (λ table. table ≡ registry) }
        ensures err { IfErr result (λ back. back ≡ registry) }
    {
        match Indexes::of_entries(alloc, registry.entries()) {
            Ok(indexes) => Ok(SortedTable { registry, indexes }),
            Err(_) => Err(registry),
        }
    }
}

impl Lookup for SortedTable {
    ghost listed = { λ t. t };

    fn entries(&self) -> &[Entry] {
        self.registry.entries()
    }

    /// The entry that the index of the kind has, or None.
    #[tactic(auto, using(crate::proofs::IndexLemmas::no_entry, crate::proofs::IndexLemmas::no_index))]
    fn entry(&self, kind: Kind, subtag: &Subtag) -> Option<&Entry> {
        let entries = self.registry.entries();
        self.indexes.of_kind(kind)?.find(entries, subtag)
    }

    /// The entry that the index of the whole tags has, or None.
    fn whole(&self, tag: &Tag) -> Option<&Entry> {
        self.indexes.wholes.find(self.registry.entries(), tag)
    }
}
