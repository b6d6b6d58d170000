//! A table that looks at one entry after another.
ghost use Rattle.std.specs.Prelude.{◌≡◌, ◌&&◌, find};
ghost use Rattle.std.specs.Option.{option_copied};
ghost use Rattle.lt_registry.specs.Parts.{EntryParts};
ghost use Rattle.lt_registry.specs.Same as same;
ghost use Rattle.lt_registry.specs.Entries as forms;

use crate::entries::{Entry, EntryName, Kind};
use crate::lookup::Lookup;
use crate::names::holds;
use crate::registry::Registry;
use lt_subtag::Subtag;
use lt_tag::Tag;
use std::marker::Model;

/// A table that looks at one entry after another, and keeps no index: simple, and slow for many look-ups.
#[derive(Debug, Drop)]
pub struct ListTable {
    registry: Registry,
}

// A contract sees the list of the entries.
impl Model for ListTable {
    ghost use Rattle.std.specs.Prelude.{List};
    ghost use Rattle.lt_registry.specs.Parts.{EntryParts};

    ghost Value = { List EntryParts };

    ghost view = { λ t. t.registry };
}

impl ListTable {
    /// The table of a registry's entries.
    pub fn new(registry: Registry) -> ListTable
        ensures { result ≡ registry }
    {
        ListTable { registry }
    }
}

impl Lookup for ListTable {
    ghost listed = { λ t. t };

    fn entries(&self) -> &[Entry] {
        self.registry.entries()
    }

    /// The first record that names just this subtag, or else the first range that holds it, or None. Each entry is
    /// looked at in turn.
    fn entry(&self, kind: Kind, subtag: &Subtag) -> Option<&Entry> {
        let entries = self.registry.entries();
        single(entries, kind, subtag).or(range(entries, kind, subtag))
    }

    /// The first record of the tag, or None. Each entry is looked at in turn.
    fn whole(&self, tag: &Tag) -> Option<&Entry> {
        self.registry
            .entries()
            .iter()
            .find(|entry| is_whole(entry.name(), tag))
    }
}

/// The first record of a kind that names just this subtag, or None if there is none.
fn single<'a>(entries: &'a [Entry], kind: Kind, subtag: &Subtag) -> Option<&'a Entry>
    ensures { option_copied result ≡ find (λ (e : EntryParts). same.same_kind e.kind kind && forms.is_named subtag.now e.name) entries.now }
{
    entries.iter().find(|entry| entry.kind() == kind && is_named(entry.name(), subtag))
}

/// The first range of a kind that holds a subtag, or None if there is none.
fn range<'a>(entries: &'a [Entry], kind: Kind, subtag: &Subtag) -> Option<&'a Entry>
    ensures { option_copied result ≡ find (λ (e : EntryParts). same.same_kind e.kind kind && forms.holds subtag.now e.name) entries.now }
{
    entries.iter().find(|entry| entry.kind() == kind && holds(entry.name(), subtag))
}

/// Whether a name is just this subtag.
fn is_named(name: &EntryName, subtag: &Subtag) -> bool
    ensures { result ≡ forms.is_named subtag.now name.now }
{
    match name {
        EntryName::Single(single) => single == subtag,
        _ => false,
    }
}

/// Whether a name is this whole tag.
#[tactic(auto, using(crate::proofs::SortedLemmas::tags_equal))]
fn is_whole(name: &EntryName, tag: &Tag) -> bool
    ensures { result ≡ forms.is_whole tag.now name.now }
{
    match name {
        EntryName::Whole(whole) => whole.tag() == tag,
        _ => false,
    }
}
