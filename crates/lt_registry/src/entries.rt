//! Entries of a registry: what a record says of a subtag, a range of subtags or a whole tag. Each call that reads a
//! part of an entry hands on, in its clause `entry`, that the entry has the forms of its kind (`IsEntry`), which is how
//! a caller's proof learns it. `prefix` of a Prefix does the same.
ghost use Rattle.std.specs.Prelude.{◌≡◌};
ghost use Rattle.std.specs.Cmp.{partial_equiv_from_equiv};
ghost use Rattle.std.specs.Cmp.Lexicographic.{lists_equiv, nat_list_eq_equiv};
ghost use Rattle.lt_registry.specs.Entries.{IsEntry, IsPrefix, has_prefix};
ghost use Rattle.lt_registry.specs.Same.{same_list};

use crate::prefixes::Prefixes;
use crate::whole_tags::WholeTag;
use lt_subtag::Subtag;
use std::marker::Model;

/// The type of a record (RFC 5646, 3.1.3).
#[derive(Clone, Copy, Debug, PartialEq, Eq)]
pub enum Kind {
    /// A language, as `zh` (RFC 5646, 2.2.1).
    Language,
    /// An extended language, as the `yue` of `zh-yue` (RFC 5646, 2.2.2).
    Extlang,
    /// A script, as `Hant` (RFC 5646, 2.2.3).
    Script,
    /// A region, as `HK` or `419` (RFC 5646, 2.2.4).
    Region,
    /// A variant, as `1996` (RFC 5646, 2.2.5).
    Variant,
    /// A grandfathered tag, as `i-klingon` (RFC 5646, 2.2.8).
    Grandfathered,
    /// A redundant tag: a whole tag that is a langtag too, as `zh-cmn-Hans` (RFC 5646, 2.2.8).
    Redundant,
}

/// What a record names: one subtag, the subtags from a first to a last, or a whole tag
/// (RFC 5646, 3.1.3 and 3.1.4).
#[derive(Debug, Drop, PartialEq, Eq)]
pub enum EntryName {
    /// One subtag: `Subtag: iw`.
    Single(Subtag),
    /// The subtags of one length from the first to the last, both included: `Subtag: qaa..qtz`.
    Range(Subtag, Subtag),
    /// A whole tag, grandfathered or redundant: `Tag: i-klingon`.
    Whole(WholeTag),
}

/// The `Preferred-Value` of a record: one subtag, or a whole tag (RFC 5646, 3.1.7).
#[derive(Debug, Drop, PartialEq, Eq)]
pub enum EntryValue {
    /// One subtag, of a record that names subtags.
    One(Subtag),
    /// A whole tag, of a grandfathered or redundant record.
    Whole(WholeTag),
}

/// The subtags of a `Prefix` (RFC 5646, 3.1.8), as `zh` of the extlang `yue`.
#[derive(Debug, Drop)]
pub struct Prefix {
    subtags: Vec<Subtag>,
}

// A contract sees a Prefix as its subtags (RFC 5646, 3.1.8).
impl Model for Prefix {
    ghost use Rattle.std.specs.Prelude.{ℕ, List};
    ghost use Rattle.lt_registry.specs.Entries.{IsPrefix};

    ghost Value = { List (List ℕ) };

    ghost view = { λ p. p.subtags.items };

    ghost invariant = { λ p. IsPrefix p.subtags.items };
}

impl PartialEq for Prefix {
    ghost eq = { same_list };

    ghost laws = { partial_equiv_from_equiv (lists_equiv nat_list_eq_equiv) };

    fn eq(&self, other: &Prefix) -> bool {
        self.subtags() == other.subtags()
    }
}

impl Eq for Prefix {
    ghost laws = { lists_equiv nat_list_eq_equiv };
}

impl Prefix {
    /// The Prefix of these subtags. There must be at least one.
    pub(crate) fn of_subtags(subtags: Vec<Subtag>) -> Prefix
        requires { IsPrefix subtags.items }
        ensures { result ≡ subtags.items }
    {
        Prefix { subtags }
    }

    /// The subtags in order. There is at least one.
    pub fn subtags(&self) -> &[Subtag]
        ensures value { result.now ≡ self.now }
        ensures prefix { IsPrefix self.now }
    {
        self.subtags.as_slice()
    }
}

/// A record of a registry: its number in the file, counted from 1, its kind, what it names, its
/// value and its Prefixes. Name and value have the forms of the kind (RFC 5646, 2.1 and 3.1).
#[derive(Debug, Drop, PartialEq, Eq)]
pub struct Entry {
    number: u32,
    kind: Kind,
    name: EntryName,
    value: Option<EntryValue>,
    prefixes: Prefixes,
}

// A contract sees a record as its number, kind, name, value and Prefixes (RFC 5646, 3.1.2).
impl Model for Entry {
    ghost use Rattle.lt_registry.specs.Parts.{EntryParts};
    ghost use Rattle.lt_registry.specs.Entries.{IsEntry};

    ghost Value = { EntryParts };

    ghost view = { λ e. record { number = e.number; kind = e.kind; name = e.name; value = e.value; prefixes = e.prefixes } };

    ghost invariant = { λ e. IsEntry (record { number = e.number; kind = e.kind; name = e.name; value = e.value; prefixes = e.prefixes }) };

    ghost inverse = { λ e. record { number = e.number; kind = e.kind; name = e.name; value = e.value; prefixes = e.prefixes } };
}

impl Entry {
    /// The entry of these parts. Name, value and Prefixes must have the forms of the kind (RFC 5646, 2.1 and 3.1).
    pub(crate) fn of_parts(
        number: u32,
        kind: Kind,
        name: EntryName,
        value: Option<EntryValue>,
        prefixes: Prefixes,
    ) -> Entry
        requires { IsEntry (record { number = number; kind = kind; name = name; value = value; prefixes = prefixes }) }
        ensures value { result ≡ record { number = number; kind = kind; name = name; value = value; prefixes = prefixes } }
        ensures entry { IsEntry result }
    {
        Entry {
            number,
            kind,
            name,
            value,
            prefixes,
        }
    }

    /// The record's number in the file, counted from 1, with the header counted too.
    pub fn number(&self) -> u32
        ensures value { result ≡ self.now.number }
        ensures entry { IsEntry self.now }
    {
        self.number
    }

    /// The record's type.
    pub fn kind(&self) -> Kind
        ensures value { result ≡ self.now.kind }
        ensures entry { IsEntry self.now }
    {
        self.kind
    }

    /// What the record names.
    pub fn name(&self) -> &EntryName
        ensures value { result.now ≡ self.now.name }
        ensures entry { IsEntry self.now }
    {
        &self.name
    }

    /// The record's preferred value, if it has one (RFC 5646, 3.1.7).
    pub fn value(&self) -> &Option<EntryValue>
        ensures value { result.now ≡ self.now.value }
        ensures entry { IsEntry self.now }
    {
        &self.value
    }

    /// The record's Prefixes in the order of the file. Only extlangs and variants have some (RFC 5646, 3.1.8).
    pub fn prefixes(&self) -> &[Prefix]
        ensures value { result.now ≡ self.now.prefixes }
        ensures entry { IsEntry self.now }
    {
        self.prefixes.all()
    }

    /// Whether one of the record's Prefixes is just this subtag, as `zh` is a Prefix of the extlang `yue`. It is looked
    /// for by binary search.
    pub fn has_prefix(&self, subtag: &Subtag) -> bool
        ensures { result ≡ has_prefix self.now.prefixes subtag.now }
    {
        self.prefixes.has(subtag)
    }
}
