//! The record that a registry has for a part of a tag, if it has one.
ghost use Rattle.std.specs.Prelude.{◌≡◌};
ghost use Rattle.std.specs.Option.{option_copied};
ghost use Rattle.lt_show.specs.Listings as spec;
ghost use Rattle.lt_show.specs.Listings.{entry_of, listing_by, subject_name};

use crate::kinds::PartKind;
use lt_registry::{Entry, Kind, Lookup};
use lt_subtag::Subtag;
use lt_tag::Tag;

/// What a registry has for a part of a tag.
#[derive(Clone, Copy, Debug, PartialEq, Eq)]
pub enum Listing {
    /// No registry has records for parts of this kind: singletons, private use, and the subtags of extensions but for
    /// those of the source of a `t` extension.
    Unlisted,
    /// No record of the registry is for this part.
    Unregistered,
    /// The record of this number in the file, counted from 1, with the header counted too.
    Record(u32),
}

/// What a row is about.
#[derive(Clone, Copy, Debug, PartialEq, Eq)]
pub enum Subject {
    /// The whole of a tag that is registered as redundant (RFC 5646, 2.2.8): `zh-Hant`.
    Whole,
    /// A part of this kind.
    Part(PartKind),
}

impl Subject {
    /// Its name, as it is printed: `Whole`, or that of the kind.
    pub fn name(self) -> &'static str
        ensures { result.now ≡ subject_name self }
    {
        match self {
            Subject::Whole => "Whole",
            Subject::Part(kind) => kind.name(),
        }
    }
}

/// The kind of the records that register subtags of this kind, or None if no records do. The source of a `t` extension
/// has the parts of a language tag (RFC 6497, 2.2); a grandfathered tag is no subtag.
fn kind_of(kind: PartKind) -> Option<Kind>
    ensures { result ≡ spec.kind_of kind }
{
    match kind {
        PartKind::Language | PartKind::SourceLanguage => Some(Kind::Language),
        PartKind::Extlang | PartKind::SourceExtlang => Some(Kind::Extlang),
        PartKind::Script | PartKind::SourceScript => Some(Kind::Script),
        PartKind::Region | PartKind::SourceRegion => Some(Kind::Region),
        PartKind::Variant | PartKind::SourceVariant => Some(Kind::Variant),
        _ => None,
    }
}

/// The listing that an entry gives: its record, or `Unregistered` if there is none. In the clause `entry.entry` is the
/// parameter `entry` as it came in.
pub(crate) fn listed(entry: Option<&Entry>) -> Listing
    ensures { result ≡ listing_by (option_copied entry.entry) }
{
    match entry {
        Some(entry) => Listing::Record(entry.number()),
        None => Listing::Unregistered,
    }
}

/// What a table has for the subtag that a text spells, under a kind of record: `Unregistered` where no such record has
/// it, or where the text is no subtag.
fn listing_under<L: Lookup>(table: &L, kind: Kind, text: &[u8]) -> Listing
    ensures { result ≡ listing_by (entry_of (L.listed table.now) kind text.now) }
{
    match Subtag::read(text) {
        Ok(subtag) => listed(table.entry(kind, &subtag)),
        Err(_) => Listing::Unregistered,
    }
}

/// What a table has for a part of a tag, by the kind and the text of the part. A grandfathered tag is looked up as a
/// whole. `Unlisted` if no record registers parts of this kind.
pub(crate) fn look_up<L: Lookup>(table: &L, tag: &Tag, kind: PartKind, text: &[u8]) -> Listing
    ensures { result ≡ spec.listing (L.listed table.now) tag.now kind text.now }
{
    if let PartKind::Grandfathered = kind {
        return listed(table.whole(tag));
    }
    match kind_of(kind) {
        Some(kind) => listing_under(table, kind, text),
        None => Listing::Unlisted,
    }
}
