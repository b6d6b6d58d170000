//! What the entries of a table give as preferred values (RFC 5646, 3.1.7): one subtag, or a whole tag. A clause `form`
//! says that a value has the form that values of its kind have.
ghost use Rattle.std.specs.Prelude.{◌≡◌, Some, true, is_some, IfSome, MatchBool, MatchOption};
ghost use Rattle.std.specs.Option.{option_copied};
ghost use Rattle.lt_tag.specs.Parts.{TagForm};
ghost use Rattle.lt_registry.specs.Entries as entries;
ghost use Rattle.lt_registry.specs.Entries.{one_of, tag_of, language_value, has_value_form};
ghost use Rattle.lt_registry.specs.declared.entries.EntryName.TheVariants as names;
ghost use Rattle.lt_rewrite.specs.TagSteps.{CanBeReplacedWhole};

use lt_registry::{Entry, EntryName, EntryValue, Kind, Lookup};
use lt_subtag::Subtag;
use lt_tag::{Class, Tag};

/// The one subtag that an entry has as its preferred value, or None if it has no such value.
pub fn one_value(entry: &Entry) -> Option<&Subtag>
    ensures value { option_copied result ≡ one_of entry.now.value }
    ensures form { IfSome result (λ value. has_value_form entry.now.kind value.now ≡ true) }
{
    match entry.value() {
        Some(EntryValue::One(value)) => Some(value),
        _ => None,
    }
}

/// The whole tag that an entry has as its preferred value, or None if it has no such value.
pub fn tag_value(entry: &Entry) -> Option<&Tag>
    ensures { option_copied result ≡ tag_of entry.now.value }
{
    match entry.value() {
        Some(EntryValue::Whole(value)) => Some(value.tag()),
        _ => None,
    }
}

/// The tag and the preferred value of a record of a whole tag. None if the record is not one of a whole tag, or has no
/// value.
pub fn tag_and_value(entry: &Entry) -> Option<(&Tag, &Tag)>
    ensures { MatchOption result
        ((t u : TagForm) → entry.now.name ≡ names.Whole t → tag_of entry.now.value ≡ Some u → ⊥)
        (λ pair. (entry.now.name ≡ names.Whole pair.0.now) × (tag_of entry.now.value ≡ Some pair.1.now)) }
{
    match (entry.name(), entry.value()) {
        (EntryName::Whole(tag), Some(EntryValue::Whole(value))) => Some((tag.tag(), value.tag())),
        _ => None,
    }
}

/// Whether `subtag`, the preferred value of a variant, is a language and not a variant: a language that is such a value
/// has at most 3 letters, and a variant has at least 4 letters or digits (RFC 5646, 2.1).
pub fn is_short(subtag: &Subtag) -> bool
    ensures { result ≡ entries.is_short subtag.now }
{
    subtag.bytes().len() <= 3
}

/// Whether a subtag has an entry of this kind.
pub fn is_registered<L: Lookup>(table: &L, kind: Kind, subtag: &Subtag) -> bool
    ensures { result ≡ entries.is_registered (L.listed table.now) kind subtag.now }
{
    table.entry(kind, subtag).is_some()
}

/// The preferred value of a subtag of this kind. None if the subtag is not registered as one, or has no value.
pub fn value<'a, L: Lookup>(table: &'a L, kind: Kind, subtag: &Subtag) -> Option<&'a Subtag>
    ensures value { option_copied result ≡ entries.preferred_value (L.listed table.now) kind subtag.now }
    ensures form { IfSome result (λ value. has_value_form kind value.now ≡ true) }
{
    match table.entry(kind, subtag) {
        Some(entry) => one_value(entry),
        None => None,
    }
}

/// The preferred value of a whole tag. None if the tag has no record, or the record has no value.
pub fn whole_value<'a, L: Lookup>(table: &'a L, tag: &Tag) -> Option<&'a Tag>
    ensures { option_copied result ≡ entries.whole_value (L.listed table.now) tag.now }
{
    match table.whole(tag) {
        Some(entry) => tag_value(entry),
        None => None,
    }
}

/// Whether a tag can be replaced as a whole: it is grandfathered, or a langtag without extensions and private use.
pub fn can_be_replaced_whole(tag: &Tag) -> bool
    ensures { MatchBool result (CanBeReplacedWhole tag.now) (CanBeReplacedWhole tag.now → ⊥) }
{
    match tag.class() {
        Class::LangTag => tag.core_alone().is_some(),
        Class::PrivateUse => false,
        Class::Grandfathered => true,
    }
}

/// Whether a variant is registered with a language as its preferred value.
pub fn has_language_value<L: Lookup>(table: &L, variant: &Subtag) -> bool
    ensures { result ≡ is_some (language_value (L.listed table.now) variant.now) }
{
    match table.entry(Kind::Variant, variant) {
        Some(entry) => match one_value(entry) {
            Some(value) => is_short(value),
            None => false,
        },
        None => false,
    }
}
