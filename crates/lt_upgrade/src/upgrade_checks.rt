//! Whether a record meets a condition, U1 to U6, on a newer registry beside an older one. A value is *short* if it has
//! 2 or 3 letters: of a variant it is then a language.
ghost use Rattle.std.specs.Prelude.{◌≡◌, ◌≢◌, ◌↔◌, List, ℕ, Some, length, IsTrue, IfOk, Contains, unwrap_or};
ghost use Rattle.std.specs.List.{list_all};
ghost use Rattle.lt_registry.specs.Entries as entries;
ghost use Rattle.lt_registry.specs.Entries.{whole_value};
ghost use Rattle.lt_registry.specs.Validity.{RepeatsNoVariant};
ghost use Rattle.lt_registry.specs.declared.entries.Kind.TheVariants as kinds;
ghost use Rattle.lt_rewrite.specs.Conditions.{next_value};
ghost use Rattle.lt_rewrite.specs.Shortcuts.{AreShortcuts};
ghost use Rattle.lt_upgrade.specs.Upgrade.{SameEnd, StaysRegistered, KeepsKind, KeepsEnds, IsSameExtlang, KeepsExtlang, IsSameVariantLanguage, KeepsVariantLanguage, HadVariantLanguage, MeetInCanonical, KeepsWhole};
ghost use Rattle.lt_upgrade.specs.UpgradeChecking as checks;
ghost use Rattle.lt_upgrade.specs.WidestRanges.{HoldRanges};

use crate::widest_ranges::WidestRanges;
use lt_canon::{Refusal, equivalent};
use lt_check::Checked;
use lt_registry::{Entry, EntryName, Kind, Lookup, Prefix};
use lt_rewrite::Shortcuts;
use lt_rewrite::values::{
    has_language_value, is_registered, is_short, one_value, tag_and_value, whole_value,
};
use lt_subtag::Subtag;
use lt_tag::{OutOfMemory, Tag};
use std::alloc::Global;

/// U1: whether the subtag of a record is registered in the newer registry, or the range of a record is within one range
/// of its kind there. True of a record of a whole tag. The ranges must be those of the newer registry.
pub(crate) fn stays_registered<L: Lookup>(newer: &L, ranges: &WidestRanges, entry: &Entry) -> bool
    requires { HoldRanges (L.listed newer.now) ranges.now }
    ensures { IsTrue result ↔ StaysRegistered (L.listed newer.now) entry.now }
{
    match entry.name() {
        EntryName::Single(subtag) => is_registered(newer, entry.kind(), subtag),
        EntryName::Range(first, last) => ranges.cover(entry.kind(), first, last),
        EntryName::Whole(_) => true,
    }
}

/// Whether the chains of `left` and of `right`, two subtags of the kind, have the same end in the table. False if one
/// of the chains goes in a circle. The kind must not be that of extlangs, whose values are languages, and the shortcuts
/// must be the table's.
#[tactic(auto, using(crate::proofs::UpgradeChecks::endless_apart))]
fn have_same_end<L: Lookup>(
    table: &L,
    shortcuts: &Shortcuts,
    kind: Kind,
    left: &Subtag,
    right: &Subtag,
) -> bool
    requires shortcuts { AreShortcuts (L.listed table.now) shortcuts.now }
    requires kind { kind ≢ kinds.Extlang }
    ensures { IsTrue result ↔ SameEnd (next_value (L.listed table.now) kind) left.now right.now }
{
    let Ok(end) = shortcuts.chain_end(table, kind, left) else {
        return false;
    };
    match shortcuts.chain_end(table, kind, right) {
        Ok(other) => end == other,
        Err(_) => false,
    }
}

/// Whether the preferred value of a record of this kind is a subtag of the same kind, so that a chain goes on with it.
fn keeps_kind(kind: Kind, value: &Subtag) -> bool
    ensures { IsTrue result ↔ KeepsKind kind value.now }
{
    match kind {
        Kind::Language | Kind::Script | Kind::Region => true,
        Kind::Variant => !is_short(value),
        Kind::Extlang | Kind::Grandfathered | Kind::Redundant => false,
    }
}

/// U2: whether the chains of a subtag and its older preferred value have the same end in the newer registry. True of a
/// record that is not of one subtag, or has no value of its own kind. The shortcuts must be the newer registry's.
pub(crate) fn keeps_ends<L: Lookup>(newer: &L, shortcuts: &Shortcuts, entry: &Entry) -> bool
    requires { AreShortcuts (L.listed newer.now) shortcuts.now }
    ensures { IsTrue result ↔ KeepsEnds (L.listed newer.now) entry.now }
{
    match (entry.name(), one_value(entry)) {
        (EntryName::Single(subtag), Some(value)) if keeps_kind(entry.kind(), value) => {
            have_same_end(newer, shortcuts, entry.kind(), subtag, value)
        }
        _ => true,
    }
}

/// Whether two lists of Prefixes are the same.
fn same_prefixes(left: &[Prefix], right: &[Prefix]) -> bool
    ensures { IsTrue result ↔ (left.now ≡ right.now) }
{
    left == right
}

/// For U3: the preferred value of the record of an extlang, or the extlang itself, `subtag`, if it has none.
fn replacement<'a>(entry: &'a Entry, subtag: &'a Subtag) -> &'a Subtag
    ensures { result.now ≡ unwrap_or (entries.one_of entry.now.value) subtag.now }
{
    match one_value(entry) {
        Some(value) => value,
        None => subtag,
    }
}

/// Whether an extlang has, in the newer registry, the same Prefixes, and a replacement whose chain has the same end as
/// that of the older replacement. `entry` is its older record. The shortcuts must be the newer registry's.
fn is_same_extlang<L: Lookup>(
    newer: &L,
    shortcuts: &Shortcuts,
    entry: &Entry,
    subtag: &Subtag,
) -> bool
    requires { AreShortcuts (L.listed newer.now) shortcuts.now }
    ensures { IsTrue result ↔ IsSameExtlang (L.listed newer.now) entry.now subtag.now }
{
    let Some(other) = newer.entry(Kind::Extlang, subtag) else {
        return false;
    };
    let (old, new) = (replacement(entry, subtag), replacement(other, subtag));
    same_prefixes(other.prefixes(), entry.prefixes())
        && have_same_end(newer, shortcuts, Kind::Language, old, new)
}

/// U3: whether an extlang keeps its Prefixes and the end of the chain of its replacement in the newer registry. True of
/// any other record. The shortcuts must be the newer registry's.
pub(crate) fn keeps_extlang<L: Lookup>(newer: &L, shortcuts: &Shortcuts, entry: &Entry) -> bool
    requires { AreShortcuts (L.listed newer.now) shortcuts.now }
    ensures { IsTrue result ↔ KeepsExtlang (L.listed newer.now) entry.now }
{
    match (entry.kind(), entry.name()) {
        (Kind::Extlang, EntryName::Single(subtag)) => {
            is_same_extlang(newer, shortcuts, entry, subtag)
        }
        _ => true,
    }
}

/// Whether a Prefix of one subtag is among those of a record. True of a longer Prefix: a variant's value that is a
/// language is used only beside a language that is itself a Prefix.
fn is_among(prefix: &Prefix, entry: &Entry) -> bool
    ensures { result ≡ checks.is_among entry.now.prefixes prefix.now }
{
    match prefix.subtags() {
        [language] => entry.has_prefix(language),
        _ => true,
    }
}

/// Whether each Prefix of one subtag is among those of a record.
fn are_among(prefixes: &[Prefix], entry: &Entry) -> bool
    ensures { result ≡ list_all (checks.is_among entry.now.prefixes) prefixes.now }
{
    prefixes.iter().all(|prefix| is_among(prefix, entry))
}

/// Whether two records have the same Prefixes of one subtag, in whatever order.
fn same_languages(left: &Entry, right: &Entry) -> bool
    ensures { IsTrue result ↔ ((l : List ℕ) → entries.has_prefix left.now.prefixes l ≡ entries.has_prefix right.now.prefixes l) }
{
    are_among(left.prefixes(), right) && are_among(right.prefixes(), left)
}

/// U4: whether a variant whose value is a language keeps, in the newer registry, a language of the same end as its
/// value, and the set of its Prefixes of one subtag. True of any other record. The shortcuts must be the newer
/// registry's.
pub(crate) fn keeps_variant_language<L: Lookup>(
    newer: &L,
    shortcuts: &Shortcuts,
    entry: &Entry,
) -> bool
    requires { AreShortcuts (L.listed newer.now) shortcuts.now }
    ensures { IsTrue result ↔ KeepsVariantLanguage (L.listed newer.now) entry.now }
{
    match (entry.kind(), entry.name(), one_value(entry)) {
        (Kind::Variant, EntryName::Single(subtag), Some(value)) if is_short(value) => {
            have_same_variant_language(newer, shortcuts, entry, subtag, value)
        }
        _ => true,
    }
}

/// Whether a variant has, in the newer registry, a language of the same end as its value, and the same Prefixes of one
/// subtag. Then the variant, beside the same languages, leads to the same language. `entry` is its older record, and
/// `value` its older value. The shortcuts must be the newer registry's.
fn have_same_variant_language<L: Lookup>(
    newer: &L,
    shortcuts: &Shortcuts,
    entry: &Entry,
    subtag: &Subtag,
    value: &Subtag,
) -> bool
    requires { AreShortcuts (L.listed newer.now) shortcuts.now }
    ensures { IsTrue result ↔ IsSameVariantLanguage (L.listed newer.now) entry.now subtag.now value.now }
{
    let Some(other) = newer.entry(Kind::Variant, subtag) else {
        return false;
    };
    match one_value(other) {
        Some(language) if is_short(language) => {
            same_languages(other, entry)
                && have_same_end(newer, shortcuts, Kind::Language, value, language)
        }
        _ => false,
    }
}

/// U5: whether a variant of the newer registry whose value is a language has such a value in the older registry too, if
/// it is registered there. True of any other record.
#[tactic(auto, using(crate::proofs::UpgradeChecks::had_compared))]
pub(crate) fn had_variant_language<L: Lookup>(older: &L, entry: &Entry) -> bool
    ensures { IsTrue result ↔ HadVariantLanguage (L.listed older.now) entry.now }
{
    match (entry.kind(), entry.name(), one_value(entry)) {
        (Kind::Variant, EntryName::Single(subtag), Some(value)) if is_short(value) => {
            !is_registered(older, Kind::Variant, subtag) || has_language_value(older, subtag)
        }
        _ => true,
    }
}

/// Whether two tags have the same canonical form. False if one of them has none. Refused only where memory runs out.
/// Neither tag may repeat a variant: `equivalent` refuses such a tag even where steps lead from it to a canonical one.
#[tactic(auto, using(crate::proofs::UpgradeChecks::forms_compared, crate::proofs::UpgradeChecks::refused_apart))]
fn meet_in_canonical<L: Lookup>(
    alloc: Global,
    newer: &Checked<L>,
    first: &Tag,
    second: &Tag,
) -> Result<bool, OutOfMemory>
    requires first { RepeatsNoVariant first.now }
    requires second { RepeatsNoVariant second.now }
    ensures { IfOk result (λ meet. IsTrue meet ↔ MeetInCanonical (L.listed newer.now) first.now second.now) }
{
    // Does nothing but tell the proof that the table passes the check.
    let _ = newer.table();
    let refusal = match equivalent(alloc, newer, first, second) {
        Ok(answer) => return Ok(answer),
        Err(refusal) => refusal,
    };
    match refusal {
        Refusal::OutOfMemory => Err(OutOfMemory),
        _ => Ok(false),
    }
}

/// Whether the newer registry has this preferred value for the whole tag: then U6 is met, and `false` leaves it open.
fn replaces<L: Lookup>(newer: &L, tag: &Tag, value: &Tag) -> bool
    ensures { IsTrue result → whole_value (L.listed newer.now) tag.now ≡ Some value.now }
{
    match whole_value(newer, tag) {
        Some(other) => other == value,
        None => false,
    }
}

/// U6: whether the tag and the preferred value of a record of the older registry have the same canonical form by the
/// newer one. They do if the newer one has the same value for the tag. True of a record that replaces no whole tag. The
/// record must be one of the older registry's: by its check neither tag repeats a variant. Refused only where memory
/// runs out.
pub(crate) fn keeps_whole<A: Lookup, B: Lookup>(
    alloc: Global,
    older: &Checked<A>,
    newer: &Checked<B>,
    entry: &Entry,
) -> Result<bool, OutOfMemory>
    requires { Contains (A.listed older.now) entry.now }
    ensures { IfOk result (λ meets. IsTrue meets ↔ KeepsWhole (B.listed newer.now) entry.now) }
{
    // Does nothing but tell the proof that the table passes the check.
    let _ = older.table();
    let table = newer.table();
    match tag_and_value(entry) {
        Some((tag, value)) if replaces(table, tag, value) => Ok(true),
        Some((tag, value)) => meet_in_canonical(alloc, newer, tag, value),
        None => Ok(true),
    }
}
