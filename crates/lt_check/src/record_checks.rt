//! Whether a record meets a condition that speaks of one subtag after another: C2 and C4 to C7, and C12. A language is
//! *final* if it is registered and has no value.
ghost use Rattle.std.specs.Prelude.{◌≡◌, ◌↔◌, All, IsTrue, List, is_some};
ghost use Rattle.std.specs.List.{list_all};
ghost use Rattle.std.specs.Option.{option_copied};
ghost use Rattle.lt_tag.specs.PlainLangTags.{IsPlainLangTag};
ghost use Rattle.lt_registry.specs.Parts.{EntryParts};
ghost use Rattle.lt_registry.specs.Entries.{one_of, language_value};
ghost use Rattle.lt_registry.specs.Entries as entries;
ghost use Rattle.lt_rewrite.specs.Conditions.{HasRegisteredValue, HasFittingExtlang, HasFittingVariantValue, HasFinalPrefixes, HasLangtagPrefixes, HasNoRangeValue};
ghost use Rattle.lt_rewrite.specs.Shortcuts.{AreShortcuts};
ghost use Rattle.lt_check.specs.RecordChecks.{EndAlike};
ghost use Rattle.lt_check.specs.RecordChecks as checks;

use lt_registry::{Entry, EntryName, Kind, Lookup, Prefix};
use lt_rewrite::Shortcuts;
use lt_rewrite::values::{has_language_value, is_registered, is_short, one_value};
use lt_subtag::Subtag;
use lt_tag::is_plain_langtag;

/// Whether a language is registered and has no preferred value.
fn is_final_language<L: Lookup>(table: &L, language: &Subtag) -> bool
    ensures { result ≡ checks.is_final (L.listed table.now) language.now }
{
    match table.entry(Kind::Language, language) {
        Some(entry) => one_value(entry).is_none(),
        None => false,
    }
}

/// Whether a Prefix is one subtag, which is a registered language without a preferred value.
fn is_final_prefix<L: Lookup>(table: &L, prefix: &Prefix) -> bool
    ensures { result ≡ checks.is_final_prefix (L.listed table.now) prefix.now }
{
    match prefix.subtags() {
        [language] => is_final_language(table, language),
        _ => false,
    }
}

/// For C4: whether the chains of values of the languages `left` and `right` have the same end. False if one of the
/// chains goes in a circle. The shortcuts must be the table's.
fn end_alike<L: Lookup>(table: &L, shortcuts: &Shortcuts, left: &Subtag, right: &Subtag) -> bool
    requires { AreShortcuts (L.listed table.now) shortcuts.now }
    ensures { IsTrue result ↔ EndAlike (L.listed table.now) left.now right.now }
{
    let Ok(end) = shortcuts.chain_end(table, Kind::Language, left) else {
        return false;
    };
    match shortcuts.chain_end(table, Kind::Language, right) {
        Ok(other) => end == other,
        Err(_) => false,
    }
}

/// C2: whether the preferred value of a language, script or region is registered too, as the same kind. True of a
/// record without a value, and of any other kind.
pub(crate) fn has_registered_value<L: Lookup>(table: &L, entry: &Entry) -> bool
    ensures { IsTrue result ↔ HasRegisteredValue (L.listed table.now) entry.now }
{
    match entry.kind() {
        Kind::Language | Kind::Script | Kind::Region => match one_value(entry) {
            Some(value) => is_registered(table, entry.kind(), value),
            None => true,
        },
        _ => true,
    }
}

/// C4: whether an extlang is one subtag with one Prefix, and this Prefix is one subtag, a registered language without a
/// value. The extlang and its replacement must be registered as languages too, and their chains of values end alike.
/// True of any other kind. The shortcuts must be the table's.
pub(crate) fn fits_as_extlang<L: Lookup>(table: &L, shortcuts: &Shortcuts, entry: &Entry) -> bool
    requires { AreShortcuts (L.listed table.now) shortcuts.now }
    ensures { IsTrue result ↔ HasFittingExtlang (L.listed table.now) entry.now }
{
    if entry.kind() != Kind::Extlang {
        return true;
    }
    let EntryName::Single(subtag) = entry.name() else {
        return false;
    };
    let [prefix] = entry.prefixes() else {
        return false;
    };
    let replacement = one_value(entry).unwrap_or(subtag);
    is_final_prefix(table, prefix)
        && is_registered(table, Kind::Language, subtag)
        && is_registered(table, Kind::Language, replacement)
        && end_alike(table, shortcuts, subtag, replacement)
}

/// C5: whether the preferred value of a variant is registered: one of 2 or 3 letters as a language, a longer one as a
/// variant, whose own value, if any, is no language. True of a record without a value, and of any other kind.
pub(crate) fn has_fitting_variant_value<L: Lookup>(table: &L, entry: &Entry) -> bool
    ensures { IsTrue result ↔ HasFittingVariantValue (L.listed table.now) entry.now }
{
    if entry.kind() != Kind::Variant {
        return true;
    }
    match one_value(entry) {
        Some(value) if is_short(value) => is_registered(table, Kind::Language, value),
        Some(value) => {
            is_registered(table, Kind::Variant, value) && !has_language_value(table, value)
        }
        None => true,
    }
}

/// C6: whether a variant whose value is a language has Prefixes, and each of them is one subtag, a registered language
/// without a value. True of any other record.
pub(crate) fn stands_beside_final_languages<L: Lookup>(table: &L, entry: &Entry) -> bool
    ensures { IsTrue result ↔ HasFinalPrefixes (L.listed table.now) entry.now }
{
    match (entry.kind(), one_value(entry)) {
        (Kind::Variant, Some(value)) if is_short(value) => {
            !entry.prefixes().is_empty() && have_final_languages(table, entry.prefixes())
        }
        _ => true,
    }
}

/// Whether each Prefix is one subtag, which is a registered language without a preferred value.
fn have_final_languages<L: Lookup>(table: &L, prefixes: &[Prefix]) -> bool
    ensures { result ≡ list_all (checks.is_final_prefix (L.listed table.now)) prefixes.now }
{
    prefixes.iter().all(|prefix| is_final_prefix(table, prefix))
}

/// C7: whether each Prefix of a variant is a langtag without extensions and private use. True of any other kind. Each
/// condition is on a registry `R`, but this one asks nothing of it: so the clause holds for any.
pub(crate) fn has_langtag_prefixes(entry: &Entry) -> bool
    ensures { (R : List EntryParts) → IsTrue result ↔ HasLangtagPrefixes R entry.now }
{
    match entry.kind() {
        Kind::Variant => are_langtags(entry.prefixes()),
        _ => true,
    }
}

/// Whether each Prefix is a langtag without extensions and private use.
fn are_langtags(prefixes: &[Prefix]) -> bool
    ensures { IsTrue result ↔ All IsPlainLangTag prefixes.now }
{
    for prefix in prefixes {
        if !is_plain_langtag(prefix.subtags()) {
            return false;
        }
    }
    true
}

/// C12: whether a record of a range has no preferred value. True of any other record.
pub(crate) fn has_no_range_value(entry: &Entry) -> bool
    ensures { IsTrue result ↔ HasNoRangeValue entry.now }
{
    match entry.name() {
        EntryName::Range(_, _) => entry.value().is_none(),
        _ => true,
    }
}
