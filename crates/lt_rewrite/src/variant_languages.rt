//! VariantLanguage steps one after another, for which each variant is looked up only once. Such a step drops a variant
//! whose value is a language, if the core's language is one of the variant's Prefixes, and makes the value the core's
//! language.
ghost use Rattle.std.specs.Prelude.{◌≡◌, true, All, IfSome, MatchOption};
ghost use Rattle.std.specs.List.{slice_get};
ghost use Rattle.std.specs.Option.{option_copied};
ghost use Rattle.lt_subtag.specs.Shapes.{is_language};
ghost use Rattle.lt_registry.specs.Entries.{entry, has_form};
ghost use Rattle.lt_registry.specs.declared.entries.Kind.TheVariants as kinds;
ghost use Rattle.lt_rewrite.specs.CoreSteps.{language_beside, EndsIn};
ghost use Rattle.lt_rewrite.specs.Conditions as conditions;
ghost use Rattle.lt_rewrite.specs.Conditions.{HasEndingChain};
ghost use Rattle.lt_rewrite.specs.Shortcuts.{AreShortcuts};
ghost use Rattle.lt_rewrite.specs.CoreSettling.{IsFirstVariantLanguage, HasNoVariantLanguage};
ghost use Rattle.lt_rewrite.specs.VariantLanguages.{ArePlaces};

use crate::chain_ends::following;
use crate::shortcuts::{Shortcuts, place_of};
use crate::values::{is_short, one_value};
use lt_registry::{Entry, Kind, Lookup};
use lt_subtag::Subtag;
use lt_tag::Core;

/// The index of a variant's entry in the table. If the variant has no entry, it is the index after the last entry,
/// where nothing is.
#[tactic(auto, using(crate::proofs::ChainWalks::entry_there))]
fn variant_place<L: Lookup>(table: &L, variant: &Subtag) -> usize
    ensures { slice_get (L.listed table.now) result ≡ entry (L.listed table.now) kinds.Variant variant.now }
{
    let entries = table.entries();
    match table.entry(Kind::Variant, variant) {
        Some(entry) => place_of(entries, entry),
        None => entries.len(),
    }
}

/// The end of a variant's chain of variants, and the index of the end's entry in the table, or the index after the last
/// entry if the end has none. The chains of values in the registry must end, and the shortcuts must be those of the
/// table.
#[tactic(auto, using(crate::proofs::ChainWalks::entry_there))]
pub(crate) fn settled_variant<L: Lookup>(
    table: &L,
    shortcuts: &Shortcuts,
    variant: &Subtag,
) -> (Subtag, usize)
    requires chains { All (HasEndingChain (L.listed table.now)) (L.listed table.now) }
    requires shortcuts { AreShortcuts (L.listed table.now) shortcuts.now }
    ensures end { EndsIn (conditions.next_value (L.listed table.now) kinds.Variant) variant.now result.0 }
    ensures form { has_form kinds.Variant variant.now ≡ true → has_form kinds.Variant result.0 ≡ true }
    ensures place { slice_get (L.listed table.now) result.1 ≡ entry (L.listed table.now) kinds.Variant result.0 }
{
    let entries = table.entries();
    let Some(entry) = table.entry(Kind::Variant, variant) else {
        return (variant.copy(), entries.len());
    };
    if following(Kind::Variant, entry).is_none() {
        return (variant.copy(), place_of(entries, entry));
    }
    let end = shortcuts.certain_end(table, Kind::Variant, variant);
    let place = variant_place(table, &end);
    (end, place)
}

/// The entry at an index, or None if there is none.
#[tactic(auto, using(std::proofs::lemmas::Option::gets))]
fn entry_at<'a, L: Lookup>(table: &'a L, place: usize) -> Option<&'a Entry>
    ensures { option_copied result ≡ slice_get (L.listed table.now) place }
{
    table.entries().get(place)
}

/// The variant's value, if that is a language, and if `language` is one of the variant's Prefixes: a VariantLanguage
/// step puts it in the place of `language`. None otherwise. `place` must be the index of the variant's entry, or an
/// index after the last entry if it has none. `_variant` is only for the clauses: it is not looked up.
fn variant_language_at<'a, L: Lookup>(
    table: &'a L,
    place: usize,
    language: &Subtag,
    _variant: &Subtag,
) -> Option<&'a Subtag>
    requires { slice_get (L.listed table.now) place ≡ entry (L.listed table.now) kinds.Variant _variant.now }
    ensures value { option_copied result ≡ language_beside (L.listed table.now) language.now _variant.now }
    ensures form { IfSome result (λ value. is_language value.now ≡ true) }
{
    match entry_at(table, place) {
        Some(entry) if entry.has_prefix(language) => match one_value(entry) {
            Some(value) if is_short(value) => Some(value),
            _ => None,
        },
        _ => None,
    }
}

/// The leftmost variant that a VariantLanguage step may drop: its index, counted from 0, and the language that the step
/// puts. None if there is no such variant. `places` must be the indices of the entries of the core's variants, so that
/// none is looked up; for a variant without an entry it has an index after the last entry.
pub(crate) fn first_variant_language_at<L: Lookup>(
    table: &L,
    places: &[usize],
    core: &Core,
) -> Option<(usize, Subtag)>
    requires places { ArePlaces (L.listed table.now) core.now.variants places.now }
    ensures variant_language { MatchOption result
        (HasNoVariantLanguage (L.listed table.now) core.now)
        (λ first. IsFirstVariantLanguage (L.listed table.now) core.now first.0 first.1) }
    ensures form { IfSome result (λ first. is_language first.1 ≡ true) }
{
    let variants = core.variants();
    for index in 0..variants.len() {
        if let Some(language) = variant_language_at(
            table,
            places[index],
            core.language(),
            &variants[index],
        ) {
            return Some((index, language.copy()));
        }
    }
    None
}
