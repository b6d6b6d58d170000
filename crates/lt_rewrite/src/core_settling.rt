//! The core normal form (RFC 5646, 4.5). To settle a part of a core is to replace it by the end of its chain of values.
//! A function that does so has three kinds of clauses. `reached` says that core steps lead from the core before the
//! call to the core after it; `at_rest`, or a clause named after the part, that no value follows the part; and
//! `others`, that no other part changes. A clause `form` says that a subtag has the form that the core asks for.
ghost use Rattle.std.specs.Prelude.{◌≡◌, ◌<◌, ◌≤◌, ℕ, true, Some, None, [], ◌∷◌, List, All, IfSome, length, MatchOption};
ghost use Rattle.std.specs.Option.{option_copied};
ghost use Rattle.lt_subtag.specs.Shapes.{is_language};
ghost use Rattle.lt_registry.specs.Entries.{has_form};
ghost use Rattle.lt_rewrite.specs.Rewriting.{Star};
ghost use Rattle.lt_rewrite.specs.CoreSteps.{language_beside, CoreStep, IsCoreNormalForm, EndsIn};
ghost use Rattle.lt_rewrite.specs.Conditions as conditions;
ghost use Rattle.lt_rewrite.specs.Conditions.{HasEndingChain};
ghost use Rattle.lt_rewrite.specs.Shortcuts.{AreShortcuts};
ghost use Rattle.lt_rewrite.specs.VariantLanguages.{ArePlaces};
ghost use Rattle.lt_rewrite.specs.CoreSettling.{IsFirstVariantLanguage, HasNoVariantLanguage, HasFinalLanguage, HasFinalScript, HasFinalRegion, HasFinalVariants};

use crate::chain_ends::{end_of_chain, replacement};
use crate::shortcuts::Shortcuts;
use crate::values::{is_short, one_value};
use crate::variant_languages::{first_variant_language_at, settled_variant};
use arrayvec::ArrayVec;
use lt_registry::{Kind, Lookup};
use lt_subtag::Subtag;
use lt_tag::Core;

/// The end of the chain of values of a kind that begins with a subtag. It is found by the shortcuts if some are given,
/// which must be those of the table. The chains of values in the registry must end.
fn certain_end<L: Lookup>(
    table: &L,
    shortcuts: Option<&Shortcuts>,
    kind: Kind,
    subtag: &Subtag,
) -> Subtag
    requires chains { All (HasEndingChain (L.listed table.now)) (L.listed table.now) }
    requires shortcuts { IfSome shortcuts (λ s. AreShortcuts (L.listed table.now) s.now) }
    ensures end { EndsIn (conditions.next_value (L.listed table.now) kind) subtag.now result }
    ensures form { has_form kind subtag.now ≡ true → has_form kind result ≡ true }
{
    let end = match shortcuts {
        Some(shortcuts) => return shortcuts.certain_end(table, kind, subtag),
        None => end_of_chain(table, kind, subtag),
    };
    match end {
        Ok(end) => end,
        Err(_) => unreachable!(),
    }
}

/// Replaces the script, if there is one, by the end of its chain of values. The chains of values in the registry must
/// end, and the shortcuts, if some are given, must be those of the table.
#[tactic(auto, using(crate::specs::Rewriting::done))]
fn settle_script<L: Lookup>(table: &L, shortcuts: Option<&Shortcuts>, core: &mut Core)
    requires chains { All (HasEndingChain (L.listed table.now)) (L.listed table.now) }
    requires shortcuts { IfSome shortcuts (λ s. AreShortcuts (L.listed table.now) s.now) }
    ensures reached { Star (CoreStep (L.listed table.now)) core.old core.new }
    ensures at_rest { HasFinalScript (L.listed table.now) core.new }
    ensures others { core.new ≡ record core.old { script = core.new.script } }
{
    if let Some(script) = core.script() {
        let end = certain_end(table, shortcuts, Kind::Script, script);
        core.set_script(end);
    }
}

/// Replaces the region, if there is one, by the end of its chain of values. The chains of values in the registry must
/// end, and the shortcuts, if some are given, must be those of the table.
#[tactic(auto, using(crate::specs::Rewriting::done))]
fn settle_region<L: Lookup>(table: &L, shortcuts: Option<&Shortcuts>, core: &mut Core)
    requires chains { All (HasEndingChain (L.listed table.now)) (L.listed table.now) }
    requires shortcuts { IfSome shortcuts (λ s. AreShortcuts (L.listed table.now) s.now) }
    ensures reached { Star (CoreStep (L.listed table.now)) core.old core.new }
    ensures at_rest { HasFinalRegion (L.listed table.now) core.new }
    ensures others { core.new ≡ record core.old { region = core.new.region } }
{
    if let Some(region) = core.region() {
        let end = certain_end(table, shortcuts, Kind::Region, region);
        core.set_region(end);
    }
}

/// Replaces each variant by the end of its chain of variants. The chains of values in the registry must end, and the
/// shortcuts, if some are given, must be those of the table.
#[tactic(auto, using(crate::proofs::CoreSettling::none_settled))]
fn settle_variants<L: Lookup>(table: &L, shortcuts: Option<&Shortcuts>, core: &mut Core)
    requires chains { All (HasEndingChain (L.listed table.now)) (L.listed table.now) }
    requires shortcuts { IfSome shortcuts (λ s. AreShortcuts (L.listed table.now) s.now) }
    ensures reached { Star (CoreStep (L.listed table.now)) core.old core.new }
    ensures at_rest { HasFinalVariants (L.listed table.now) core.new }
    ensures others { core.new ≡ record core.old { variants = core.new.variants } }
{
    for index in 0..core.variants().len() {
        let end = certain_end(table, shortcuts, Kind::Variant, &core.variants()[index]);
        core.set_variant(index, end);
    }
}

/// If the core has exactly one extlang, drops it and makes its replacement the language, so that there is no longer
/// exactly one (`at_rest`). Two or more extlangs stay.
#[tactic(auto, using(crate::specs::Rewriting::done))]
fn settle_extlang<L: Lookup>(table: &L, core: &mut Core)
    ensures reached { Star (CoreStep (L.listed table.now)) core.old core.new }
    ensures at_rest { (x : List ℕ) → core.new.extlangs ≡ x ∷ [] → ⊥ }
    ensures others { core.new ≡ record core.old { language = core.new.language; extlangs = core.new.extlangs } }
{
    if let [extlang] = core.extlangs() {
        let language = replacement(table, extlang);
        core.drop_extlangs();
        core.set_language(language);
    }
}

/// Replaces the language of a core, which must have no extlangs, by the end of its chain of values. The chains of
/// values in the registry must end, and the shortcuts, if some are given, must be those of the table.
fn settle_language<L: Lookup>(table: &L, shortcuts: Option<&Shortcuts>, core: &mut Core)
    requires chains { All (HasEndingChain (L.listed table.now)) (L.listed table.now) }
    requires shortcuts { IfSome shortcuts (λ s. AreShortcuts (L.listed table.now) s.now) }
    requires alone { core.old.extlangs ≡ [] }
    ensures reached { Star (CoreStep (L.listed table.now)) core.old core.new }
    ensures at_rest { HasFinalLanguage (L.listed table.now) core.new }
    ensures others { core.new ≡ record core.old { language = core.new.language } }
{
    let end = certain_end(table, shortcuts, Kind::Language, core.language());
    core.set_language(end);
}

/// The variant's value, if that is a language, and if `language` is one of the variant's Prefixes: a VariantLanguage
/// step puts it in the place of `language`. None otherwise.
fn variant_language<'a, L: Lookup>(
    table: &'a L,
    language: &Subtag,
    variant: &Subtag,
) -> Option<&'a Subtag>
    ensures value { option_copied result ≡ language_beside (L.listed table.now) language.now variant.now }
    ensures form { IfSome result (λ value. is_language value.now ≡ true) }
{
    match table.entry(Kind::Variant, variant) {
        Some(entry) => match one_value(entry) {
            Some(value) if is_short(value) && entry.has_prefix(language) => Some(value),
            _ => None,
        },
        None => None,
    }
}

/// The leftmost variant that a VariantLanguage step may drop: its index, counted from 0, and the language that the step
/// puts. None if there is no such variant. It does not look at extlangs, with which a core has no such step.
pub(crate) fn first_variant_language<L: Lookup>(table: &L, core: &Core) -> Option<(usize, Subtag)>
    ensures variant_language { MatchOption result
        (HasNoVariantLanguage (L.listed table.now) core.now)
        (λ first. IsFirstVariantLanguage (L.listed table.now) core.now first.0 first.1) }
    ensures form { IfSome result (λ first. is_language first.1 ≡ true) }
{
    for (index, variant) in core.variants().iter().enumerate() {
        if let Some(language) = variant_language(table, core.language(), variant) {
            return Some((index, language.copy()));
        }
    }
    None
}

/// Replaces the language of a core by the end of its chain of values. As long as there is a VariantLanguage step, it
/// takes that step, and follows the chain of the new language. The core must have no extlangs, and its variants must be
/// at the ends of their chains. The chains of values in the registry must end, and the shortcuts, if some are given,
/// must be those of the table.
fn settle_variant_languages<L: Lookup>(table: &L, shortcuts: Option<&Shortcuts>, core: &mut Core)
    requires chains { All (HasEndingChain (L.listed table.now)) (L.listed table.now) }
    requires shortcuts { IfSome shortcuts (λ s. AreShortcuts (L.listed table.now) s.now) }
    requires alone { core.old.extlangs ≡ [] }
    requires variants { HasFinalVariants (L.listed table.now) core.old }
    ensures reached { Star (CoreStep (L.listed table.now)) core.old core.new }
    ensures language { HasFinalLanguage (L.listed table.now) core.new }
    ensures variant_languages { HasNoVariantLanguage (L.listed table.now) core.new }
    ensures variants { HasFinalVariants (L.listed table.now) core.new }
    ensures others { core.new ≡ record core.old { language = core.new.language; variants = core.new.variants } }
{
    settle_language(table, shortcuts, core);
    while let Some((index, language)) = first_variant_language(table, core) {
        core.remove_variant(index);
        core.set_language(language);
        settle_language(table, shortcuts, core);
    }
}

/// Replaces each of at most 256 variants by the end of its chain of variants. To `places`, which must be empty, it adds
/// for each variant the index of the end's entry in the table, or an index after the last entry if the end has none.
/// The chains of values in the registry must end, and the shortcuts must be those of the table. An array of 256 indices
/// takes no memory from the allocator.
#[tactic(auto, using(crate::proofs::CoreSettling::none_settled, crate::proofs::CoreSettling::all_final))]
fn settle_few_variants<L: Lookup>(
    table: &L,
    shortcuts: &Shortcuts,
    core: &mut Core,
    places: &mut ArrayVec<usize, 256>,
)
    requires chains { All (HasEndingChain (L.listed table.now)) (L.listed table.now) }
    requires shortcuts { AreShortcuts (L.listed table.now) shortcuts.now }
    requires few { length core.old.variants ≤ 256 }
    requires empty { places.old.items ≡ [] }
    ensures reached { Star (CoreStep (L.listed table.now)) core.old core.new }
    ensures at_rest { HasFinalVariants (L.listed table.now) core.new }
    ensures places { ArePlaces (L.listed table.now) core.new.variants places.new.items }
    ensures others { core.new ≡ record core.old { variants = core.new.variants } }
{
    for index in 0..core.variants().len() {
        let (end, place) = settled_variant(table, shortcuts, &core.variants()[index]);
        core.set_variant(index, end);
        places.push(place);
    }
}

/// Replaces the variants, at most 256, by the ends of their chains of variants, and the language by the end of its
/// chain. As long as there is a VariantLanguage step, it takes that step, and follows the chain of the new language.
/// The variants are looked up only once, not again for each language. The core must have no extlangs, the chains of
/// values in the registry must end, and the shortcuts must be those of the table.
fn settle_few_variant_languages<L: Lookup>(table: &L, shortcuts: &Shortcuts, core: &mut Core)
    requires chains { All (HasEndingChain (L.listed table.now)) (L.listed table.now) }
    requires shortcuts { AreShortcuts (L.listed table.now) shortcuts.now }
    requires alone { core.old.extlangs ≡ [] }
    requires few { length core.old.variants ≤ 256 }
    ensures reached { Star (CoreStep (L.listed table.now)) core.old core.new }
    ensures language { HasFinalLanguage (L.listed table.now) core.new }
    ensures variant_languages { HasNoVariantLanguage (L.listed table.now) core.new }
    ensures variants { HasFinalVariants (L.listed table.now) core.new }
    ensures others { core.new ≡ record core.old { language = core.new.language; variants = core.new.variants } }
{
    let mut places = ArrayVec::new();
    settle_few_variants(table, shortcuts, core, &mut places);
    settle_language(table, Some(shortcuts), core);
    while let Some((index, language)) = first_variant_language_at(table, &places, core) {
        core.remove_variant(index);
        places.remove(index);
        core.set_language(language);
        settle_language(table, Some(shortcuts), core);
    }
}

/// Replaces the variants by the ends of their chains of variants, and the language by the end of its chain. As long as
/// there is a VariantLanguage step, it takes that step, and follows the chain of the new language. Without shortcuts,
/// or with fewer than 16 or more than 256 variants, each variant is looked up again for each language: that is quick
/// for a few, and the array has room for only 256. The core must have no extlangs. The chains of values in the registry
/// must end, and the shortcuts, if some are given, must be those of the table.
#[tactic(auto, using(crate::proofs::Stars::star_trans))]
fn settle_all_variant_languages<L: Lookup>(
    table: &L,
    shortcuts: Option<&Shortcuts>,
    core: &mut Core,
)
    requires chains { All (HasEndingChain (L.listed table.now)) (L.listed table.now) }
    requires shortcuts { IfSome shortcuts (λ s. AreShortcuts (L.listed table.now) s.now) }
    requires alone { core.old.extlangs ≡ [] }
    ensures reached { Star (CoreStep (L.listed table.now)) core.old core.new }
    ensures language { HasFinalLanguage (L.listed table.now) core.new }
    ensures variant_languages { HasNoVariantLanguage (L.listed table.now) core.new }
    ensures variants { HasFinalVariants (L.listed table.now) core.new }
    ensures others { core.new ≡ record core.old { language = core.new.language; variants = core.new.variants } }
{
    let count = core.variants().len();
    match shortcuts {
        Some(shortcuts) if 16 <= count && count <= 256 => {
            settle_few_variant_languages(table, shortcuts, core)
        }
        _ => {
            settle_variants(table, shortcuts, core);
            settle_variant_languages(table, shortcuts, core);
        }
    }
}

/// Puts a core into its core normal form, by the shortcuts if some are given, which must be those of the table. The
/// chains of values in the registry must end.
pub(crate) fn settle_along<L: Lookup>(table: &L, shortcuts: Option<&Shortcuts>, core: &mut Core)
    requires chains { All (HasEndingChain (L.listed table.now)) (L.listed table.now) }
    requires shortcuts { IfSome shortcuts (λ s. AreShortcuts (L.listed table.now) s.now) }
    ensures { IsCoreNormalForm (L.listed table.now) core.old core.new }
{
    settle_script(table, shortcuts, core);
    settle_region(table, shortcuts, core);
    settle_extlang(table, core);
    if core.extlangs().is_empty() {
        settle_all_variant_languages(table, shortcuts, core);
    } else {
        settle_variants(table, shortcuts, core);
    }
}

/// Puts a core into its core normal form (RFC 5646, 4.5): each subtag is replaced by the end of its chain of values,
/// and the replacement of an only extlang becomes the language. A variant is dropped and its value becomes the
/// language, if the value is a language and the core's language is one of the variant's Prefixes. A core with two or
/// more extlangs keeps them and its language. The chains of values in the registry must end, as they do if
/// `first_cycle` is None.
///
/// Takes no memory. Each subtag is looked up once, and once more for each value that replaces it. If the core then has
/// no extlangs, each variant is looked up once more for each language that the core comes to have, to find the
/// VariantLanguage steps. With 16 to 256 variants [`Shortcuts::settle_core`] saves these look-ups.
pub fn settle_core<L: Lookup>(table: &L, core: &mut Core)
    requires { All (HasEndingChain (L.listed table.now)) (L.listed table.now) }
    ensures { IsCoreNormalForm (L.listed table.now) core.old core.new }
{
    settle_along(table, None, core);
}
