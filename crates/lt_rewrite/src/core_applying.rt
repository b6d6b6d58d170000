//! One step on a core, given by its kind, its place and the number of its record (RFC 5646, 4.5). A place is the number
//! of a subtag in the tag, counted from 1. A clause `Answers` says of a call that takes a step: it gives true if the
//! step leads from the core before the call to the core after it, and false if the core has no such step. 1,200,000 is
//! a round number above the 1,050,630 subtags that a tag may have before its private use, so places fit in a `u32`.
ghost use Rattle.std.specs.Prelude.{◌≡◌, ◌≤◌, ◌<◌, ◌+◌, ℕ, List, true, IfSome, MatchOption, length};
ghost use Rattle.lt_registry.specs.Entries.{entry, number_of, has_value_form};
ghost use Rattle.lt_registry.specs.Faults as faults;
ghost use Rattle.lt_rewrite.specs.Applying.{Answers, IsValueBy, CoreLeads};
ghost use Rattle.lt_rewrite.specs.declared.steps.StepKind.TheVariants as kinds;

use crate::chain_ends::replacement;
use crate::core_settling::first_variant_language;
use crate::steps::{Step, StepKind};
use crate::values::{is_short, one_value};
use lt_registry::{Kind, Lookup};
use lt_subtag::Subtag;
use lt_tag::Core;

/// The number of the record of a subtag of this kind, or 0 if it has none. A step names its record by this number.
pub(crate) fn record_number<L: Lookup>(table: &L, kind: Kind, subtag: &Subtag) -> u32
    ensures { result ≡ number_of (entry (L.listed table.now) kind subtag.now) }
{
    match table.entry(kind, subtag) {
        Some(entry) => entry.number(),
        None => 0,
    }
}

/// The preferred value of a subtag of this kind, from the record with this number. None if the subtag has no record of
/// the kind, if its record has another number, or if the record has no value.
fn value_by<'a, L: Lookup>(
    table: &'a L,
    kind: Kind,
    subtag: &Subtag,
    number: u32,
) -> Option<&'a Subtag>
    ensures value { MatchOption result
        ((other : List ℕ) → IsValueBy (L.listed table.now) kind subtag.now number other → ⊥)
        (λ value. IsValueBy (L.listed table.now) kind subtag.now number value.now) }
    ensures form { IfSome result (λ value. has_value_form kind value.now ≡ true) }
{
    match table.entry(kind, subtag) {
        Some(entry) if entry.number() == number => one_value(entry),
        _ => None,
    }
}

/// How many subtags of a core are before its script, or where one would be: the language and up to 3 extlangs.
pub(crate) fn before_script(core: &Core) -> usize
    ensures value { result ≡ faults.before_script core.now }
    ensures few { result ≤ 4 }
{
    1 + core.extlangs().len()
}

/// How many subtags of a core are before its region, or where one would be: up to 4, and the script if there is one.
pub(crate) fn before_region(core: &Core) -> usize
    ensures value { result ≡ faults.before_region core.now }
    ensures few { result ≤ 5 }
{
    match core.script() {
        Some(_) => before_script(core) + 1,
        None => before_script(core),
    }
}

/// How many subtags of a core are before its variants: up to 5, and the region if there is one.
pub(crate) fn before_variants(core: &Core) -> usize
    ensures value { result ≡ faults.before_variants core.now }
    ensures few { result ≤ 6 }
{
    match core.region() {
        Some(_) => before_region(core) + 1,
        None => before_region(core),
    }
}

/// The index of the variant at a place, counted from 1, in a core that begins after `start` subtags, at most 1,200,000.
/// None if there is no variant at this place.
fn variant_at(core: &Core, start: usize, place: u32) -> Option<usize>
    requires { start ≤ 1200000 }
    ensures { MatchOption result
        ((index : ℕ) → index < length core.now.variants → place ≡ start + faults.before_variants core.now + index + 1 → ⊥)
        (λ index. (index < length core.now.variants) × (place ≡ start + faults.before_variants core.now + index + 1)) }
{
    let before = start + before_variants(core) + 1;
    let place = place as usize;
    if place < before || core.variants().len() <= place - before {
        return None;
    }
    Some(place - before)
}

/// Takes `step`, which must be an Extlang step: the only extlang is dropped, and its replacement becomes the language.
/// False, and nothing changes, if the core has no such step. The core begins after `start` subtags, at most 1,200,000.
fn replace_extlang<L: Lookup>(table: &L, core: &mut Core, start: usize, step: Step) -> bool
    requires kind { step.kind ≡ kinds.Extlang }
    requires few { start ≤ 1200000 }
    ensures { Answers (CoreLeads (L.listed table.now) start core.old step) core.new result }
{
    let [extlang] = core.extlangs() else {
        return false;
    };
    if step.place as usize != start + 2 {
        return false;
    }
    if step.number != record_number(table, Kind::Extlang, extlang) {
        return false;
    }
    let language = replacement(table, extlang);
    core.drop_extlangs();
    core.set_language(language);
    true
}

/// Takes `step`, which must be a Language step: the language is replaced by its value. False, and nothing changes, if
/// the core has no such step; a core with extlangs has none. The core begins after `start` subtags, at most 1,200,000.
fn replace_language<L: Lookup>(table: &L, core: &mut Core, start: usize, step: Step) -> bool
    requires kind { step.kind ≡ kinds.Language }
    requires few { start ≤ 1200000 }
    ensures { Answers (CoreLeads (L.listed table.now) start core.old step) core.new result }
{
    if step.place as usize != start + 1 {
        return false;
    }
    if !core.extlangs().is_empty() {
        return false;
    }
    match value_by(table, Kind::Language, core.language(), step.number) {
        Some(value) => {
            core.set_language(value.copy());
            true
        }
        None => false,
    }
}

/// Takes `step`, which must be a Script step: the script is replaced by its value. False, and nothing changes, if the
/// core has no such step. The core begins after `start` subtags, at most 1,200,000.
fn replace_script<L: Lookup>(table: &L, core: &mut Core, start: usize, step: Step) -> bool
    requires kind { step.kind ≡ kinds.Script }
    requires few { start ≤ 1200000 }
    ensures { Answers (CoreLeads (L.listed table.now) start core.old step) core.new result }
{
    let Some(script) = core.script() else {
        return false;
    };
    if step.place as usize != start + before_script(core) + 1 {
        return false;
    }
    match value_by(table, Kind::Script, script, step.number) {
        Some(value) => {
            core.set_script(value.copy());
            true
        }
        None => false,
    }
}

/// Takes `step`, which must be a Region step: the region is replaced by its value. False, and nothing changes, if the
/// core has no such step. The core begins after `start` subtags, at most 1,200,000.
fn replace_region<L: Lookup>(table: &L, core: &mut Core, start: usize, step: Step) -> bool
    requires kind { step.kind ≡ kinds.Region }
    requires few { start ≤ 1200000 }
    ensures { Answers (CoreLeads (L.listed table.now) start core.old step) core.new result }
{
    let Some(region) = core.region() else {
        return false;
    };
    if step.place as usize != start + before_region(core) + 1 {
        return false;
    }
    match value_by(table, Kind::Region, region, step.number) {
        Some(value) => {
            core.set_region(value.copy());
            true
        }
        None => false,
    }
}

/// Takes `step`, which must be a Variant step: a variant is replaced in its place by its value, which is a variant.
/// False, and nothing changes, if the core has no such step. The core begins after `start` subtags, at most 1,200,000.
fn replace_variant<L: Lookup>(table: &L, core: &mut Core, start: usize, step: Step) -> bool
    requires kind { step.kind ≡ kinds.Variant }
    requires few { start ≤ 1200000 }
    ensures { Answers (CoreLeads (L.listed table.now) start core.old step) core.new result }
{
    let Some(index) = variant_at(core, start, step.place) else {
        return false;
    };
    let variant = &core.variants()[index];
    let Some(value) = value_by(table, Kind::Variant, variant, step.number) else {
        return false;
    };
    if is_short(value) {
        return false;
    }
    core.set_variant(index, value.copy());
    true
}

/// Takes `step`, which must be a VariantLanguage step: the leftmost variant that has a language as its value, and the
/// core's language as a Prefix, is dropped, and its value becomes the language. False, and nothing changes, if the core
/// has no such step; a core with extlangs has none. The core begins after `start` subtags, at most 1,200,000.
fn apply_variant_language<L: Lookup>(table: &L, core: &mut Core, start: usize, step: Step) -> bool
    requires kind { step.kind ≡ kinds.VariantLanguage }
    requires few { start ≤ 1200000 }
    ensures { Answers (CoreLeads (L.listed table.now) start core.old step) core.new result }
{
    if !core.extlangs().is_empty() {
        return false;
    }
    let Some((index, language)) = first_variant_language(table, core) else {
        return false;
    };
    if step.place as usize != start + before_variants(core) + index + 1 {
        return false;
    }
    if step.number != record_number(table, Kind::Variant, &core.variants()[index]) {
        return false;
    }
    core.remove_variant(index);
    core.set_language(language);
    true
}

/// Takes a step on a core that begins after `start` subtags, at most 1,200,000. False, and nothing changes, if the core
/// has no step of this kind, at this place and by this record.
pub(crate) fn apply_to_core<L: Lookup>(table: &L, core: &mut Core, start: usize, step: Step) -> bool
    requires { start ≤ 1200000 }
    ensures { Answers (CoreLeads (L.listed table.now) start core.old step) core.new result }
{
    match step.kind {
        StepKind::Extlang => replace_extlang(table, core, start, step),
        StepKind::Language => replace_language(table, core, start, step),
        StepKind::Script => replace_script(table, core, start, step),
        StepKind::Region => replace_region(table, core, start, step),
        StepKind::Variant => replace_variant(table, core, start, step),
        StepKind::VariantLanguage => apply_variant_language(table, core, start, step),
        _ => false,
    }
}
