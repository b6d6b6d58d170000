//! The steps to the core normal form, one after another (RFC 5646, 4.5): Extlang before Language, Script, Region, the
//! leftmost Variant and VariantLanguage. The rank of a kind of step is its number in this order (`rank_of`). A function
//! `.._step` gives the leftmost step of its rank that leads on from the core, and None if there is no such step.
ghost use Rattle.std.specs.Prelude.{◌≡◌, ◌≤◌, All, IfOk, MatchOption};
ghost use Rattle.lt_rewrite.specs.Conditions.{HasEndingChain};
ghost use Rattle.lt_rewrite.specs.Applying.{CoreLeads};
ghost use Rattle.lt_rewrite.specs.Runs.{rank_of, NoneLeads, NoneOnCore, IsLeftmostOnCore, IsFirstOnCore, AddsOnCore};
ghost use Rattle.lt_rewrite.specs.declared.steps.StepKind.TheVariants as kinds;

use crate::chain_ends::next_value;
use crate::core_applying::{
    apply_to_core, before_region, before_script, before_variants, record_number,
};
use crate::core_settling::first_variant_language;
use crate::steps::{Step, StepKind};
use crate::values::value;
use lt_registry::{Kind, Lookup};
use lt_tag::{Core, OutOfMemory};

/// The step by which the replacement of the only extlang becomes the language, in a core that begins after `start`
/// subtags, at most 1,200,000. None if there is not exactly one extlang.
fn extlang_step<L: Lookup>(table: &L, core: &Core, start: usize) -> Option<Step>
    requires { start ≤ 1200000 }
    ensures { MatchOption result
        (NoneOnCore (L.listed table.now) start core.now (rank_of kinds.Extlang))
        (IsLeftmostOnCore (L.listed table.now) start core.now (rank_of kinds.Extlang)) }
{
    let [extlang] = core.extlangs() else {
        return None;
    };
    Some(Step {
        kind: StepKind::Extlang,
        place: (start + 2) as u32,
        number: record_number(table, Kind::Extlang, extlang),
    })
}

/// The step by which the language is replaced, in a core that begins after `start` subtags, at most 1,200,000. None if
/// the language has no value, or if there are extlangs.
fn language_step<L: Lookup>(table: &L, core: &Core, start: usize) -> Option<Step>
    requires { start ≤ 1200000 }
    ensures { MatchOption result
        (NoneOnCore (L.listed table.now) start core.now (rank_of kinds.Language))
        (IsLeftmostOnCore (L.listed table.now) start core.now (rank_of kinds.Language)) }
{
    if !core.extlangs().is_empty() {
        return None;
    }
    let language = core.language();
    value(table, Kind::Language, language)?;
    Some(Step {
        kind: StepKind::Language,
        place: (start + 1) as u32,
        number: record_number(table, Kind::Language, language),
    })
}

/// The step by which the script is replaced, in a core that begins after `start` subtags, at most 1,200,000. None if
/// there is no script, or if it has no value.
fn script_step<L: Lookup>(table: &L, core: &Core, start: usize) -> Option<Step>
    requires { start ≤ 1200000 }
    ensures { MatchOption result
        (NoneOnCore (L.listed table.now) start core.now (rank_of kinds.Script))
        (IsLeftmostOnCore (L.listed table.now) start core.now (rank_of kinds.Script)) }
{
    let script = core.script()?;
    value(table, Kind::Script, script)?;
    Some(Step {
        kind: StepKind::Script,
        place: (start + before_script(core) + 1) as u32,
        number: record_number(table, Kind::Script, script),
    })
}

/// The step by which the region is replaced, in a core that begins after `start` subtags, at most 1,200,000. None if
/// there is no region, or if it has no value.
fn region_step<L: Lookup>(table: &L, core: &Core, start: usize) -> Option<Step>
    requires { start ≤ 1200000 }
    ensures { MatchOption result
        (NoneOnCore (L.listed table.now) start core.now (rank_of kinds.Region))
        (IsLeftmostOnCore (L.listed table.now) start core.now (rank_of kinds.Region)) }
{
    let region = core.region()?;
    value(table, Kind::Region, region)?;
    Some(Step {
        kind: StepKind::Region,
        place: (start + before_region(core) + 1) as u32,
        number: record_number(table, Kind::Region, region),
    })
}

/// The step that replaces the leftmost variant whose value is a variant, in a core that begins after `start` subtags,
/// at most 1,200,000. None if there is no such variant.
fn variant_step<L: Lookup>(table: &L, core: &Core, start: usize) -> Option<Step>
    requires { start ≤ 1200000 }
    ensures { MatchOption result
        (NoneOnCore (L.listed table.now) start core.now (rank_of kinds.Variant))
        (IsLeftmostOnCore (L.listed table.now) start core.now (rank_of kinds.Variant)) }
{
    for (index, variant) in core.variants().iter().enumerate() {
        if let Some(_next) = next_value(table, Kind::Variant, variant) {
            return Some(Step {
                kind: StepKind::Variant,
                place: (start + before_variants(core) + index + 1) as u32,
                number: record_number(table, Kind::Variant, variant),
            });
        }
    }
    None
}

/// The step that drops the leftmost variant which has a language as its value and the core's language as a Prefix. The
/// core begins after `start` subtags, at most 1,200,000. None if there is no such variant, or if there are extlangs.
fn variant_language_step<L: Lookup>(table: &L, core: &Core, start: usize) -> Option<Step>
    requires { start ≤ 1200000 }
    ensures { MatchOption result
        (NoneOnCore (L.listed table.now) start core.now (rank_of kinds.VariantLanguage))
        (IsLeftmostOnCore (L.listed table.now) start core.now (rank_of kinds.VariantLanguage)) }
{
    if !core.extlangs().is_empty() {
        return None;
    }
    let Some((index, _language)) = first_variant_language(table, core) else {
        return None;
    };
    Some(Step {
        kind: StepKind::VariantLanguage,
        place: (start + before_variants(core) + index + 1) as u32,
        number: record_number(table, Kind::Variant, &core.variants()[index]),
    })
}

/// The first step on a core that begins after `start` subtags, at most 1,200,000: the leftmost of the lowest rank. None
/// if no step leads on from the core.
fn first_core_step<L: Lookup>(table: &L, core: &Core, start: usize) -> Option<Step>
    requires { start ≤ 1200000 }
    ensures { MatchOption result
        (NoneLeads (CoreLeads (L.listed table.now) start core.now))
        (IsFirstOnCore (L.listed table.now) start core.now) }
{
    if let Some(step) = extlang_step(table, core, start) {
        return Some(step);
    }
    if let Some(step) = language_step(table, core, start) {
        return Some(step);
    }
    if let Some(step) = script_step(table, core, start) {
        return Some(step);
    }
    if let Some(step) = region_step(table, core, start) {
        return Some(step);
    }
    if let Some(step) = variant_step(table, core, start) {
        return Some(step);
    }
    variant_language_step(table, core, start)
}

/// Takes the first step on a core again and again, until there is none (`at_rest`). It adds these steps to `steps`
/// (`adds`). The core begins after `start` subtags, at most 1,200,000, and the chains of values in the registry must
/// end. Refused only where memory runs out; some of the steps may have been taken then.
pub(crate) fn take_core_steps<L: Lookup>(
    table: &L,
    core: &mut Core,
    start: usize,
    steps: &mut Vec<Step>,
) -> Result<(), OutOfMemory>
    requires chains { All (HasEndingChain (L.listed table.now)) (L.listed table.now) }
    requires few { start ≤ 1200000 }
    ensures adds { IfOk result (λ _. AddsOnCore (L.listed table.now) start core.old core.new steps.old.items steps.new.items) }
    ensures at_rest { IfOk result (λ _. NoneLeads (CoreLeads (L.listed table.now) start core.new)) }
{
    while let Some(step) = first_core_step(table, core, start) {
        apply_to_core(table, core, start, step);
        steps.push(step)?;
    }
    Ok(())
}

/// Takes the first step on a core again and again, until there is none. It gives back the core to which the steps lead,
/// and `steps` with these steps added at its end. The core begins after `start` subtags, at most 1,200,000: a tag has
/// at most 1,050,630 subtags before its private use, so each place fits in a `u32`. The chains of values in the
/// registry must end, as they do if `first_cycle` is None. The only refusal is running out of memory.
pub fn explain_core<L: Lookup>(
    table: &L,
    mut core: Core,
    start: usize,
    mut steps: Vec<Step>,
) -> Result<(Core, Vec<Step>), OutOfMemory>
    requires chains { All (HasEndingChain (L.listed table.now)) (L.listed table.now) }
    requires few { start ≤ 1200000 }
    ensures adds { IfOk result (λ explained. AddsOnCore (L.listed table.now) start core explained.0 steps.items explained.1.items) }
    ensures at_rest { IfOk result (λ explained. NoneLeads (CoreLeads (L.listed table.now) start explained.0)) }
{
    take_core_steps(table, &mut core, start, &mut steps)?;
    Ok((core, steps))
}
