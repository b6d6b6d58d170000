//! Explanations: the steps to a canonical tag, one after another (RFC 5646, 4.5). A step *leads on* from a tag if it
//! can be made there, and a tag is *at rest* where none does.
ghost use Rattle.std.specs.Prelude.{IfOk, IfErr};
ghost use Rattle.lt_registry.specs.Validity.{IsProper};
ghost use Rattle.lt_rewrite.specs.TagSteps.{CanBeReplacedWhole};
ghost use Rattle.lt_check.specs.Conditions.{IsChecked};
ghost use Rattle.lt_canon.specs.Refusals.{IsRefusedWith};
ghost use Rattle.lt_canon.specs.Explaining.{IsExplanation, RestsOnCore, LeadsToRest};

use crate::canonical_tags::canonical;
use crate::refusals::Refusal;
use crate::traces::Trace;
use lt_check::Checked;
use lt_registry::Lookup;
use lt_rewrite::values::tag_value;
use lt_rewrite::{Step, StepKind, core_length, explain_core, explain_extensions};
use lt_tag::{OutOfMemory, Tag, copy_extensions};
use std::alloc::Global;

/// The steps that lead from a tag to its canonical form (RFC 5646, 4.5), and that form. Each step is the
/// first that leads on, in this order:
///
/// - on the core Extlang, Language, Script, Region, the leftmost Variant, VariantLanguage;
/// - Whole;
/// - the leftmost SwapExtensions;
/// - in a `u` extension the leftmost DropAttribute, SwapAttributes, DropKeyword, SwapKeywords and DropTrue;
/// - on the source of a `t` extension the steps on a core;
/// - the leftmost SwapFields.
///
/// Refused as `canonical` refuses: with `Invalid` if the tag is not valid, with `ReplacementRepeats` if steps can
/// repeat a variant of it, and with `OutOfMemory` where memory runs out.
#[tactic(auto, using(crate::proofs::CanonicalForms::refused))]
pub fn explain<L: Lookup>(alloc: Global, checked: &Checked<L>, tag: &Tag) -> Result<Trace, Refusal>
    ensures ok { IfOk result (λ trace. IsExplanation (L.listed checked.now) tag.now trace.steps.items trace.last) }
    ensures err { IfErr result (λ refusal. IsRefusedWith (L.listed checked.now) tag.now refusal) }
{
    let last = canonical(alloc, checked, tag)?;
    let steps = explain_tag(alloc, checked.table(), tag, Vec::new(alloc))?;
    Ok(Trace { steps, last })
}

/// Takes the first step that leads on from a tag, and goes on so until there is none. It gives back `steps` with the
/// steps taken at the end; the last of them leads to a tag at rest. The tag must be proper, and the table must pass the
/// check. The 0 for `explain_core` is the number of subtags before the core.
#[tactic(auto, using(crate::proofs::TagForm::ending_chains, crate::proofs::TraceLemmas::coreless_explained, crate::proofs::TraceLemmas::transforms_of))]
fn explain_tag<L: Lookup>(
    alloc: Global,
    table: &L,
    tag: &Tag,
    steps: Vec<Step>,
) -> Result<Vec<Step>, OutOfMemory>
    requires checked { IsChecked (L.listed table.now) }
    requires proper { IsProper (L.listed table.now) tag.now }
    ensures { IfOk result (λ taken. LeadsToRest (L.listed table.now) tag.now steps.items taken.items) }
{
    let Some(core) = tag.core() else {
        if tag.grandfathered().is_none() {
            return Ok(steps);
        }
        return explain_whole(alloc, table, tag, steps);
    };
    let (settled, steps) = explain_core(table, core.copy(alloc)?, 0, steps)?;
    if tag.core_alone().is_some() {
        let settled = Tag::from_parts(settled, Vec::new(alloc), Vec::new(alloc));
        return explain_whole(alloc, table, &settled, steps);
    }
    let others = copy_extensions(alloc, tag.extensions())?;
    let (_, steps) = explain_extensions(alloc, table, others, core_length(&settled), steps)?;
    Ok(steps)
}

/// Takes the Whole step of a tag, if its record as a whole tag has a value, and then the steps on the core of the
/// value. It gives back `steps` with these at the end. The tag must be proper, and either grandfathered or without
/// extensions and private use (`plain`). No step may lead on from its core (`at_rest`). The table must pass the check.
#[tactic(auto, using(crate::proofs::TagForm::ending_chains, crate::proofs::TraceLemmas::valueless_explained))]
fn explain_whole<L: Lookup>(
    alloc: Global,
    table: &L,
    tag: &Tag,
    mut steps: Vec<Step>,
) -> Result<Vec<Step>, OutOfMemory>
    requires checked { IsChecked (L.listed table.now) }
    requires proper { IsProper (L.listed table.now) tag.now }
    requires plain { CanBeReplacedWhole tag.now }
    requires at_rest { RestsOnCore (L.listed table.now) tag.now }
    ensures { IfOk result (λ taken. LeadsToRest (L.listed table.now) tag.now steps.items taken.items) }
{
    let Some(entry) = table.whole(tag) else {
        return Ok(steps);
    };
    let Some(value) = tag_value(entry) else {
        return Ok(steps);
    };
    steps.push(Step {
        kind: StepKind::Whole,
        place: 1,
        number: entry.number(),
    })?;
    let Some(core) = value.core() else {
        return Ok(steps);
    };
    let (_, steps) = explain_core(table, core.copy(alloc)?, 0, steps)?;
    Ok(steps)
}
