//! The steps on the parts of a `t` extension, one after another (RFC 5646, 4.5; RFC 6497): those on the source, which
//! is a core, before the leftmost SwapFields. 1,200,000 is a round number above the places of a tag's subtags, so they
//! fit in a `u32`. The clause `shaped` says that parts which may be joined to an extension still may be.
ghost use Rattle.std.specs.Prelude.{◌≡◌, ◌≤◌, ◌+◌, All, IfOk, length};
ghost use Rattle.lt_tag.specs.Parts.{CoreParts};
ghost use Rattle.lt_tag.specs.Extensions.{IsT, spell_t};
ghost use Rattle.lt_rewrite.specs.Conditions.{HasEndingChain};
ghost use Rattle.lt_rewrite.specs.Applying.{CoreLeads, TransformLeads};
ghost use Rattle.lt_rewrite.specs.Runs.{NoneLeads, AddsOnTransform};

use crate::core_explaining::take_core_steps;
use crate::extension_settling::recall_forms;
use crate::field_applying::source_length;
use crate::part_explaining::explain_swaps;
use crate::steps::{Step, StepKind};
use lt_registry::Lookup;
use lt_tag::{OutOfMemory, TParts};

/// Takes the first step on the source of a `t` extension again and again, until there is none (`at_rest`). It adds the
/// steps to `steps`; without a source there are none. The fields stay (`fields`). The extension's singleton is at the
/// place `start`, at most 1,200,000, and the chains of values in the registry must end. Refused only where memory runs
/// out; some of the steps may have been taken then.
fn explain_source<L: Lookup>(
    table: &L,
    parts: &mut TParts,
    start: usize,
    steps: &mut Vec<Step>,
) -> Result<(), OutOfMemory>
    requires chains { All (HasEndingChain (L.listed table.now)) (L.listed table.now) }
    requires few { start ≤ 1200000 }
    ensures adds { IfOk result (λ _. AddsOnTransform (L.listed table.now) start parts.old parts.new steps.old.items steps.new.items) }
    ensures at_rest { IfOk result (λ _. (c : CoreParts) → parts.new.source ≡ Some c → NoneLeads (CoreLeads (L.listed table.now) start c)) }
    ensures fields { IfOk result (λ _. parts.new.fields ≡ parts.old.fields) }
{
    let Some(source) = &mut parts.source else {
        return Ok(());
    };
    take_core_steps(table, source, start, steps)
}

/// Takes the first step on the parts of a `t` extension again and again, until there is none. It adds the steps to
/// `steps`. The extension's singleton is at the place `start`, and its last subtag must be at a place of at most
/// 1,200,000. The chains of values in the registry must end. Refused only where memory runs out; some of the steps may
/// have been taken then.
pub(crate) fn explain_t<L: Lookup>(
    table: &L,
    parts: &mut TParts,
    start: usize,
    steps: &mut Vec<Step>,
) -> Result<(), OutOfMemory>
    requires chains { All (HasEndingChain (L.listed table.now)) (L.listed table.now) }
    requires few { start + length (spell_t parts.old) ≤ 1200000 }
    ensures adds { IfOk result (λ _. AddsOnTransform (L.listed table.now) start parts.old parts.new steps.old.items steps.new.items) }
    ensures at_rest { IfOk result (λ _. NoneLeads (TransformLeads (L.listed table.now) start parts.new)) }
    ensures shaped { IfOk result (λ _. IsT parts.old → IsT parts.new) }
{
    // Tells the proof the forms of the entries.
    recall_forms(table);
    explain_source(table, parts, start, steps)?;
    let first_field = start + source_length(&parts.source);
    explain_swaps(&mut parts.fields, first_field, StepKind::SwapFields, steps)?;
    Ok(())
}
