//! One step on the parts of a `t` extension (RFC 5646, 4.5; RFC 6497). A clause `Answers` says of a call that takes a
//! step: it gives true if the step leads to the parts after the call, and false if there is no such step. 1,200,000 is
//! a round number above the places of a tag's subtags, so they fit in a `u32`.
ghost use Rattle.std.specs.Prelude.{◌≡◌, ◌≤◌, ◌+◌, List, length};
ghost use Rattle.lt_tag.specs.Spelling.{spell_core};
ghost use Rattle.lt_tag.specs.Extensions.{spell_t};
ghost use Rattle.lt_registry.specs.Parts.{EntryParts};
ghost use Rattle.lt_rewrite.specs.Applying.{Answers, TransformLeads};
ghost use Rattle.lt_rewrite.specs.declared.steps.StepKind.TheVariants as kinds;
ghost use Rattle.lt_tag.specs.Splitting.{spell_source};

use crate::core_applying::{apply_to_core, before_variants};
use crate::part_applying::swap_at;
use crate::steps::{Step, StepKind};
use lt_registry::Lookup;
use lt_tag::{Core, TParts};

/// How many subtags a core has (RFC 5646, 2.1): at least one, its language, and at most 1,030.
pub fn core_length(core: &Core) -> usize
    ensures value { result ≡ length (spell_core core.now) }
    ensures few { result ≤ 1030 }
{
    before_variants(core) + core.variants().len()
}

/// How many subtags a source has: at most the 1,030 of a core, and none if there is no source.
pub(crate) fn source_length(source: &Option<Core>) -> usize
    ensures value { result ≡ length (spell_source source.now) }
    ensures few { result ≤ 1030 }
{
    match source {
        Some(core) => core_length(core),
        None => 0,
    }
}

/// Takes `step`, which must be a SwapFields step: two neighbouring fields in falling order change places. False, and
/// nothing changes, if there is no such step. It uses no record, so the clause speaks of every list `R` of entries. The
/// extension's singleton is at the place `start`, and its last subtag must be at a place of at most 1,200,000.
fn swap_fields(parts: &mut TParts, start: usize, step: Step) -> bool
    requires kind { step.kind ≡ kinds.SwapFields }
    requires few { start + length (spell_t parts.old) ≤ 1200000 }
    ensures { (R : List EntryParts) → Answers (TransformLeads R start parts.old step) parts.new result }
{
    // A SwapFields step uses no record.
    if step.number != 0 {
        return false;
    }
    let first_field = start + source_length(&parts.source);
    swap_at(&mut parts.fields, first_field, step.place)
}

/// Takes a step on the parts of a `t` extension: one on its source, or a SwapFields step. The extension's singleton is
/// at the place `start`, and its last subtag must be at a place of at most 1,200,000. False, and nothing changes, if
/// there is no such step.
pub(crate) fn apply_to_transform<L: Lookup>(
    table: &L,
    parts: &mut TParts,
    start: usize,
    step: Step,
) -> bool
    requires { start + length (spell_t parts.old) ≤ 1200000 }
    ensures { Answers (TransformLeads (L.listed table.now) start parts.old step) parts.new result }
{
    if let StepKind::SwapFields = step.kind {
        return swap_fields(parts, start, step);
    }
    match &mut parts.source {
        Some(source) => apply_to_core(table, source, start, step),
        None => false,
    }
}
