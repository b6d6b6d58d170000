//! One step on extensions (RFC 5646, 4.5; RFC 6067; RFC 6497). The clauses `Changes` and `Answers` say that a call
//! gives what the step leads to, and that None or false means that the step leads nowhere. A step that uses no record
//! is the same in each registry, so its clause speaks of every list `R` of entries.
//!
//! The bounds keep places within a `u32`. A tag has at most 1,050,630 subtags before its private use, and 1,100,000 is
//! a round number above that. The place of a singleton may be at most 1,150,000, so that an extension, which has at
//! most 1,025 subtags, ends below 1,200,000, the bound that `apply_to_transform` asks for.
ghost use Rattle.std.specs.Prelude.{◌≡◌, ◌≤◌, ◌<◌, ◌+◌, ℕ, List, IfOk, MatchOption, length};
ghost use Rattle.lt_tag.specs.Parts.{ExtensionParts};
ghost use Rattle.lt_tag.specs.Spelling.{spell_extensions};
ghost use Rattle.lt_tag.specs.Extensions.{unicode, transform};
ghost use Rattle.lt_registry.specs.Parts.{EntryParts};
ghost use Rattle.lt_rewrite.specs.Applying.{Answers, Changes, ExtensionLeads, ExtensionsLeads, LeadsAt};
ghost use Rattle.lt_rewrite.specs.declared.steps.StepKind.TheVariants as kinds;

use crate::field_applying::apply_to_transform;
use crate::keyword_applying::apply_to_unicode;
use crate::part_applying::{Spelled, swap_at};
use crate::steps::{Step, StepKind};
use lt_registry::Lookup;
use lt_tag::{Extension, OutOfMemory, TransformFault, join_t, join_u, split_t, split_u};
use std::alloc::Global;

/// What a step makes of `extension`, which must be a `u` extension, and whose singleton is at the place `start`, at
/// most 1,150,000. None if the step leads nowhere. Refused only where memory runs out.
fn apply_in_unicode(
    alloc: Global,
    extension: &Extension,
    start: usize,
    step: Step,
) -> Result<Option<Extension>, OutOfMemory>
    requires unicode { extension.now.singleton ≡ unicode }
    requires few { start ≤ 1150000 }
    ensures { IfOk result (λ changed. (R : List EntryParts) → Changes (ExtensionLeads R start extension.now step) changed) }
{
    let mut parts = split_u(alloc, extension)?;
    if !apply_to_unicode(&mut parts, start, step) {
        return Ok(None);
    }
    Ok(Some(join_u(alloc, &parts)?))
}

/// What a step makes of `extension`, whose singleton must be `t`, and is at the place `start`, at most 1,150,000. None
/// if the step leads nowhere, as every step does if the subtags are not those of a `t` extension. Refused only where
/// memory runs out.
fn apply_in_transform<L: Lookup>(
    alloc: Global,
    table: &L,
    extension: &Extension,
    start: usize,
    step: Step,
) -> Result<Option<Extension>, OutOfMemory>
    requires transform { extension.now.singleton ≡ transform }
    requires few { start ≤ 1150000 }
    ensures { IfOk result (λ changed. Changes (ExtensionLeads (L.listed table.now) start extension.now step) changed) }
{
    // Tells the proof the forms of the entries.
    let _ = table.entries();
    let mut parts = match split_t(alloc, extension) {
        Ok(parts) => parts,
        Err(TransformFault::BadTransform) => return Ok(None),
        Err(TransformFault::OutOfMemory) => return Err(OutOfMemory),
    };
    if !apply_to_transform(table, &mut parts, start, step) {
        return Ok(None);
    }
    Ok(Some(join_t(alloc, &parts)?))
}

/// What a step makes of `extension`, whose singleton is at the place `start`, at most 1,150,000. None if the step leads
/// nowhere, as every step does on an extension other than `u` and `t`. Refused only where memory runs out.
fn apply_to_extension<L: Lookup>(
    alloc: Global,
    table: &L,
    extension: &Extension,
    start: usize,
    step: Step,
) -> Result<Option<Extension>, OutOfMemory>
    requires { start ≤ 1150000 }
    ensures { IfOk result (λ changed. Changes (ExtensionLeads (L.listed table.now) start extension.now step) changed) }
{
    let singleton = extension.singleton();
    if singleton == b'u' {
        return apply_in_unicode(alloc, extension, start, step);
    }
    if singleton == b't' {
        return apply_in_transform(alloc, table, extension, start, step);
    }
    Ok(None)
}

/// The index of the extension inside which a step acts, and what the step makes of that extension. None if the step
/// acts inside none of them. The extensions begin after `start` subtags, and `start` and the number of their subtags
/// must be at most 1,100,000 together. Refused only where memory runs out.
fn find_change<L: Lookup>(
    alloc: Global,
    table: &L,
    extensions: &[Extension],
    start: usize,
    step: Step,
) -> Result<Option<(usize, Extension)>, OutOfMemory>
    requires { start + length (spell_extensions extensions.now) ≤ 1100000 }
    ensures { IfOk result (λ found. MatchOption found
        ((index : ℕ) (other : ExtensionParts) → index < length extensions.now → LeadsAt (L.listed table.now) start extensions.now step index other → ⊥)
        (λ found. (found.0 < length extensions.now) × LeadsAt (L.listed table.now) start extensions.now step found.0 found.1)) }
{
    // The place of the singleton of the extension at the index.
    let mut place = start + 1;
    for (index, extension) in extensions.iter().enumerate() {
        if let Some(changed) = apply_to_extension(alloc, table, extension, place, step)? {
            return Ok(Some((index, changed)));
        }
        place += extension.subtag_count();
    }
    Ok(None)
}

/// Takes `step`, which must be a SwapExtensions step: two neighbouring extensions in falling order change places.
/// False, and nothing changes, if there is no such step. The extensions begin after `start` subtags, and `start` and
/// the number of their subtags must be at most 1,100,000 together.
#[tactic(auto, using(crate::proofs::ExtensionLeading::swaps_answers))]
fn swap_extensions(extensions: &mut Vec<Extension>, start: usize, step: Step) -> bool
    requires kind { step.kind ≡ kinds.SwapExtensions }
    requires few { start + length (spell_extensions extensions.old.items) ≤ 1100000 }
    ensures { (R : List EntryParts) → Answers (ExtensionsLeads R start extensions.old.items step) extensions.new.items result }
{
    // A SwapExtensions step uses no record.
    if step.number != 0 {
        return false;
    }
    swap_at(extensions, start, step.place)
}

/// Takes a step on extensions: one inside one of them, or a SwapExtensions step. They begin after `start` subtags, and
/// `start` and the number of their subtags must be at most 1,100,000 together. False, and nothing changes, if there is
/// no such step. Refused only where memory runs out.
pub(crate) fn apply_to_extensions<L: Lookup>(
    alloc: Global,
    table: &L,
    extensions: &mut Vec<Extension>,
    start: usize,
    step: Step,
) -> Result<bool, OutOfMemory>
    requires { start + length (spell_extensions extensions.old.items) ≤ 1100000 }
    ensures { IfOk result (λ done. Answers (ExtensionsLeads (L.listed table.now) start extensions.old.items step) extensions.new.items done) }
{
    if let StepKind::SwapExtensions = step.kind {
        return Ok(swap_extensions(extensions, start, step));
    }
    match find_change(alloc, table, extensions, start, step)? {
        Some((index, changed)) => {
            extensions[index] = changed;
            Ok(true)
        }
        None => Ok(false),
    }
}
