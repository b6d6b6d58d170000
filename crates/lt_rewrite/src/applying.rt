//! One step on a tag (RFC 5646, 4.5; RFC 6067; RFC 6497), given by its kind, its place and the number of its record. A
//! step leads from a tag, or from a part of a tag, to what it makes of that tag or part; it leads nowhere if there is
//! no step of this kind, at this place and by this record.
//!
//! A clause `Changes`, or a `MatchOption` that says the same, has two halves: a value that is given is one to which the
//! step leads, and None means that it leads nowhere. 1,100,000 is a round number above the 1,050,630 subtags that a tag
//! may have before its private use, so places fit in a `u32`.
ghost use Rattle.std.specs.Prelude.{◌≡◌, ◌≢◌, ◌≤◌, ◌+◌, List, Some, IfOk, IfErr, MatchOption, length};
ghost use Rattle.lt_tag.specs.Parts.{CoreParts, ExtensionParts, TagForm, LangTag};
ghost use Rattle.lt_tag.specs.Spelling.{spell_extensions};
ghost use Rattle.lt_tag.specs.Values.{IsTagValue, core_of, private_of};
ghost use Rattle.lt_registry.specs.Validity.{IsProper};
ghost use Rattle.lt_rewrite.specs.Labels.{LeadsBy};
ghost use Rattle.lt_rewrite.specs.Applying.{Changes, CoreLeads, ExtensionsLeads, IsWholeValueBy, TagLeads};
ghost use Rattle.lt_rewrite.specs.ApplyFaults.{IsApplyFault};
ghost use Rattle.lt_rewrite.specs.declared.steps.StepKind.TheVariants as kinds;
ghost use Rattle.lt_tag.specs.Lists.{longest_text};

use crate::apply_faults::ApplyFault;
use crate::core_applying::apply_to_core;
use crate::extension_applying::apply_to_extensions;
use crate::field_applying::core_length;
use crate::steps::{Step, StepKind};
use crate::values::{can_be_replaced_whole, tag_value};
use lt_registry::{Lookup, proper};
use lt_subtag::Subtag;
use lt_tag::{Core, Extension, OutOfMemory, Tag, copy_extensions, copy_subtags};
use std::alloc::Global;

/// The preferred value of a whole tag, from the record with this number. None if the tag has no record, if its record
/// has another number, or if the record has no value.
fn whole_value_by<'a, L: Lookup>(table: &'a L, tag: &Tag, number: u32) -> Option<&'a Tag>
    ensures { MatchOption result
        ((other : TagForm) → IsWholeValueBy (L.listed table.now) tag.now number other → ⊥)
        (λ value. IsWholeValueBy (L.listed table.now) tag.now number value.now) }
{
    let entry = table.whole(tag)?;
    if entry.number() != number {
        return None;
    }
    tag_value(entry)
}

/// The tag to which `step`, which must be a Whole step, leads: the preferred value of the whole tag. None if the step
/// leads nowhere. Refused only where memory runs out.
fn change_whole<L: Lookup>(
    alloc: Global,
    table: &L,
    tag: &Tag,
    step: Step,
) -> Result<Option<Tag>, OutOfMemory>
    requires { step.kind ≡ kinds.Whole }
    ensures { IfOk result (λ changed. Changes (TagLeads (L.listed table.now) tag.now step) changed) }
{
    if step.place != 1 {
        return Ok(None);
    }
    if !can_be_replaced_whole(tag) {
        return Ok(None);
    }
    match whole_value_by(table, tag, step.number) {
        Some(value) => Ok(Some(value.copy(alloc)?)),
        None => Ok(None),
    }
}

/// The core that a step makes of the core of a tag. None if the step leads nowhere from this core. Refused only where
/// memory runs out.
fn change_core<L: Lookup>(
    alloc: Global,
    table: &L,
    core: &Core,
    step: Step,
) -> Result<Option<Core>, OutOfMemory>
    ensures { IfOk result (λ changed. Changes (CoreLeads (L.listed table.now) 0 core.now step) changed) }
{
    let mut changed = core.copy(alloc)?;
    if apply_to_core(table, &mut changed, 0, step) {
        Ok(Some(changed))
    } else {
        Ok(None)
    }
}

/// The extensions that a step makes of those of a tag, which begin after `start` subtags. `start` and the number of
/// their subtags must be at most 1,100,000 together. None if the step leads nowhere from these extensions. Refused only
/// where memory runs out.
fn change_extensions<L: Lookup>(
    alloc: Global,
    table: &L,
    extensions: &[Extension],
    start: usize,
    step: Step,
) -> Result<Option<Vec<Extension>>, OutOfMemory>
    requires { start + length (spell_extensions extensions.now) ≤ 1100000 }
    ensures { IfOk result (λ changed. MatchOption changed
        ((other : List ExtensionParts) → ExtensionsLeads (L.listed table.now) start extensions.now step other → ⊥)
        (λ changed. ExtensionsLeads (L.listed table.now) start extensions.now step changed.items)) }
{
    let mut changed = copy_extensions(alloc, extensions)?;
    if apply_to_extensions(alloc, table, &mut changed, start, step)? {
        Ok(Some(changed))
    } else {
        Ok(None)
    }
}

/// The core and the extensions that a step makes of those of the langtag `tag`. There are at most 1,024 extensions
/// (`longest_text`), as `langtag` asks. `core` must be the core of the tag, and `step` must not be a Whole step. None
/// if the step leads nowhere. Refused only where memory runs out.
fn change_parts<L: Lookup>(
    alloc: Global,
    table: &L,
    tag: &Tag,
    core: &Core,
    step: Step,
) -> Result<Option<(Core, Vec<Extension>)>, OutOfMemory>
    requires core { core_of tag.now ≡ Some core.now }
    requires kind { step.kind ≢ kinds.Whole }
    ensures { IfOk result (λ changed. MatchOption changed
        ((other : TagForm) → TagLeads (L.listed table.now) tag.now step other → ⊥)
        (λ parts. TagLeads (L.listed table.now) tag.now step (LangTag parts.0 parts.1.items (private_of tag.now))
        × (length parts.1.items ≤ longest_text))) }
{
    if let Some(changed) = change_core(alloc, table, core, step)? {
        return Ok(Some((changed, copy_extensions(alloc, tag.extensions())?)));
    }
    match change_extensions(alloc, table, tag.extensions(), core_length(core), step)? {
        Some(changed) => Ok(Some((core.copy(alloc)?, changed))),
        None => Ok(None),
    }
}

/// The langtag of these parts. There must be at most 1,024 extensions and at most 1,024 subtags of private use. None if
/// the parts spell a grandfathered tag, which no `Tag` holds as a langtag (RFC 5646, 2.2.8).
fn langtag(core: Core, extensions: Vec<Extension>, private: Vec<Subtag>) -> Option<Tag>
    requires few_extensions { length extensions.items ≤ longest_text }
    requires few_private { length private.items ≤ longest_text }
    ensures { MatchOption result
        (IsTagValue (LangTag core extensions.items private.items) → ⊥)
        (λ tag. tag ≡ LangTag core extensions.items private.items) }
{
    if extensions.is_empty() && private.is_empty() && core.literal().is_some() {
        return None;
    }
    Some(Tag::from_parts(core, extensions, private))
}

/// The tag to which a step leads from `tag`, which must be proper; the tag to which it leads need not be proper. None
/// if the step leads nowhere, or only to a langtag that spells a grandfathered tag, which no `Tag` can be
/// (`IsTagValue`). Refused only where memory runs out.
fn change<L: Lookup>(
    alloc: Global,
    table: &L,
    tag: &Tag,
    step: Step,
) -> Result<Option<Tag>, OutOfMemory>
    requires { IsProper (L.listed table.now) tag.now }
    ensures { IfOk result (λ changed. MatchOption changed
        ((other : TagForm) → IsTagValue other → TagLeads (L.listed table.now) tag.now step other → ⊥)
        (TagLeads (L.listed table.now) tag.now step)) }
{
    if let StepKind::Whole = step.kind {
        return change_whole(alloc, table, tag, step);
    }
    let Some(core) = tag.core() else {
        return Ok(None);
    };
    match change_parts(alloc, table, tag, core, step)? {
        Some((core, extensions)) => {
            let private = copy_subtags(alloc, tag.private())?;
            Ok(langtag(core, extensions, private))
        }
        None => Ok(None),
    }
}

/// The tag to which a step leads from `tag` (RFC 5646, 4.5). `tag` must be proper: valid, except that a variant
/// may occur twice. Unless memory runs out, it is Ok exactly if the step leads to a proper tag, which is then the
/// only one. Refused with `NoSuchStep` exactly if no step of this kind, at this place and by the record with this
/// number leads to a proper tag, and with `OutOfMemory` where memory runs out. `tag` stays as it is.
pub fn apply<L: Lookup>(alloc: Global, table: &L, tag: &Tag, step: &Step) -> Result<Tag, ApplyFault>
    requires { IsProper (L.listed table.now) tag.now }
    ensures ok { IfOk result (λ changed. LeadsBy (L.listed table.now) tag.now step.now changed) }
    ensures err { IfErr result (λ fault. IsApplyFault (L.listed table.now) tag.now step.now fault) }
{
    let Some(changed) = change(alloc, table, tag, *step)? else {
        return Err(ApplyFault::NoSuchStep);
    };
    // Tells the proof the shapes of the extensions.
    let _ = changed.extensions();
    if proper(alloc, table, &changed)? {
        Ok(changed)
    } else {
        Err(ApplyFault::NoSuchStep)
    }
}
