//! The steps on the extensions of a tag, one after another (RFC 5646, 4.5; RFC 6067; RFC 6497): the leftmost
//! SwapExtensions before the steps in a `u` extension, on the source of a `t` extension, and on its fields. A clause
//! `Explains` says that an extension was brought to its normal form, and the steps to that form were added to `steps`.
//! The steps in a `u` extension use no record, so their clause speaks of every list `R` of entries.
ghost use Rattle.std.specs.Prelude.{◌≡◌, ◌≤◌, ◌+◌, List, All, IfOk, length, map, take};
ghost use Rattle.std.specs.List.{AllByRecursion};
ghost use Rattle.lt_tag.specs.Parts.{ExtensionParts, TForm};
ghost use Rattle.lt_tag.specs.Spelling.{spell_extensions};
ghost use Rattle.lt_tag.specs.Extensions.{unicode, transform, IsTransform};
ghost use Rattle.lt_registry.specs.Parts.{EntryParts};
ghost use Rattle.lt_registry.specs.Validity.{Distinct};
ghost use Rattle.lt_rewrite.specs.Conditions.{HasEndingChain};
ghost use Rattle.lt_rewrite.specs.Applying.{ExtensionsLeads};
ghost use Rattle.lt_rewrite.specs.Runs.{NoneLeads, AddsOnExtensions};
ghost use Rattle.lt_rewrite.specs.ExtensionsExplaining.{Explains};

use crate::extension_settling::recall_forms;
use crate::extensions_settling::{place_of, put_back};
use crate::part_applying::Spelled;
use crate::part_explaining::explain_swaps;
use crate::steps::{Step, StepKind};
use crate::transform_explaining::explain_t;
use crate::unicode_explaining::explain_u;
use lt_registry::Lookup;
use lt_tag::{Extension, OutOfMemory, TransformFault, join_t, join_u, split_t, split_u};
use std::alloc::Global;

/// How many subtags the extensions before an index have, their singletons included. The index must be at most the
/// number of extensions, and all of them together must have at most 1,100,000 subtags, as those of a tag have.
fn subtags_before(extensions: &[Extension], index: usize) -> usize
    requires within { index ≤ length extensions.now }
    requires few { length (spell_extensions extensions.now) ≤ 1100000 }
    ensures { result ≡ length (spell_extensions (take index extensions.now)) }
{
    let mut count = 0;
    for extension in &extensions[..index] {
        count += extension.subtag_count();
    }
    count
}

/// The index of the `u` extension and its normal form. The steps that lead to that form are added to `steps`. None if
/// there is no `u` extension. The extensions begin after `start` subtags, and `start` and the number of their subtags
/// must be at most 1,100,000 together. Refused only where memory runs out.
#[tactic(auto, using(crate::proofs::ExtensionRuns::few_before))]
fn explained_unicode(
    alloc: Global,
    extensions: &[Extension],
    start: usize,
    steps: &mut Vec<Step>,
) -> Result<Option<(usize, Extension)>, OutOfMemory>
    requires few { start + length (spell_extensions extensions.now) ≤ 1100000 }
    ensures { IfOk result (λ explained. (R : List EntryParts) → Explains R unicode start extensions.now explained steps.old.items steps.new.items) }
{
    let Some(index) = place_of(extensions, b'u') else {
        return Ok(None);
    };
    let place = start + subtags_before(extensions, index) + 1;
    let mut parts = split_u(alloc, &extensions[index])?;
    explain_u(&mut parts, place, steps)?;
    Ok(Some((index, join_u(alloc, &parts)?)))
}

/// The index of the `t` extension and its normal form. The steps that lead to that form are added to `steps`. None if
/// there is no `t` extension. The extensions begin after `start` subtags, and `start` and the number of their subtags
/// must be at most 1,100,000 together. A `t` extension must have the form of one (RFC 6497, 2.2), and the chains of
/// values in the registry must end. Refused only where memory runs out.
#[tactic(auto, using(crate::proofs::ExtensionRuns::few_before))]
fn explained_transform<L: Lookup>(
    alloc: Global,
    table: &L,
    extensions: &[Extension],
    start: usize,
    steps: &mut Vec<Step>,
) -> Result<Option<(usize, Extension)>, OutOfMemory>
    requires chains { All (HasEndingChain (L.listed table.now)) (L.listed table.now) }
    requires transforms { AllByRecursion (λ (e : ExtensionParts). e.singleton ≡ transform → (p : TForm) × IsTransform e.subtags p) extensions.now }
    requires few { start + length (spell_extensions extensions.now) ≤ 1100000 }
    ensures { IfOk result (λ explained. Explains (L.listed table.now) transform start extensions.now explained steps.old.items steps.new.items) }
{
    let Some(index) = place_of(extensions, b't') else {
        return Ok(None);
    };
    let place = start + subtags_before(extensions, index) + 1;
    let mut parts = match split_t(alloc, &extensions[index]) {
        Ok(parts) => parts,
        Err(TransformFault::OutOfMemory) => return Err(OutOfMemory),
        Err(TransformFault::BadTransform) => unreachable!(),
    };
    // Tells the proof the forms of the entries.
    recall_forms(table);
    explain_t(table, &mut parts, place, steps)?;
    Ok(Some((index, join_t(alloc, &parts)?)))
}

/// Takes the first step on a list of extensions again and again, until there is none. It gives back the extensions to
/// which the steps lead, and `steps` with these steps added at its end. The extensions begin after `start` subtags, and
/// `start` and the number of their subtags must be at most 1,100,000 together: a tag has at most 1,050,630 subtags
/// before its private use, so each place fits in a `u32`. Each singleton must occur once, a `t` extension must have the
/// form of one (RFC 6497, 2.2), and the chains of values in the registry must end, as they do if `first_cycle` is None.
/// Refused only where memory runs out.
pub fn explain_extensions<L: Lookup>(
    alloc: Global,
    table: &L,
    mut extensions: Vec<Extension>,
    start: usize,
    mut steps: Vec<Step>,
) -> Result<(Vec<Extension>, Vec<Step>), OutOfMemory>
    requires chains { All (HasEndingChain (L.listed table.now)) (L.listed table.now) }
    requires singletons { Distinct (map (λ (e : ExtensionParts). e.singleton) extensions.items) }
    requires transforms { AllByRecursion (λ (e : ExtensionParts). e.singleton ≡ transform → (p : TForm) × IsTransform e.subtags p) extensions.items }
    requires few { start + length (spell_extensions extensions.items) ≤ 1100000 }
    ensures adds { IfOk result (λ explained. AddsOnExtensions (L.listed table.now) start extensions.items explained.0.items steps.items explained.1.items) }
    ensures at_rest { IfOk result (λ explained. NoneLeads (ExtensionsLeads (L.listed table.now) start explained.0.items)) }
{
    explain_swaps(&mut extensions, start, StepKind::SwapExtensions, &mut steps)?;
    let unicode = explained_unicode(alloc, &extensions, start, &mut steps)?;
    put_back(&mut extensions, unicode);
    let transform = explained_transform(alloc, table, &extensions, start, &mut steps)?;
    put_back(&mut extensions, transform);
    Ok((extensions, steps))
}
