//! Variants that occur twice: `ReplacementRepeats` names the leftmost that has occurred before.
ghost use Rattle.std.specs.Prelude.{MatchOption, IfOk};
ghost use Rattle.std.specs.List.{AllByRecursion};
ghost use Rattle.lt_registry.specs.Validity.{Distinct, HasDistinctSource};
ghost use Rattle.lt_canon.specs.Answers.{IsSecondOccurrence};
ghost use Rattle.lt_canon.specs.Settled.{IsSecondInSource, IsSecondInSources};

use lt_subtag::Subtag;
use lt_tag::{Extension, OutOfMemory, TransformFault, split_t};
use std::alloc::Global;

/// The first variant from the left that has occurred before, or None if none has.
#[tactic(auto, using(crate::proofs::Distinctness::second_here, lt_registry::proofs::DistinctTests::distinct_further))]
pub(crate) fn second_occurrence(variants: &[Subtag]) -> Option<Subtag>
    ensures { MatchOption result (Distinct variants.now) (λ variant. IsSecondOccurrence variants.now variant) }
{
    for (index, variant) in variants.iter().enumerate() {
        if variants[..index].contains(variant) {
            return Some(variant.copy());
        }
    }
    None
}

/// The first variant from the left that occurs a second time in the source of an extension, or None if none does.
/// Memory is taken only for the parts of a `t` extension in which a subtag occurs twice.
fn second_in_source(alloc: Global, extension: &Extension) -> Result<Option<Subtag>, OutOfMemory>
    ensures { IfOk result (λ found. MatchOption found
        (HasDistinctSource extension.now)
        (λ variant. IsSecondInSource extension.now variant)) }
{
    if extension.singleton() != b't' {
        return Ok(None);
    }
    if second_occurrence(extension.subtags()).is_none() {
        return Ok(None);
    }
    match split_t(alloc, extension) {
        Ok(parts) => match &parts.source {
            Some(source) => Ok(second_occurrence(source.variants())),
            None => Ok(None),
        },
        Err(TransformFault::BadTransform) => Ok(None),
        Err(TransformFault::OutOfMemory) => Err(OutOfMemory),
    }
}

/// The first variant from the left that has occurred before in the source of one of the extensions, or None if none
/// has. Memory is taken only for the parts of a `t` extension in which a subtag occurs twice.
#[tactic(auto, using(crate::proofs::RepeatedVariants::sources_here, crate::proofs::RepeatedVariants::sources_more))]
pub(crate) fn second_in_sources(
    alloc: Global,
    extensions: &[Extension],
) -> Result<Option<Subtag>, OutOfMemory>
    ensures { IfOk result (λ found. MatchOption found
        (AllByRecursion HasDistinctSource extensions.now)
        (λ variant. IsSecondInSources extensions.now variant)) }
{
    for extension in extensions {
        if let Some(variant) = second_in_source(alloc, extension)? {
            return Ok(Some(variant));
        }
    }
    Ok(None)
}
