//! Laws: what follows from the definitions of the steps on extensions. A law is a function that does nothing, and its
//! clause states the law. Laws of steps that use records are for every list of entries `R`. They ask for the conditions
//! on core steps (`MeetsCoreConditions`), since the source of a `t` extension is a core.
#![tactic(auto, using(crate::proofs::ExtensionLaws::unicode_has_one_form, crate::proofs::ExtensionLaws::transform_has_one_form, crate::proofs::ExtensionLaws::extensions_have_one_form))]

ghost use Rattle.std.specs.Prelude.{List};
ghost use Rattle.lt_registry.specs.Parts.{EntryParts};
ghost use Rattle.lt_registry.specs.Entries.{IsRegistry};
ghost use Rattle.lt_rewrite.specs.Conditions.{MeetsCoreConditions};
ghost use Rattle.lt_rewrite.specs.OrderingLaws.{UnicodeHasOneForm, TransformHasOneForm, ExtensionsHaveOneForm};

/// The parts of a `u` extension have exactly one normal form.
pub fn one_form_of_unicode()
    ensures { UnicodeHasOneForm }
{}

/// Under the conditions on core steps the parts of a `t` extension have exactly one normal form.
pub fn one_form_of_transform()
    ensures { (R : List EntryParts) → IsRegistry R → MeetsCoreConditions R → TransformHasOneForm R }
{}

/// Under the conditions on core steps a list of extensions has exactly one normal form.
pub fn one_form_of_extensions()
    ensures { (R : List EntryParts) → IsRegistry R → MeetsCoreConditions R → ExtensionsHaveOneForm R }
{}
