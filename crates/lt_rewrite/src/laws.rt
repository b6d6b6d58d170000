//! Laws of the steps: what follows from their definitions for every list of entries `R`. A law is a function that has
//! no arguments and does nothing. Its clauses state the law, and the page `docs/steps.md` explains them.
ghost use Rattle.std.specs.Prelude.{List, All};
ghost use Rattle.lt_registry.specs.Parts.{EntryParts};
ghost use Rattle.lt_registry.specs.Entries.{IsRegistry};
ghost use Rattle.lt_rewrite.specs.Conditions.{HasEndingChain, HasFittingGrandfathered, MeetsCoreConditions};
ghost use Rattle.lt_rewrite.specs.Laws.{HasOneNormalForm, StepsKeepNormalForm, StepsKeepProper, StepsKeepTagsProper, ProperCoresSpellNone, EndingChainsAreShort, ChainsEnd, StepsAreDetermined};

/// A chain of values that ends does so within as many values as there are records (`short`). If the
/// chain from the value of each record ends, every chain of values ends (`end`).
pub fn chains_end()
    ensures short { (R : List EntryParts) → EndingChainsAreShort R }
    ensures end { (R : List EntryParts) → All (HasEndingChain R) R → ChainsEnd R }
{}

/// Under the conditions on core steps (`MeetsCoreConditions`) each core has exactly one core normal form (`one`), and a
/// core step leads to a core with the same one (`kept`).
pub fn one_core_normal_form()
    ensures one { (R : List EntryParts) → MeetsCoreConditions R → HasOneNormalForm R }
    ensures kept { (R : List EntryParts) → MeetsCoreConditions R → StepsKeepNormalForm R }
{}

/// In a registry that meets the conditions on core steps, a core step leads from a proper core to a proper core
/// (`proper`). A core is proper if its subtags are registered, and its extlang, if it has one, belongs to its language.
/// If the registry also makes no grandfathered tag valid as a langtag (`HasFittingGrandfathered`), each step on the
/// core or the extensions of a proper tag leads to a proper tag (`tags`). This last condition is enough for no proper
/// core to spell a grandfathered tag (`spelled`).
pub fn steps_keep_proper()
    ensures proper { (R : List EntryParts) → IsRegistry R → MeetsCoreConditions R → StepsKeepProper R }
    ensures tags { (R : List EntryParts) → IsRegistry R → MeetsCoreConditions R → All (HasFittingGrandfathered R) R → StepsKeepTagsProper R }
    ensures spelled { (R : List EntryParts) → All (HasFittingGrandfathered R) R → ProperCoresSpellNone R }
{}

/// The kind and the place of a step on a tag determine its record and the tag to which it leads.
pub fn steps_are_determined()
    ensures { (R : List EntryParts) → StepsAreDetermined R }
{}
