//! The laws of canonical tags, for every registry that passes the check; the last three hold of every list of entries.
//! Nothing is computed here: each contract is a law. The first, `confluence`, says them of one table at hand. The
//! others take nothing, and say them of every list `R` of entries, or of each that passes the check (`IsChecked R`). A
//! text of more than 1,024 bytes is not read as a tag. Two tags are *equivalent* if steps, taken forwards and
//! backwards, lead from one to the other.
ghost use Rattle.std.specs.Prelude.{List};
ghost use Rattle.lt_registry.specs.Parts.{EntryParts};
ghost use Rattle.lt_check.specs.Conditions.{IsChecked};
ghost use Rattle.lt_canon.specs.Laws.{HasEndForms, StepsAreConfluent, CanonicalOrRepeats, EquivalenceIsEqualText, CanonicalTwiceIsOnce, CanonicalTextTwiceIsOnce};
ghost use Rattle.lt_canon.specs.Corollaries.{OneCanonicalTag, RepeatsHaveNoForm, RepeatTogether, EquivalenceIsEquality};
ghost use Rattle.lt_canon.specs.RepeatLaws.{RepeatsAreNamed};
ghost use Rattle.lt_canon.specs.ExtlangLaws.{ExtlangFormsLeadBack};
ghost use Rattle.lt_canon.specs.TraceLaws.{TracesReachTheirEnd, TracesHaveOneEnd};
ghost use Rattle.lt_canon.specs.Explaining.{HasOneExplanation};

use lt_check::Checked;
use lt_registry::Lookup;

/// What holds of the steps of a registry that passes the check (RFC 5646, 4.5).
///
/// - Each proper tag has an end: steps reach it, each step leads to a tag that has the same end, and no step leads
///   from the end.
/// - Tags that steps reach from one proper tag lead on to a common one.
/// - A class of equivalent tags has at most one canonical tag.
/// - From a valid tag steps reach a canonical tag and can repeat no variant, or they can repeat one and the tag is
///   equivalent to no canonical tag; of two valid tags that are equivalent, steps can repeat a variant of both or of
///   neither.
/// - Valid tags of which steps can repeat no variant are equivalent exactly if their canonical forms are equal, and
///   exactly if the texts of these forms are.
/// - A canonical form is its own canonical form; a canonical text is its own canonical text, unless it has more
///   than 1,024 bytes.
/// - If steps can repeat a variant of a valid tag, there is one variant that the refusal names, and only one.
#[tactic(auto, using(crate::proofs::TagForm::has_end_forms, crate::proofs::TagForm::steps_confluent, crate::proofs::TagForm::one_canonical_tag, crate::proofs::RepeatedVariants::canonical_or_repeats, crate::proofs::RepeatedVariants::repeats_have_no_form, crate::proofs::RepeatedVariants::equivalence_is_equality, crate::proofs::RepeatedVariants::repeats_are_named, crate::proofs::CanonicalForms::text_equality))]
pub fn confluence<L: Lookup>(checked: &Checked<L>)
    ensures ends { HasEndForms (L.listed checked.now) }
    ensures confluent { StepsAreConfluent (L.listed checked.now) }
    ensures one { OneCanonicalTag (L.listed checked.now) }
    ensures canonical { CanonicalOrRepeats (L.listed checked.now) }
    ensures formless { RepeatsHaveNoForm (L.listed checked.now) }
    ensures together { RepeatTogether (L.listed checked.now) }
    ensures equality { EquivalenceIsEquality (L.listed checked.now) }
    ensures equal_texts { EquivalenceIsEqualText (L.listed checked.now) }
    ensures twice { CanonicalTwiceIsOnce (L.listed checked.now) }
    ensures text_twice { CanonicalTextTwiceIsOnce (L.listed checked.now) }
    ensures named { RepeatsAreNamed (L.listed checked.now) }
{
    // By its clause the table passes the check, and so each law holds of it.
    let _ = checked.table();
}

/// Each proper tag has an end: steps reach it, each step leads to a tag that has the same end, and no step leads from
/// the end. So tags that steps reach from one proper tag lead on to a common one, and a class of equivalent tags has at
/// most one canonical tag.
#[tactic(auto, using(crate::proofs::TagForm::has_end_forms, crate::proofs::TagForm::steps_confluent, crate::proofs::TagForm::one_canonical_tag))]
pub fn steps_are_confluent()
    ensures ends { (R : List EntryParts) → IsChecked R → HasEndForms R }
    ensures confluent { (R : List EntryParts) → IsChecked R → StepsAreConfluent R }
    ensures one { (R : List EntryParts) → IsChecked R → OneCanonicalTag R }
{}

/// From a valid tag steps reach a canonical tag and can repeat no variant, or they can repeat one and the tag is
/// equivalent to no canonical tag. Of two valid tags that are equivalent, steps can repeat a variant of both or of
/// neither. Two valid tags of which steps can repeat none are equivalent exactly if their canonical forms are equal.
#[tactic(auto, using(crate::proofs::RepeatedVariants::canonical_or_repeats, crate::proofs::RepeatedVariants::repeats_have_no_form, crate::proofs::RepeatedVariants::repeat_together, crate::proofs::RepeatedVariants::equivalence_is_equality))]
pub fn tags_are_canonical_or_repeat()
    ensures canonical { (R : List EntryParts) → IsChecked R → CanonicalOrRepeats R }
    ensures formless { (R : List EntryParts) → IsChecked R → RepeatsHaveNoForm R }
    ensures together { (R : List EntryParts) → IsChecked R → RepeatTogether R }
    ensures equality { (R : List EntryParts) → IsChecked R → EquivalenceIsEquality R }
{}

/// A valid tag has a canonical form, or steps can repeat a variant of it. A canonical form is its own canonical form,
/// and a canonical text its own canonical text, unless it has more than 1,024 bytes. Valid tags of which steps can
/// repeat no variant are equivalent exactly if the texts of their canonical forms are equal.
#[tactic(auto, using(crate::proofs::RepeatedVariants::canonical_or_repeats, crate::proofs::CanonicalForms::twice_is_once, crate::proofs::CanonicalForms::equal_texts_tell))]
pub fn canonical_forms()
    ensures canonical { (R : List EntryParts) → IsChecked R → CanonicalOrRepeats R }
    ensures twice { (R : List EntryParts) → IsChecked R → CanonicalTwiceIsOnce R }
    ensures text_twice { (R : List EntryParts) → IsChecked R → CanonicalTextTwiceIsOnce R }
    ensures equal_texts { (R : List EntryParts) → IsChecked R → EquivalenceIsEqualText R }
{}

/// If steps can repeat a variant of a valid tag, there is one variant that the refusal names, and only one.
#[tactic(auto, using(crate::proofs::RepeatedVariants::repeats_are_named))]
pub fn repeats_are_named()
    ensures { (R : List EntryParts) → IsChecked R → RepeatsAreNamed R }
{}

/// The extlang form of a canonical tag is valid, and the tag is reached from it.
#[tactic(auto, using(crate::proofs::CanonicalForms::forms_lead_back))]
pub fn extlang_forms_lead_back()
    ensures { (R : List EntryParts) → IsChecked R → ExtlangFormsLeadBack R }
{}

/// Steps reach the end of a trace from its tag, so that the two are equivalent, in every registry.
#[tactic(auto, using(crate::proofs::UsualForms::traces_reach_their_end))]
pub fn traces_reach_their_end()
    ensures { (R : List EntryParts) → TracesReachTheirEnd R }
{}

/// A list of steps leads from a tag to one end at most, in every registry.
#[tactic(auto, using(crate::proofs::UsualForms::trace_determined))]
pub fn traces_have_one_end()
    ensures { (R : List EntryParts) → TracesHaveOneEnd R }
{}

/// A tag has one explanation, in every registry: the steps are fixed by which of them is the first that leads on.
#[tactic(auto, using(crate::proofs::TraceLemmas::one_explanation))]
pub fn tags_have_one_explanation()
    ensures { (R : List EntryParts) → HasOneExplanation R }
{}
