//! Whether two tags are equivalent.
ghost use Rattle.std.specs.Prelude.{IfOk, IfErr};
ghost use Rattle.lt_canon.specs.Equivalence.{IsEquivalenceAnswer, IsFirstRefusal};

use crate::canonical_tags::canonical;
use crate::laws::confluence;
use crate::refusals::Refusal;
use lt_check::Checked;
use lt_registry::Lookup;
use lt_tag::Tag;
use std::alloc::Global;

/// Whether steps, forth and back, lead from one tag to another (RFC 5646, 4.5): exactly if their canonical
/// forms are equal, such as those of `zh-cmn-Hans` and `cmn-Hans`. It is refused as `canonical` refuses the
/// first tag or, if that has a canonical form, the second.
#[tactic(auto, using(crate::proofs::CanonicalForms::refused, crate::proofs::CanonicalForms::second_refused, crate::proofs::CanonicalForms::equivalence_answer))]
pub fn equivalent<L: Lookup>(
    alloc: Global,
    checked: &Checked<L>,
    first: &Tag,
    second: &Tag,
) -> Result<bool, Refusal>
    ensures answer { IfOk result (λ answer. IsEquivalenceAnswer (L.listed checked.now) first.now second.now answer) }
    ensures refusal { IfErr result (λ refusal. IsFirstRefusal (L.listed checked.now) first.now second.now refusal) }
{
    // Does nothing but tell the proof that tags are equivalent exactly if their canonical forms are equal.
    confluence(checked);
    let first_form = canonical(alloc, checked, first)?;
    let second_form = canonical(alloc, checked, second)?;
    Ok(first_form == second_form)
}
