//! Variants that are distinct (RFC 5646, 2.2.5).
ghost use Rattle.std.specs.Prelude.{◌≡◌, ◌↔◌, IsTrue};
ghost use Rattle.lt_registry.specs.Checking as checking;
ghost use Rattle.lt_registry.specs.Validity.{Distinct};

use crate::subtag_numbers::many_differ;
use lt_subtag::Subtag;

/// Whether a variant is among others.
fn stands_in(variants: &[Subtag], variant: &Subtag) -> bool
    ensures { result ≡ checking.stands_in variants.now variant.now }
{
    variants.contains(variant)
}

/// Whether no variant occurs twice, each looked for among those before it.
#[tactic(auto, using(crate::proofs::DistinctTests::repeated_at, crate::proofs::DistinctTests::distinct_further))]
fn none_repeats(variants: &[Subtag]) -> bool
    ensures { IsTrue result ↔ Distinct variants.now }
{
    for (index, variant) in variants.iter().enumerate() {
        if stands_in(&variants[..index], variant) {
            return false;
        }
    }
    true
}

/// Whether no variant occurs twice (RFC 5646, 2.2.5). It takes no memory. Many are sorted first, which is quicker than
/// a search for each among those before it.
pub fn are_distinct(variants: &[Subtag]) -> bool
    ensures { IsTrue result ↔ Distinct variants.now }
{
    many_differ(variants) || none_repeats(variants)
}
