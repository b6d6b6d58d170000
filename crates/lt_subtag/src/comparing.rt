//! Equality, order and hash of subtags: those of their lower-case bytes. Each `impl` says by `eq`, `partial_cmp`, `cmp`
//! or `hash_input` what it computes. Its other `ghost` lines are the proofs that the trait asks for.
ghost use Rattle.std.specs.Prelude.{nat_eq, refl};
ghost use Rattle.std.specs.Ordering.{nat_cmp, as_partial_cmp};
ghost use Rattle.std.specs.Cmp.{partial_equiv_from_equiv};
ghost use Rattle.std.specs.Cmp.Lexicographic.{pointwise, slice_cmp, nat_list_eq_equiv, nat_list_cmp_total, texts_ties, texts_po};
ghost use Rattle.std.specs.Hash as fed;
ghost use Rattle.std.specs.Cmp.Rules.{hashing};
ghost use Rattle.std.proofs.Common.{rules};

use crate::Subtag;
use std::cmp::Ordering;
use std::hash::{Hash, Hasher};

impl PartialEq for Subtag {
    ghost eq = { pointwise nat_eq };

    ghost laws = { partial_equiv_from_equiv nat_list_eq_equiv };

    /// Whether the lower-case bytes are equal.
    fn eq(&self, other: &Subtag) -> bool {
        // One comparison of numbers in place of one of each byte.
        self.number() == other.number()
    }
}

impl Eq for Subtag {
    ghost laws = { nat_list_eq_equiv };
}

impl PartialOrd for Subtag {
    ghost partial_cmp = { as_partial_cmp (slice_cmp nat_cmp) };

    ghost laws = { texts_po };

    /// `Some` of what `cmp` gives: any two subtags have an order.
    fn partial_cmp(&self, other: &Subtag) -> Option<Ordering> {
        Some(self.cmp(other))
    }
}

impl Ord for Subtag {
    ghost cmp = { slice_cmp nat_cmp };

    ghost total = { nat_list_cmp_total };

    ghost matches_partial_cmp = { λ a b. refl };

    ghost matches_eq = { texts_ties };

    /// The order of the lower-case bytes, where a subtag that begins another comes before it.
    fn cmp(&self, other: &Subtag) -> Ordering {
        // Numbers are in the order of the bytes, and take one comparison.
        self.number().cmp(&other.number())
    }
}

impl Hash for Subtag {
    ghost hash_input = { fed.slice fed.u8 };

    ghost respects_eq = { Prim.search (hashing, rules) };

    /// Feeds the lower-case bytes to the hasher, so that equal subtags hash alike.
    fn hash<H: Hasher>(&self, state: &mut H) {
        self.bytes().hash(state);
    }
}
