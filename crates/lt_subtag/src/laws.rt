//! What the comparisons of subtags compute: each function only compares, and states a law by its contract. Equal
//! subtags hash alike: `Hash` reads only the lower-case bytes.
ghost use Rattle.std.specs.Prelude.{◌≡◌, ◌↔◌, IsTrue};
ghost use Rattle.std.specs.Ordering.{nat_cmp};
ghost use Rattle.std.specs.Cmp.Lexicographic.{slice_cmp};

use crate::Subtag;
use std::cmp::Ordering;

/// The order is that of the lower-case bytes.
pub fn order(left: &Subtag, right: &Subtag) -> Ordering
    ensures { result ≡ slice_cmp nat_cmp left.now right.now }
{
    left.cmp(right)
}

/// Two subtags are equal exactly if their lower-case bytes are.
pub fn equality(left: &Subtag, right: &Subtag) -> bool
    ensures { IsTrue result ↔ (left.now ≡ right.now) }
{
    left == right
}
