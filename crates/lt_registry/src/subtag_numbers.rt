//! Subtags as numbers of 64 bits, which are compared at once.
ghost use Rattle.std.specs.Prelude.{◌≡◌, ◌≤◌, ◌<◌, ◌^◌, true, length, map};
ghost use Rattle.std.specs.List.{IsDistinct};
ghost use Rattle.std.specs.Ordering.{nat_cmp, eq_by_cmp};
ghost use Rattle.lt_subtag.specs.Bytes.{is_subtag};
ghost use Rattle.lt_subtag.specs.Lanes as lanes;
ghost use Rattle.lt_registry.specs.Sorted as sorted;
ghost use Rattle.lt_registry.specs.Validity.{Distinct};

use arrayvec::ArrayVec;
use lt_subtag::Subtag;

/// How many numbers of 64 bits there are.
const NUMBERS: u128 = 1 << 64;

/// The rank of a subtag: its length, of at most 8, and below it the 64 bits of its number. So subtags of one length are
/// together, in their order. By `small` one may be added to a rank, for the end of a range; 9 times 2^64 is below 2^68.
/// `subtag` tells the caller's proof that the argument is a subtag.
#[tactic(auto, using(lt_subtag::proofs::BytesLemmas::subtag_length))]
pub(crate) fn rank_of(subtag: &Subtag) -> u128
    ensures value { result ≡ sorted.rank subtag.now }
    ensures small { result < 2 ^ 68 }
    ensures subtag { is_subtag subtag.now ≡ true }
{
    let length = subtag.bytes().len() as u128;
    length * NUMBERS + subtag.number() as u128
}

/// Whether all numbers are different. They are left sorted. The clause says only what true means, which is all that
/// `many_differ` needs.
fn differ(numbers: &mut [u64]) -> bool
    ensures { result ≡ true → IsDistinct (eq_by_cmp nat_cmp) numbers.old }
{
    numbers.sort_unstable();
    numbers.is_sorted_by(|number, next| number < next)
}

/// True only if the numbers of all subtags are different. There must be at most 256, so that the numbers are in an array
/// and nothing is allocated. It is not inlined, so that only a tag of many variants needs stack for the array.
#[inline(never)]
fn numbers_differ(subtags: &[Subtag]) -> bool
    requires { length subtags.now ≤ 256 }
    ensures { result ≡ true → IsDistinct (eq_by_cmp nat_cmp) (map lanes.number subtags.now) }
{
    let mut numbers: ArrayVec<u64, 256> = ArrayVec::new();
    for subtag in subtags {
        numbers.push(subtag.number());
    }
    differ(&mut numbers)
}

/// True only if all subtags are different, as a sort of their numbers shows. Fewer than 16 subtags, which are quickly
/// compared pair by pair, and more than 256, whose numbers don't fit the array, are not sorted: the answer is false,
/// even if all of them are different.
#[tactic(auto, using(crate::proofs::NumberLemmas::subtags_differ))]
pub(crate) fn many_differ(subtags: &[Subtag]) -> bool
    ensures { result ≡ true → Distinct subtags.now }
{
    16 <= subtags.len() && subtags.len() <= 256 && numbers_differ(subtags)
}
