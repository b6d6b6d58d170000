//! Chains of values that have no end (RFC 5646, 3.1.7).
ghost use Rattle.std.specs.Prelude.{◌≡◌, All, MatchBool, MatchOption};
ghost use Rattle.lt_rewrite.specs.Conditions.{HasEndingChain};
ghost use Rattle.lt_rewrite.specs.Cycles.{IsFirstCycle, EndsAfterEarlier, place};

use crate::chain_ends::{following, next_value};
use crate::values::one_value;
use lt_registry::{Entry, Lookup};

/// An order of the records by their numbers.
#[derive(Clone, Copy)]
enum Order {
    /// As they are in the file.
    File,
    /// One that has nothing to do with how chains run through a file: that of the numbers multiplied by
    /// 2^32 over the golden ratio, modulo 2^32.
    Mixed,
}

impl Order {
    /// The place that the order gives to the record with this number. 2,654,435,769 is 2^32 over the golden ratio.
    #[tactic(auto, unfolding(crate::specs::Cycles::place))]
    fn place(self, number: u32) -> u32
        ensures { result ≡ place self number }
    {
        match self {
            Order::File => number,
            Order::Mixed => number.wrapping_mul(2_654_435_769),
        }
    }
}

/// Whether the chain of values from a record's value ends, or comes to a record that is before this one in the order
/// `order`. If that is true of every record, all chains end, since the chain of the earlier record is followed too.
/// False only if the chain has no end.
fn ends_or_falls<L: Lookup>(table: &L, order: Order, entry: &Entry) -> bool
    ensures { MatchBool result (EndsAfterEarlier (L.listed table.now) order entry.now) (HasEndingChain (L.listed table.now) entry.now → ⊥) }
{
    let Some(value) = one_value(entry) else {
        return true;
    };
    let kind = entry.kind();
    let place = order.place(entry.number());
    let mut subtag = value.copy();
    for _step in 0..table.entries().len() {
        let Some(met) = table.entry(kind, &subtag) else {
            return true;
        };
        if order.place(met.number()) < place {
            return true;
        }
        match following(kind, met) {
            Some(next) => subtag = next.copy(),
            None => return true,
        }
    }
    next_value(table, kind, &subtag).is_none()
}

/// Whether the chain of values from each record's value ends.
fn all_end<L: Lookup>(table: &L) -> bool
    ensures { MatchBool result (All (HasEndingChain (L.listed table.now)) (L.listed table.now)) (All (HasEndingChain (L.listed table.now)) (L.listed table.now) → ⊥) }
{
    for entry in table.entries() {
        // A chain is followed only to a record that is earlier in the order, since the chain of that record is followed
        // too: if none fails, all end. In the mixed order such a record comes soon, unless a file is made against it.
        if !ends_or_falls(table, Order::Mixed, entry) {
            return false;
        }
    }
    true
}

/// The number of the first record in the file from whose value the chain of values has no end. None if each chain ends.
fn first_endless<L: Lookup>(table: &L) -> Option<u32>
    ensures { MatchOption result (All (HasEndingChain (L.listed table.now)) (L.listed table.now)) (IsFirstCycle (L.listed table.now)) }
{
    for entry in table.entries() {
        // In this order the first record that fails is the one with the lowest number.
        if !ends_or_falls(table, Order::File, entry) {
            return Some(entry.number());
        }
    }
    None
}

/// The lowest number of a record from whose value the chain of values has no end. None if each
/// chain ends, as `settle_core` and the other settling calls ask for. After a variant only variants
/// follow.
///
/// Takes no memory. Each chain is followed only to the first record that is before its own in an
/// order of the numbers that has nothing to do with the order of the file. So if all chains end, it
/// takes about as many look-ups for each record as the number of records has binary digits, unless
/// a file is made against that order. If some chain has no end, it may take as many look-ups as
/// there are records for each record up to the one whose number is given.
pub fn first_cycle<L: Lookup>(table: &L) -> Option<u32>
    ensures { MatchOption result (All (HasEndingChain (L.listed table.now)) (L.listed table.now)) (IsFirstCycle (L.listed table.now)) }
{
    if all_end(table) {
        None
    } else {
        first_endless(table)
    }
}
