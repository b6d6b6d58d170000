//! The laws of `==` on entries and their parts: true exactly if what contracts see of both is equal. No program calls
//! these; their clauses are what they are for.
ghost use Rattle.std.specs.Prelude.{◌≡◌, ◌↔◌, IsTrue};

use crate::entries::{Entry, EntryName, EntryValue, Prefix};

/// Two Prefixes are equal exactly if their subtags are.
#[tactic(auto, using(crate::proofs::EqualityLemmas::list_decides))]
pub fn prefix_equality(left: &Prefix, right: &Prefix) -> bool
    ensures { IsTrue result ↔ (left.now ≡ right.now) }
{
    left == right
}

/// Two names of records are equal exactly if their parts are.
#[tactic(auto, using(crate::proofs::EqualityLemmas::name_decides))]
pub fn name_equality(left: &EntryName, right: &EntryName) -> bool
    ensures { IsTrue result ↔ (left.now ≡ right.now) }
{
    left == right
}

/// Two values of records are equal exactly if their parts are.
#[tactic(auto, using(crate::proofs::EqualityLemmas::value_decides))]
pub fn value_equality(left: &EntryValue, right: &EntryValue) -> bool
    ensures { IsTrue result ↔ (left.now ≡ right.now) }
{
    left == right
}

/// Two entries are equal exactly if their parts are.
#[tactic(auto, using(crate::proofs::EqualityLemmas::entry_decides))]
pub fn entry_equality(left: &Entry, right: &Entry) -> bool
    ensures { IsTrue result ↔ (left.now ≡ right.now) }
{
    left == right
}
