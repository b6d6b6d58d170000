//! Chains of values: a subtag, its preferred value, the value of that value, and so on (RFC 5646, 3.1.7). A clause
//! `form` says that the answer has the form of its kind if the subtag has, since a core takes no other subtag.
ghost use Rattle.std.specs.Prelude.{◌≡◌, true, Some, IfSome, IfOk, OnErr, codes};
ghost use Rattle.std.specs.Option.{option_copied};
ghost use Rattle.lt_subtag.specs.Shapes.{is_language, is_extlang};
ghost use Rattle.lt_registry.specs.Entries.{one_of, has_form, has_value_form, is_short};
ghost use Rattle.lt_registry.specs.Entries as entries;
ghost use Rattle.lt_rewrite.specs.CoreSteps.{Ends, EndsIn};
ghost use Rattle.lt_rewrite.specs.Conditions as conditions;
ghost use Rattle.lt_rewrite.specs.ChainEnds.{ChainEnds, ChainEndsIn, following};

use crate::values::{is_short, one_value, value};
use lt_registry::{Entry, Kind, Lookup};
use lt_subtag::Subtag;
use std::fmt;

/// The chain of values from a subtag has no end.
#[derive(Clone, Copy, Debug, Drop, PartialEq, Eq)]
pub struct Cycle;

impl Cycle {
    /// The fault's name: `Cycle`.
    pub fn name(self) -> &'static str
        ensures { result.now ≡ codes "Cycle" }
    {
        "Cycle"
    }
}

impl fmt::Display for Cycle {
    ghost output = { λ _. Some (codes "Cycle") };

    fn fmt<W: fmt::Write>(&self, f: &mut fmt::Formatter<W>) -> fmt::Result {
        f.write_str(self.name())
    }
}

impl std::error::Error for Cycle {}

/// The value of an entry that comes next in a chain of values of this kind; in a chain of variants only a variant can
/// come next. None if the entry has no such value, or if the kind is Extlang or one of whole tags, which have no
/// chains.
pub(crate) fn following(kind: Kind, entry: &Entry) -> Option<&Subtag>
    ensures { option_copied result ≡ following kind entry.now }
{
    match kind {
        Kind::Language | Kind::Script | Kind::Region => one_value(entry),
        Kind::Variant => match one_value(entry) {
            Some(next) if !is_short(next) => Some(next),
            _ => None,
        },
        Kind::Extlang | Kind::Grandfathered | Kind::Redundant => None,
    }
}

/// The value that comes next after a subtag in a chain of values of this kind, or None if the chain ends there.
pub(crate) fn next_value<'a, L: Lookup>(
    table: &'a L,
    kind: Kind,
    subtag: &Subtag,
) -> Option<&'a Subtag>
    ensures { option_copied result ≡ conditions.next_value (L.listed table.now) kind subtag.now }
{
    match table.entry(kind, subtag) {
        Some(entry) => following(kind, entry),
        None => None,
    }
}

/// The end of the chain of values of a kind that begins with a subtag. A chain that ends does so within as many values
/// as there are entries. Refused with `Cycle` exactly if the chain has no end.
#[tactic(auto, using(crate::proofs::ChainWalks::walk_ends, crate::proofs::ChainWalks::end_form))]
pub(crate) fn end_of_chain<L: Lookup>(
    table: &L,
    kind: Kind,
    subtag: &Subtag,
) -> Result<Subtag, Cycle>
    ensures end { IfOk result (λ end. EndsIn (conditions.next_value (L.listed table.now) kind) subtag.now end) }
    ensures form { IfOk result (λ end. has_form kind subtag.now ≡ true → has_form kind end ≡ true) }
    ensures cycle { OnErr result (Ends (conditions.next_value (L.listed table.now) kind) subtag.now → ⊥) }
{
    let mut end = subtag.copy();
    for _step in 0..table.entries().len() {
        match next_value(table, kind, &end) {
            Some(next) => end = next.copy(),
            None => return Ok(end),
        }
    }
    match next_value(table, kind, &end) {
        Some(_) => Err(Cycle),
        None => Ok(end),
    }
}

/// The language that replaces an extlang: its preferred value, or itself if it has none. An extlang, of 3 letters, has
/// the form of a language too (`form`).
#[tactic(auto, using(crate::proofs::Forms::extlang_is_language))]
pub(crate) fn replacement<L: Lookup>(table: &L, extlang: &Subtag) -> Subtag
    ensures value { result ≡ entries.replacement (L.listed table.now) extlang.now }
    ensures form { is_extlang extlang.now ≡ true → is_language result ≡ true }
{
    match value(table, Kind::Extlang, extlang) {
        Some(value) => value.copy(),
        None => extlang.copy(),
    }
}

/// The end of the chain of values that begins with a subtag of a kind: the subtag that no value follows
/// (RFC 5646, 3.1.7). If `a` has the value `b`, and `b` the value `c`, which has no value, the end is `c`.
/// After a variant only variants follow. In place of an extlang the chain begins with the language that replaces
/// it, which is the extlang itself if it has no value or no entry.
///
/// Refused with `Cycle` exactly if the chain has no end. Takes no memory. It makes at most one look-up more than
/// there are entries, and one for an extlang.
#[tactic(auto, using(crate::proofs::ChainWalks::own_end, crate::proofs::ChainWalks::own_cycle))]
pub fn chain_end<L: Lookup>(table: &L, kind: Kind, subtag: &Subtag) -> Result<Subtag, Cycle>
    ensures end { IfOk result (λ end. ChainEndsIn (L.listed table.now) kind subtag.now end) }
    ensures cycle { OnErr result (ChainEnds (L.listed table.now) kind subtag.now → ⊥) }
{
    match kind {
        Kind::Extlang => end_of_chain(table, Kind::Language, &replacement(table, subtag)),
        _ => end_of_chain(table, kind, subtag),
    }
}
