//! Shortcuts along the chains of values of a table's records (RFC 5646, 3.1.7): for each record the index of a record
//! further on in its chain, whose value is the end of the chain. Each round makes them twice as long, and there are at
//! most as many rounds as the number of records has binary digits. So a cycle is found as fast as an end, however long
//! the chains are.
ghost use Rattle.std.specs.Prelude.{◌≡◌, ◌+◌, ◌≤◌, ◌<◌, ◌||◌, true, false, Some, ℕ, List, All, IfOk, OnErr, Contains, length, map, IsTrue, ◌↔◌};
ghost use Rattle.std.specs.List.{slice_get, AllByRecursion, AllWithin};
ghost use Rattle.std.specs.List.Sorted.{IsNonDecreasingBy};
ghost use Rattle.lt_tag.specs.Parts.{ExtensionParts, TForm};
ghost use Rattle.lt_tag.specs.Extensions.{transform, IsTransform};
ghost use Rattle.lt_registry.specs.Validity.{Distinct};
ghost use Rattle.lt_rewrite.specs.Rewriting.{IsNormalForm};
ghost use Rattle.lt_rewrite.specs.Extensions.{ExtensionsStep};
ghost use Rattle.lt_registry.specs.Parts.{EntryParts};
ghost use Rattle.lt_registry.specs.Entries.{NumbersRise, has_form};
ghost use Rattle.lt_rewrite.specs.CoreSteps.{Ends, EndsIn, IsCoreNormalForm};
ghost use Rattle.lt_rewrite.specs.Conditions as conditions;
ghost use Rattle.lt_rewrite.specs.Conditions.{HasEndingChain};
ghost use Rattle.lt_rewrite.specs.ChainEnds.{ChainEnds, ChainEndsIn};
ghost use Rattle.lt_rewrite.specs.Shortcuts.{IsOnward, IsShortcut, LeadOn, AreShortcuts, GrowNoMore};

use crate::chain_ends::{Cycle, following, next_value, replacement};
use crate::core_settling::settle_along;
use crate::extensions_settling::settle_all;
use crate::values::one_value;
use lt_registry::{Entry, Kind, Lookup};
use lt_subtag::Subtag;
use lt_tag::{Core, Extension, OutOfMemory};
use std::alloc::{AllocError, Global};
use std::marker::Model;

/// Shortcuts along the chains of values of a table's records, by which the end of a chain is found in
/// a few look-ups, however long it is.
#[derive(Debug, Drop)]
pub struct Shortcuts {
    /// For each record the index of a record on its chain.
    places: Vec<usize>,
}

impl Model for Shortcuts {
    ghost use Rattle.lt_rewrite.specs.Shortcuts.{ShortcutParts};

    ghost Value = { ShortcutParts };

    ghost view = { λ s. record { places = s.places.items } };
}

impl Shortcuts {
    /// The shortcuts of a table. For each record they have the index of a record whose value is at least as
    /// many values further on as there are records, and so is the end of the chain, if it has one. They take
    /// memory for one index for each record, and look up each value once. Refused only where memory runs out.
    pub fn of_table<L: Lookup>(alloc: Global, table: &L) -> Result<Shortcuts, AllocError>
        ensures { IfOk result (AreShortcuts (L.listed table.now)) }
    {
        Ok(Shortcuts {
            places: last_places(alloc, table)?,
        })
    }

    /// The subtag to which a subtag leads over at least as many values as there are records, or over all values if its
    /// chain is shorter. So it is the end of the chain, if that has one. The shortcuts must be those of the table.
    #[tactic(auto, using(std::proofs::lemmas::Option::slice_get_within, crate::proofs::ChainWalks::entry_there, crate::proofs::ShortcutWalks::onward_rest, crate::proofs::ShortcutWalks::entry_next, crate::proofs::ShortcutWalks::none_follows, crate::proofs::ChainWalks::next_by, crate::proofs::ShortcutWalks::led_to, crate::proofs::ShortcutWalks::led_far, crate::proofs::ShortcutWalks::some_follows))]
    fn further<'a, L: Lookup>(&self, table: &'a L, kind: Kind, subtag: &'a Subtag) -> &'a Subtag
        requires { AreShortcuts (L.listed table.now) self.now }
        ensures onward { IsOnward (conditions.next_value (L.listed table.now) kind) (length (L.listed table.now)) subtag.now result.now }
        ensures form { has_form kind subtag.now ≡ true → has_form kind result.now ≡ true }
    {
        let Some(entry) = table.entry(kind, subtag) else {
            return subtag;
        };
        if following(kind, entry).is_none() {
            return subtag;
        }
        let entries = table.entries();
        let last = &entries[self.places[place_of(entries, entry)]];
        match following(kind, last) {
            Some(value) => value,
            None => unreachable!(),
        }
    }

    /// The end of the chain of values of a kind that begins with a subtag. Refused with `Cycle` if the chain has no
    /// end. The shortcuts must be those of the table.
    pub(crate) fn end_of_chain<L: Lookup>(
        &self,
        table: &L,
        kind: Kind,
        subtag: &Subtag,
    ) -> Result<Subtag, Cycle>
        requires { AreShortcuts (L.listed table.now) self.now }
        ensures end { IfOk result (λ end. EndsIn (conditions.next_value (L.listed table.now) kind) subtag.now end) }
        ensures form { IfOk result (λ end. has_form kind subtag.now ≡ true → has_form kind end ≡ true) }
        ensures cycle { OnErr result (Ends (conditions.next_value (L.listed table.now) kind) subtag.now → ⊥) }
    {
        let end = self.further(table, kind, subtag);
        match next_value(table, kind, end) {
            Some(_) => Err(Cycle),
            None => Ok(end.copy()),
        }
    }

    /// The end of the chain of values of a kind that begins with a subtag. The chains of values in the registry must
    /// end, and the shortcuts must be those of the table.
    pub(crate) fn certain_end<L: Lookup>(&self, table: &L, kind: Kind, subtag: &Subtag) -> Subtag
        requires chains { All (HasEndingChain (L.listed table.now)) (L.listed table.now) }
        requires shortcuts { AreShortcuts (L.listed table.now) self.now }
        ensures end { EndsIn (conditions.next_value (L.listed table.now) kind) subtag.now result }
        ensures form { has_form kind subtag.now ≡ true → has_form kind result ≡ true }
    {
        self.further(table, kind, subtag).copy()
    }

    /// Whether the chain of values from a record's value ends. True of a record without a value, or with a whole tag as
    /// its value. The shortcuts must be those of the table.
    pub fn has_end<L: Lookup>(&self, table: &L, entry: &Entry) -> bool
        requires { AreShortcuts (L.listed table.now) self.now }
        ensures { IsTrue result ↔ HasEndingChain (L.listed table.now) entry.now }
    {
        match one_value(entry) {
            Some(value) => self.end_of_chain(table, entry.kind(), value).is_ok(),
            None => true,
        }
    }

    /// The end of the chain of values that begins with a subtag of a kind, as [`chain_end`](crate::chain_end) gives it,
    /// in a few look-ups. The shortcuts must be those of the table. Refused with `Cycle` exactly if the chain has no
    /// end.
    #[tactic(auto, using(crate::proofs::ChainWalks::own_end, crate::proofs::ChainWalks::own_cycle))]
    pub fn chain_end<L: Lookup>(
        &self,
        table: &L,
        kind: Kind,
        subtag: &Subtag,
    ) -> Result<Subtag, Cycle>
        requires { AreShortcuts (L.listed table.now) self.now }
        ensures end { IfOk result (λ end. ChainEndsIn (L.listed table.now) kind subtag.now end) }
        ensures cycle { OnErr result (ChainEnds (L.listed table.now) kind subtag.now → ⊥) }
    {
        match kind {
            Kind::Extlang => self.end_of_chain(table, Kind::Language, &replacement(table, subtag)),
            _ => self.end_of_chain(table, kind, subtag),
        }
    }

    /// Puts a core into its core normal form as [`settle_core`](crate::settle_core) does, by the
    /// shortcuts, which must be those of the table. The chains of values in the registry must end.
    pub fn settle_core<L: Lookup>(&self, table: &L, core: &mut Core)
        requires chains { All (HasEndingChain (L.listed table.now)) (L.listed table.now) }
        requires shortcuts { AreShortcuts (L.listed table.now) self.now }
        ensures { IsCoreNormalForm (L.listed table.now) core.old core.new }
    {
        settle_along(table, Some(self), core);
    }

    /// Puts a list of extensions into its normal form as
    /// [`settle_extensions`](crate::settle_extensions) does, by the shortcuts, which must be those of
    /// the table. Each singleton must occur once, a `t` extension must have the form of one (RFC 6497,
    /// 2.2), and the chains of values in the registry must end. Refused only where memory runs out; the
    /// list is then what it was.
    pub fn settle_extensions<L: Lookup>(
        &self,
        alloc: Global,
        table: &L,
        extensions: &mut Vec<Extension>,
    ) -> Result<(), OutOfMemory>
        requires shortcuts { AreShortcuts (L.listed table.now) self.now }
        requires chains { All (HasEndingChain (L.listed table.now)) (L.listed table.now) }
        requires singletons { Distinct (map (λ (e : ExtensionParts). e.singleton) extensions.old.items) }
        requires transforms { AllByRecursion (λ (e : ExtensionParts). e.singleton ≡ transform → (p : TForm) × IsTransform e.subtags p) extensions.old.items }
        ensures ok { IfOk result (λ _. IsNormalForm (ExtensionsStep (L.listed table.now)) extensions.old.items extensions.new.items) }
        ensures err { OnErr result (extensions.new ≡ extensions.old) }
    {
        settle_all(alloc, table, Some(self), extensions)
    }
}

/// The index of an entry among the entries of a table. The entry must be one of them, and their numbers must rise. If
/// the numbers have no gaps, no search is needed: the index is the entry's number less that of the first entry.
pub(crate) fn place_of(entries: &[Entry], entry: &Entry) -> usize
    requires rising { NumbersRise entries.now }
    requires there { Contains entries.now entry.now }
    ensures { slice_get entries.now result ≡ Some entry.now }
{
    let number = entry.number();
    let place = number.saturating_sub(entries[0].number()) as usize;
    match entries.get(place) {
        Some(other) if other.number() == number => place,
        _ => entries.partition_point(|other| other.number() < number),
    }
}

/// The index to which the shortcut of one value leads from an entry. If the entry has a value that follows in a chain,
/// and a further value follows that value, it is the index of the value's entry. Else it is `place`, which must be the
/// index of the entry itself.
#[tactic(auto, using(std::proofs::lemmas::Option::slice_get_within, crate::proofs::ChainWalks::entry_there, crate::proofs::ShortcutWalks::to_itself, crate::proofs::ShortcutWalks::to_next, crate::proofs::ChainWalks::next_by))]
fn next_place<L: Lookup>(table: &L, entry: &Entry, place: usize) -> usize
    requires { slice_get (L.listed table.now) place ≡ Some entry.now }
    ensures within { result < length (L.listed table.now) }
    ensures shortcut { IsShortcut (L.listed table.now) 1 place result }
{
    let Some(value) = following(entry.kind(), entry) else {
        return place;
    };
    let Some(next) = table.entry(entry.kind(), value) else {
        return place;
    };
    match following(next.kind(), next) {
        Some(_) => place_of(table.entries(), next),
        None => place,
    }
}

/// For each entry, the index of the entry to which its shortcut of one value leads. `last_places` makes longer
/// shortcuts of these. Refused only where memory runs out.
fn first_places<L: Lookup>(alloc: Global, table: &L) -> Result<Vec<usize>, AllocError>
    ensures { IfOk result (λ places. LeadOn (L.listed table.now) 1 places.items) }
{
    let mut places = Vec::new(alloc);
    for (place, entry) in table.entries().iter().enumerate() {
        places.push(next_place(table, entry, place))?;
    }
    Ok(places)
}

/// For each entry, the index of the entry to which its shortcut leads over at least as many values as there are
/// entries, and so to the end of a chain that ends. Refused only where memory runs out.
fn last_places<L: Lookup>(alloc: Global, table: &L) -> Result<Vec<usize>, AllocError>
    ensures { IfOk result (λ places. LeadOn (L.listed table.now) (length (L.listed table.now)) places.items) }
{
    let mut places = first_places(alloc, table)?;
    // The shortcuts lead over at least this many values.
    let mut steps = 1;
    let mut grows = true;
    while steps < places.len() {
        grows = lengthen_while(grows, &mut places);
        steps *= 2;
    }
    Ok(places)
}

/// Makes each shortcut at least twice as long (`doubled`), unless `grows` is false. That must only be so if they are as
/// long as they can be (`GrowNoMore`). Each place must be an index in the list. Returns false only if the shortcuts are
/// as long as they can be now. Neither the entries `R` nor the length `n` is an argument, so `doubled` speaks of all.
fn lengthen_while(grows: bool, places: &mut [usize]) -> bool
    requires within { (i j : ℕ) → slice_get places.old i ≡ Some j → j < length places.old }
    requires rest { grows ≡ false → GrowNoMore places.old }
    ensures doubled { (R : List EntryParts) (n : ℕ) → LeadOn R n places.old → LeadOn R (n + n) places.new }
    ensures rest { result ≡ false → GrowNoMore places.new }
{
    grows && lengthen(places)
}

/// Whether one of two is true. Both are evaluated before the call, unlike the sides of `||`.
fn either(one: bool, other: bool) -> bool
    ensures { result ≡ (one || other) }
{
    one || other
}

/// Makes each shortcut at least twice as long (`doubled`): it leads on by the shortcut of the entry to which it led,
/// which may have been made longer already. Each place must be an index in the list. Returns whether any shortcut now
/// leads elsewhere. Neither the entries `R` nor the length `n` is an argument, so `doubled` speaks of all.
fn lengthen(places: &mut [usize]) -> bool
    requires { (i j : ℕ) → slice_get places.old i ≡ Some j → j < length places.old }
    ensures doubled { (R : List EntryParts) (n : ℕ) → LeadOn R n places.old → LeadOn R (n + n) places.new }
    ensures same { result ≡ false → places.new ≡ places.old }
{
    let mut grew = false;
    for index in 0..places.len() {
        let next = places[places[index]];
        grew = either(grew, next != places[index]);
        places[index] = next;
    }
    grew
}
