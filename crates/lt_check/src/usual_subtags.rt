//! A table of flags, one bit for each place that a subtag can have. The flag is set if the subtag stays as it is in
//! canonicalization. Flags *tell* a test if the flag of each subtag with a place is the test's answer (`Tell`).
ghost use Rattle.std.specs.Prelude.{◌≡◌, ◌<◌, ◌++◌, ◌∷◌, [], ◌==◌, ◌↔◌, Bool, true, false, if◌then◌else◌, ℕ, List, All, IfOk, OnErr, IsTrue, IfSome, MatchOption, Some, length, bytes_eq};
ghost use Rattle.lt_subtag.specs.Shapes.{is_language};
ghost use Rattle.lt_tag.specs.Lists.{list_of};
ghost use Rattle.lt_tag.specs.Conventional.{conventional};
ghost use Rattle.lt_registry.specs.Parts.{EntryParts};
ghost use Rattle.lt_registry.specs.Entries.{has_form};
ghost use Rattle.lt_check.specs.Flags.{flag, AreFlags, Tell, TellSingles, stays_beside, with_subtag};
ghost use Rattle.lt_check.specs.NameChecks.{WasClear};
ghost use Rattle.lt_check.specs.Places as places;
ghost use Rattle.lt_check.specs.Staying.{IsStaying, replaces_plain_of, stays};

use crate::places::place;
use lt_registry::{Entry, EntryName, Kind, Lookup};
use lt_rewrite::values::tag_and_value;
use lt_subtag::Subtag;
use std::alloc::{AllocError, Global};
use std::marker::Model;

/// How many words the flags take: one for each 64 of the 553,913 places (`PLACES`), rounded up.
pub(crate) const WORDS: usize = 8655;

/// The languages of 2 or 3 letters, the scripts and the regions of a registry that stay as they are.
#[derive(Debug, Drop)]
pub struct UsualSubtags {
    /// A bit for each place, from the lowest bit of the first word on.
    words: Vec<u64>,
}

// A contract sees the words of flags. There are always all 8,655 (`WORDS`), so that each place is within them.
impl Model for UsualSubtags {
    ghost use Rattle.std.specs.Prelude.{◌≡◌, ℕ, List, length};

    ghost Value = { List ℕ };

    ghost view = { λ u. u.words.items };

    ghost invariant = { λ u. length u.words.items ≡ 8655 };
}

impl UsualSubtags {
    /// The flags of a table's subtags: that of a subtag is set exactly if it stays as it is. Refused only where memory
    /// runs out.
    pub fn of_table<L: Lookup>(alloc: Global, table: &L) -> Result<UsualSubtags, AllocError>
        ensures { IfOk result (AreFlags (L.listed table.now)) }
    {
        let mut words = vec![in alloc; 0; WORDS]?;
        let entries = table.entries();
        let flags = words.as_mut_slice();
        put_singles(flags, entries);
        drop_replaced(flags, entries);
        Ok(UsualSubtags { words })
    }

    /// Whether the flag of a place is set. The place must be below 553,913.
    #[inline(always)]
    pub(crate) fn has(&self, place: usize) -> bool
        requires { place < 553913 }
        ensures { result ≡ flag self.now place }
    {
        has(&self.words, place)
    }

    /// Appends `text` to `texts`, in conventional case, if it is read as a langtag of the usual form, each subtag of
    /// which stays as it is by the registry of these flags. The usual form is a language of 2 or 3 letters, alone or
    /// with a script, a region or both. Gives true exactly then; else it appends nothing. Refused only where memory
    /// runs out.
    #[inline(always)]
    pub fn append_text(&self, text: &[u8], texts: &mut Vec<u8>) -> Result<bool, AllocError>
        // The flags don't keep the registry of which they are made: so `exact` and `appended` hold for any `R` of which
        // they are the flags.
        ensures exact { IfOk result (λ told. (R : List EntryParts) → AreFlags R self.now → IsTrue told ↔ IsStaying R text.now) }
        ensures appended { IfOk result (λ told. (R : List EntryParts) → AreFlags R self.now → IsTrue told → texts.new.items ≡ texts.old.items ++ conventional (list_of text.now)) }
        ensures unchanged { IfOk result (λ told. told ≡ false → texts.new.items ≡ texts.old.items) }
        ensures kept { OnErr result (texts.new.items ≡ texts.old.items) }
    {
        let Some(shown) = self.shown(text) else {
            return Ok(false);
        };
        // All twelve bytes are appended, since a copy of fixed length is quick, and the zeros then taken off.
        let end = texts.len() + shown.count;
        texts.extend_from_slice(&shown.bytes)?;
        texts.truncate(end);
        Ok(true)
    }
}

/// Whether the flag of a place is set. There must be 8,655 words, and the place must be below 553,913.
#[inline(always)]
fn has(words: &[u64], place: usize) -> bool
    requires room { length words.now ≡ 8655 }
    requires within { place < 553913 }
    ensures { result ≡ flag words.now place }
{
    words[place / 64] >> (place % 64) & 1 == 1
}

/// Sets the flag of a subtag, for C1, and tells whether it was clear before. False of a subtag without a place. There
/// must be 8,655 words. The flags that were set stay so (`kept`), and that of the subtag is set (`marked`), so that at
/// each record the flags of the records before it are set.
#[tactic(auto, using(crate::proofs::OwnNames::flag_kept, crate::proofs::OwnNames::flag_set))]
pub(crate) fn mark(words: &mut [u64], kind: Kind, subtag: &Subtag) -> bool
    requires { length words.old ≡ 8655 }
    ensures first { IsTrue result → WasClear words.old kind subtag.now }
    ensures kept { (n : ℕ) → flag words.old n ≡ true → flag words.new n ≡ true }
    ensures marked { (n : ℕ) → places.place kind subtag.now ≡ Some n → flag words.new n ≡ true }
{
    let Some(place) = place(kind, subtag.bytes()) else {
        return false;
    };
    let was_set = has(words, place);
    put(words, place, true);
    !was_set
}

/// Sets the flag of a place if `set`, and else clears it. There must be 8,655 words, and the place must be below
/// 553,913.
#[tactic(auto, using(crate::proofs::FlagLemmas::set_flag, crate::proofs::FlagLemmas::clear_flag))]
fn put(words: &mut [u64], place: usize, set: bool)
    requires room { length words.old ≡ 8655 }
    requires within { place < 553913 }
    ensures { (n : ℕ) → flag words.new n ≡ (if n == place then set else flag words.old n) }
{
    let mask = 1 << (place % 64);
    if set {
        words[place / 64] |= mask;
    } else {
        words[place / 64] &= !mask;
    }
}

/// Sets the flag of a subtag if `set`, and else clears it. A subtag without a place is passed over. There must be 8,655
/// words, and the subtag must have the form of the kind, so that no other shares its place. Whatever test the flags
/// told before, they then tell the same one but for this subtag, whose answer is `set`.
fn put_subtag(words: &mut [u64], kind: Kind, subtag: &Subtag, set: bool)
    requires room { length words.old ≡ 8655 }
    requires form { has_form kind subtag.now ≡ true }
    ensures { (test : Kind → List ℕ → Bool) → Tell test words.old → Tell (with_subtag kind subtag.now set test) words.new }
{
    if let Some(place) = place(kind, subtag.bytes()) {
        put(words, place, set);
    }
}

/// Sets the flag of the subtag of a record of one subtag if the record has no preferred value, and else clears it. Any
/// other record is passed over. There must be 8,655 words. If the flags told which subtags have a record without a
/// value in `es`, they then tell so of `es` with this record in front.
fn put_single(words: &mut [u64], entry: &Entry)
    requires { length words.old ≡ 8655 }
    ensures { (es : List EntryParts) → TellSingles es words.old → TellSingles (entry.now ∷ es) words.new }
{
    if let EntryName::Single(subtag) = entry.name() {
        put_subtag(words, entry.kind(), subtag, entry.value().is_none());
    }
}

/// Sets the flag of the subtag of each record of one subtag if the record has no preferred value, and else clears it.
/// Of several records of a subtag the first counts. There must be 8,655 words, and all flags must be clear.
fn put_singles(words: &mut [u64], entries: &[Entry])
    requires room { length words.old ≡ 8655 }
    requires clear { TellSingles [] words.old }
    ensures { TellSingles entries.now words.new }
{
    // From the last record to the first, so that the first record of a subtag writes its flag last.
    let count = entries.len();
    for index in 0..count {
        put_single(words, &entries[count - 1 - index]);
    }
}

/// The language of the tag that a record replaces as a whole. None if the record has no tag or no preferred value, or
/// if the tag has no core, or has extlangs or variants. By the clause, None says that the record replaces such a tag of
/// no language `s`, and an answer that it does so of this language only.
fn replaced_language(entry: &Entry) -> Option<&Subtag>
    ensures language { MatchOption result ((s : List ℕ) → replaces_plain_of s entry.now ≡ false) (λ language. (s : List ℕ) → replaces_plain_of s entry.now ≡ bytes_eq language.now s) }
    ensures form { IfSome result (λ language. is_language language.now ≡ true) }
{
    let (tag, _) = tag_and_value(entry)?;
    let core = tag.core()?;
    if core.extlangs().is_empty() && core.variants().is_empty() {
        Some(core.language())
    } else {
        None
    }
}

/// Clears the flag of a language if the record replaces a tag of the language as a whole, with no more than a script
/// and a region beside it. There must be 8,655 words. If the flags told which subtags of `R` stay beside the records
/// `es`, they then tell so beside `es` and this record.
fn drop_language(words: &mut [u64], entry: &Entry)
    requires { length words.old ≡ 8655 }
    ensures { (R es : List EntryParts) → Tell (stays_beside R es) words.old → Tell (stays_beside R (es ++ entry.now ∷ [])) words.new }
{
    if let Some(language) = replaced_language(entry) {
        put_subtag(words, Kind::Language, language, false);
    }
}

/// Clears the flag of each language of which a record replaces a tag as a whole, with no more than a script and a
/// region beside it. There must be 8,655 words, and the flags must be those that [`put_singles`] leaves for these
/// entries.
fn drop_replaced(words: &mut [u64], entries: &[Entry])
    requires room { length words.old ≡ 8655 }
    requires singles { TellSingles entries.now words.old }
    ensures { Tell (stays entries.now) words.new }
{
    for entry in entries {
        drop_language(words, entry);
    }
}
