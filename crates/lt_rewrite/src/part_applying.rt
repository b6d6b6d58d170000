//! One ordering step on a list of parts, at a place (RFC 5646, 4.5; RFC 6067; RFC 6497). A part is an attribute, a
//! keyword, a field or an extension, and begins at the place of its first subtag. A clause `Answers` says of a call
//! that takes a step: it gives true if the step leads to the list after the call, and false if there is no such step.
ghost use Rattle.std.specs.Prelude.{◌≡◌, ◌<◌, ◌≤◌, ◌+◌, ◌^◌, ℕ, List, [], ◌∷◌, MatchOption, MatchBool, length, flat_map};
ghost use Rattle.std.proofs.Math.Nat.{zero-lt-suc};
ghost use Rattle.lt_tag.specs.Extensions.{spell_keyword, spell_field};
ghost use Rattle.lt_rewrite.specs.Applying.{Answers, IsPlaceOf, HasLike, SwapLeads, DropLeads};

use crate::part_ordering::Part;
use lt_subtag::Subtag;
use lt_tag::{Field, Keyword};
use std::cmp::Ordering;

/// A part that spells subtags.
pub(crate) trait Spelled: Part {
    /// The subtags of such a part.
    ghost spell: { Self → List (List ℕ) };

    /// How many subtags this part spells.
    fn subtag_count(&self) -> usize
        ensures { result ≡ length (spell self.now) };

    /// A part spells at least one subtag.
    ghost some: { (part : Self) → 0 < length (spell part) };
}

/// An attribute is one subtag.
impl Spelled for Subtag {
    ghost spell = { λ a. a ∷ [] };

    /// One subtag.
    fn subtag_count(&self) -> usize {
        1
    }

    ghost some = { λ a. zero-lt-suc 0 };
}

/// A keyword is a key and its types.
impl Spelled for Keyword {
    ghost spell = { spell_keyword };

    /// The key and its types.
    fn subtag_count(&self) -> usize {
        1 + self.types.len()
    }

    ghost some = { λ k. zero-lt-suc (length k.types) };
}

/// A field is a separator and its values.
impl Spelled for Field {
    ghost spell = { spell_field };

    /// The separator and its values.
    fn subtag_count(&self) -> usize {
        1 + self.values.len()
    }

    ghost some = { λ f. zero-lt-suc (length f.values) };
}

/// The index of the part whose first subtag has this place, counted from 1, in a list that begins after `start`
/// subtags. The places must be below 2^32, as places in a `Step` are. None if no part begins at this place.
pub(crate) fn index_at<P: Spelled>(parts: &[P], start: usize, place: u32) -> Option<usize>
    requires { start + length (flat_map P.spell parts.now) < 2 ^ 32 }
    ensures { MatchOption result
        ((index : ℕ) → index < length parts.now → IsPlaceOf P.spell start parts.now index place → ⊥)
        (λ index. (index < length parts.now) × IsPlaceOf P.spell start parts.now index place) }
{
    // The place of the first subtag of the part at the index.
    let mut here = start + 1;
    for (index, part) in parts.iter().enumerate() {
        if here == place as usize {
            return Some(index);
        }
        here += part.subtag_count();
    }
    None
}

/// Whether an earlier part is equal in the order to the part at an index, so that a step may drop the part at the
/// index. The index must be within the list.
pub(crate) fn has_like<P: Part>(parts: &[P], index: usize) -> bool
    requires { index < length parts.now }
    ensures { MatchBool result (HasLike P.order parts.now index) (HasLike P.order parts.now index → ⊥) }
{
    for earlier in 0..index {
        if let Ordering::Equal = parts[index].compare(&parts[earlier]) {
            return true;
        }
    }
    false
}

/// Exchanges the part whose first subtag has this place and the next part, if they are in falling order. False, and
/// nothing changes, if no part begins at this place, if it is the last one, or if the two are not in falling order. The
/// list begins after `start` subtags, and the places must be below 2^32.
pub(crate) fn swap_at<P: Spelled>(parts: &mut Vec<P>, start: usize, place: u32) -> bool
    requires { start + length (flat_map P.spell parts.old.items) < 2 ^ 32 }
    ensures { Answers (SwapLeads P.order P.spell start place parts.old.items) parts.new.items result }
{
    let Some(index) = index_at(parts, start, place) else {
        return false;
    };
    if parts.len() <= index + 1 {
        return false;
    }
    match parts[index + 1].compare(&parts[index]) {
        Ordering::Less => {
            parts.swap(index, index + 1);
            true
        }
        _ => false,
    }
}

/// Drops the part whose first subtag has this place, if an earlier one is equal to it in the order. False, and nothing
/// changes, if no part begins at this place, or if no earlier one is equal to it. The list begins after `start`
/// subtags, and the places must be below 2^32.
pub(crate) fn drop_at<P: Spelled>(parts: &mut Vec<P>, start: usize, place: u32) -> bool
    requires { start + length (flat_map P.spell parts.old.items) < 2 ^ 32 }
    ensures { Answers (DropLeads P.order P.spell start place parts.old.items) parts.new.items result }
{
    let Some(index) = index_at(parts, start, place) else {
        return false;
    };
    if !has_like(parts, index) {
        return false;
    }
    parts.remove(index);
    true
}
