//! One step on the parts of a `u` extension (RFC 5646, 4.5; RFC 6067). A clause `Answers` says of a call that takes a
//! step: it gives true if the step leads to the parts after the call, and false if there is no such step. Places must
//! be below 2^32, since a step holds its place as a `u32`.
ghost use Rattle.std.specs.Prelude.{◌≡◌, ◌<◌, ◌+◌, ◌^◌, [], ◌∷◌, MatchBool, length, flat_map, codes};
ghost use Rattle.lt_tag.specs.Extensions.{spell_keyword, spell_u};
ghost use Rattle.lt_rewrite.specs.Applying.{Answers, TrueLeads, UnicodeLeads};

use crate::part_applying::{drop_at, index_at, swap_at};
use crate::steps::{Step, StepKind};
use lt_tag::{Keyword, UParts};

/// Whether the types of a keyword are exactly `true`, so that a DropTrue step may take them.
pub(crate) fn has_sole_true(keyword: &Keyword) -> bool
    ensures { MatchBool result (keyword.now.types ≡ codes "true" ∷ []) (keyword.now.types ≡ codes "true" ∷ [] → ⊥) }
{
    match keyword.types.as_slice() {
        [only] => only.bytes() == b"true".as_slice(),
        _ => false,
    }
}

/// Takes out the types of a keyword.
pub(crate) fn drop_types(keyword: &mut Keyword)
    ensures { keyword.new ≡ record keyword.old { types = [] } }
{
    keyword.types.clear();
}

/// Takes the only type, `true`, from the keyword whose key is right before this place. False, and nothing changes, if
/// no key is there, or if the types of its keyword are not exactly `true`. The keywords begin after `start` subtags,
/// and the place after their last subtag must be below 2^32.
fn drop_true_at(keywords: &mut Vec<Keyword>, start: usize, place: u32) -> bool
    requires { start + 1 + length (flat_map spell_keyword keywords.old.items) < 2 ^ 32 }
    ensures { Answers (TrueLeads start place keywords.old.items) keywords.new.items result }
{
    // The key is one place before its first type.
    let Some(index) = index_at(keywords, start + 1, place) else {
        return false;
    };
    if !has_sole_true(&keywords[index]) {
        return false;
    }
    drop_types(&mut keywords[index]);
    true
}

/// Takes a step on the parts of a `u` extension: two neighbours change places, or an attribute, a keyword or the only
/// type `true` is dropped. The extension's singleton is at the place `start`, and the place after its last subtag must
/// be below 2^32. False, and nothing changes, if there is no such step.
pub(crate) fn apply_to_unicode(parts: &mut UParts, start: usize, step: Step) -> bool
    requires { start + 1 + length (spell_u parts.old) < 2 ^ 32 }
    ensures { Answers (UnicodeLeads start parts.old step) parts.new result }
{
    // No step on these parts uses a record.
    if step.number != 0 {
        return false;
    }
    let first_key = start + parts.attributes.len();
    match step.kind {
        StepKind::SwapAttributes => swap_at(&mut parts.attributes, start, step.place),
        StepKind::DropAttribute => drop_at(&mut parts.attributes, start, step.place),
        StepKind::SwapKeywords => swap_at(&mut parts.keywords, first_key, step.place),
        StepKind::DropKeyword => drop_at(&mut parts.keywords, first_key, step.place),
        StepKind::DropTrue => drop_true_at(&mut parts.keywords, first_key, step.place),
        _ => false,
    }
}
