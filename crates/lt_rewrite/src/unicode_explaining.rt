//! The steps on the parts of a `u` extension, one after another (RFC 5646, 4.5; RFC 6067): the leftmost DropAttribute
//! before SwapAttributes, DropKeyword, SwapKeywords and DropTrue. 1,200,000 is a round number above the places of a
//! tag's subtags, so they fit in a `u32`. The clause `shaped` says that parts which may be joined to an extension still
//! may be.
ghost use Rattle.std.specs.Prelude.{◌≤◌, ◌+◌, IfOk, length, flat_map};
ghost use Rattle.lt_tag.specs.Extensions.{IsU, spell_keyword, spell_u};
ghost use Rattle.lt_rewrite.specs.Applying.{UnicodeLeads};
ghost use Rattle.lt_rewrite.specs.Runs.{NoneLeads, DropsTrueBy, Adds, AddsOnUnicode};

use crate::keyword_applying::{drop_types, has_sole_true};
use crate::part_applying::Spelled;
use crate::part_explaining::{explain_drops, explain_swaps};
use crate::steps::{Step, StepKind};
use lt_tag::{Keyword, OutOfMemory, UParts};

/// Drops `true` from each keyword whose types are exactly `true`, from left to right. It adds the steps to `steps`, all
/// of one rank (`λ _ _. 0`). The keywords begin after `start` subtags, and `start` and the number of their subtags must
/// be at most 1,200,000 together. Refused only where memory runs out; some of the steps may have been taken then.
fn drop_trues(
    keywords: &mut Vec<Keyword>,
    start: usize,
    steps: &mut Vec<Step>,
) -> Result<(), OutOfMemory>
    requires { start + length (flat_map spell_keyword keywords.old.items) ≤ 1200000 }
    ensures adds { IfOk result (λ _. Adds (DropsTrueBy start) (λ _ _. 0) keywords.old.items keywords.new.items steps.old.items steps.new.items) }
    ensures at_rest { IfOk result (λ _. NoneLeads (DropsTrueBy start keywords.new.items)) }
{
    // The place of the key of the keyword at the index.
    let mut here = start + 1;
    for index in 0..keywords.len() {
        if has_sole_true(&keywords[index]) {
            drop_types(&mut keywords[index]);
            steps.push(Step {
                kind: StepKind::DropTrue,
                place: (here + 1) as u32,
                number: 0,
            })?;
        }
        here += keywords[index].subtag_count();
    }
    Ok(())
}

/// Takes the first step on the parts of a `u` extension again and again, until there is none. It adds the steps to
/// `steps`. The extension's singleton is at the place `start`, and its last subtag must be at a place of at most
/// 1,200,000. Refused only where memory runs out; some of the steps may have been taken then.
pub(crate) fn explain_u(
    parts: &mut UParts,
    start: usize,
    steps: &mut Vec<Step>,
) -> Result<(), OutOfMemory>
    requires few { start + length (spell_u parts.old) ≤ 1200000 }
    ensures adds { IfOk result (λ _. AddsOnUnicode start parts.old parts.new steps.old.items steps.new.items) }
    ensures at_rest { IfOk result (λ _. NoneLeads (UnicodeLeads start parts.new)) }
    ensures shaped { IfOk result (λ _. IsU parts.old → IsU parts.new) }
{
    explain_drops(&mut parts.attributes, start, StepKind::DropAttribute, steps)?;
    explain_swaps(
        &mut parts.attributes,
        start,
        StepKind::SwapAttributes,
        steps,
    )?;
    let first_key = start + parts.attributes.len();
    explain_drops(&mut parts.keywords, first_key, StepKind::DropKeyword, steps)?;
    explain_swaps(
        &mut parts.keywords,
        first_key,
        StepKind::SwapKeywords,
        steps,
    )?;
    drop_trues(&mut parts.keywords, first_key, steps)?;
    Ok(())
}
