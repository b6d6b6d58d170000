//! Canonical tags (RFC 5646, 4.5).
//!
//! First a tag is settled: its core and its extensions come to their normal forms. Then it is *replaced whole*: if it
//! can be, and its record as a whole tag has a value, that value, with its core settled, takes its place. *Shortcuts*
//! lead at once to the ends of a table's chains of values.
ghost use Rattle.std.specs.Prelude.{◌≡◌, false, All, IfOk, IfErr};
ghost use Rattle.lt_tag.specs.Parts.{LangTag};
ghost use Rattle.lt_registry.specs.Validity.{IsValid};
ghost use Rattle.lt_rewrite.specs.Conditions.{HasEndingChain};
ghost use Rattle.lt_rewrite.specs.Shortcuts.{AreShortcuts};
ghost use Rattle.lt_check.specs.Conditions.{IsValidCoreAlone, IsChecked};
ghost use Rattle.lt_canon.specs.Answers.{IsCanonicalFormOf, RefusesOnlyRepeats};
ghost use Rattle.lt_canon.specs.Refusals.{NamesFault, NamesRepeat, IsRefusedWith};
ghost use Rattle.lt_canon.specs.Settled.{IsCanonicalAnswer, IsDistinctForm, IsCoreRefusal, IsSettledTag, IsSettledValue, IsReplacedWhole};

use crate::refusals::Refusal;
use crate::repeats::{second_in_sources, second_occurrence};
use crate::usual_tags::{is_core_valued, usual_core};
use lt_check::Checked;
use lt_registry::{Lookup, validate};
use lt_rewrite::Shortcuts;
use lt_rewrite::values::{can_be_replaced_whole, whole_value};
use lt_subtag::Subtag;
use lt_tag::{Core, Extension, OutOfMemory, Tag};
use std::alloc::Global;

/// The canonical form of a tag (RFC 5646, 4.5): the one canonical tag that steps reach from it. `zh-yue` gives
/// `yue`.
///
/// - `Invalid`, with the fault that `validate` answers, exactly if the tag is not valid.
/// - `ReplacementRepeats` exactly if the tag is valid and steps can repeat a variant of it. It names the first
///   variant from the left that has occurred before, once no core step leads on: in the core or, if none has
///   there, in the source of the `t` extension.
/// - `OutOfMemory` where memory runs out.
///
/// A tag without extensions and private use is looked up once as a whole. Each subtag of a langtag of a
/// language, alone or with a script, a region or both, is looked up once besides; if one of them has a value,
/// the chain of values of each is followed. Of any other langtag the chains are followed besides what
/// `validate` looks up. No memory is taken for a tag without extensions and private use, if neither the tag
/// nor its value has variants.
#[tactic(auto, using(crate::proofs::CanonicalForms::repeats_answered))]
pub fn canonical<L: Lookup>(alloc: Global, checked: &Checked<L>, tag: &Tag) -> Result<Tag, Refusal>
    // Three clauses say of a refusal that it is only for an invalid tag or a repeat (`repeats`), and names the tag's
    // first fault (`invalid`) or the first variant that is repeated (`named`).
    ensures ok { IfOk result (λ form. IsCanonicalFormOf (L.listed checked.now) tag.now form) }
    ensures repeats { IfErr result (λ refusal. RefusesOnlyRepeats (L.listed checked.now) tag.now refusal) }
    ensures invalid { IfErr result (λ refusal. NamesFault (L.listed checked.now) tag.now refusal) }
    ensures named { IfErr result (λ refusal. NamesRepeat (L.listed checked.now) tag.now refusal) }
{
    canonical_of(alloc, checked, tag.copy(alloc)?)
}

/// The canonical form of a tag, made of the parts of that tag, so that they are not copied. It is refused as
/// `canonical` refuses.
pub(crate) fn canonical_of<L: Lookup>(
    alloc: Global,
    checked: &Checked<L>,
    tag: Tag,
) -> Result<Tag, Refusal>
    ensures { IsCanonicalAnswer (L.listed checked.now) tag result }
{
    let table = checked.table();
    let shortcuts = checked.shortcuts();
    if !needs_settling(alloc, table, &tag)? {
        return Ok(replaced_whole(alloc, table, shortcuts, tag)?);
    }
    let settled = match tag.into_parts() {
        Ok((core, extensions, private)) => {
            settled_langtag(alloc, table, shortcuts, core, extensions, private)?
        }
        Err(tag) => tag,
    };
    Ok(replaced_whole(alloc, table, shortcuts, settled)?)
}

/// Whether the core or an extension of a tag may be out of its normal form. True says only that the tag is valid, and
/// false also that it is settled as it stands. Refused with `Invalid` exactly if the tag is not valid, and with
/// `OutOfMemory` where memory runs out.
#[tactic(auto, using(crate::proofs::UsualForms::usual_refused, crate::proofs::UsualForms::usual_valid, crate::proofs::UsualForms::usual_settled))]
fn needs_settling<L: Lookup>(alloc: Global, table: &L, tag: &Tag) -> Result<bool, Refusal>
    ensures valid { IfOk result (λ needs. IsValid (L.listed table.now) tag.now) }
    ensures settled { IfOk result (λ needs. needs ≡ false → IsSettledTag (L.listed table.now) tag.now tag.now) }
    ensures refusal { IfErr result (IsRefusedWith (L.listed table.now) tag.now) }
{
    match usual_core(tag) {
        Some(core) => Ok(is_core_valued(table, core)?),
        None => {
            validate(alloc, table, tag)?;
            Ok(true)
        }
    }
}

/// The langtag of these parts, with its core and its extensions in their normal forms. Refused with
/// `ReplacementRepeats` if a variant occurs twice in one of these forms, and with `OutOfMemory` where memory runs out.
/// The parts must be those of a valid langtag, the table must pass the check, and the shortcuts must be the table's.
#[tactic(auto, using(crate::proofs::CanonicalForms::transforms_have_parts, crate::proofs::CanonicalForms::core_refused, crate::proofs::CanonicalForms::form_count, crate::proofs::CanonicalForms::form_spells_none))]
fn settled_langtag<L: Lookup>(
    alloc: Global,
    table: &L,
    shortcuts: &Shortcuts,
    mut core: Core,
    mut extensions: Vec<Extension>,
    private: Vec<Subtag>,
) -> Result<Tag, Refusal>
    requires shortcuts { AreShortcuts (L.listed table.now) shortcuts.now }
    requires checked { IsChecked (L.listed table.now) }
    requires valid { IsValid (L.listed table.now) (LangTag core extensions.items private.items) }
    ensures settled { IfOk result (IsSettledTag (L.listed table.now) (LangTag core extensions.items private.items)) }
    ensures refusal { IfErr result (IsRefusedWith (L.listed table.now) (LangTag core extensions.items private.items)) }
{
    settle_core(table, shortcuts, &mut core)?;
    shortcuts.settle_extensions(alloc, table, &mut extensions)?;
    if let Some(variant) = second_in_sources(alloc, &extensions)? {
        return Err(Refusal::ReplacementRepeats(variant));
    }
    Ok(Tag::from_parts(core, extensions, private))
}

/// Puts a core into its core normal form. Refused with `ReplacementRepeats` if a variant occurs twice in that form.
/// Each chain of values of the table must end, and the shortcuts must be the table's.
fn settle_core<L: Lookup>(table: &L, shortcuts: &Shortcuts, core: &mut Core) -> Result<(), Refusal>
    requires shortcuts { AreShortcuts (L.listed table.now) shortcuts.now }
    requires chains { All (HasEndingChain (L.listed table.now)) (L.listed table.now) }
    ensures form { IfOk result (λ _. IsDistinctForm (L.listed table.now) core.old core.new) }
    ensures refusal { IfErr result (λ refusal. IsCoreRefusal (L.listed table.now) core.old refusal) }
{
    shortcuts.settle_core(table, core);
    match second_occurrence(core.variants()) {
        Some(variant) => Err(Refusal::ReplacementRepeats(variant)),
        None => Ok(()),
    }
}

/// The preferred value of a tag that can be replaced whole (grandfathered, or without extensions and private use), with
/// its core in core normal form. A tag without a value, or that can't be replaced whole, is given back. The table must
/// pass the check, and the shortcuts must be the table's.
#[tactic(auto, using(lt_check::proofs::CheckedRegistry::value_plain))]
fn replaced_whole<L: Lookup>(
    alloc: Global,
    table: &L,
    shortcuts: &Shortcuts,
    tag: Tag,
) -> Result<Tag, OutOfMemory>
    requires shortcuts { AreShortcuts (L.listed table.now) shortcuts.now }
    requires checked { IsChecked (L.listed table.now) }
    ensures { IfOk result (IsReplacedWhole (L.listed table.now) tag) }
{
    if !can_be_replaced_whole(&tag) {
        return Ok(tag);
    }
    match whole_value(table, &tag) {
        Some(value) => settled_value(alloc, table, shortcuts, value),
        None => Ok(tag),
    }
}

/// The preferred value of a record of a whole tag, with its core in core normal form. The value must be a valid langtag
/// without extensions and private use (`plain`), as C9 of the check asks. The table must pass the check, and the
/// shortcuts must be the table's.
#[tactic(auto, using(crate::proofs::TagForm::ending_chains, crate::proofs::CanonicalForms::value_spells_none))]
fn settled_value<L: Lookup>(
    alloc: Global,
    table: &L,
    shortcuts: &Shortcuts,
    value: &Tag,
) -> Result<Tag, OutOfMemory>
    requires shortcuts { AreShortcuts (L.listed table.now) shortcuts.now }
    requires checked { IsChecked (L.listed table.now) }
    requires plain { IsValidCoreAlone (L.listed table.now) value.now }
    ensures { IfOk result (λ settled. IsSettledValue (L.listed table.now) value.now settled) }
{
    let Some(core) = value.core() else {
        return value.copy(alloc);
    };
    let mut settled = core.copy(alloc)?;
    shortcuts.settle_core(table, &mut settled);
    Ok(Tag::from_parts(settled, Vec::new(alloc), Vec::new(alloc)))
}
