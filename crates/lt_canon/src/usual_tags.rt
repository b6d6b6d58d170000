//! Langtags of the usual kind: a language, alone or with a script, a region or both. Their subtags are looked up once
//! each: that tells whether the tag is valid, and where none has a value, that its core is in normal form. A *place* is
//! that of a subtag in the tag, counted from 1.
ghost use Rattle.std.specs.Prelude.{◌≡◌, IfSome};
ghost use Rattle.std.specs.Option.{option_copied};
ghost use Rattle.lt_tag.specs.Values.{IsTagValue, core_alone};
ghost use Rattle.lt_registry.specs.Entries.{entry};
ghost use Rattle.lt_canon.specs.UsualTags.{IsUsual, one_valued, part_valued, core_valued};

use lt_registry::{Entry, Kind, Lookup, ValidFault, ValidFaultKind};
use lt_rewrite::values::one_value;
use lt_subtag::Subtag;
use lt_tag::{Core, Tag};

/// The core of a langtag of the usual kind: without extlangs, variants, extensions and private use. None of any other
/// tag. The clause `tag` says what each tag keeps, for the proofs of callers.
pub(crate) fn usual_core(tag: &Tag) -> Option<&Core>
    ensures usual { IfSome result (λ core. IsUsual core.now) }
    ensures alone { IfSome result (λ core. tag.now ≡ core_alone core.now) }
    ensures tag { IsTagValue tag.now }
{
    let core = tag.core_alone()?;
    if core.extlangs().is_empty() && core.variants().is_empty() {
        Some(core)
    } else {
        None
    }
}

/// Whether the entry of a subtag has a preferred value. Refused with a fault of this kind, at this place, if there is
/// no entry.
fn is_valued(entry: Option<&Entry>, kind: ValidFaultKind, place: u32) -> Result<bool, ValidFault>
    ensures { result ≡ one_valued kind place (option_copied entry.entry) }
{
    match entry {
        Some(entry) => Ok(one_value(entry).is_some()),
        None => Err(ValidFault { kind, place }),
    }
}

/// Whether a script or a region has a preferred value. False if `part` is None. Refused with `fault`, at this place, if
/// the subtag is not registered.
fn is_part_valued<L: Lookup>(
    table: &L,
    kind: Kind,
    fault: ValidFaultKind,
    place: u32,
    part: Option<&Subtag>,
) -> Result<bool, ValidFault>
    ensures { result ≡ part_valued (L.listed table.now) kind fault place (option_copied part.entry) }
{
    match part {
        Some(subtag) => is_valued(table.entry(kind, subtag), fault, place),
        None => Ok(false),
    }
}

/// Whether the language, the script or the region of a core has a preferred value. Refused if one of them is not
/// registered, with the fault of the first such subtag and its place, counted from 1. The language is at the place 1,
/// the script at 2, and the region at 2, or 3 after a script.
#[tactic(auto, unfolding(crate::specs::UsualTags::core_valued))]
pub(crate) fn is_core_valued<L: Lookup>(table: &L, core: &Core) -> Result<bool, ValidFault>
    ensures { result ≡ core_valued (L.listed table.now) core.now }
{
    let language = is_valued(
        table.entry(Kind::Language, core.language()),
        ValidFaultKind::UnknownLanguage,
        1,
    )?;
    let script = is_part_valued(
        table,
        Kind::Script,
        ValidFaultKind::UnknownScript,
        2,
        core.script(),
    )?;
    let place = if core.script().is_some() { 3 } else { 2 };
    let region = is_part_valued(
        table,
        Kind::Region,
        ValidFaultKind::UnknownRegion,
        place,
        core.region(),
    )?;
    Ok(language || script || region)
}
