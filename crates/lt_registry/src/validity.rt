//! Which tags are valid (RFC 5646, 2.2.9). A place is the number of a subtag in the tag, counted from 1, and `start` is
//! how many subtags are before a core.
//!
//! The bounds are there so that a place is a `u32`. A core has at most 1,030 subtags: a language, 3 extlangs, a script,
//! a region and 1,024 variants. So the first singleton is at most at 1,031. With 1,024 extensions of up to 1,025
//! subtags a tag has at most 1,050,630 before its private use, and 1,100,000 is a round number above that.
//!
//! `TellsOrLacks F M` says that a check answers Ok if there is no fault of `F`, else the first of them; it may answer
//! OutOfMemory instead, but only if `M` is true. `Counted may_repeat F` leaves out DuplicateVariant if variants may
//! repeat.
ghost use Rattle.std.specs.Prelude.{◌≡◌, ◌≤◌, ◌+◌, ◌↔◌, [], ◌∷◌, length, IsTrue, OnOk, OnErr, IfOk, IfErr};
ghost use Rattle.std.specs.Option.{option_copied};
ghost use Rattle.lt_tag.specs.Spelling.{spell_core};
ghost use Rattle.lt_tag.specs.Extensions.{transform};
ghost use Rattle.lt_tag.specs.Values.{extensions_of};
ghost use Rattle.lt_registry.specs.Faults.{HasNoFault, HasFault, HasExtensionFault, HasTransform, IsRefusal, RepeatsAtMost};
ghost use Rattle.lt_registry.specs.Checking as checking;
ghost use Rattle.lt_registry.specs.Checking.{Counted, TellsOrLacks};

use crate::entries::{Entry, Kind};
use crate::faults::{ValidFault, ValidFaultKind, ValidRefusal};
use crate::lookup::Lookup;
use crate::subtag_numbers::many_differ;
use lt_subtag::Subtag;
use lt_tag::{Core, Extension, OutOfMemory, Tag, TransformFault, split_t};
use std::alloc::Global;

/// Checks that a tag is valid (RFC 5646, 2.2.9). Refused with its first fault: the one with the least place and, of
/// those at one place, the first kind in the order of `ValidFaultKind`. Memory is taken only for the parts of a `t`
/// extension, so no other tag is refused with `OutOfMemory`.
pub fn validate<L: Lookup>(alloc: Global, table: &L, tag: &Tag) -> Result<(), ValidRefusal>
    ensures ok { OnOk result (HasNoFault (L.listed table.now) tag.now) }
    ensures err { IfErr result (IsRefusal (L.listed table.now) tag.now) }
{
    check_tag(alloc, table, tag, false)
}

/// Whether a tag is proper, which is valid except that variants may occur twice. The only refusal is running out of
/// memory, and only for a tag with a `t` extension.
pub fn proper<L: Lookup>(alloc: Global, table: &L, tag: &Tag) -> Result<bool, OutOfMemory>
    ensures answer { IfOk result (λ proper. IsTrue proper ↔ RepeatsAtMost (L.listed table.now) tag.now) }
    ensures memory { OnErr result (HasTransform (extensions_of tag.now)) }
{
    match check_tag(alloc, table, tag, true) {
        Ok(()) => Ok(true),
        Err(ValidRefusal::Fault(_)) => Ok(false),
        Err(ValidRefusal::OutOfMemory) => Err(OutOfMemory),
    }
}

/// Checks a tag, and refuses it with its first fault, or where memory runs out. If `may_repeat`, variants that repeat
/// are no fault.
#[tactic(auto, using(crate::proofs::TagFaultLemmas::tag_core_first, crate::proofs::TagFaultLemmas::tag_extensions_told))]
fn check_tag<L: Lookup>(
    alloc: Global,
    table: &L,
    tag: &Tag,
    may_repeat: bool,
) -> Result<(), ValidRefusal>
    ensures { TellsOrLacks (Counted may_repeat (HasFault (L.listed table.now) tag.now)) (HasTransform (extensions_of tag.now)) result }
{
    let Some(core) = tag.core() else {
        return Ok(());
    };
    check_core(table, core, 0, may_repeat)?;
    let place = core_length(core) + 1;
    check_extensions(alloc, table, tag.extensions(), place, may_repeat)
}

/// How many subtags a core has: a language, up to 3 extlangs, a script, a region, and up to 1,024 variants.
fn core_length(core: &Core) -> u32
    ensures same { result ≡ length (spell_core core.now) }
    ensures few { result ≤ 1030 }
{
    let mut length = 1 + core.extlangs().len() + core.variants().len();
    if core.script().is_some() {
        length += 1;
    }
    if core.region().is_some() {
        length += 1;
    }
    length as u32
}

/// Checks a core that begins after `start` subtags, at most 1,100,000, and refuses it with its first fault. If
/// `may_repeat`, variants that repeat are no fault.
#[tactic(auto, unfolding(crate::specs::Checking::core_check))]
fn check_core<L: Lookup>(
    table: &L,
    core: &Core,
    start: u32,
    may_repeat: bool,
) -> Result<(), ValidFault>
    requires { start ≤ 1100000 }
    ensures { result ≡ checking.core_check (L.listed table.now) may_repeat start core.now }
{
    let language = core.language();
    let known = table.entry(Kind::Language, language).is_some();
    check(known, ValidFaultKind::UnknownLanguage, start + 1)?;
    check_extlangs(table, start, language, core.extlangs())?;
    let mut place = start + 2 + core.extlangs().len() as u32;
    check_part(
        table,
        Kind::Script,
        ValidFaultKind::UnknownScript,
        place,
        core.script(),
    )?;
    if core.script().is_some() {
        place += 1;
    }
    check_part(
        table,
        Kind::Region,
        ValidFaultKind::UnknownRegion,
        place,
        core.region(),
    )?;
    if core.region().is_some() {
        place += 1;
    }
    check_variants(table, place, core.variants(), may_repeat)
}

/// Refuses with a fault of this kind and place unless `holds`.
fn check(holds: bool, kind: ValidFaultKind, place: u32) -> Result<(), ValidFault>
    ensures { result ≡ checking.unless holds kind place }
{
    if holds {
        Ok(())
    } else {
        Err(ValidFault { kind, place })
    }
}

/// Checks the extlangs of a core that begins after `start` subtags and has this language: the first is registered, the
/// language is one of its Prefixes, and there is no second one. Refused with the first fault of an extlang. `start`
/// must be at most 1,100,000.
fn check_extlangs<L: Lookup>(
    table: &L,
    start: u32,
    language: &Subtag,
    extlangs: &[Subtag],
) -> Result<(), ValidFault>
    requires { start ≤ 1100000 }
    ensures { result ≡ checking.extlangs_check (L.listed table.now) start language.now extlangs.now }
{
    let Some((first, others)) = extlangs.split_first() else {
        return Ok(());
    };
    check_prefix(table.entry(Kind::Extlang, first), start, language)?;
    check(
        others.is_empty(),
        ValidFaultKind::TooManyExtlangs,
        start + 3,
    )
}

/// Checks the first extlang of a core by its entry, None if it isn't registered. Refused with `UnknownExtlang`, or with
/// `ExtlangPrefix` if the language is none of its Prefixes. The core begins after `start` subtags, which must be at
/// most 1,100,000.
fn check_prefix(extlang: Option<&Entry>, start: u32, language: &Subtag) -> Result<(), ValidFault>
    requires { start ≤ 1100000 }
    ensures { result ≡ checking.prefix_check start language.now (option_copied extlang.entry) }
{
    match extlang {
        None => Err(ValidFault {
            kind: ValidFaultKind::UnknownExtlang,
            place: start + 2,
        }),
        Some(entry) => {
            let listed = entry.has_prefix(language);
            check(listed, ValidFaultKind::ExtlangPrefix, start + 2)
        }
    }
}

/// Checks that a subtag of this kind, a script or a region, is registered, if there is one. One that isn't is refused
/// with the fault `fault` at the subtag's place, `place`.
fn check_part<L: Lookup>(
    table: &L,
    kind: Kind,
    fault: ValidFaultKind,
    place: u32,
    part: Option<&Subtag>,
) -> Result<(), ValidFault>
    ensures { result ≡ checking.part_check (L.listed table.now) kind fault place (option_copied part.entry) }
{
    match part {
        None => Ok(()),
        Some(subtag) => check(table.entry(kind, subtag).is_some(), fault, place),
    }
}

/// Checks the variants of a core, of which the first has the place `start`: each is registered and, unless
/// `may_repeat`, none occurs twice. Refused with the first fault. Many variants are sorted first: if that shows that
/// all differ, none is looked for among those before it. Here `start` is a place; it must be at most 1,100,006: before
/// a core there are at most 1,100,000 subtags, and in it a language, one extlang (more are refused before), a script
/// and a region come before the variants. There must be at most 1,024 variants.
fn check_variants<L: Lookup>(
    table: &L,
    start: u32,
    variants: &[Subtag],
    may_repeat: bool,
) -> Result<(), ValidFault>
    requires place { start ≤ 1100000 + 6 }
    requires few { length variants.now ≤ 1024 }
    ensures { result ≡ checking.variants_check (L.listed table.now) may_repeat start [] variants.now }
{
    let differ_or_may_repeat = may_repeat || many_differ(variants);
    check_each_variant(table, start, variants, differ_or_may_repeat)
}

/// Checks one variant after another, of which the first has the place `start`. Unless `may_repeat`, each is looked for
/// among those before it. Refused with the first fault. `start` must be at most 1,100,006, as in [`check_variants`],
/// and there must be at most 1,024 variants.
#[tactic(auto, using(crate::proofs::VariantFaultLemmas::variants_on, crate::proofs::VariantFaultLemmas::variants_stop, crate::proofs::VariantFaultLemmas::variants_end))]
fn check_each_variant<L: Lookup>(
    table: &L,
    start: u32,
    variants: &[Subtag],
    may_repeat: bool,
) -> Result<(), ValidFault>
    requires place { start ≤ 1100000 + 6 }
    requires few { length variants.now ≤ 1024 }
    ensures { result ≡ checking.variants_check (L.listed table.now) may_repeat start [] variants.now }
{
    let mut place = start;
    for (index, variant) in variants.iter().enumerate() {
        check_variant(table, place, &variants[..index], variant, may_repeat)?;
        place += 1;
    }
    Ok(())
}

/// Checks a variant, which has this place and comes after those of `before`. Refused with `UnknownVariant`, or, unless
/// `may_repeat`, with `DuplicateVariant` if it is among them.
fn check_variant<L: Lookup>(
    table: &L,
    place: u32,
    before: &[Subtag],
    variant: &Subtag,
    may_repeat: bool,
) -> Result<(), ValidFault>
    ensures { result ≡ checking.variant_check (L.listed table.now) may_repeat place before.now variant.now }
{
    let known = table.entry(Kind::Variant, variant).is_some();
    check(known, ValidFaultKind::UnknownVariant, place)?;
    let fits = may_repeat || !before.contains(variant);
    check(fits, ValidFaultKind::DuplicateVariant, place)
}

/// Checks the extensions of a langtag: no singleton occurs twice, and each extension passes. The singleton of the first
/// has the place `first`. If `may_repeat`, variants that repeat in a source are no fault. Refused with the first fault,
/// or where memory runs out. `first` must be at most 1,031, and there must be at most 1,024 extensions.
#[tactic(auto, using(crate::proofs::TagFaultLemmas::told_extension, crate::proofs::TagFaultLemmas::stepped, crate::proofs::TagFaultLemmas::all_told))]
fn check_extensions<L: Lookup>(
    alloc: Global,
    table: &L,
    extensions: &[Extension],
    first: u32,
    may_repeat: bool,
) -> Result<(), ValidRefusal>
    requires place { first ≤ 1031 }
    requires few { length extensions.now ≤ 1024 }
    ensures { TellsOrLacks (Counted may_repeat (checking.ListFault (L.listed table.now) first [] extensions.now)) (HasTransform extensions.now) result }
{
    let mut place = first;
    for (index, extension) in extensions.iter().enumerate() {
        if has_singleton(&extensions[..index], extension.singleton()) {
            return Err(ValidRefusal::Fault(ValidFault {
                kind: ValidFaultKind::DuplicateSingleton,
                place,
            }));
        }
        check_extension(alloc, table, extension, place, may_repeat)?;
        place += 1 + extension.subtags().len() as u32;
    }
    Ok(())
}

/// Whether one of the extensions has a singleton.
fn has_singleton(extensions: &[Extension], singleton: u8) -> bool
    ensures { result ≡ checking.has_singleton extensions.now singleton }
{
    extensions
        .iter()
        .any(|extension| extension.singleton() == singleton)
}

/// Checks an extension whose singleton has this place: a `t` extension has its form, and its source passes. Any other
/// extension passes. If `may_repeat`, variants that repeat in the source are no fault. Refused with the first fault, or
/// where memory runs out. The place must be at most 1,100,000.
fn check_extension<L: Lookup>(
    alloc: Global,
    table: &L,
    extension: &Extension,
    place: u32,
    may_repeat: bool,
) -> Result<(), ValidRefusal>
    requires { place ≤ 1100000 }
    ensures { TellsOrLacks (Counted may_repeat (HasExtensionFault (L.listed table.now) place extension.now)) (extension.now.singleton ≡ transform) result }
{
    if extension.singleton() != b't' {
        return Ok(());
    }
    match split_t(alloc, extension) {
        Ok(parts) => Ok(check_source(table, &parts.source, place, may_repeat)?),
        Err(TransformFault::BadTransform) => Err(ValidRefusal::Fault(ValidFault {
            kind: ValidFaultKind::BadTransform,
            place,
        })),
        Err(TransformFault::OutOfMemory) => Err(ValidRefusal::OutOfMemory),
    }
}

/// Checks the source of a `t` extension, if it has one, and refuses it with its first fault. The extension's singleton
/// has this place, which must be at most 1,100,000. If `may_repeat`, variants that repeat are no fault.
fn check_source<L: Lookup>(
    table: &L,
    source: &Option<Core>,
    place: u32,
    may_repeat: bool,
) -> Result<(), ValidFault>
    requires { place ≤ 1100000 }
    ensures { result ≡ checking.source_check (L.listed table.now) may_repeat place source.now }
{
    match source {
        None => Ok(()),
        Some(core) => check_core(table, core, place, may_repeat),
    }
}
