//! The kind of each part of a tag, part by part.
ghost use Rattle.std.specs.Prelude.{◌≡◌, ◌++◌, flat_map, map, IfOk, OnOk};
ghost use Rattle.lt_tag.specs.Extensions.{unicode, transform};
ghost use Rattle.lt_show.specs.PartKinds as spec;
ghost use Rattle.lt_show.specs.PartKinds.{each};

use crate::kinds::PartKind;
use lt_subtag::Subtag;
use lt_tag::{
    Core, Extension, Field, Keyword, OutOfMemory, TParts, Tag, TransformFault, UParts, split_t,
    split_u,
};
use std::alloc::Global;

/// Adds `kind` once for each subtag.
fn append_each(
    kinds: &mut Vec<PartKind>,
    kind: PartKind,
    subtags: &[Subtag],
) -> Result<(), OutOfMemory>
    ensures { OnOk result (kinds.new.items ≡ kinds.old.items ++ each kind subtags.now) }
{
    for _ in subtags {
        kinds.push(kind)?;
    }
    Ok(())
}

/// The kinds of the subtags of a core, in their order.
fn core_kinds(alloc: Global, core: &Core) -> Result<Vec<PartKind>, OutOfMemory>
    ensures { IfOk result (λ kinds. kinds.items ≡ spec.core_kinds core.now) }
{
    let mut kinds = Vec::new(alloc);
    kinds.push(PartKind::Language)?;
    append_each(&mut kinds, PartKind::Extlang, core.extlangs())?;
    if core.script().is_some() {
        kinds.push(PartKind::Script)?;
    }
    if core.region().is_some() {
        kinds.push(PartKind::Region)?;
    }
    append_each(&mut kinds, PartKind::Variant, core.variants())?;
    Ok(kinds)
}

/// Adds the kinds of the subtags of keywords: for each keyword those of its key and its types.
fn append_keywords(kinds: &mut Vec<PartKind>, keywords: &[Keyword]) -> Result<(), OutOfMemory>
    ensures { OnOk result (kinds.new.items ≡ kinds.old.items ++ flat_map spec.keyword_kinds keywords.now) }
{
    for keyword in keywords {
        kinds.push(PartKind::Key)?;
        append_each(kinds, PartKind::Type, &keyword.types)?;
    }
    Ok(())
}

/// Adds the kinds of the subtags of a `u` extension: attributes, then keywords.
fn append_u(kinds: &mut Vec<PartKind>, parts: &UParts) -> Result<(), OutOfMemory>
    ensures { OnOk result (kinds.new.items ≡ kinds.old.items ++ spec.u_kinds parts.now) }
{
    append_each(kinds, PartKind::Attribute, &parts.attributes)?;
    append_keywords(kinds, &parts.keywords)
}

/// Adds the kinds of the subtags of a source: those of a core, each turned into the kind that it has in a source.
fn append_source(alloc: Global, kinds: &mut Vec<PartKind>, source: &Core) -> Result<(), OutOfMemory>
    ensures { OnOk result (kinds.new.items ≡ kinds.old.items ++ map spec.in_source (spec.core_kinds source.now)) }
{
    for kind in &core_kinds(alloc, source)? {
        kinds.push(kind.in_source())?;
    }
    Ok(())
}

/// Adds the kinds of the subtags of fields: for each field those of its separator and its values.
fn append_fields(kinds: &mut Vec<PartKind>, fields: &[Field]) -> Result<(), OutOfMemory>
    ensures { OnOk result (kinds.new.items ≡ kinds.old.items ++ flat_map spec.field_kinds fields.now) }
{
    for field in fields {
        kinds.push(PartKind::Separator)?;
        append_each(kinds, PartKind::Value, &field.values)?;
    }
    Ok(())
}

/// Adds the kinds of the subtags of a `t` extension: a source, then fields.
fn append_t(alloc: Global, kinds: &mut Vec<PartKind>, parts: &TParts) -> Result<(), OutOfMemory>
    ensures { OnOk result (kinds.new.items ≡ kinds.old.items ++ spec.t_kinds parts.now) }
{
    if let Some(source) = &parts.source {
        append_source(alloc, kinds, source)?;
    }
    append_fields(kinds, &parts.fields)
}

/// Adds the kinds of the subtags after the singleton of a `u` extension, which can always be split into its parts. The
/// singleton must be `u`: by that `subtag_kinds` gives these kinds.
fn append_unicode(
    alloc: Global,
    kinds: &mut Vec<PartKind>,
    extension: &Extension,
) -> Result<(), OutOfMemory>
    requires { extension.now.singleton ≡ unicode }
    ensures { OnOk result (kinds.new.items ≡ kinds.old.items ++ spec.subtag_kinds extension.now) }
{
    let parts = split_u(alloc, extension)?;
    append_u(kinds, &parts)
}

/// Adds the kinds of the subtags after the singleton of a `t` extension. If they don't have the form of RFC 6497, 2.2, each is
/// an `ExtensionSubtag`. The singleton must be `t`: by that `subtag_kinds` gives these kinds.
fn append_transform(
    alloc: Global,
    kinds: &mut Vec<PartKind>,
    extension: &Extension,
) -> Result<(), OutOfMemory>
    requires { extension.now.singleton ≡ transform }
    ensures { OnOk result (kinds.new.items ≡ kinds.old.items ++ spec.subtag_kinds extension.now) }
{
    match split_t(alloc, extension) {
        Ok(parts) => append_t(alloc, kinds, &parts),
        Err(TransformFault::BadTransform) => {
            append_each(kinds, PartKind::ExtensionSubtag, extension.subtags())
        }
        Err(TransformFault::OutOfMemory) => Err(OutOfMemory),
    }
}

/// Adds the kinds of the subtags of extensions: for each extension those of its singleton and of the subtags after it.
fn append_extensions(
    alloc: Global,
    kinds: &mut Vec<PartKind>,
    extensions: &[Extension],
) -> Result<(), OutOfMemory>
    ensures { OnOk result (kinds.new.items ≡ kinds.old.items ++ flat_map spec.extension_kinds extensions.now) }
{
    for extension in extensions {
        kinds.push(PartKind::Singleton)?;
        match extension.singleton() {
            b'u' => append_unicode(alloc, kinds, extension)?,
            b't' => append_transform(alloc, kinds, extension)?,
            _ => append_each(kinds, PartKind::ExtensionSubtag, extension.subtags())?,
        }
    }
    Ok(())
}

/// Adds the kinds of an `x` and of the subtags after it, or nothing if there is no private use.
fn append_private(kinds: &mut Vec<PartKind>, subtags: &[Subtag]) -> Result<(), OutOfMemory>
    ensures { OnOk result (kinds.new.items ≡ kinds.old.items ++ spec.private_kinds subtags.now) }
{
    if subtags.is_empty() {
        return Ok(());
    }
    kinds.push(PartKind::PrivateUseSingleton)?;
    append_each(kinds, PartKind::PrivateUse, subtags)
}

/// The kinds of the parts of a tag, in their order. Each subtag is a part, but a grandfathered tag is one part as a
/// whole.
pub(crate) fn part_kinds(alloc: Global, tag: &Tag) -> Result<Vec<PartKind>, OutOfMemory>
    ensures { IfOk result (λ kinds. kinds.items ≡ spec.part_kinds tag.now) }
{
    let mut kinds = match tag.core() {
        Some(core) => core_kinds(alloc, core)?,
        None => Vec::new(alloc),
    };
    if tag.grandfathered().is_some() {
        kinds.push(PartKind::Grandfathered)?;
        return Ok(kinds);
    }
    append_extensions(alloc, &mut kinds, tag.extensions())?;
    append_private(&mut kinds, tag.private())?;
    Ok(kinds)
}
