//! Joining parts to `u` and `t` extensions. Parts spell the subtags after the singleton. A refused call may have added
//! some of its subtags to the list: no clause says what is in the list then.
ghost use Rattle.std.specs.Prelude.{◌≡◌, ◌≤◌, ◌++◌, length, flat_map, IfOk, OnOk};
ghost use Rattle.lt_tag.specs.Spelling.{spell_core};
ghost use Rattle.lt_tag.specs.Extensions.{unicode, transform, spell_keyword, spell_u, IsU, spell_field, spell_t, IsT};
ghost use Rattle.lt_tag.specs.Lists.{longest_text};

use crate::cores::Core;
use crate::extensions::Extension;
use crate::faults::OutOfMemory;
use crate::parts::{Field, Keyword, TParts, UParts};
use crate::splitting::append;
use lt_subtag::Subtag;
use std::alloc::Global;

/// Adds the subtags of keywords, each key and its types, at the end of a list. The only refusal is running out of
/// memory.
fn append_keywords(list: &mut Vec<Subtag>, keywords: &[Keyword]) -> Result<(), OutOfMemory>
    ensures { OnOk result (list.new.items ≡ list.old.items ++ flat_map spell_keyword keywords.now) }
{
    for keyword in keywords {
        list.push(keyword.key.copy())?;
        append(list, &keyword.types)?;
    }
    Ok(())
}

/// Adds the subtags of fields, each separator and its values, at the end of a list. The only refusal is running out
/// of memory.
fn append_fields(list: &mut Vec<Subtag>, fields: &[Field]) -> Result<(), OutOfMemory>
    ensures { OnOk result (list.new.items ≡ list.old.items ++ flat_map spell_field fields.now) }
{
    for field in fields {
        list.push(field.separator.copy())?;
        append(list, &field.values)?;
    }
    Ok(())
}

/// Adds the subtags of a core, in their order, at the end of a list. The only refusal is running out of memory.
fn append_core(list: &mut Vec<Subtag>, core: &Core) -> Result<(), OutOfMemory>
    ensures { OnOk result (list.new.items ≡ list.old.items ++ spell_core core.now) }
{
    list.push(core.language().copy())?;
    append(list, core.extlangs())?;
    if let Some(script) = core.script() {
        list.push(script.copy())?;
    }
    if let Some(region) = core.region() {
        list.push(region.copy())?;
    }
    append(list, core.variants())
}

/// The `u` extension that parts spell (RFC 6067, 2.1): attributes, then each key and its types. The parts must have
/// their forms, and must spell 1 to 1,024 subtags. The only refusal is running out of memory.
pub fn join_u(alloc: Global, parts: &UParts) -> Result<Extension, OutOfMemory>
    requires shaped { IsU parts.now }
    requires few { length (spell_u parts.now) ≤ longest_text }
    ensures { IfOk result (λ extension. extension ≡ record { singleton = unicode; subtags = spell_u parts.now }) }
{
    let mut subtags = Vec::new(alloc);
    append(&mut subtags, &parts.attributes)?;
    append_keywords(&mut subtags, &parts.keywords)?;
    Ok(Extension::of_parts(b'u', subtags))
}

/// The `t` extension that parts spell (RFC 6497, 2.2): the source, then each separator and its values. The parts must
/// have their forms, and must spell 1 to 1,024 subtags. The only refusal is running out of memory.
pub fn join_t(alloc: Global, parts: &TParts) -> Result<Extension, OutOfMemory>
    requires shaped { IsT parts.now }
    requires few { length (spell_t parts.now) ≤ longest_text }
    ensures { IfOk result (λ extension. extension ≡ record { singleton = transform; subtags = spell_t parts.now }) }
{
    let mut subtags = Vec::new(alloc);
    if let Some(source) = &parts.source {
        append_core(&mut subtags, source)?;
    }
    append_fields(&mut subtags, &parts.fields)?;
    Ok(Extension::of_parts(b't', subtags))
}
