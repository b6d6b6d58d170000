//! The fields of a record, for C.
ghost use Rattle.std.specs.Prelude.{◌≡◌, flat_map, map, IfOk};
ghost use Rattle.bcp47_c.specs.Records.{field_text, lengths_of};

use bcp47::{JarField, OutOfMemory};
use std::alloc::Global;

/// How long the name and the body of a field are. Their texts stand one after another, each with a zero after it.
#[repr(C)]
#[derive(Clone, Copy, Drop)]
pub struct FieldLengths {
    /// How many bytes the name has.
    pub name: usize,
    /// How many bytes the body has.
    pub body: usize,
}

/// The lengths of fields.
fn lengths(alloc: Global, fields: &[JarField]) -> Result<Vec<FieldLengths>, OutOfMemory>
    ensures { IfOk result (λ lengths. lengths.items ≡ map lengths_of fields.now) }
{
    let mut lengths = Vec::with_capacity(alloc, fields.len())?;
    for field in fields {
        lengths.push(FieldLengths {
            name: field.name().len(),
            body: field.body().len(),
        })?;
    }
    Ok(lengths)
}

/// The texts of fields: of each its name and its body, with a zero after each.
fn texts(alloc: Global, fields: &[JarField]) -> Result<Vec<u8>, OutOfMemory>
    ensures { IfOk result (λ texts. texts.items ≡ flat_map field_text fields.now) }
{
    let mut texts = Vec::new(alloc);
    for field in fields {
        texts.extend_from_slice(field.name().as_bytes())?;
        texts.push(0)?;
        texts.extend_from_slice(field.body().as_bytes())?;
        texts.push(0)?;
    }
    Ok(texts)
}

/// The lengths of fields and their texts. The only refusal is running out of memory.
pub(crate) fn read_fields(
    alloc: Global,
    fields: &[JarField],
) -> Result<(Vec<FieldLengths>, Vec<u8>), OutOfMemory>
    ensures lengths { IfOk result (λ read. read.0.items ≡ map lengths_of fields.now) }
    ensures texts { IfOk result (λ read. read.1.items ≡ flat_map field_text fields.now) }
{
    Ok((lengths(alloc, fields)?, texts(alloc, fields)?))
}
