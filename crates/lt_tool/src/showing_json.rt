//! What the records of a registry say of a tag, as a line of JSON. The contracts state whether the tag is refused,
//! but not the bytes of the line, so the functions that only append some have none.
ghost use Rattle.std.specs.Prelude.{IfOk};
ghost use Rattle.lt_tool.specs.Shown.{EndsTag, ShowsObject};

use lt_canon::{Checked, Refusal, TextRefusal, Trace, explain};
use lt_jar::Record;
use lt_lines::append_refusal;
use lt_registry::Lookup;
use lt_rewrite::Step;
use lt_show::{
    append_comma, append_first_name, append_name, append_null, append_number, append_rows,
    append_string,
};
use lt_tag::{OutOfMemory, Tag, TagFaultKind, read_tag, write_tag};
use std::alloc::{AllocError, Global};

/// Appends a step as a JSON object: its kind, its place, and the number of its record.
fn append_step(objects: &mut Vec<u8>, step: &Step) -> Result<(), AllocError> {
    append_first_name(objects, b"kind")?;
    append_string(objects, step.kind.name().as_bytes())?;
    append_name(objects, b"place")?;
    append_number(objects, step.place)?;
    append_name(objects, b"record")?;
    append_number(objects, step.number)?;
    objects.push(b'}')?;
    Ok(())
}

/// Appends the steps as a JSON array.
fn append_steps(objects: &mut Vec<u8>, steps: &[Step]) -> Result<(), AllocError> {
    objects.push(b'[')?;
    for (index, step) in steps.iter().enumerate() {
        append_comma(objects, index)?;
        append_step(objects, step)?;
    }
    objects.push(b']')?;
    Ok(())
}

/// Appends the last members of the object of a tag that has a canonical form, by its explanation `trace`, and ends the
/// line.
fn append_explained(
    objects: &mut Vec<u8>,
    alloc: Global,
    trace: &Trace,
) -> Result<(), OutOfMemory> {
    let canonical = write_tag(alloc, &trace.last)?;
    append_name(objects, b"canonical")?;
    append_string(objects, &canonical)?;
    append_name(objects, b"steps")?;
    append_steps(objects, &trace.steps)?;
    append_name(objects, b"fault")?;
    append_null(objects)?;
    objects.extend_from_slice(b"}\n")?;
    Ok(())
}

/// The line of a refusal without `! ` and the line feed: its name, a space, and the place of the fault or the variant,
/// for example `BadByte 1`.
fn told_of(alloc: Global, refusal: &TextRefusal) -> Result<Vec<u8>, OutOfMemory> {
    let mut line = Vec::new(alloc);
    append_refusal(&mut line, refusal)?;
    let mut told = Vec::new(alloc);
    told.extend_from_slice(&line[2..line.len() - 1])?;
    Ok(told)
}

/// Appends the last members of the object of a refused text, and ends the line. `told` is what `told_of` gives for the
/// refusal.
fn append_refused(objects: &mut Vec<u8>, told: &[u8]) -> Result<(), OutOfMemory> {
    append_name(objects, b"canonical")?;
    append_null(objects)?;
    append_name(objects, b"steps")?;
    objects.extend_from_slice(b"[]")?;
    append_name(objects, b"fault")?;
    append_string(objects, told)?;
    objects.extend_from_slice(b"}\n")?;
    Ok(())
}

/// Appends the last members of a tag's object, which are its canonical form, its steps and its fault, and ends the
/// line. Tells whether the tag is refused.
fn append_answer<L: Lookup>(
    objects: &mut Vec<u8>,
    alloc: Global,
    checked: &Checked<L>,
    tag: &Tag,
) -> Result<bool, OutOfMemory>
    ensures { IfOk result (EndsTag (L.listed checked.now) tag.now) }
{
    match explain(alloc, checked, tag) {
        Ok(trace) => {
            append_explained(objects, alloc, &trace)?;
            Ok(false)
        }
        Err(Refusal::OutOfMemory) => Err(OutOfMemory),
        Err(refusal) => {
            let told = told_of(alloc, &TextRefusal::from(refusal))?;
            append_refused(objects, &told)?;
            Ok(true)
        }
    }
}

/// Appends the beginning of an object, with the text as it was given.
fn append_input(objects: &mut Vec<u8>, text: &[u8]) -> Result<(), OutOfMemory> {
    append_first_name(objects, b"input")?;
    append_string(objects, text)?;
    Ok(())
}

/// Appends the object of a text that is no tag; `refusal` says why it is none.
fn append_no_tag(
    objects: &mut Vec<u8>,
    alloc: Global,
    text: &[u8],
    refusal: &TextRefusal,
) -> Result<(), OutOfMemory> {
    let told = told_of(alloc, refusal)?;
    append_input(objects, text)?;
    append_name(objects, b"tag")?;
    append_null(objects)?;
    append_name(objects, b"rows")?;
    objects.extend_from_slice(b"[]")?;
    append_refused(objects, &told)?;
    Ok(())
}

/// Appends the members of a tag's object up to its rows: the text as it was given, the tag in conventional case, and a row for
/// each subtag.
fn append_tag_rows<L: Lookup>(
    objects: &mut Vec<u8>,
    alloc: Global,
    checked: &Checked<L>,
    records: &[Record],
    text: &[u8],
    tag: &Tag,
) -> Result<(), OutOfMemory> {
    let spelled = write_tag(alloc, tag)?;
    append_input(objects, text)?;
    append_name(objects, b"tag")?;
    append_string(objects, &spelled)?;
    append_name(objects, b"rows")?;
    append_rows(objects, alloc, checked.table(), records, tag)?;
    Ok(())
}

/// Appends what `show` prints of a text as a line of JSON, and tells whether the text is refused. `Err` means that
/// memory ran out; a part of the line may have been appended then.
pub(crate) fn append_object<L: Lookup>(
    objects: &mut Vec<u8>,
    alloc: Global,
    checked: &Checked<L>,
    records: &[Record],
    text: &[u8],
) -> Result<bool, OutOfMemory>
    ensures { IfOk result (ShowsObject (L.listed checked.now) text.now) }
{
    let tag = match read_tag(alloc, text) {
        Ok(tag) => tag,
        Err(fault) if fault.kind == TagFaultKind::OutOfMemory => return Err(OutOfMemory),
        Err(fault) => {
            append_no_tag(objects, alloc, text, &TextRefusal::NotATag(fault))?;
            return Ok(true);
        }
    };
    append_tag_rows(objects, alloc, checked, records, text, &tag)?;
    append_answer(objects, alloc, checked, &tag)
}
