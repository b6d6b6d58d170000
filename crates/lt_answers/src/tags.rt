//! The members of the tag that a text is read as.
ghost use Rattle.std.specs.Prelude.{◌≡◌, ◌++◌, OnOk};
ghost use Rattle.lt_show.specs.Values.{more_members};
ghost use Rattle.lt_answers.specs.Objects.{AppendsTag};
ghost use Rattle.lt_answers.specs.Tags.{members_of_none, members_of_tag};

use crate::classes::class_name;
use crate::cores::{append_core_of, append_no_core};
use crate::extensions::append_next_extensions;
use crate::subtags::append_next_subtags;
use lt_show::{append_next_null, append_next_string};
use lt_tag::{OutOfMemory, Tag, TagFaultKind, read_tag};
use std::alloc::{AllocError, Global};

/// Appends the members of a tag: its class, those of its core, its extensions and its private use.
#[tactic(auto, using(crate::proofs::ObjectLemmas::tag_is))]
fn append_members(objects: &mut Vec<u8>, alloc: Global, tag: &Tag) -> Result<(), OutOfMemory>
    ensures { OnOk result (objects.new.items ≡ objects.old.items ++ more_members (members_of_tag tag.now)) }
{
    append_next_string(objects, b"class", class_name(tag.class()).as_bytes())?;
    append_core_of(objects, tag.core())?;
    append_next_extensions(objects, alloc, tag.extensions())?;
    append_next_subtags(objects, b"private", tag.private())?;
    Ok(())
}

/// Appends the members for a text that is no tag: null and empty arrays.
#[tactic(auto, using(crate::proofs::ObjectLemmas::tag_is))]
fn append_none(objects: &mut Vec<u8>) -> Result<(), AllocError>
    ensures { OnOk result (objects.new.items ≡ objects.old.items ++ more_members members_of_none) }
{
    append_next_null(objects, b"class")?;
    append_no_core(objects)?;
    // An empty array is the same whatever its elements would be.
    append_next_subtags(objects, b"extensions", &[])?;
    append_next_subtags(objects, b"private", &[])?;
    Ok(())
}

/// Appends the members of the tag that a text is read as, which are null and empty arrays if the text is no tag.
#[tactic(auto, using(crate::proofs::ObjectLemmas::tag_read, crate::proofs::ObjectLemmas::no_tag_read))]
pub(crate) fn append_tag(
    objects: &mut Vec<u8>,
    alloc: Global,
    text: &[u8],
) -> Result<(), OutOfMemory>
    ensures { OnOk result (AppendsTag text.now objects.old.items objects.new.items) }
{
    match read_tag(alloc, text) {
        Ok(tag) => append_members(objects, alloc, &tag)?,
        Err(fault) => {
            if fault.kind == TagFaultKind::OutOfMemory {
                return Err(OutOfMemory);
            }
            append_none(objects)?;
        }
    }
    Ok(())
}
