//! The parent of a tag: the tag without its last part, and without the singletons that then end it (RFC 4647, 3.4). A
//! part is a subtag, or a whole grandfathered tag.
ghost use Rattle.std.specs.Prelude.{◌≡◌, IfOk, IfErr, None};
ghost use Rattle.std.specs.Option.{option_copied};
ghost use Rattle.lt_tag.specs.Texts.{text_of};
ghost use Rattle.lt_show.specs.Places.{parts_of};
ghost use Rattle.bcp47_c.specs.Outcomes.{Answers};
ghost use Rattle.bcp47_c.specs.Parents as spec;
ghost use Rattle.bcp47_c.specs.Texts.{IsReadingRefusal};

use crate::numbers::DONE;
use crate::outcomes::{Outcome, deliver, ended, refuse};
use bcp47::{OutOfMemory, Part, Tag, TextRefusal, parts, write_tag};
use std::alloc::Global;

/// A tag's text, and its parts.
#[derive(Drop)]
struct Shown {
    text: Vec<u8>,
    parts: Vec<Part>,
}

/// The text and the parts of a tag. The only refusal is running out of memory.
fn show(alloc: Global, tag: &Tag) -> Result<Shown, OutOfMemory>
    ensures text { IfOk result (λ shown. shown.text.items ≡ text_of tag.now) }
    ensures parts { IfOk result (λ shown. shown.parts.items ≡ parts_of tag.now) }
{
    let text = write_tag(alloc, tag)?;
    let parts = parts(alloc, tag)?;
    Ok(Shown { text, parts })
}

/// The last of some parts that has more than one byte, and so is no singleton. None if there is none. The None of the
/// clause says that no such part comes before these.
fn last_long(parts: &[Part]) -> Option<&Part>
    ensures { option_copied result ≡ spec.last_long None parts.now }
{
    let mut last = None;
    for part in parts {
        if part.length != 1 {
            last = Some(part);
        }
    }
    last
}

/// The text of a tag without its last part, and without the singletons that then end it: empty if nothing is left. The
/// only refusal is running out of memory.
fn parent(alloc: Global, tag: &Tag) -> Result<Vec<u8>, OutOfMemory>
    ensures { IfOk result (λ parent. parent.items ≡ spec.parent_of tag.now) }
{
    let Shown { mut text, parts } = show(alloc, tag)?;
    let end = match last_long(&parts[..parts.len().saturating_sub(1)]) {
        Some(part) => part.start.checked_add(part.length).unwrap_or(text.len()),
        None => 0,
    };
    text.truncate(end);
    Ok(text)
}

/// The text of the parent of the tag that a text is read as, or why the text is no tag.
fn read_parent(alloc: Global, text: &[u8]) -> Result<Vec<u8>, TextRefusal>
    ensures parent { IfOk result (λ parent. spec.IsParentOf text.now parent.items) }
    ensures refusal { IfErr result (IsReadingRefusal text.now) }
{
    let tag = Tag::read(alloc, text)?;
    Ok(parent(alloc, &tag)?)
}

/// Writes the text, in conventional case, of the tag that a text is read as, without its last subtag, and without the
/// singletons that then end it (RFC 4647, 3.4): `zh-Hant` for `zh-Hant-TW`, and nothing if nothing is left. A
/// grandfathered tag has no parent: nothing is written. Status 1 says that the text is no tag, with the number of the
/// fault and its place, and 4 that memory ran out.
#[unsafe(no_mangle)]
pub extern "C" fn bcp47_write_parent(alloc: Global, text: &[u8], buffer: &mut [u8]) -> Outcome
    ensures { Answers (spec.IsParentOf text.now) (IsReadingRefusal text.now) buffer.old buffer.new result }
{
    match read_parent(alloc, text) {
        Ok(parent) => deliver(ended(DONE), &parent, buffer),
        Err(refusal) => refuse(&refusal, buffer),
    }
}
