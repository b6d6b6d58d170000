//! Where the parts of a tag are in its text.
ghost use Rattle.std.specs.Prelude.{◌≡◌, IfOk};
ghost use Rattle.lt_tag.specs.Lists.{pieces};
ghost use Rattle.lt_tag.specs.Texts.{text_of};
ghost use Rattle.lt_show.specs.Places.{parts_of, placed, Spell};

use crate::kinds::PartKind;
use crate::walks::part_kinds;
use lt_tag::{OutOfMemory, Tag, first_hyphen, write_tag};
use std::alloc::Global;

/// A part of a tag: what it is, and where it is in the text of the tag in conventional case (RFC 5646, 2.1.1).
#[derive(Clone, Copy, Debug, PartialEq, Eq)]
pub struct Part {
    /// What it is.
    pub kind: PartKind,
    /// Where its first byte is, counted from 0.
    pub start: usize,
    /// How many bytes it has: 1 to 8, or 5 to 11 where it is a whole grandfathered tag.
    pub length: usize,
}

/// The pieces of a text between its hyphens, each as a part of the kind that has the same index in `kinds`; the first
/// begins at 0. There are as many parts as the shorter of the two lists has elements: for a tag they are equally long.
/// The only refusal is running out of memory.
fn place(alloc: Global, kinds: &[PartKind], text: &[u8]) -> Result<Vec<Part>, OutOfMemory>
    ensures { IfOk result (λ parts. parts.items ≡ placed 0 kinds.now (pieces text.now)) }
{
    let mut parts = Vec::with_capacity(alloc, kinds.len())?;
    let mut start = 0;
    for kind in kinds {
        let rest = &text[start..];
        let end = first_hyphen(rest);
        let length = end.unwrap_or(rest.len());
        parts.push(Part {
            kind: *kind,
            start,
            length,
        })?;
        if end.is_none() {
            break;
        }
        start += length + 1;
    }
    Ok(parts)
}

/// The parts of a tag in their order: what each subtag is (RFC 5646, 2.1; RFC 6067, 2.1; RFC 6497, 2.2), and where it is in
/// the text that [`write_tag`](lt_tag::write_tag) gives. A grandfathered tag is one part.
///
/// For example, `zh-Hant-HK-x-ab` has a language of 2 bytes at 0, a script of 4 at 3, a region of 2 at 8, the `x` of
/// private use at 11 and a subtag of private use of 2 bytes at 13. The only refusal is running out of memory. The
/// clause `spell` adds that the parts lose nothing: what they cut out of the text, joined by hyphens, is the text.
pub fn parts(alloc: Global, tag: &Tag) -> Result<Vec<Part>, OutOfMemory>
    ensures parts { IfOk result (λ parts. parts.items ≡ parts_of tag.now) }
    ensures spell { IfOk result (λ parts. Spell parts.items (text_of tag.now)) }
{
    let text = write_tag(alloc, tag)?;
    let kinds = part_kinds(alloc, tag)?;
    if tag.grandfathered().is_some() {
        let mut parts = Vec::new(alloc);
        parts.push(Part {
            kind: PartKind::Grandfathered,
            start: 0,
            length: text.len(),
        })?;
        return Ok(parts);
    }
    place(alloc, &kinds, &text)
}
