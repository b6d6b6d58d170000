//! The parts of a tag in numbers, for C.
ghost use Rattle.std.specs.Prelude.{◌≡◌, ◌≢◌, [], map, IfOk, IfErr};
ghost use Rattle.lt_show.specs.PartKinds.{name_of};
ghost use Rattle.lt_show.specs.declared.kinds.PartKind.{PartKind};
ghost use Rattle.bcp47_c.specs.Outcomes.{IsDelivered, ended};
ghost use Rattle.bcp47_c.specs.Parts as spec;
ghost use Rattle.bcp47_c.specs.Parts.{HasParts, IsPartKindOf, TellsParts, in_numbers};
ghost use Rattle.bcp47_c.specs.Texts.{IsReadingRefusal};

use crate::numbers::DONE;
use crate::outcomes::{Outcome, deliver, deliver_rows, ended, refuse};
use bcp47::{OutOfMemory, Part, PartKind, Tag, TextRefusal, parts, write_tag};
use std::alloc::Global;

/// A part of a tag in numbers: that of its kind, and where it is in the text of the tag.
#[repr(C)]
#[derive(Clone, Copy, Drop)]
pub struct PartNumbers {
    /// The number of the kind, 1 to 20, whose name `bcp47_write_part_kind_name` writes.
    pub kind: u8,
    /// Where its first byte is, counted from 0.
    pub start: usize,
    /// How many bytes it has.
    pub length: usize,
}

/// The number that tells a kind of part.
fn part_kind(kind: PartKind) -> u8
    ensures { result ≡ spec.part_kind kind }
{
    match kind {
        PartKind::Language => 1,
        PartKind::Extlang => 2,
        PartKind::Script => 3,
        PartKind::Region => 4,
        PartKind::Variant => 5,
        PartKind::Singleton => 6,
        PartKind::ExtensionSubtag => 7,
        PartKind::Attribute => 8,
        PartKind::Key => 9,
        PartKind::Type => 10,
        PartKind::SourceLanguage => 11,
        PartKind::SourceExtlang => 12,
        PartKind::SourceScript => 13,
        PartKind::SourceRegion => 14,
        PartKind::SourceVariant => 15,
        PartKind::Separator => 16,
        PartKind::Value => 17,
        PartKind::PrivateUseSingleton => 18,
        PartKind::PrivateUse => 19,
        PartKind::Grandfathered => 20,
    }
}

/// The kind of part that has a number, or None if no kind has it.
fn kind_of(number: u8) -> Option<PartKind>
    ensures { IsPartKindOf number result }
{
    Some(match number {
        1 => PartKind::Language,
        2 => PartKind::Extlang,
        3 => PartKind::Script,
        4 => PartKind::Region,
        5 => PartKind::Variant,
        6 => PartKind::Singleton,
        7 => PartKind::ExtensionSubtag,
        8 => PartKind::Attribute,
        9 => PartKind::Key,
        10 => PartKind::Type,
        11 => PartKind::SourceLanguage,
        12 => PartKind::SourceExtlang,
        13 => PartKind::SourceScript,
        14 => PartKind::SourceRegion,
        15 => PartKind::SourceVariant,
        16 => PartKind::Separator,
        17 => PartKind::Value,
        18 => PartKind::PrivateUseSingleton,
        19 => PartKind::PrivateUse,
        20 => PartKind::Grandfathered,
        _ => return None,
    })
}

/// The name of the kind of part that has a number, or an empty text if no kind has it. In the clause `named`, `k` is
/// the kind with this number; no two kinds have the same one.
#[tactic(auto, using(crate::proofs::PartKindNumbers::same_part_kind))]
fn part_kind_name(number: u8) -> &'static str
    ensures named { (k : PartKind) → number ≡ spec.part_kind k → result.now ≡ name_of k }
    ensures none { ((k : PartKind) → number ≢ spec.part_kind k) → result.now ≡ [] }
{
    match kind_of(number) {
        Some(kind) => kind.name(),
        None => "",
    }
}

/// The parts, each with the number of its kind.
fn numbers_of(alloc: Global, parts: &[Part]) -> Result<Vec<PartNumbers>, OutOfMemory>
    ensures { IfOk result (λ numbers. numbers.items ≡ map in_numbers parts.now) }
{
    let mut numbers = Vec::with_capacity(alloc, parts.len())?;
    for part in parts {
        numbers.push(PartNumbers {
            kind: part_kind(part.kind),
            start: part.start,
            length: part.length,
        })?;
    }
    Ok(numbers)
}

/// The text, in conventional case, of the tag that a text is read as, and its parts in numbers, or why it is no tag.
fn read_parts(alloc: Global, text: &[u8]) -> Result<(Vec<u8>, Vec<PartNumbers>), TextRefusal>
    ensures parts { IfOk result (λ found. HasParts text.now found.0.items found.1.items) }
    ensures refusal { IfErr result (IsReadingRefusal text.now) }
{
    let tag = Tag::read(alloc, text)?;
    let shown = write_tag(alloc, &tag)?;
    let found = parts(alloc, &tag)?;
    Ok((shown, numbers_of(alloc, &found)?))
}

/// Writes the text, in conventional case (RFC 5646, 2.1.1), of the tag that a text is read as, and its parts (RFC
/// 5646, 2.1; RFC 6067, 2.1; RFC 6497, 2.2): status 0, and their number as the place. It asks no registry.
///
/// Status 1 says that the text is no tag, with the number of the fault and its place, and 4 that memory ran out. If
/// the text does not fit the buffer, or the parts the room, neither is written, and the status is 5; the place is then
/// the number of parts, and the length that of the text. A tag has at most 512 parts and 1,024 bytes.
#[unsafe(no_mangle)]
pub extern "C" fn bcp47_write_parts(
    alloc: Global,
    text: &[u8],
    buffer: &mut [u8],
    room: &mut [PartNumbers],
) -> Outcome
    ensures { TellsParts text.now room.old room.new buffer.old buffer.new result }
{
    match read_parts(alloc, text) {
        Ok((shown, numbers)) => deliver_rows(&numbers, &shown, room, buffer),
        Err(refusal) => refuse(&refusal, buffer),
    }
}

/// Writes the name of a kind of part, 1 to 20: `Extlang` for 2; nothing for another number.
#[unsafe(no_mangle)]
pub extern "C" fn bcp47_write_part_kind_name(kind: u8, buffer: &mut [u8]) -> Outcome
    ensures named { (k : PartKind) → kind ≡ spec.part_kind k → IsDelivered (ended 0) (name_of k) buffer.old buffer.new result }
    ensures none { ((k : PartKind) → kind ≢ spec.part_kind k) → IsDelivered (ended 0) [] buffer.old buffer.new result }
{
    deliver(ended(DONE), part_kind_name(kind).as_bytes(), buffer)
}
