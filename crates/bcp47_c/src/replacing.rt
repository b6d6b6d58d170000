//! A tag with one of its sections replaced or taken away. The new section is given as a text, the value. It is read as
//! part of a text that must be a tag, the bearing text: that is the value itself for a language, and the value behind
//! the language `de` for any other section.
ghost use Rattle.std.specs.Prelude.{◌≡◌, ◌≤◌, ◌++◌, None, IfOk, IfErr, OnOk, not, position, drop, flat_map, length, option_to_list, option_copied};
ghost use Rattle.std.specs.List.{join_with_byte};
ghost use Rattle.lt_tag.specs.Lists.{longest_text};
ghost use Rattle.lt_tag.specs.Spelling.{spell_extensions, spell_private};
ghost use Rattle.lt_tag.specs.Texts.{text_of};
ghost use Rattle.lt_tag.specs.Values.{core_of};
ghost use Rattle.lt_tag.specs.WellFormed.{IsTag, spell};
ghost use Rattle.lt_show.specs.declared.placing.Part.{Part};
ghost use Rattle.bcp47_c.specs.Replacing as spec;
ghost use Rattle.bcp47_c.specs.Replacing.{IsNoLangtag, IsNoValue, IsReplacement, IsReplacingRefusal, IsSectionOf, IsTooLong, ReadsLangtag, ReadsValue, Replaces, form, hyphened, replaced, with_core, with_extensions, with_private};

use crate::numbers::{BAD_CALL, DONE, NOT_A_TAG, OUT_OF_MEMORY, tag_fault};
use crate::outcomes::{Outcome, Said, deliver, ended, of_text};
use bcp47::{
    Core, Extension, OutOfMemory, Part, PartKind, Subtag, Tag, TagFault, TagFaultKind, parts,
    read_tag, write_tag,
};
use std::alloc::Global;

/// The sections of a langtag (RFC 5646, 2.1), each of which is replaced as a whole.
#[derive(Clone, Copy)]
pub(crate) enum Section {
    /// The language, with its extlangs: `zh-yue`.
    Language,
    /// The script: `Hant`.
    Script,
    /// The region: `HK`.
    Region,
    /// All variants: `rozaj-biske`.
    Variants,
    /// All extensions: `t-it-u-co-phonebk`.
    Extensions,
    /// Private use, with its `x`: `x-a`.
    PrivateUse,
}

/// A langtag by what it is made of (RFC 5646, 2.1).
#[derive(Drop)]
struct Langtag {
    core: Core,
    extensions: Vec<Extension>,
    private: Vec<Subtag>,
}

/// Why a section is not replaced (`said`), and which text is refused: 1 the tag's, 2 the value, 0 what they make.
#[derive(Drop)]
pub(crate) struct Refused {
    pub(crate) text: u32,
    pub(crate) said: Said,
}

/// The section with this number in C, or None if there is none. The number of a section is that of the kind of its
/// first part: 6, a singleton, for the extensions.
fn section_of(number: u32) -> Option<Section>
    ensures { IsSectionOf number result }
{
    Some(match number {
        1 => Section::Language,
        3 => Section::Script,
        4 => Section::Region,
        5 => Section::Variants,
        6 => Section::Extensions,
        18 => Section::PrivateUse,
        _ => return None,
    })
}

/// Whether a part of this kind is in a section.
fn has(section: Section, kind: PartKind) -> bool
    ensures { result ≡ spec.has section kind }
{
    match section {
        Section::Language => match kind {
            PartKind::Language | PartKind::Extlang => true,
            _ => false,
        },
        Section::Script => match kind {
            PartKind::Script => true,
            _ => false,
        },
        Section::Region => match kind {
            PartKind::Region => true,
            _ => false,
        },
        Section::Variants => match kind {
            PartKind::Variant => true,
            _ => false,
        },
        Section::Extensions => match kind {
            PartKind::Language
            | PartKind::Extlang
            | PartKind::Script
            | PartKind::Region
            | PartKind::Variant
            | PartKind::PrivateUseSingleton
            | PartKind::PrivateUse
            | PartKind::Grandfathered => false,
            _ => true,
        },
        Section::PrivateUse => match kind {
            PartKind::PrivateUseSingleton | PartKind::PrivateUse => true,
            _ => false,
        },
    }
}

/// How many subtags come before the value in the bearing text: `de`, or none.
fn before_value(section: Section) -> u32
    ensures { result ≡ spec.before_value section }
{
    match section {
        Section::Language => 0,
        _ => 1,
    }
}

/// What an outcome says of a fault of a text whose first `skipped` subtags are not counted, as `de` is not in a
/// bearing text.
pub(crate) fn fault_said(skipped: u32, fault: TagFault) -> Said
    ensures { result ≡ spec.fault_said skipped fault }
{
    match fault.kind {
        TagFaultKind::OutOfMemory => ended(OUT_OF_MEMORY),
        kind => Said {
            status: NOT_A_TAG,
            detail: tag_fault(kind),
            place: u64::from(fault.place.saturating_sub(skipped)),
        },
    }
}

impl From<OutOfMemory> for Said {
    ghost from_gives = { λ _ said. said ≡ spec.no_memory };

    /// What an outcome says where memory ran out.
    fn from(_error: OutOfMemory) -> Said {
        ended(OUT_OF_MEMORY)
    }
}

/// The langtag that a tag is. Refused if the whole tag is private use, such as `x-a`, or grandfathered, such as
/// `i-klingon`: only those have no core.
fn langtag_of(tag: Tag) -> Result<Langtag, Said>
    ensures langtag { IfOk result (λ langtag. form langtag ≡ tag) }
    ensures none { IfErr result (λ said. (core_of tag ≡ None) × (said ≡ spec.no_language)) }
{
    match tag.into_parts() {
        Ok((core, extensions, private)) => Ok(Langtag {
            core,
            extensions,
            private,
        }),
        Err(_) => Err(Said {
            status: NOT_A_TAG,
            detail: tag_fault(TagFaultKind::BadLanguage),
            place: 1,
        }),
    }
}

/// The langtag that a text is read as, or why it is none, or that memory ran out. The 0 of the clause says that no
/// subtag is left out when the place of a fault is counted.
fn read_langtag(alloc: Global, text: &[u8]) -> Result<Langtag, Said>
    ensures langtag { IfOk result (λ langtag. ReadsLangtag text.now (form langtag)) }
    ensures none { IfErr result (IsNoLangtag 0 text.now) }
{
    match read_tag(alloc, text) {
        Ok(tag) => langtag_of(tag),
        Err(fault) => Err(fault_said(0, fault)),
    }
}

/// The bearing text, by which the value of a section is read: for a language the value itself, and for any other
/// section `de-hk` for the value `hk`, and `de` for an empty value. No language is shorter than `de`, so a value that
/// is too long behind `de` is too long for every tag. Refused if memory runs out.
fn bearing(alloc: Global, section: Section, value: &[u8]) -> Result<Vec<u8>, OutOfMemory>
    ensures { IfOk result (λ text. text.items ≡ spec.bearing section value.now) }
{
    let mut text = Vec::new(alloc);
    if before_value(section) == 1 {
        text.extend_from_slice(b"de")?;
        if !value.is_empty() {
            text.push(b'-')?;
        }
    }
    text.extend_from_slice(value)?;
    Ok(text)
}

/// The parts of a value. `parts` are those of its bearing text.
fn parts_of_value(section: Section, parts: &[Part]) -> &[Part]
    ensures { result.now ≡ drop (spec.before_value section) parts.now }
{
    match section {
        Section::Language => parts,
        _ => match parts {
            [_, rest @ ..] => rest,
            [] => parts,
        },
    }
}

/// The place, counted from 0, of the first part of a value that is not in the section. None if all parts are. `parts`
/// are those of the value's bearing text.
fn foreign(section: Section, parts: &[Part]) -> Option<usize>
    ensures { result ≡ position (λ (part : Part). not (spec.has section part.kind)) (drop (spec.before_value section) parts.now) }
{
    parts_of_value(section, parts)
        .iter()
        .position(|part| !has(section, part.kind))
}

/// The langtag that the bearing text of a value is read as, which has no part of another section but `de`; or why the
/// value does not have the form of the section. An empty value gives a langtag without the section, and is refused for
/// a language.
#[tactic(auto, using(crate::proofs::Replaced::no_value_memory))]
fn read_value(alloc: Global, section: Section, value: &[u8]) -> Result<Langtag, Said>
    ensures value { IfOk result (λ langtag. ReadsValue section value.now (form langtag)) }
    ensures none { IfErr result (IsNoValue section value.now) }
{
    let text = bearing(alloc, section, value)?;
    let tag = match read_tag(alloc, &text) {
        Ok(tag) => tag,
        Err(fault) => return Err(fault_said(before_value(section), fault)),
    };
    let parts = parts(alloc, &tag)?;
    let langtag = langtag_of(tag)?;
    match foreign(section, &parts) {
        Some(index) => Err(Said {
            status: NOT_A_TAG,
            detail: tag_fault(TagFaultKind::Misplaced),
            place: index as u64 + 1,
        }),
        None => Ok(langtag),
    }
}

/// The core whose language and extlangs the tag has, once a section of it is replaced by that of the other. The clauses
/// state only these two, since the rest of that core need not be what the tag then has.
fn language<'a>(section: Section, tag: &'a Langtag, other: &'a Langtag) -> &'a Core
    ensures language { result.now.language ≡ (with_core section tag.now.core other.now.core).language }
    ensures extlangs { result.now.extlangs ≡ (with_core section tag.now.core other.now.core).extlangs }
{
    match section {
        Section::Language => &other.core,
        _ => &tag.core,
    }
}

/// The script, or None if there is none, once a section of the tag is replaced by that of the other.
fn script<'a>(section: Section, tag: &'a Langtag, other: &'a Langtag) -> Option<&'a Subtag>
    ensures { option_copied result ≡ (with_core section tag.now.core other.now.core).script }
{
    match section {
        Section::Script => other.core.script(),
        _ => tag.core.script(),
    }
}

/// The region, or None if there is none, once a section of the tag is replaced by that of the other.
fn region<'a>(section: Section, tag: &'a Langtag, other: &'a Langtag) -> Option<&'a Subtag>
    ensures { option_copied result ≡ (with_core section tag.now.core other.now.core).region }
{
    match section {
        Section::Region => other.core.region(),
        _ => tag.core.region(),
    }
}

/// The variants, once a section of the tag is replaced by that of the other.
fn variants<'a>(section: Section, tag: &'a Langtag, other: &'a Langtag) -> &'a [Subtag]
    ensures { result.now ≡ (with_core section tag.now.core other.now.core).variants }
{
    match section {
        Section::Variants => other.core.variants(),
        _ => tag.core.variants(),
    }
}

/// The extensions, once a section of the tag is replaced by that of the other.
fn extensions<'a>(section: Section, tag: &'a Langtag, other: &'a Langtag) -> &'a [Extension]
    ensures { result.now ≡ with_extensions section tag.now.extensions.items other.now.extensions.items }
{
    match section {
        Section::Extensions => &other.extensions,
        _ => &tag.extensions,
    }
}

/// The subtags of private use, once a section of the tag is replaced by that of the other.
fn private<'a>(section: Section, tag: &'a Langtag, other: &'a Langtag) -> &'a [Subtag]
    ensures { result.now ≡ with_private section tag.now.private.items other.now.private.items }
{
    match section {
        Section::PrivateUse => &other.private,
        _ => &tag.private,
    }
}

/// Appends a subtag, by its bytes, to a text, after a hyphen.
fn add(text: &mut Vec<u8>, subtag: &[u8]) -> Result<(), OutOfMemory>
    ensures { OnOk result (text.new.items ≡ text.old.items ++ hyphened subtag.now) }
{
    text.push(b'-')?;
    text.extend_from_slice(subtag)?;
    Ok(())
}

/// Appends subtags to a text, each after a hyphen.
fn add_all(text: &mut Vec<u8>, subtags: &[Subtag]) -> Result<(), OutOfMemory>
    ensures { OnOk result (text.new.items ≡ text.old.items ++ flat_map hyphened subtags.now) }
{
    for subtag in subtags {
        add(text, subtag.bytes())?;
    }
    Ok(())
}

/// Appends a subtag to a text after a hyphen, if there is one.
fn add_option(text: &mut Vec<u8>, subtag: Option<&Subtag>) -> Result<(), OutOfMemory>
    ensures { OnOk result (text.new.items ≡ text.old.items ++ flat_map hyphened (option_to_list (option_copied subtag.entry))) }
{
    match subtag {
        Some(there) => add(text, there.bytes()),
        None => Ok(()),
    }
}

/// Appends the subtags of extensions to a text, each after a hyphen.
fn add_extensions(text: &mut Vec<u8>, extensions: &[Extension]) -> Result<(), OutOfMemory>
    ensures { OnOk result (text.new.items ≡ text.old.items ++ flat_map hyphened (spell_extensions extensions.now)) }
{
    for extension in extensions {
        add(text, &[extension.singleton()])?;
        add_all(text, extension.subtags())?;
    }
    Ok(())
}

/// Appends `x` and the subtags of private use to a text, each after a hyphen, if there are any.
fn add_private(text: &mut Vec<u8>, subtags: &[Subtag]) -> Result<(), OutOfMemory>
    ensures { OnOk result (text.new.items ≡ text.old.items ++ flat_map hyphened (spell_private subtags.now)) }
{
    if subtags.is_empty() {
        return Ok(());
    }
    add(text, b"x")?;
    add_all(text, subtags)
}

/// The subtags, in lower case and with hyphens (45) between them, of a tag with a section replaced by that of
/// another.
#[tactic(auto, using(crate::proofs::Replaced::spelled_joined))]
fn join(
    alloc: Global,
    section: Section,
    tag: &Langtag,
    other: &Langtag,
) -> Result<Vec<u8>, OutOfMemory>
    ensures { IfOk result (λ text. text.items ≡ join_with_byte 45 (spell (replaced section (form tag.now) (form other.now)))) }
{
    let first = language(section, tag, other);
    let mut text = Vec::from_slice(alloc, first.language().bytes())?;
    add_all(&mut text, first.extlangs())?;
    add_option(&mut text, script(section, tag, other))?;
    add_option(&mut text, region(section, tag, other))?;
    add_all(&mut text, variants(section, tag, other))?;
    add_extensions(&mut text, extensions(section, tag, other))?;
    add_private(&mut text, private(section, tag, other))?;
    Ok(text)
}

/// The text of a tag with a section replaced by that of another, in conventional case (`made`). Both must have the form
/// of a tag. The joined subtags are read again, since only a tag that was read is written in conventional case. Refused
/// if the text has more than 1,024 bytes, which is `longest_text`, or memory runs out, and for no other reason
/// (`long`). By `short` a text that is given is not longer than that.
fn write_replaced(
    alloc: Global,
    section: Section,
    tag: &Langtag,
    other: &Langtag,
) -> Result<Vec<u8>, Said>
    requires tag { IsTag (form tag.now) }
    requires other { IsTag (form other.now) }
    ensures made { IfOk result (λ made. made.items ≡ text_of (replaced section (form tag.now) (form other.now))) }
    ensures short { IfOk result (λ made. length made.items ≤ longest_text) }
    ensures long { IfErr result (IsTooLong (replaced section (form tag.now) (form other.now))) }
{
    let joined = join(alloc, section, tag, other)?;
    match read_tag(alloc, &joined) {
        Ok(whole) => Ok(write_tag(alloc, &whole)?),
        Err(fault) => Err(fault_said(0, fault)),
    }
}

/// The text of the tag that a text is read as, with a section replaced by a value; an empty value takes the section
/// away. Or why the text, the value or what they make is refused.
pub(crate) fn replace(
    alloc: Global,
    section: Section,
    text: &[u8],
    value: &[u8],
) -> Result<Vec<u8>, Refused>
    ensures made { IfOk result (λ made. IsReplacement section text.now value.now made.items) }
    ensures refused { IfErr result (IsReplacingRefusal section text.now value.now) }
{
    let tag = match read_langtag(alloc, text) {
        Ok(tag) => tag,
        Err(said) => return Err(Refused { text: 1, said }),
    };
    let other = match read_value(alloc, section, value) {
        Ok(other) => other,
        Err(said) => return Err(Refused { text: 2, said }),
    };
    match write_replaced(alloc, section, &tag, &other) {
        Ok(made) => Ok(made),
        Err(said) => Err(Refused { text: 0, said }),
    }
}

/// Writes the text, in conventional case, of the tag that a text is read as, with one of its sections replaced by a
/// value (RFC 5646, 2.1): `zh-Hant-TW` for `zh-TW` and the script `hant`. An empty value takes the section away: `zh`
/// for `zh-TW` and no region. `part` is the number of the section, which is that of the kind of its first part: 1, a
/// language, with its extlangs; 3, a script; 4, a region; 5, all variants; 6, all extensions; 18, private use with its
/// `x`. It asks no registry.
///
/// Status 1 says that a text is refused, with the fault and its place. The outcome's `text` is 1 if `text` is no
/// langtag, for example `i-klingon` (BadLanguage at 1), 2 if the value does not have the form of the section, and 0 if
/// what they make has more than 1,024 bytes. Status 4 says that memory ran out, and 14 that no section has the number.
#[unsafe(no_mangle)]
pub extern "C" fn bcp47_write_with(
    alloc: Global,
    text: &[u8],
    part: u32,
    value: &[u8],
    buffer: &mut [u8],
) -> Outcome
    ensures { Replaces part text.now value.now buffer.old buffer.new result }
{
    let Some(section) = section_of(part) else {
        return deliver(ended(BAD_CALL), &[], buffer);
    };
    match replace(alloc, section, text, value) {
        Ok(made) => deliver(ended(DONE), &made, buffer),
        Err(refused) => of_text(refused.text, deliver(refused.said, &[], buffer)),
    }
}
