//! The tag that the name of a POSIX locale stands for. A name is `language[_territory][.codeset][@modifier]`, as in
//! `sr_RS.UTF-8@latin`.
ghost use Rattle.std.specs.Prelude.{◌≡◌, ◌==◌, IfOk, IfErr, position};
ghost use Rattle.bcp47_c.specs.Posix as spec;
ghost use Rattle.bcp47_c.specs.Posix.{IsNoPosixTag, IsNotChanged, IsChanged, IsPosixTag, IsShownAs, WritesPosix};
ghost use Rattle.bcp47_c.specs.Replacing.{HasFaultSaid};

use crate::numbers::{DONE, NOT_A_TAG, tag_fault};
use crate::outcomes::{Outcome, Said, deliver, ended};
use crate::replacing::{Section, fault_said, replace};
use bcp47::{OutOfMemory, TagFaultKind, read_tag, write_tag};
use std::alloc::Global;

/// What the modifier of a locale says of its tag.
#[derive(Clone, Copy)]
enum Modifier {
    /// Nothing.
    Silent,
    /// It is written in Latin letters.
    Latin,
    /// It is written in Cyrillic letters.
    Cyrillic,
    /// It is written in Devanagari.
    Devanagari,
    /// It is Valencian.
    Valencia,
    /// It is Saho, which is registered as a language.
    Saaho,
}

/// Where the first byte of a text is that is `mark`. None if there is none.
fn first(text: &[u8], mark: u8) -> Option<usize>
    ensures { result ≡ position (λ byte. byte == mark) text.now }
{
    text.iter().position(|byte| *byte == mark)
}

/// What comes before the first byte of a text that is `mark`: all of the text if there is none.
fn before(text: &[u8], mark: u8) -> &[u8]
    ensures { result.now ≡ spec.before mark text.now }
{
    match first(text, mark) {
        Some(index) => &text[..index],
        None => text,
    }
}

/// What comes after the first byte of a text that is `mark`: nothing if there is none.
fn after(text: &[u8], mark: u8) -> &[u8]
    ensures { result.now ≡ spec.after mark text.now }
{
    match first(text, mark) {
        Some(index) => &text[index + 1..],
        None => &[],
    }
}

/// Whether a modifier says nothing of the tag: it is empty, or `euro`, which names a currency, or `abegede`, which
/// names an order of letters.
fn is_silent(text: &[u8]) -> bool
    ensures { result ≡ spec.is_silent text.now }
{
    text == b"".as_slice() || text == b"euro".as_slice() || text == b"abegede".as_slice()
}

/// Whether a modifier names Latin letters; `iqtelif` are those of Tatar.
fn is_latin(text: &[u8]) -> bool
    ensures { result ≡ spec.is_latin text.now }
{
    text == b"latin".as_slice() || text == b"iqtelif".as_slice()
}

/// What a modifier says of the tag. None if the modifier is not known.
fn modifier_of(text: &[u8]) -> Option<Modifier>
    ensures { result ≡ spec.modifier_of text.now }
{
    if is_silent(text) {
        return Some(Modifier::Silent);
    }
    if is_latin(text) {
        return Some(Modifier::Latin);
    }
    if text == b"cyrillic".as_slice() {
        return Some(Modifier::Cyrillic);
    }
    if text == b"devanagari".as_slice() {
        return Some(Modifier::Devanagari);
    }
    if text == b"valencia".as_slice() {
        return Some(Modifier::Valencia);
    }
    if text == b"saaho".as_slice() {
        return Some(Modifier::Saaho);
    }
    None
}

/// The section of the tag that a modifier replaces. None if it replaces none.
fn section_of(modifier: Modifier) -> Option<Section>
    ensures { result ≡ spec.section_of modifier }
{
    match modifier {
        Modifier::Silent => None,
        Modifier::Latin | Modifier::Cyrillic | Modifier::Devanagari => Some(Section::Script),
        Modifier::Valencia => Some(Section::Variants),
        Modifier::Saaho => Some(Section::Language),
    }
}

/// The value that a modifier puts in place of the section that it replaces. It is empty for `Silent`, which replaces none.
fn value_of(modifier: Modifier) -> &'static [u8]
    ensures { result.now ≡ spec.value_of modifier }
{
    match modifier {
        Modifier::Silent => b"",
        Modifier::Latin => b"latn",
        Modifier::Cyrillic => b"cyrl",
        Modifier::Devanagari => b"deva",
        Modifier::Valencia => b"valencia",
        Modifier::Saaho => b"ssy",
    }
}

/// A hyphen for an underscore, and any other byte as it is.
fn hyphen_for(byte: u8) -> u8
    ensures { result ≡ spec.hyphen_for byte }
{
    if byte == b'_' { b'-' } else { byte }
}

/// The text of the tag of a locale, which is given without its codeset and its modifier: hyphens stand for underscores.
/// `C` and `POSIX` stand for American English with the order and the forms of POSIX.
fn tag_text(alloc: Global, locale: &[u8]) -> Result<Vec<u8>, OutOfMemory>
    ensures { IfOk result (λ text. text.items ≡ spec.tag_text locale.now) }
{
    if locale == b"C".as_slice() || locale == b"POSIX".as_slice() {
        return Ok(Vec::from_slice(alloc, b"en-US-u-va-posix")?);
    }
    let mut text = Vec::with_capacity(alloc, locale.len())?;
    for byte in locale {
        text.push(hyphen_for(*byte))?;
    }
    Ok(text)
}

/// The text of the tag that a text is read as, in conventional case, or why the text is no tag. The 0 of the clause
/// says that no subtag is left out when the place of a fault is counted.
#[tactic(auto, using(crate::proofs::Locales::no_fault_memory))]
fn show(alloc: Global, text: &[u8]) -> Result<Vec<u8>, Said>
    ensures shown { IfOk result (λ made. IsShownAs text.now made.items) }
    ensures fault { IfErr result (HasFaultSaid 0 text.now) }
{
    match read_tag(alloc, text) {
        Ok(tag) => match write_tag(alloc, &tag) {
            Ok(made) => Ok(made),
            Err(error) => Err(Said::from(error)),
        },
        Err(fault) => Err(fault_said(0, fault)),
    }
}

/// The text of the tag that a text is read as, with the value in place of the section; if there is no section, the tag
/// is not changed. Or why the text, the value or what they make is refused.
#[tactic(auto, using(crate::proofs::Locales::not_changed))]
fn change(
    alloc: Global,
    section: Option<Section>,
    text: &[u8],
    value: &[u8],
) -> Result<Vec<u8>, Said>
    ensures changed { IfOk result (λ made. IsChanged section text.now value.now made.items) }
    ensures refused { IfErr result (IsNotChanged section text.now value.now) }
{
    let Some(section) = section else {
        return show(alloc, text);
    };
    match replace(alloc, section, text, value) {
        Ok(made) => Ok(made),
        Err(refused) => Err(refused.said),
    }
}

/// The text of the tag that the name of a locale stands for, or why there is none. An unknown modifier is the fault
/// BadByte at 0, since the modifier has no place in the tag.
fn tag_of(alloc: Global, name: &[u8]) -> Result<Vec<u8>, Said>
    ensures made { IfOk result (λ made. IsPosixTag name.now made.items) }
    ensures refused { IfErr result (IsNoPosixTag name.now) }
{
    let Some(modifier) = modifier_of(after(name, b'@')) else {
        return Err(Said {
            status: NOT_A_TAG,
            detail: tag_fault(TagFaultKind::BadByte),
            place: 0,
        });
    };
    let text = tag_text(alloc, before(before(name, b'@'), b'.'))?;
    change(alloc, section_of(modifier), &text, value_of(modifier))
}

/// Writes the text, in conventional case, of the tag that the name of a POSIX locale stands for: `sr-Latn-RS` for
/// `sr_RS.UTF-8@latin`. No RFC says which tag it is: that is a rule of this project. Hyphens stand for underscores, and
/// the codeset is left out. The modifiers `latin`, `iqtelif`, `cyrillic` and `devanagari` name a script, `valencia` a
/// variant, `saaho` a language; `euro` and `abegede` say nothing of the tag. `C` and `POSIX` stand for
/// `en-US-u-va-posix`. It asks no registry.
///
/// Status 1 says that there is no tag, with the number of the fault and its place, a subtag of the name; any other
/// modifier is the fault BadByte at 0. Status 4 says that memory ran out.
#[unsafe(no_mangle)]
pub extern "C" fn bcp47_write_posix(alloc: Global, name: &[u8], buffer: &mut [u8]) -> Outcome
    ensures { WritesPosix name.now buffer.old buffer.new result }
{
    match tag_of(alloc, name) {
        Ok(made) => deliver(ended(DONE), &made, buffer),
        Err(said) => deliver(said, &[], buffer),
    }
}
