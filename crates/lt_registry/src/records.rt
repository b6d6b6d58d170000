//! The entry that a record gives (RFC 5646, 3.1).
ghost use Rattle.std.specs.Prelude.{◌≡◌, IfOk, IfErr, IfSome, true, false};
ghost use Rattle.std.specs.List.{AllByRecursion};
ghost use Rattle.lt_subtag.specs.Reading.{subtag_of};
ghost use Rattle.lt_tag.specs.Values.{IsTagValue};
ghost use Rattle.lt_registry.specs.Entries.{FitsName, FitsValue, IsPrefix, IsEntry};
ghost use Rattle.lt_registry.specs.Entries as entry_words;
ghost use Rattle.lt_registry.specs.Records as record_words;
ghost use Rattle.lt_registry.specs.Records.{IsEntryOf, IsValue, IsValueOf};
ghost use Rattle.lt_registry.specs.RecordSteps as steps;
ghost use Rattle.lt_registry.specs.RecordSteps.{IsNameFault, IsValueFault, IsPrefixFault, IsTagOf};
ghost use Rattle.lt_registry.specs.RecordRefusals.{IsRefused};

use crate::entries::{Entry, EntryName, EntryValue, Kind, Prefix};
use crate::faults::RecordFaultKind;
use crate::fields::{RecordFields, ends_of, is_called, is_whole_kind, kind_of, read_prefix};
use crate::names::{is_alphabetic, is_up_to};
use crate::prefixes::Prefixes;
use crate::whole_tags::WholeTag;
use lt_jar::JarField;
use lt_subtag::Subtag;
use lt_tag::{OutOfMemory, TagFaultKind, read_tag};
use std::alloc::Global;

/// The entry of a record, which has the number `number` in the file. Refused with the first fault of the record, in the
/// order of `RecordFaultKind`, or where memory runs out.
#[tactic(auto, using(crate::proofs::RecordLaws::kind_there, crate::proofs::RecordLaws::name_refused, crate::proofs::RecordLaws::prefixes_fit, crate::proofs::RecordLaws::prefixes_where))]
pub(crate) fn read_entry(
    alloc: Global,
    fields: &RecordFields<'_>,
    number: u32,
) -> Result<Entry, RecordFaultKind>
    ensures ok { IfOk result (IsEntryOf fields.now.all.now number) }
    ensures forms { IfOk result IsEntry }
    ensures err { IfErr result (IsRefused fields.now.all.now) }
{
    if fields.repeat() {
        return Err(RecordFaultKind::RepeatedField);
    }
    let kind = read_kind(fields)?;
    let name = read_name(alloc, kind, fields)?;
    let value = read_value(alloc, kind, fields)?;
    let prefixes = read_prefixes(alloc, kind, fields.all())?;
    Ok(Entry::of_parts(number, kind, name, value, prefixes))
}

/// The kind of a record, by its Type. Refused with `MissingType` or `UnknownType`.
fn read_kind(fields: &RecordFields<'_>) -> Result<Kind, RecordFaultKind>
    ensures { result ≡ steps.kind_by (record_words.body record_words.type_name fields.now.all.now) }
{
    match fields.kind() {
        Some(text) => kind_of(text).ok_or(RecordFaultKind::UnknownType),
        None => Err(RecordFaultKind::MissingType),
    }
}

/// What a record of the kind names: a subtag, a range, or a whole tag. Refused with `MissingName`, `BadRange`,
/// `BadSubtag` or `BadTag`, or where memory runs out.
#[tactic(auto, using(crate::proofs::RecordLaws::name_told))]
fn read_name(
    alloc: Global,
    kind: Kind,
    fields: &RecordFields<'_>,
) -> Result<EntryName, RecordFaultKind>
    ensures ok { IfOk result (steps.IsNameIn kind fields.now.all.now) }
    ensures fits { IfOk result (FitsName kind) }
    ensures err { IfErr result (IsNameFault kind fields.now.all.now) }
{
    let Some(text) = fields.name(kind) else {
        return Err(RecordFaultKind::MissingName);
    };
    if !is_whole_kind(kind) {
        return read_subtags(kind, text.as_bytes());
    }
    match read_whole(alloc, text.as_bytes())? {
        Some(tag) => Ok(EntryName::Whole(tag)),
        None => Err(RecordFaultKind::BadTag),
    }
}

/// The tag of a text, or None if it isn't well-formed. The only refusal is running out of memory.
fn read_whole(alloc: Global, text: &[u8]) -> Result<Option<WholeTag>, OutOfMemory>
    ensures tag { IfOk result (IsTagOf text.now) }
    ensures value { IfOk result (λ tag. IfSome tag IsTagValue) }
{
    match read_tag(alloc, text) {
        Ok(tag) => {
            // Called only for its clause, which says that the tag has the form of one.
            let _ = tag.core();
            Ok(Some(WholeTag::of_tag(alloc, tag)?))
        }
        Err(fault) => match fault.kind {
            TagFaultKind::OutOfMemory => Err(OutOfMemory),
            _ => Ok(None),
        },
    }
}

/// The subtag that a text names, or the range if the text has two full stops. Refused with `BadRange` if the text has
/// two full stops and is no range of the kind, and with `BadSubtag` if it has none and is no subtag of the kind. Most
/// texts are a subtag, so that is tried first.
fn read_subtags(kind: Kind, text: &[u8]) -> Result<EntryName, RecordFaultKind>
    ensures named { result ≡ record_words.subtags_named kind text.now }
    ensures fits { IfOk result (FitsName kind) }
{
    if let Some(subtag) = read_formed(kind, text) {
        return Ok(EntryName::Single(subtag));
    }
    match ends_of(text) {
        Some((first, last)) => read_range(kind, first, last),
        None => Err(RecordFaultKind::BadSubtag),
    }
}

/// The subtag of a text, or None if it doesn't have the form of the kind.
fn read_formed(kind: Kind, text: &[u8]) -> Option<Subtag>
    ensures { result ≡ record_words.formed (entry_words.has_form kind) (subtag_of text.now) }
{
    let subtag = Subtag::read(text).ok()?;
    if has_form(kind, &subtag) {
        Some(subtag)
    } else {
        None
    }
}

/// Whether a subtag has the form of the kind (RFC 5646, 2.1). False of the kinds of whole tags.
fn has_form(kind: Kind, subtag: &Subtag) -> bool
    ensures { result ≡ entry_words.has_form kind subtag.now }
{
    match kind {
        Kind::Language => subtag.is_language(),
        Kind::Extlang => subtag.is_extlang(),
        Kind::Script => subtag.is_script(),
        Kind::Region => subtag.is_region(),
        Kind::Variant => subtag.is_variant(),
        Kind::Grandfathered | Kind::Redundant => false,
    }
}

/// The range from a first to a last subtag. Refused with `BadRange` if they aren't the ends of a range of the kind.
fn read_range(kind: Kind, first: &[u8], last: &[u8]) -> Result<EntryName, RecordFaultKind>
    ensures range { result ≡ record_words.range_of kind (subtag_of first.now) (subtag_of last.now) }
    ensures fits { IfOk result (FitsName kind) }
{
    let (Ok(from), Ok(to)) = (Subtag::read(first), Subtag::read(last)) else {
        return Err(RecordFaultKind::BadRange);
    };
    if is_range(kind, &from, &to) {
        Ok(EntryName::Range(from, to))
    } else {
        Err(RecordFaultKind::BadRange)
    }
}

/// Whether two subtags are the ends of a range of the kind: both have its form and only letters, they are equally long,
/// and the first is not after the last.
fn is_range(kind: Kind, first: &Subtag, last: &Subtag) -> bool
    ensures { result ≡ record_words.is_range kind first.now last.now }
{
    has_form(kind, first)
        && has_form(kind, last)
        && is_alphabetic(first)
        && is_alphabetic(last)
        && first.bytes().len() == last.bytes().len()
        && is_up_to(first, last)
}

/// The preferred value of a record of the kind, or None if it has none. Refused with `BadPreferred` if its text is no
/// value of the kind, or where memory runs out.
#[tactic(auto, using(crate::proofs::RecordLaws::text_told))]
fn read_value(
    alloc: Global,
    kind: Kind,
    fields: &RecordFields<'_>,
) -> Result<Option<EntryValue>, RecordFaultKind>
    ensures ok { IfOk result (IsValueOf kind (record_words.body record_words.value_name fields.now.all.now)) }
    ensures fits { IfOk result (λ value. IfSome value (FitsValue kind)) }
    ensures err { IfErr result (IsValueFault kind fields.now.all.now) }
{
    match fields.value() {
        Some(text) => Ok(Some(read_one_value(alloc, kind, text.as_bytes())?)),
        None => Ok(None),
    }
}

/// The preferred value that a text gives: a subtag, or a whole tag for the kinds of whole tags. Refused with
/// `BadPreferred` if the text is no value of the kind, or where memory runs out.
fn read_one_value(alloc: Global, kind: Kind, text: &[u8]) -> Result<EntryValue, RecordFaultKind>
    ensures ok { IfOk result (IsValue kind text.now) }
    ensures fits { IfOk result (FitsValue kind) }
    ensures err { IfErr result (steps.IsTextFault kind text.now) }
{
    if !is_whole_kind(kind) {
        return match read_valued(kind, text) {
            Some(subtag) => Ok(EntryValue::One(subtag)),
            None => Err(RecordFaultKind::BadPreferred),
        };
    }
    match read_whole(alloc, text)? {
        Some(tag) => Ok(EntryValue::Whole(tag)),
        None => Err(RecordFaultKind::BadPreferred),
    }
}

/// The subtag of a text, or None if it doesn't have the form of the kind's values.
fn read_valued(kind: Kind, text: &[u8]) -> Option<Subtag>
    ensures { result ≡ record_words.formed (entry_words.has_value_form kind) (subtag_of text.now) }
{
    let subtag = Subtag::read(text).ok()?;
    if has_value_form(kind, &subtag) {
        Some(subtag)
    } else {
        None
    }
}

/// Whether a subtag has the form of the kind's values. The value of an extlang is a language, that of a variant is a
/// variant or a language of 2 or 3 letters, and any other has the form of the kind. False of the kinds of whole tags.
fn has_value_form(kind: Kind, subtag: &Subtag) -> bool
    ensures { result ≡ entry_words.has_value_form kind subtag.now }
{
    match kind {
        Kind::Language | Kind::Extlang => subtag.is_language(),
        Kind::Script => subtag.is_script(),
        Kind::Region => subtag.is_region(),
        Kind::Variant => {
            subtag.is_variant() || subtag.is_language() && subtag.bytes().len() <= 3
        }
        Kind::Grandfathered | Kind::Redundant => false,
    }
}

/// Whether records of the kind can have Prefixes.
fn has_prefixes(kind: Kind) -> bool
    ensures { result ≡ record_words.has_prefixes kind }
{
    match kind {
        Kind::Extlang | Kind::Variant => true,
        Kind::Language | Kind::Script | Kind::Region | Kind::Grandfathered | Kind::Redundant => {
            false
        }
    }
}

/// The Prefixes of a record, or none if its kind can't have any. Refused with `BadPrefix` if one isn't a list of
/// subtags, or where memory runs out.
fn read_prefixes(
    alloc: Global,
    kind: Kind,
    fields: &[JarField],
) -> Result<Prefixes, RecordFaultKind>
    ensures ok { IfOk result (λ prefixes. record_words.prefixes_in kind fields.now ≡ Some prefixes) }
    ensures err { IfErr result (IsPrefixFault kind fields.now) }
{
    if has_prefixes(kind) {
        Ok(Prefixes::of_list(alloc, read_all_prefixes(alloc, fields)?)?)
    } else {
        Ok(Prefixes::none(alloc))
    }
}

/// The Prefixes that the fields give. Refused with `BadPrefix` if one isn't a list of subtags, or where memory runs
/// out.
#[tactic(auto, using(crate::proofs::RecordTexts::field_taken, crate::proofs::RecordTexts::field_skipped, crate::proofs::RecordTexts::field_fails, crate::proofs::RecordTexts::no_field))]
fn read_all_prefixes(alloc: Global, fields: &[JarField]) -> Result<Vec<Prefix>, RecordFaultKind>
    ensures ok { IfOk result (λ prefixes. record_words.prefixes_of (record_words.bodies record_words.prefix_name fields.now) ≡ Some prefixes.items) }
    ensures err { IfErr result (steps.IsPrefixesFault fields.now) }
{
    let mut prefixes = Vec::new(alloc);
    for field in fields {
        if is_called(field, "Prefix") {
            match read_prefix(alloc, field.body().as_bytes())? {
                Some(prefix) => prefixes.push(prefix)?,
                None => return Err(RecordFaultKind::BadPrefix),
            }
        }
    }
    Ok(prefixes)
}
