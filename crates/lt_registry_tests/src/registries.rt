//! Records with their faults, and entries with their parts.
mod answers;
mod distinct;
mod growths;
mod tables;

use lt_jar::{JarFault, JarFaultKind, read_jar};
use lt_registry::{
    Entry, EntryName, EntryValue, Kind, Lookup, RecordFault, RecordFaultKind, Registry,
};
use std::alloc::{AllocError, Global};
use std::test::Fail;
use tables::list_table;

/// Texts of one record with the names of their faults.
const RECORD_FAULTS: &[(&str, &str)] = &[
    ("Subtag: en", "MissingType"),
    ("Type: planet\nSubtag: en", "UnknownType"),
    ("Type: language", "MissingName"),
    ("Type: script\nSubtag: en", "BadSubtag"),
    ("Type: language\nSubtag: qtz..qaa", "BadRange"),
    ("Type: redundant\nTag: en--", "BadTag"),
    ("Type: language\ntype: script\nSubtag: en", "RepeatedField"),
    (
        "Type: region\nSubtag: DD\nPreferred-Value: Latn",
        "BadPreferred",
    ),
    ("Type: variant\nSubtag: 1901\nPrefix: de_CH", "BadPrefix"),
    ("Type: region\nSubtag: 001..009", "BadRange"),
    ("Type: language\nSubtag: aa..bb..cc", "BadRange"),
    ("Type: language\nSubtag: aa ..bb", "BadRange"),
    ("Type: language\nSubtag: a...b", "BadRange"),
    ("Type: variant\nSubtag: 1901\nPrefix:", "BadPrefix"),
];

/// The text of this many records of one line, whose type is unknown, and a line to separate a next one.
fn many_records(alloc: Global, count: usize) -> Result<String, AllocError> {
    let mut text = String::new(alloc);
    for _ in 0..count {
        text.push_str("Type: x\n%%\n")?;
    }
    Ok(text)
}

/// The first of those records is at fault.
const FIRST_UNKNOWN: RecordFault = RecordFault {
    kind: RecordFaultKind::UnknownType,
    number: 1,
};

/// The line of one record more.
const ONE_MORE: JarFault = JarFault {
    kind: JarFaultKind::TooManyRecords,
    line: 200_001,
};

#[test]
fn the_most_records(rt: HostRuntime) -> Result<(), Fail> {
    let mut text = many_records(rt.alloc(), 100_000)?;
    let jar = read_jar(rt.alloc(), text.as_bytes())?;
    let records = jar.records();
    if records.len() != 100_000 {
        return Err(Fail::from("another number of records"));
    }
    let answer = Registry::from_records(rt.alloc(), records);
    assert!(rt; matches!(answer, Err(fault) if fault == FIRST_UNKNOWN));
    text.push_str("Type: x")?;
    let answer = read_jar(rt.alloc(), text.as_bytes());
    assert!(rt; matches!(answer, Err(fault) if fault == ONE_MORE));
    Ok(())
}

/// Whether an entry is that of a second record, of the language `en` alone.
fn is_english(entry: &Entry) -> bool {
    let named = match entry.name() {
        EntryName::Single(subtag) => subtag.bytes() == b"en".as_slice(),
        _ => false,
    };
    named
        && entry.number() == 2
        && entry.kind() == Kind::Language
        && entry.value().is_none()
        && entry.prefixes().is_empty()
}

/// Whether an entry has the value `he`.
fn has_hebrew_value(entry: &Entry) -> bool {
    match entry.value() {
        Some(EntryValue::One(value)) => value.bytes() == b"he".as_slice(),
        _ => false,
    }
}

/// Whether an entry has the Prefix `ja-Latn` alone.
fn has_japanese_prefix(entry: &Entry) -> bool {
    let [prefix] = entry.prefixes() else {
        return false;
    };
    match prefix.subtags() {
        [language, script] => {
            language.bytes() == b"ja".as_slice() && script.bytes() == b"latn".as_slice()
        }
        _ => false,
    }
}

/// A record with a value, and one with a Prefix.
const VALUED: &[u8] =
    b"Type: language\nSubtag: iw\nPreferred-Value: he\n%%\nType: variant\nSubtag: hepburn\nPrefix: ja-Latn";

#[test]
fn value_and_prefix_of_entries(rt: HostRuntime) -> Result<(), Fail> {
    let table = list_table(rt.alloc(), VALUED)?;
    assert!(rt;
        matches!(table.entries(), [iw, hepburn] if has_hebrew_value(iw) && has_japanese_prefix(hepburn))
    );
    Ok(())
}

/// Texts of one record, and whether it is equal to the first.
const COMPARED: [(&str, bool); 4] = [
    (
        "Type: extlang\nSubtag: CMN\nPreferred-Value: cmn\nPrefix: zh",
        true,
    ),
    (
        "Type: extlang\nSubtag: yue\nPreferred-Value: cmn\nPrefix: zh",
        false,
    ),
    ("Type: extlang\nSubtag: cmn\nPrefix: zh", false),
    (
        "Type: extlang\nSubtag: cmn\nPreferred-Value: cmn\nPrefix: sgn",
        false,
    ),
];

/// Whether two texts of a record give equal entries.
fn are_equal(alloc: Global, left: &str, right: &str) -> Result<bool, Fail> {
    let left = list_table(alloc, left.as_bytes())?;
    let right = list_table(alloc, right.as_bytes())?;
    Ok(left.entries() == right.entries())
}

#[test]
fn equal_entries(rt: HostRuntime) -> Result<(), Fail> {
    let (mandarin, _) = COMPARED[0];
    for (text, equal) in COMPARED {
        assert_eq!(rt; are_equal(rt.alloc(), mandarin, text)?, equal, "{text}");
    }
    Ok(())
}
