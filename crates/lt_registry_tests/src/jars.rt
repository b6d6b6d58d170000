//! Small texts with their records, and faults with their lines.
mod devices;
mod growths;
mod places;
mod readers;

use lt_jar::{Jar, JarFault, JarField, Record, read_jar};
use std::alloc::{AllocError, Global};
use std::test::Fail;

/// The name and the body of each field of a record.
type Fields = &'static [(&'static str, &'static str)];

/// Whether the fields of a record are these.
fn are_fields(found: &[JarField], fields: Fields) -> bool {
    for (index, field) in found.iter().enumerate() {
        match fields.get(index) {
            Some((name, body)) if field.name() == *name && field.body() == *body => {}
            _ => return false,
        }
    }
    found.len() == fields.len()
}

/// Whether records are these.
fn are_records(found: &[Record], records: &[Fields]) -> bool {
    for (index, record) in found.iter().enumerate() {
        match records.get(index) {
            Some(fields) if are_fields(record.fields(), fields) => {}
            _ => return false,
        }
    }
    found.len() == records.len()
}

/// Texts with their records, and the lines that take memory. A last line that nothing ends is kept, whatever it is.
const TEXTS: &[(&str, &[Fields], &[u64])] = &[
    ("", &[], &[]),
    ("%%\n\n%%\n", &[], &[]),
    ("A:\n  b \n\tc", &[&[("A", "b c")]], &[1, 2, 3]),
    (" \nA: b\n \n c", &[&[("A", "b c")]], &[2, 4]),
    ("A : b:c\n%%\t", &[&[("A", "b:c")]], &[1, 2]),
    (
        "A:b\r\n%%\r\nC-9:\r\n d\r",
        &[&[("A", "b")], &[("C-9", "d")]],
        &[1, 2, 3, 4],
    ),
    (
        "A: Bokmål\n 正書法\n%%\nB: 𝄞\n",
        &[&[("A", "Bokmål 正書法")], &[("B", "𝄞")]],
        &[1, 2, 3, 4],
    ),
    (
        "Tag: a\n%%\nTagged: b\n%%\nTa: c",
        &[&[("Tag", "a")], &[("Tagged", "b")], &[("Ta", "c")]],
        &[1, 2, 3, 4, 5],
    ),
    (
        "A: b\r\n%%\r\nA:\r\n%%\r\nA :c\r\n d\r\n",
        &[&[("A", "b")], &[("A", "")], &[("A", "c d")]],
        &[1, 2, 3, 4, 5, 6],
    ),
    (
        "A: b\nB: c\n%%\nB:d\nA:\te \t\n%%\na: f",
        &[
            &[("A", "b"), ("B", "c")],
            &[("B", "d"), ("A", "e")],
            &[("a", "f")],
        ],
        &[1, 2, 3, 4, 5, 6, 7],
    ),
];

/// Texts with the names and the lines of their faults, and the lines that take memory.
const FAULTS: &[(&[u8], &str, u64, &[u64])] = &[
    (
        b"Type: language\nSubtag: en\n%%\n  x",
        "LeadingContinuation",
        4,
        &[1, 2, 3, 4],
    ),
    (b"abc", "BadLine", 1, &[1]),
    (b"Type: a\nB: \xff", "NotUtf8", 2, &[1, 2]),
    (b"%%x", "BadLine", 1, &[1]),
    (b": b", "BadLine", 1, &[1]),
    (b"A: \xc3\xa5\nB: \xe2\x82\nC: d", "NotUtf8", 2, &[1, 2]),
    (b"A: \xf0\x9d\x84\n\x9e", "NotUtf8", 1, &[]),
    (b"A: b\n\n\xf0\x9d\x84\x9e\xc3", "NotUtf8", 3, &[1, 3]),
    (b"Tag: a\n%%\nTag", "BadLine", 3, &[1, 2, 3]),
    (b"Tag: a\n%%\nTag;: b", "BadLine", 3, &[1, 2, 3]),
    (b"Tag: a\n%%\n Tag: b", "LeadingContinuation", 3, &[1, 2, 3]),
    (b"Tag: a\n%%\nTag: \xff", "NotUtf8", 3, &[1, 2, 3]),
];

/// A field `Comments` whose body has this many letters, with this end after its line.
fn long_line(alloc: Global, letters: usize, end: &str) -> Result<Vec<u8>, AllocError> {
    let mut text = Vec::from_slice(alloc, b"Comments: ")?;
    for _ in 0..letters {
        text.push(b'a')?;
    }
    text.extend_from_slice(end.as_bytes())?;
    Ok(text)
}

/// Whether a jar has one record with one field, whose body has this many bytes.
fn is_one_field(jar: &Jar, bytes: usize) -> bool {
    let [record] = jar.records() else {
        return false;
    };
    match record.fields() {
        [field] => field.body().len() == bytes,
        _ => false,
    }
}

/// How many letters lines have, their end, and whether they are read: the carriage return counts, and the
/// line feed does not.
const LONG_LINES: &[(usize, &str, bool)] = &[
    (65_526, "", true),
    (65_527, "", false),
    (65_525, "\r\n", true),
    (65_526, "\r\n", false),
];

/// Whether a fault is shown with this name and line.
fn is_fault_shown(
    alloc: Global,
    fault: JarFault,
    name: &str,
    line: u64,
) -> Result<bool, AllocError> {
    let told = format!(in alloc; "{name} in line {line}")?;
    Ok(format!(in alloc; "{fault}")?.as_str() == told.as_str())
}

#[test]
fn faults_are_shown(rt: HostRuntime) -> Result<(), Fail> {
    for (text, name, line, _) in FAULTS {
        let Err(fault) = read_jar(rt.alloc(), text) else {
            return Err(Fail::from("the text has no fault"));
        };
        assert!(rt; is_fault_shown(rt.alloc(), fault, name, *line)?, "{name}");
    }
    Ok(())
}
