//! Where a record is in the file of a registry.
use std::alloc::{AllocError, Global};

/// Where a record begins, its line counted from 1, and what it is of, for example the kind `region` and the name
/// `BU`.
#[derive(Drop)]
struct Place<'a> {
    line: u64,
    kind: &'a str,
    name: &'a str,
}

/// The name and the body of the field that begins in a line. None if the line continues a field, or has no colon.
fn field_in(line: &str) -> Option<(&str, &str)> {
    if line.starts_with(' ') || line.starts_with('\t') {
        return None;
    }
    let (name, body) = line.split_once(':')?;
    Some((name.trim_end(), body.trim()))
}

impl<'a> Place<'a> {
    /// Notes the kind and the name of the record, if a line says them.
    fn note(&mut self, line: &'a str) {
        let Some((name, body)) = field_in(line) else {
            return;
        };
        if name.eq_ignore_ascii_case("Type") {
            self.kind = body;
        } else if name.eq_ignore_ascii_case("Subtag") || name.eq_ignore_ascii_case("Tag") {
            self.name = body;
        }
    }
}

/// The text that bytes begin with, up to the first byte that is not UTF-8.
fn front_text(bytes: &[u8]) -> &str {
    match std::str::from_utf8(bytes) {
        Ok(text) => text,
        Err(error) => {
            let end = error.valid_up_to().min(bytes.len());
            std::str::from_utf8(&bytes[..end]).unwrap_or("")
        }
    }
}

/// Where the record of this number, counted from 1, begins in the text of a registry, and what it is. None if there are
/// fewer records. Lines `%%` part the records (RFC 5646, 3.1.1); if only blank lines are between two of them, that is
/// no record.
fn place_in(text: &str, number: u32) -> Option<Place<'_>> {
    let mut place = None;
    let (mut seen, mut is_within) = (0u32, false);
    for (index, line) in text.split('\n').enumerate() {
        if line.trim_end() == "%%" {
            is_within = false;
        } else if !line.trim().is_empty() {
            if !is_within {
                is_within = true;
                seen = seen.saturating_add(1);
            }
            if seen == number {
                let line_number = (index as u64).saturating_add(1);
                let found = place.get_or_insert(Place {
                    line: line_number,
                    kind: "",
                    name: "",
                });
                found.note(line);
            }
        }
    }
    place
}

/// The line, without a line feed, that says what a record is and where it begins: `record 570: region BU, line 4711`.
fn place_line(alloc: Global, number: u32, place: &Place<'_>) -> Result<String, AllocError> {
    let Place { line, kind, name } = place;
    format!(in alloc; "record {number}: {kind} {name}, line {line}")
}

/// The line that tells what the record of this number is and where it begins in the bytes of a registry. None if there is no
/// such record before the first byte that is not UTF-8, or memory runs out.
pub(crate) fn told_place(alloc: Global, bytes: &[u8], number: u32) -> Option<String> {
    let place = place_in(front_text(bytes), number)?;
    place_line(alloc, number, &place).ok()
}
