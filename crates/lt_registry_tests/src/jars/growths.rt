//! What a call does where a growth of memory is refused.
use super::{
    FAULTS, Fields, LONG_LINES, TEXTS, are_fields, are_records, is_one_field, long_line, readers,
};
use lt_jar::{
    Device, Jar, JarFault, JarFaultKind, JarReader, Pieces, Record, RecordRef, first_place,
    read_jar,
};
use lt_testing::{again, mark, retried, returned_text, sample_text};
use std::alloc::{AllocError, Global};
use std::io::{self, Read};
use std::test::Fail;

/// Whether a growth was refused at one of these lines.
fn is_refused(fault: &JarFault, lines: &[u64]) -> bool {
    fault.kind == JarFaultKind::OutOfMemory && lines.contains(&fault.line)
}

/// The records of a text, read again where a growth was refused at one of these lines.
fn jar_of(alloc: Global, text: &[u8], lines: &[u64]) -> Result<Jar, JarFault> {
    retried!(read_jar(alloc, text), fault if is_refused(&fault, lines))
}

/// Whether a text has these records, or a growth of memory was refused at another line than these.
fn is_read(alloc: Global, text: &str, records: &[Fields], lines: &[u64]) -> bool {
    matches!(jar_of(alloc, text.as_bytes(), lines), Ok(jar) if are_records(jar.records(), records))
}

#[test]
fn records_are_read(rt: HostRuntime) {
    for (text, records, lines) in TEXTS {
        assert!(rt; is_read(rt.alloc(), text, records, lines), "{text}");
    }
}

/// Whether a text has the fault of this name at this line.
fn is_at_fault(alloc: Global, text: &[u8], name: &str, line: u64, lines: &[u64]) -> bool {
    match jar_of(alloc, text, lines) {
        Ok(_) => false,
        Err(fault) => fault.kind.name() == name && fault.line == line,
    }
}

#[test]
fn faults_are_told(rt: HostRuntime) {
    for (text, name, line, lines) in FAULTS {
        assert!(rt; is_at_fault(rt.alloc(), text, name, *line, lines), "{name}");
    }
}

/// Texts that only their last line makes take memory, with its number.
const LAST_LINES: &[(&[u8], &[u64])] = &[
    (b"A: b", &[1]),
    (b"\n%%\n \nA: b", &[4]),
    (b"%%\n\n%%\n\n\n\nA: b", &[7]),
    (b"\n\n\n\nbad", &[5]),
];

/// Whether memory runs out nowhere but at these lines of a text.
fn runs_out_at(alloc: Global, text: &[u8], lines: &[u64]) -> bool {
    !matches!(jar_of(alloc, text, lines), Err(fault) if fault.kind == JarFaultKind::OutOfMemory)
}

#[test]
fn memory_runs_out_at_the_last_line(rt: HostRuntime) {
    for (text, lines) in LAST_LINES {
        assert!(rt; runs_out_at(rt.alloc(), text, lines));
    }
}

/// A text whose lines all take memory. `bench/growth.py` asks that the numbers that are printed never fall
/// from one growth to the next, and that each line is among them.
#[test]
fn lines_in_order(rt: HostRuntime) -> Result<(), Fail> {
    let text = b"A: b\n and a line that takes more than the first has left\nD: e\n%%\nF: g";
    if let Err(fault) = read_jar(rt.alloc(), text) {
        assert!(rt; fault.kind == JarFaultKind::OutOfMemory);
        println!(rt; "ran out at {} of 5", fault.line)?;
    }
    Ok(())
}

/// A reader that gives one line in each read, and counts them.
#[derive(Drop)]
struct LineByLine<'a> {
    rest: &'a [u8],
    given: u64,
}

impl Read for LineByLine<'_> {
    fn read(&mut self, buf: &mut [u8]) -> io::Result<usize> {
        let end = match first_place(b'\n', self.rest) {
            Some(end) => end.saturating_add(1),
            None => self.rest.len(),
        };
        let count = end.min(self.rest.len()).min(buf.len());
        buf[..count].copy_from_slice(&self.rest[..count]);
        self.rest = &self.rest[count..];
        if count > 0 {
            self.given = self.given.saturating_add(1);
        }
        Ok(count)
    }
}

/// The fault that a reader of records tells.
fn fault_of<R: Read>(alloc: Global, device: &mut Device<R>) -> Option<JarFault> {
    match JarReader::new(alloc, device) {
        Ok(mut reader) => readers::fault_of(&mut reader),
        Err(_) => None,
    }
}

/// Whether memory runs out, if it does, at the line that was given last.
fn runs_out_at_the_line(alloc: Global, text: &[u8]) -> bool {
    let mut lines = LineByLine {
        rest: text,
        given: 0,
    };
    let fault = fault_of(alloc, &mut Device::new(&mut lines));
    match fault {
        Some(fault) if fault.kind == JarFaultKind::OutOfMemory => fault.line == lines.given,
        _ => true,
    }
}

#[test]
fn memory_runs_out_at_the_line_that_is_read(rt: HostRuntime) -> Result<(), Fail> {
    assert!(rt; runs_out_at_the_line(rt.alloc(), b"A: b\n c\n\nD: e\n%%\n%%\nF: g\n h\ni: j"));
    let text = again!(sample_text(rt.alloc()))?;
    assert!(rt; runs_out_at_the_line(rt.alloc(), text.as_bytes()));
    Ok(())
}

/// Whether a line of this many letters and this end is read, or is too long.
fn is_long_line(
    alloc: Global,
    letters: usize,
    end: &str,
    is_read_whole: bool,
) -> Result<bool, AllocError> {
    let text = again!(long_line(alloc, letters, end))?;
    Ok(match jar_of(alloc, &text, &[1]) {
        Ok(jar) => is_read_whole && is_one_field(&jar, letters),
        Err(fault) => {
            !is_read_whole && fault.kind == JarFaultKind::LineTooLong && fault.line == 1
        }
    })
}

#[test]
fn the_longest_lines_are_read(rt: HostRuntime) -> Result<(), AllocError> {
    for (letters, end, is_read_whole) in LONG_LINES {
        assert!(rt;
            is_long_line(rt.alloc(), *letters, end, *is_read_whole)?,
            "{letters}"
        );
    }
    Ok(())
}

/// The sixth and the last record of the sample with carriage returns.
const SIXTH: Fields = &[
    ("Type", "language"),
    ("Subtag", "he"),
    ("Description", "Modern Hebrew"),
];

const LAST: Fields = &[("Type", "redundant"), ("Tag", "zh-Hans")];

/// Whether records are those of the sample with carriage returns.
fn are_sample(records: &[Record]) -> bool {
    records.len() == 47
        && are_fields(records[5].fields(), SIXTH)
        && are_fields(records[46].fields(), LAST)
}

#[test]
fn the_sample_is_read(rt: HostRuntime) -> Result<(), Fail> {
    let alloc = rt.alloc();
    let text = again!(returned_text(alloc))?;
    let text = text.as_bytes().strip_suffix(b"\r\n").unwrap_or(&[]);
    let refusal = JarFaultKind::OutOfMemory;
    let jar = retried!(read_jar(alloc, text), fault if fault.kind == refusal)?;
    assert!(rt; are_sample(jar.records()));
    Ok(())
}

/// What a reader of a text does.
#[derive(Clone, Copy, PartialEq, Eq)]
enum Outcome {
    /// It lends the text's records, and then tells what it should.
    Right,
    /// A growth of memory was refused, and it tells so, and in the next call that it failed there.
    Refused,
    Wrong,
}

/// What a reader does, which has told a fault that is not the text's.
fn failed<R: Read>(reader: &mut JarReader<'_, R>, fault: JarFault) -> Outcome {
    let then = JarFault {
        kind: JarFaultKind::Failed,
        line: fault.line,
    };
    match reader.next() {
        Err(next) if next == then && fault.kind == JarFaultKind::OutOfMemory => Outcome::Refused,
        _ => Outcome::Wrong,
    }
}

/// What a reader of a text of one record does, and then of this fault or none.
fn reading<R: Read>(
    reader: &mut JarReader<'_, R>,
    fields: Fields,
    end: Option<JarFault>,
) -> Outcome {
    match reader.next() {
        Ok(Some(record)) if are_fields(record.fields(), fields) => {}
        Err(fault) => return failed(reader, fault),
        _ => return Outcome::Wrong,
    }
    match reader.next() {
        Ok(None) if end.is_none() => Outcome::Right,
        Err(fault) if end == Some(fault) => Outcome::Right,
        Err(fault) => failed(reader, fault),
        _ => Outcome::Wrong,
    }
}

/// What a new reader does, which is never refused.
fn reading_of<R: Read>(
    alloc: Global,
    device: &mut Device<R>,
    fields: Fields,
    end: Option<JarFault>,
) -> Outcome {
    match JarReader::new(alloc, device) {
        Ok(mut reader) => reading(&mut reader, fields, end),
        Err(_) => Outcome::Wrong,
    }
}

/// The sizes of the pieces in which a text is given.
const SIZES: &[usize] = &[1, 2, 3, 7, 1_000_000];

/// Whether a text is read as it should be in pieces of this size; or a growth is refused, and then it is
/// read so from another device.
fn is_read_in_pieces(
    alloc: Global,
    text: &[u8],
    size: usize,
    fields: Fields,
    end: Option<JarFault>,
) -> bool {
    let mut device = Device::new(Pieces::once(text, size));
    let mut other = Device::new(Pieces::once(text, size));
    match reading_of(alloc, &mut device, fields, end) {
        Outcome::Right => true,
        Outcome::Refused => reading_of(alloc, &mut other, fields, end) == Outcome::Right,
        Outcome::Wrong => false,
    }
}

/// Texts of one record with its fields, and the fault after it.
const ONE_RECORD: [(&[u8], Fields, Option<JarFault>); 2] = [
    (b"A:\n  b \n\tc", &[("A", "b c")], None),
    (
        b"Type: language\nSubtag: en\n%%\n  x",
        &[("Type", "language"), ("Subtag", "en")],
        Some(JarFault {
            kind: JarFaultKind::LeadingContinuation,
            line: 4,
        }),
    ),
];

#[test]
fn records_are_lent(rt: HostRuntime) {
    for size in SIZES {
        for (text, fields, end) in &ONE_RECORD {
            assert!(rt;
                is_read_in_pieces(rt.alloc(), text, *size, fields, *end),
                "{size}"
            );
        }
    }
}

/// Whether a record is `A: b` alone, by each of its calls.
fn is_small(record: RecordRef<'_>) -> bool {
    record.len() == 1
        && record.name(0) == "A"
        && record.body(0) == "b"
        && are_fields(record.fields(), &[("A", "b")])
}

/// Whether a reader lends that record, whose calls take no memory.
fn lends_small<R: Read>(alloc: Global, reader: &mut JarReader<'_, R>) -> bool {
    match reader.next() {
        Ok(Some(record)) => {
            mark(alloc);
            is_small(record)
        }
        _ => false,
    }
}

#[test]
fn a_record_without_growth(rt: HostRuntime) -> Result<(), JarFault> {
    let mut device = Device::new(b"A: b\n".as_slice());
    let mut reader = JarReader::new(rt.alloc(), &mut device)?;
    assert!(rt; lends_small(rt.alloc(), &mut reader));
    Ok(())
}

#[test]
fn devices_without_growth(rt: HostRuntime) {
    mark(rt.alloc());
    let mut buffer = [0u8; 4];
    let mut device = Device::new(Pieces::once(b"abc", 2).failing_at(2));
    assert!(rt; matches!(device.read(&mut buffer), Ok(2)));
    assert!(rt; device.read(&mut buffer).is_err() && device.failures() == 1);
}
