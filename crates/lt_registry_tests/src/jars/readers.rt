//! What a reader of records answers call by call: records, faults, failed reads, and what comes after them.
use lt_jar::{
    Device, Jar, JarFault, JarFaultKind, JarField, JarReader, Pieces, Record, RecordRef, read_jar,
};
use lt_testing::sample_text;
use std::alloc::{AllocError, Global};
use std::io::Read;
use std::test::Fail;

/// Puts what a call answers after the text.
fn push_answer(
    alloc: Global,
    text: &mut String,
    answer: &Result<Option<RecordRef<'_>>, JarFault>,
) -> Result<(), AllocError> {
    match answer {
        Ok(Some(_)) => text.push_str("record;"),
        Ok(None) => text.push_str("none;"),
        Err(fault) => text.push_str(&format!(in alloc; "{} {};", fault.kind.name(), fault.line)?),
    }
}

/// What this many calls answer.
fn told<R: Read>(alloc: Global, device: &mut Device<R>, calls: usize) -> Result<String, Fail> {
    let mut text = String::new(alloc);
    let mut reader = JarReader::new(alloc, device)?;
    for _ in 0..calls {
        push_answer(alloc, &mut text, &reader.next())?;
    }
    Ok(text)
}

/// Texts, the read that fails of one in pieces of 3, or 0, and what calls answer: after the end there is none, and
/// after a fault it is reported again. A read that fails comes after each record that ended before it, and names the line
/// that is being read.
const ANSWERS: &[(&[u8], u64, usize, &str)] = &[
    (b"A: b\n%%\n", 0, 3, "record;none;none;"),
    (
        b"A: b\n%%\n\nabc\nA: b",
        0,
        4,
        "record;BadLine 4;Failed 4;Failed 4;",
    ),
    (
        b"Type: language\nSubtag: en\n%%\n  x",
        0,
        3,
        "record;LeadingContinuation 4;Failed 4;",
    ),
    (b"A: b\n%%\nC: d\n", 1, 2, "Read 1;Failed 1;"),
    (b"A: b\n%%\nC: d\n", 3, 2, "Read 2;Failed 2;"),
    (b"A: b\n%%\nC: d\n", 4, 3, "record;Read 3;Failed 3;"),
    (b"A: b\n%%\nC: d\n", 6, 3, "record;Read 4;Failed 4;"),
    (
        b"A: b\n%%\nC: d\n%%\nE: f",
        7,
        4,
        "record;record;Read 5;Failed 5;",
    ),
];

/// Whether calls answer so for a text, and how many reads fail.
fn is_told(
    alloc: Global,
    text: &[u8],
    failing: u64,
    calls: usize,
    answers: &str,
) -> Result<bool, Fail> {
    let mut device = Device::new(Pieces::once(text, 3).failing_at(failing));
    let is_right = told(alloc, &mut device, calls)?.as_str() == answers;
    Ok(is_right && (device.failures() == 1) == (failing > 0))
}

#[test]
fn answers_of_calls(rt: HostRuntime) -> Result<(), Fail> {
    for (text, failing, calls, answers) in ANSWERS {
        assert!(rt;
            is_told(rt.alloc(), text, *failing, *calls, answers)?,
            "{answers}"
        );
    }
    Ok(())
}

/// Whether a lent record has these fields.
fn is_same(lent: RecordRef<'_>, fields: &[JarField]) -> bool {
    for (index, one) in lent.fields().iter().enumerate() {
        match fields.get(index) {
            Some(other) if one.name() == other.name() && one.body() == other.body() => {}
            _ => return false,
        }
    }
    lent.len() == fields.len()
}

/// Whether a reader lends these records, and no more.
fn lends<R: Read>(reader: &mut JarReader<'_, R>, records: &[Record]) -> bool {
    for record in records {
        match reader.next() {
            Ok(Some(lent)) if is_same(lent, record.fields()) => {}
            _ => return false,
        }
    }
    matches!(reader.next(), Ok(None))
}

/// The fault that a reader tells after its records, if there is one.
pub(super) fn fault_of<R: Read>(reader: &mut JarReader<'_, R>) -> Option<JarFault> {
    for _ in 0..100 {
        match reader.next() {
            Ok(Some(_)) => {}
            Ok(None) => return None,
            Err(fault) => return Some(fault),
        }
    }
    None
}

/// Whether a reader of a device answers what `read_jar` did.
fn is_answered<R: Read>(
    alloc: Global,
    device: &mut Device<R>,
    answer: &Result<Jar, JarFault>,
) -> Result<bool, Fail> {
    let mut reader = JarReader::new(alloc, device)?;
    Ok(match answer {
        Ok(jar) => lends(&mut reader, jar.records()),
        Err(fault) => fault_of(&mut reader) == Some(*fault),
    })
}

/// Whether `read_jar` answers for a text what a reader of it in pieces of 5 does.
fn agree(alloc: Global, text: &[u8]) -> Result<bool, Fail> {
    let mut device = Device::new(Pieces::once(text, 5));
    is_answered(alloc, &mut device, &read_jar(alloc, text))
}

#[test]
fn sample_cut_after_each_byte(rt: HostRuntime) -> Result<(), Fail> {
    let text = sample_text(rt.alloc())?;
    for end in 0..=text.len() {
        let cut = text.as_bytes().get(..end).unwrap_or(&[]);
        assert!(rt; agree(rt.alloc(), cut)?, "{end}");
    }
    Ok(())
}

/// The number of the line that follows a text's line feeds.
fn line_after(text: &[u8]) -> u64 {
    let mut line = 1u64;
    for byte in text {
        if *byte == b'\n' {
            line = line.saturating_add(1);
        }
    }
    line
}

/// Whether a reader of a device tells that a read failed in this line, and then that it failed there itself.
fn fails_in<R: Read>(alloc: Global, device: &mut Device<R>, line: u64) -> Result<bool, JarFault> {
    let mut reader = JarReader::new(alloc, device)?;
    let read = JarFault {
        kind: JarFaultKind::Read,
        line,
    };
    let failed = JarFault {
        kind: JarFaultKind::Failed,
        line,
    };
    Ok(
        fault_of(&mut reader) == Some(read)
            && matches!(reader.next(), Err(fault) if fault == failed),
    )
}

/// Whether a text in pieces of 64, whose read of this number fails, does so in the line that is being read.
fn fails_in_read(alloc: Global, text: &[u8], number: usize) -> Result<bool, JarFault> {
    let front = number.saturating_sub(1).saturating_mul(64);
    let line = line_after(text.get(..front).unwrap_or(text));
    let mut device = Device::new(Pieces::once(text, 64).failing_at(number as u64));
    fails_in(alloc, &mut device, line)
}

/// The last of these reads is the one at the end of the sample.
#[test]
fn sample_with_each_read_failing(rt: HostRuntime) -> Result<(), Fail> {
    let text = sample_text(rt.alloc())?;
    for number in 1..=32usize {
        assert!(rt;
            fails_in_read(rt.alloc(), text.as_bytes(), number)?,
            "{number}"
        );
    }
    Ok(())
}
