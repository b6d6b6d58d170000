//! What a call does where a growth of memory is refused.
use super::answers::{JUDGED, PROPER, SUBTAGS, WHOLE_TAGS, finds_each, is_judgement, whole_number};
use super::{RECORD_FAULTS, is_english};
use lt_jar::{Device, JarFault, JarFaultKind, Pieces, read_jar};
use lt_registry::{
    ListTable, Lookup, RecordFault, RecordFaultKind, Registry, RegistryFault, SortedTable,
    ValidRefusal, proper, validate,
};
use lt_tag::{Tag, TagFault, read_tag};
use lt_testing::{again, mark, retried, returned_text, sample_text, shown};
use std::alloc::Global;
use std::test::Fail;

/// The first and the last of the lines of a text, or of its records, at which memory may run out.
type Span = (u64, u64);

/// Whether a number is one of a span.
fn is_in(span: Span, number: u64) -> bool {
    let (first, last) = span;
    first <= number && number <= last
}

/// Whether a growth was refused at one of these records.
fn is_refused(fault: &RecordFault, numbers: Span) -> bool {
    fault.kind == RecordFaultKind::OutOfMemory && is_in(numbers, u64::from(fault.number))
}

/// The entries of a text's records, made again where a growth is refused at one of these.
fn made(alloc: Global, text: &str, numbers: Span) -> Result<Result<Registry, RecordFault>, Fail> {
    let jar = again!(read_jar(alloc, text.as_bytes()))?;
    let records = jar.records();
    if records.len() > 100_000 {
        return Err(Fail::from("too many records"));
    }
    Ok(retried!(
        Registry::from_records(alloc, records),
        fault if is_refused(&fault, numbers)
    ))
}

/// Whether the record of a text has the fault of this name.
fn has_record_fault(alloc: Global, text: &str, name: &str) -> Result<bool, Fail> {
    Ok(match made(alloc, text, (1, 1))? {
        Ok(_) => false,
        Err(fault) => fault.kind.name() == name && fault.number == 1,
    })
}

#[test]
fn faults_of_records(rt: HostRuntime) -> Result<(), Fail> {
    for (text, name) in RECORD_FAULTS {
        assert!(rt; has_record_fault(rt.alloc(), text, name)?, "{text}");
    }
    Ok(())
}

#[test]
fn entries_are_made(rt: HostRuntime) -> Result<(), Fail> {
    let dated = "File-Date: x\n%%\nTYPE : Language\nSUBTAG: EN";
    let english = made(rt.alloc(), dated, (2, 2))??;
    assert!(rt; matches!(english.entries(), [entry] if is_english(entry)));
    Ok(())
}

#[test]
fn entries_of_the_sample(rt: HostRuntime) -> Result<(), Fail> {
    let text = again!(sample_text(rt.alloc()))?;
    let registry = made(rt.alloc(), text.as_str(), (2, 47))??;
    assert!(rt; registry.entries().len() == 46);
    Ok(())
}

/// Records that all take memory. `bench/growth.py` asks that the numbers that are printed never fall from one
/// growth to the next, and that each record is among them.
#[test]
fn records_in_order(rt: HostRuntime) -> Result<(), Fail> {
    let text =
        b"Type: variant\nSubtag: 1901\nPrefix: de\n%%\nType: extlang\nSubtag: yue\nPrefix: zh\n%%\nType: variant\nSubtag: hepburn\nPrefix: ja-Latn";
    let jar = again!(read_jar(rt.alloc(), text))?;
    let records = jar.records();
    if records.len() > 100_000 {
        return Err(Fail::from("too many records"));
    }
    if let Err(fault) = Registry::from_records(rt.alloc(), records) {
        assert!(rt; fault.kind == RecordFaultKind::OutOfMemory);
        println!(rt; "ran out at {} of 3", fault.number)?;
    }
    Ok(())
}

/// Whether a growth was refused in one of these lines or records.
fn is_read_refused(fault: &RegistryFault, lines: Span, numbers: Span) -> bool {
    match fault {
        RegistryFault::Jar(fault) => fault.kind == JarFaultKind::OutOfMemory
            && is_in(lines, fault.line),
        RegistryFault::Record(fault) => is_refused(fault, numbers),
    }
}

/// The registry of a text in pieces of this size, read again where a growth is refused in one of these lines or records.
fn read(
    alloc: Global,
    text: &str,
    size: usize,
    spans: (Span, Span),
) -> Result<Registry, RegistryFault> {
    retried!(
        Registry::read(alloc, &mut Device::new(Pieces::once(text.as_bytes(), size))),
        fault if is_read_refused(&fault, spans.0, spans.1)
    )
}

/// Texts with the lines and the records at which memory may run out, and their faults.
const FAULTS: &[(&str, (Span, Span), RegistryFault)] = &[
    (
        "Type: language\nSubtag: en\n%%\n  x",
        ((1, 4), (1, 1)),
        RegistryFault::Jar(JarFault {
            kind: JarFaultKind::LeadingContinuation,
            line: 4,
        }),
    ),
    (
        "Type: planet\nSubtag: en",
        ((1, 2), (1, 1)),
        RegistryFault::Record(RecordFault {
            kind: RecordFaultKind::UnknownType,
            number: 1,
        }),
    ),
    (
        "\n%%\n\nType: planet",
        ((4, 4), (1, 1)),
        RegistryFault::Record(RecordFault {
            kind: RecordFaultKind::UnknownType,
            number: 1,
        }),
    ),
    (
        "\n\n\nplanet",
        ((4, 4), (1, 1)),
        RegistryFault::Jar(JarFault {
            kind: JarFaultKind::BadLine,
            line: 4,
        }),
    ),
];

/// Whether a text has this fault in pieces of this size.
fn has_fault(
    alloc: Global,
    text: &str,
    size: usize,
    spans: (Span, Span),
    told: &RegistryFault,
) -> bool {
    matches!(read(alloc, text, size, spans), Err(fault) if fault == *told)
}

#[test]
fn registries_with_faults_are_read(rt: HostRuntime) {
    for (text, spans, told) in FAULTS {
        for size in &[7, 1_000_000usize] {
            assert!(rt; has_fault(rt.alloc(), text, *size, *spans, told), "{text}");
        }
    }
}

#[test]
fn registries_are_read(rt: HostRuntime) -> Result<(), Fail> {
    let text = again!(returned_text(rt.alloc()))?;
    let text = text.as_str().strip_suffix("\r\n").unwrap_or("");
    let registry = read(rt.alloc(), text, 64, ((1, 1_000), (2, 47)))?;
    assert!(rt; registry.entries().len() == 46);
    Ok(())
}

/// The tag of a text.
fn tag_of(alloc: Global, text: &str) -> Result<Tag, TagFault> {
    again!(read_tag(alloc, text.as_bytes()))
}

/// Whether a table finds the subtags and the whole tags of the sample.
fn finds_sample(alloc: Global, table: &SortedTable) -> Result<bool, TagFault> {
    for (text, number) in &WHOLE_TAGS {
        if whole_number(table, &tag_of(alloc, text)?) != *number {
            return Ok(false);
        }
    }
    Ok(table.entries().len() == 46 && finds_each(table, SUBTAGS))
}

/// The table of a registry; where a growth was refused, of the registry that was handed back, which has
/// to be the same.
fn table_of(alloc: Global, registry: Registry) -> Result<SortedTable, Fail> {
    let before = shown(alloc, &registry)?;
    let back = match SortedTable::new(alloc, registry) {
        Ok(table) => return Ok(table),
        Err(back) => back,
    };
    if shown(alloc, &back)?.as_str() != before.as_str() {
        return Err(Fail::from("another registry is handed back"));
    }
    match SortedTable::new(alloc, back) {
        Ok(table) => Ok(table),
        Err(_) => Err(Fail::from("the table is refused again")),
    }
}

/// The entries of the sample.
fn sample(alloc: Global) -> Result<Registry, Fail> {
    let text = again!(sample_text(alloc))?;
    Ok(again!(Registry::read(alloc, &mut Device::new(text.as_bytes())))?)
}

#[test]
fn sorted_tables_are_made(rt: HostRuntime) -> Result<(), Fail> {
    let table = table_of(rt.alloc(), sample(rt.alloc())?)?;
    assert!(rt; finds_sample(rt.alloc(), &table)?);
    Ok(())
}

/// Whether the tag of a text is judged so.
fn is_judged(
    alloc: Global,
    table: &ListTable,
    text: &str,
    told: Option<(&str, u32)>,
) -> Result<bool, TagFault> {
    let tag = tag_of(alloc, text)?;
    let answer = retried!(validate(alloc, table, &tag), ValidRefusal::OutOfMemory);
    Ok(is_judgement(&answer, told))
}

#[test]
fn tags_are_judged(rt: HostRuntime) -> Result<(), Fail> {
    let table = ListTable::new(sample(rt.alloc())?);
    for (text, told) in JUDGED {
        assert!(rt; is_judged(rt.alloc(), &table, text, *told)?, "{text}");
    }
    Ok(())
}

/// Whether `proper` answers this for the tag of a text.
fn is_proper(alloc: Global, table: &SortedTable, text: &str, told: bool) -> Result<bool, TagFault> {
    let tag = tag_of(alloc, text)?;
    Ok(matches!(again!(proper(alloc, table, &tag)), Ok(found) if found == told))
}

#[test]
fn tags_are_told_proper(rt: HostRuntime) -> Result<(), Fail> {
    let table = table_of(rt.alloc(), sample(rt.alloc())?)?;
    for (text, told) in PROPER {
        assert!(rt; is_proper(rt.alloc(), &table, text, *told)?, "{text}");
    }
    Ok(())
}

/// Whether a table finds the subtags of the sample, and the first of its whole tags.
fn finds_by_no_growth<L: Lookup>(table: &L, tag: &Tag, number: Option<u32>) -> bool {
    finds_each(table, SUBTAGS) && whole_number(table, tag) == number && table.entries().len() == 46
}

/// Whether a table does so for a tag that it has, and for one that it has not.
fn finds_both<L: Lookup>(table: &L, tag: &Tag, other: &Tag) -> bool {
    finds_by_no_growth(table, tag, Some(44)) && finds_by_no_growth(table, other, None)
}

#[test]
fn lists_without_growth(rt: HostRuntime) -> Result<(), Fail> {
    let registry = sample(rt.alloc())?;
    let tag = tag_of(rt.alloc(), "sgn-DE")?;
    let other = tag_of(rt.alloc(), "sgn-DE-x-a")?;
    mark(rt.alloc());
    assert!(rt; finds_both(&ListTable::new(registry), &tag, &other));
    Ok(())
}

#[test]
fn sorted_tables_without_growth(rt: HostRuntime) -> Result<(), Fail> {
    let table = table_of(rt.alloc(), sample(rt.alloc())?)?;
    let tag = tag_of(rt.alloc(), "sgn-DE")?;
    let other = tag_of(rt.alloc(), "sgn-DE-x-a")?;
    mark(rt.alloc());
    assert!(rt; finds_both(&table, &tag, &other));
    Ok(())
}
