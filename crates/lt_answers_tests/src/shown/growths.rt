//! What a call does where a growth of memory is refused.
use super::{read_file, table_of_file, tag_of};
use lt_jar::{Jar, JarFaultKind};
use lt_registry::{RecordFaultKind, RegistryFault, SortedTable};
use lt_show::{RecordsFault, append_rows, append_table, rows_of};
use lt_tag::{OutOfMemory, Tag};
use lt_testing::{again, retried};
use std::alloc::Global;
use std::test::Fail;

/// Whether memory ran out.
fn lacks(fault: &RecordsFault) -> bool {
    match fault {
        RecordsFault::Registry(RegistryFault::Jar(fault)) => {
            fault.kind == JarFaultKind::OutOfMemory
        }
        RecordsFault::Registry(RegistryFault::Record(fault)) => {
            fault.kind == RecordFaultKind::OutOfMemory
        }
        RecordsFault::OutOfMemory => true,
    }
}

/// How many records the file has.
fn record_count(alloc: Global) -> Result<usize, RecordsFault> {
    let (_registry, jar) = read_file(alloc, 64)?;
    Ok(jar.records().len())
}

#[test]
fn a_file_is_read(rt: HostRuntime) {
    let count = retried!(record_count(rt.alloc()), fault if lacks(&fault));
    assert!(rt; count == Ok(7));
}

/// The table of a tag.
fn table_text(
    alloc: Global,
    table: &SortedTable,
    jar: &Jar,
    tag: &Tag,
) -> Result<Vec<u8>, OutOfMemory> {
    let mut told = Vec::new(alloc);
    append_table(&mut told, alloc, table, jar.records(), tag)?;
    Ok(told)
}

/// The objects of the rows of a tag.
fn objects_text(
    alloc: Global,
    table: &SortedTable,
    jar: &Jar,
    tag: &Tag,
) -> Result<Vec<u8>, OutOfMemory> {
    let mut objects = Vec::new(alloc);
    append_rows(&mut objects, alloc, table, jar.records(), tag)?;
    Ok(objects)
}

const TABLE: &[u8] = b"zh-yue
1    Whole     zh-yue  record 7
     Description      Cantonese
     Deprecated       2009-07-29
     Preferred-Value  yue
1    Language  zh      record 3
     Description      Chinese
     Scope            macrolanguage
2    Extlang   yue     record 5
     Description      Yue Chinese
     Preferred-Value  yue
     Prefix           zh
     Macrolanguage    zh
";

const OBJECTS: &[u8] =
    br#"[{"place":1,"kind":"Language","text":"yue","listing":"Record","record":4,"fields":[{"name":"Description","body":"Yue Chinese"},{"name":"Description","body":"Canto nese"}]},{"place":2,"kind":"Region","text":"DD","listing":"Unregistered","record":null,"fields":[]}]"#;

/// Whether the table of a tag is as is owed.
fn has_table(alloc: Global, table: &SortedTable, jar: &Jar, tag: &Tag) -> bool {
    matches!(again!(table_text(alloc, table, jar, tag)), Ok(told) if told.as_slice() == TABLE)
}

/// Whether the objects of the rows of a tag are as is owed.
fn has_objects(alloc: Global, table: &SortedTable, jar: &Jar, tag: &Tag) -> bool {
    matches!(again!(objects_text(alloc, table, jar, tag)), Ok(told) if told.as_slice() == OBJECTS)
}

/// How many rows a tag has.
fn row_count(alloc: Global, table: &SortedTable, text: &str) -> Result<usize, Fail> {
    let tag = tag_of(alloc, text)?;
    let rows = again!(rows_of(alloc, table, &tag))?;
    Ok(rows.len())
}

#[test]
fn tags_are_shown(rt: HostRuntime) -> Result<(), Fail> {
    let (table, jar) = table_of_file(rt.alloc())?;
    assert!(rt; row_count(rt.alloc(), &table, "zh-yue")? == 3);
    let tag = tag_of(rt.alloc(), "zh-yue")?;
    assert!(rt; has_table(rt.alloc(), &table, &jar, &tag));
    let tag = tag_of(rt.alloc(), "yue-DD")?;
    assert!(rt; has_objects(rt.alloc(), &table, &jar, &tag));
    Ok(())
}
