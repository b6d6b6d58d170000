//! Rows by the file, the fields of records, and what is printed of controls.
use super::{table_of_file, tag_of};
use lt_show::{Listing, PartKind, Row, Subject, append_printable, fields_of, is_shown, rows_of};
use std::test::Fail;

#[test]
fn parts_have_rows(rt: HostRuntime) -> Result<(), Fail> {
    let alloc = rt.alloc();
    let (table, _) = table_of_file(alloc)?;
    let rows = rows_of(alloc, &table, &tag_of(alloc, "ZH-t-de-dd-k0-abc")?)?;
    let found = [
        (PartKind::Language, 0, 2, Listing::Record(3)),
        (PartKind::Singleton, 3, 1, Listing::Unlisted),
        (PartKind::SourceLanguage, 5, 2, Listing::Record(2)),
        (PartKind::SourceRegion, 8, 2, Listing::Unregistered),
        (PartKind::Separator, 11, 2, Listing::Unlisted),
        (PartKind::Value, 14, 3, Listing::Unlisted),
    ];
    assert_eq!(rt; rows.len(), 6);
    for (index, (kind, start, length, listing)) in found.iter().enumerate() {
        let row = Row {
            place: index + 1,
            subject: Subject::Part(*kind),
            start: *start,
            length: *length,
            listing: *listing,
        };
        assert!(rt; rows.get(index) == Some(&row), "{index}");
    }
    Ok(())
}

#[test]
fn records_have_fields(rt: HostRuntime) -> Result<(), Fail> {
    let (_, jar) = table_of_file(rt.alloc())?;
    let fields = fields_of(jar.records(), 4);
    assert_eq!(rt; fields.len(), 4);
    assert_eq!(rt; fields[3].body(), "Canto nese");
    assert!(rt;
        is_shown("preferred-VALUE")
            && is_shown("Comments")
            && is_shown("prefix")
            && !is_shown("Added")
    );
    assert!(rt; fields_of(jar.records(), 0).is_empty() && fields_of(jar.records(), 8).is_empty());
    Ok(())
}

#[test]
fn controls_are_spaces(rt: HostRuntime) -> Result<(), Fail> {
    let mut told = Vec::new(rt.alloc());
    append_printable(&mut told, b"en\t\x1b[1m\n\xc3\xa9\x7f")?;
    assert_eq!(rt; told.as_slice(), b"en  [1m \xc3\xa9 ".as_slice());
    Ok(())
}
