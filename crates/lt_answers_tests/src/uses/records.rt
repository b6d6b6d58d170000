//! What the records of a registry say of the parts of a tag.
use super::{registry_of, tag_of};
use bcp47::{JarField, Listing, Record, Registry, Tag, fields_of, is_shown, read_jar};
use std::alloc::Global;
use std::test::Fail;

/// A registry whose records describe what they register (RFC 5646, 3.1.2).
const DESCRIBED: &[u8] = b"File-Date: 2025-05-15
%%
Type: language
Subtag: zh
Description: Chinese
Added: 2005-10-16
Scope: macrolanguage
%%
Type: extlang
Subtag: yue
Description: Yue Chinese
Description: Cantonese
Preferred-Value: yue
Prefix: zh
%%
Type: language
Subtag: yue
";

/// The number of the record that is listed; 0 where none is.
fn number_of(listing: Listing) -> u32 {
    match listing {
        Listing::Record(number) => number,
        _ => 0,
    }
}

/// Appends the bodies of the fields that are shown.
fn append_bodies(alloc: Global, shown: &mut String, fields: &[JarField]) -> Result<(), Fail> {
    for field in fields {
        if is_shown(field.name()) {
            shown.push_str(format!(in alloc; ", {}", field.body())?.as_str())?;
        }
    }
    Ok(())
}

/// The rows of a tag: of each its place, what it is, the number of its record, and what that says.
fn rows_shown(
    alloc: Global,
    registry: &Registry,
    records: &[Record],
    tag: &Tag,
) -> Result<String, Fail> {
    let mut shown = String::new(alloc);
    for row in &registry.rows(alloc, tag)? {
        let number = number_of(row.listing);
        let line = format!(in alloc; "{} {} {number}", row.place, row.subject.name())?;
        shown.push_str(line.as_str())?;
        append_bodies(alloc, &mut shown, fields_of(records, number))?;
        shown.push_str("\n")?;
    }
    Ok(shown)
}

#[test]
fn rows_with_their_records(rt: HostRuntime) -> Result<(), Fail> {
    let registry = registry_of(rt.alloc(), DESCRIBED)?;
    let jar = read_jar(rt.alloc(), DESCRIBED)?;
    let tag = tag_of(rt.alloc(), "ZH-yue-x-own")?;
    let shown = rows_shown(rt.alloc(), &registry, jar.records(), &tag)?;
    assert_eq!(rt;
        shown.as_str(),
        "1 Language 2, Chinese, macrolanguage\n2 Extlang 3, Yue Chinese, Cantonese, yue, zh\n3 PrivateUseSingleton 0\n4 PrivateUse 0\n"
    );
    Ok(())
}

/// The rows of a tag as JSON.
fn rows_as_json(alloc: Global, text: &str) -> Result<Vec<u8>, Fail> {
    let registry = registry_of(alloc, DESCRIBED)?;
    let jar = read_jar(alloc, DESCRIBED)?;
    let tag = tag_of(alloc, text)?;
    let mut rows = Vec::new(alloc);
    registry.append_rows(alloc, jar.records(), &tag, &mut rows)?;
    Ok(rows)
}

#[test]
fn rows_in_json(rt: HostRuntime) -> Result<(), Fail> {
    let wanted: &[u8] =
        br#"[{"place":1,"kind":"Language","text":"yue","listing":"Record","record":4,"fields":[]},{"place":2,"kind":"Region","text":"HK","listing":"Unregistered","record":null,"fields":[]}]"#;
    let rows = rows_as_json(rt.alloc(), "yue-hk")?;
    assert!(rt; rows.as_slice() == wanted);
    Ok(())
}
