//! Objects that were written by hand, from the examples of RFC 5646. Rows over the program have more.
use crate::tables::checked_sample;
use lt_answers::{append_object, class_name};
use lt_check::Checked;
use lt_registry::SortedTable;
use lt_tag::{Class, OutOfMemory};
use std::alloc::Global;
use std::test::Fail;

/// Lines with their objects, and whether they are refused. One has a line feed, which a line of the program has not.
const ROWS: &[(&[u8], &str, bool)] = &[
    (
        b"zh-cmn-hans-gb",
        r#"{"input":"zh-cmn-hans-gb","bytes":null,"canonical":"cmn-Hans-GB","fault":null,"place":null,"variant":null,"class":"langtag","language":"zh","extlangs":["cmn"],"script":"Hans","region":"GB","variants":[],"extensions":[],"private":[]}"#,
        false,
    ),
    (
        b"en-\xe9\x0a",
        r#"{"input":null,"bytes":"656e2de90a","canonical":null,"fault":"BadByte","place":2,"variant":null,"class":null,"language":null,"extlangs":[],"script":null,"region":null,"variants":[],"extensions":[],"private":[]}"#,
        true,
    ),
];

/// Whether a line has this object, and is refused or not.
fn has_object(
    alloc: Global,
    checked: &Checked<SortedTable>,
    line: &[u8],
    object: &str,
    is_refused: bool,
) -> Result<bool, OutOfMemory> {
    let mut objects = Vec::new(alloc);
    let refused = append_object(&mut objects, alloc, checked, line)?;
    Ok(objects.as_slice() == object.as_bytes() && refused == is_refused)
}

#[test]
fn objects_of_lines(rt: HostRuntime) -> Result<(), Fail> {
    let checked = checked_sample(rt.alloc())?;
    for (line, object, is_refused) in ROWS {
        let has = has_object(rt.alloc(), &checked, line, object, *is_refused);
        assert!(rt; matches!(has, Ok(true)), "{object}");
    }
    Ok(())
}

/// The words for the classes.
const CLASSES: [(Class, &str); 3] = [
    (Class::LangTag, "langtag"),
    (Class::PrivateUse, "privateuse"),
    (Class::Grandfathered, "grandfathered"),
];

#[test]
fn words_for_classes(rt: HostRuntime) {
    for (class, word) in &CLASSES {
        assert!(rt; class_name(*class) == *word);
    }
}
