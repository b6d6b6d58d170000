//! Both tables answer alike, and as the registry says.
use super::tables::{list_table, sorted_table};
use lt_registry::{Kind, ListTable, Lookup, SortedTable, ValidRefusal};
use lt_subtag::Subtag;
use lt_tag::{Tag, read_tag};
use lt_testing::{ROWS, changed_text};
use std::alloc::Global;
use std::test::Fail;

/// A kind, a subtag, and the number of its record.
pub type SubtagRow = (Kind, &'static str, Option<u32>);

/// Subtags of the sample.
pub const SUBTAGS: &[SubtagRow] = &[
    (Kind::Language, "iw", Some(9)),
    (Kind::Region, "xb", Some(30)),
    (Kind::Region, "us", None),
    (Kind::Extlang, "min", Some(22)),
    (Kind::Redundant, "de", None),
];

/// The number of the entry of a subtag under a kind.
fn entry_number<L: Lookup>(table: &L, kind: Kind, subtag: &Subtag) -> Option<u32> {
    match table.entry(kind, subtag) {
        Some(entry) => Some(entry.number()),
        None => None,
    }
}

/// Whether the entry of a subtag has this number.
fn finds<L: Lookup>(table: &L, kind: Kind, text: &str, number: Option<u32>) -> bool {
    match Subtag::read(text.as_bytes()) {
        Ok(subtag) => entry_number(table, kind, &subtag) == number,
        Err(_) => false,
    }
}

/// Whether each subtag has the entry of its row.
pub fn finds_each<L: Lookup>(table: &L, rows: &[SubtagRow]) -> bool {
    for (kind, text, number) in rows {
        if !finds(table, *kind, text, *number) {
            return false;
        }
    }
    true
}

/// Whole tags of the sample with the numbers of their records.
pub const WHOLE_TAGS: [(&str, Option<u32>); 3] = [
    ("sgn-DE", Some(44)),
    ("sgn-DE-x-a", None),
    ("i-klingon", Some(40)),
];

/// The number of the entry of a whole tag.
pub fn whole_number<L: Lookup>(table: &L, tag: &Tag) -> Option<u32> {
    match table.whole(tag) {
        Some(entry) => Some(entry.number()),
        None => None,
    }
}

/// Texts of tags with the names and the places of their faults, or none.
pub const JUDGED: &[(&str, Option<(&str, u32)>)] = &[
    ("zh-min-x-a", Some(("ExtlangPrefix", 2))),
    ("zh-gan-yue", Some(("TooManyExtlangs", 3))),
    ("fr", Some(("UnknownLanguage", 1))),
    ("zh-abc", Some(("UnknownExtlang", 2))),
    ("en-Zzzz", Some(("UnknownScript", 2))),
    ("en-US", Some(("UnknownRegion", 2))),
    ("de-abcde", Some(("UnknownVariant", 2))),
    ("de-1901-1901", Some(("DuplicateVariant", 3))),
    ("en-a-aaa-A-bbb", Some(("DuplicateSingleton", 4))),
    ("en-t-m0", Some(("BadTransform", 2))),
    ("en-t-fr", Some(("UnknownLanguage", 3))),
    ("en-t-aaaa", Some(("UnknownLanguage", 3))),
    ("en-t-zh-min", Some(("ExtlangPrefix", 4))),
    ("en-t-de-1901-1901", Some(("DuplicateVariant", 5))),
    ("en-t-m0-a0-aaa", Some(("BadTransform", 2))),
    ("en-t-de-m0-xx", Some(("BadTransform", 2))),
    ("en-t-m0-t-de", Some(("BadTransform", 2))),
    ("en-t-m0-aaa-t-de", Some(("DuplicateSingleton", 5))),
    ("de-1901", None),
    ("en-t-m0-aaa-M0-bbb", None),
    ("en-u-11", None),
    ("zh-yue-hans-dd", None),
    ("de-qaaa-xb", None),
    ("x-ab", None),
    ("i-enochian", None),
    ("en-t-zh-yue-m0-names", None),
    ("en-t-de-latn-1901-1901", Some(("DuplicateVariant", 6))),
];

/// Texts of tags, and whether they are proper.
pub const PROPER: &[(&str, bool)] = &[
    ("de-1901-1901", true),
    ("en-t-de-1901-1901", true),
    ("fr", false),
    ("de-1901-1901-abcde", false),
    ("en-t-zh-yue-m0-names", true),
    ("en-t-de-latn-1901-1901", true),
    ("en-t-fr-m0-names", false),
];

/// Whether an answer is this fault, or none.
pub fn is_judgement(answer: &Result<(), ValidRefusal>, told: Option<(&str, u32)>) -> bool {
    match (answer, told) {
        (Ok(()), None) => true,
        (Err(ValidRefusal::Fault(fault)), Some((name, place))) => {
            fault.kind.name() == name && fault.place == place
        }
        _ => false,
    }
}

/// Registries, and the entries of subtags in them: a single one comes before ranges that hold it, and the first of
/// equal names and of ranges before others.
const REGISTRIES: &[(&[u8], &[SubtagRow])] = &[
    (
        b"Type: region\nSubtag: XA..XZ\n%%\nType: region\nSubtag: XB\n%%\nType: region\nSubtag: XA..XC",
        &[
            (Kind::Region, "xa", Some(1)),
            (Kind::Region, "xb", Some(2)),
            (Kind::Region, "xc", Some(1)),
            (Kind::Region, "ya", None),
        ],
    ),
    (
        b"Type: language\nSubtag: aaaaaaaa..zzzzzzzz",
        &[(Kind::Language, "mmmmmmmm", Some(1))],
    ),
    (
        b"Type: language\nSubtag: de\n%%\nType: language\nSubtag: de",
        &[(Kind::Language, "de", Some(1))],
    ),
];

#[test]
fn the_first_of_names_and_ranges(rt: HostRuntime) -> Result<(), Fail> {
    for (text, rows) in REGISTRIES {
        assert!(rt; finds_each(&list_table(rt.alloc(), text)?, rows));
        assert!(rt; finds_each(&sorted_table(rt.alloc(), text)?, rows));
    }
    Ok(())
}

/// Two records of a whole tag.
const DOUBLED: &[u8] = b"Type: redundant\nTag: sgn-DE\n%%\nType: redundant\nTag: SGN-de";

#[test]
fn the_first_of_whole_tags(rt: HostRuntime) -> Result<(), Fail> {
    let tag = read_tag(rt.alloc(), b"sgn-DE")?;
    assert!(rt; whole_number(&list_table(rt.alloc(), DOUBLED)?, &tag) == Some(1));
    assert!(rt; whole_number(&sorted_table(rt.alloc(), DOUBLED)?, &tag) == Some(1));
    Ok(())
}

const KINDS: &[Kind] = &[
    Kind::Language,
    Kind::Extlang,
    Kind::Script,
    Kind::Region,
    Kind::Variant,
    Kind::Grandfathered,
    Kind::Redundant,
];

/// Whether both tables know the same entries of a subtag, whatever the kind.
fn agree_on_subtag(list: &ListTable, sorted: &SortedTable, subtag: &Subtag) -> bool {
    for kind in KINDS {
        if entry_number(list, *kind, subtag) != entry_number(sorted, *kind, subtag) {
            return false;
        }
    }
    true
}

/// Whether both tables know the same entries of a text, as a subtag and as a whole tag.
fn agree(alloc: Global, list: &ListTable, sorted: &SortedTable, text: &str) -> bool {
    let is_same_subtag = match Subtag::read(text.as_bytes()) {
        Ok(subtag) => agree_on_subtag(list, sorted, &subtag),
        Err(_) => true,
    };
    let is_same_tag = match read_tag(alloc, text.as_bytes()) {
        Ok(tag) => whole_number(list, &tag) == whole_number(sorted, &tag),
        Err(_) => true,
    };
    is_same_subtag && is_same_tag
}

/// Subtags that single records of the sample do not name, and the ends of its ranges.
const OTHER_SUBTAGS: &[&str] = &[
    "fr", "abcde", "zzz", "qpz", "qtzz", "a", "qaa", "qtz", "qaaa", "qabx", "xa", "xz",
];

/// Whether a table has this many entries, of which the first is that of `de`.
fn begins_with_german<L: Lookup>(table: &L, entries: usize) -> bool {
    table.entries().len() == entries && finds(table, Kind::Language, "de", Some(2))
}

/// The number of another record of `de` in the sample, or 0 for none, and how many entries there are then.
const GERMAN: [(usize, usize); 2] = [(0, 46), (48, 47)];

#[test]
fn the_same_answers(rt: HostRuntime) -> Result<(), Fail> {
    for (number, entries) in &GERMAN {
        let text = changed_text(rt.alloc(), *number, "Type: language\nSubtag: de\n")?;
        let list = list_table(rt.alloc(), text.as_bytes())?;
        let sorted = sorted_table(rt.alloc(), text.as_bytes())?;
        assert!(rt; begins_with_german(&list, *entries) && begins_with_german(&sorted, *entries));
        for (_, name, _, _) in ROWS {
            assert!(rt; agree(rt.alloc(), &list, &sorted, name), "{name}");
        }
        for name in OTHER_SUBTAGS {
            assert!(rt; agree(rt.alloc(), &list, &sorted, name), "{name}");
        }
    }
    Ok(())
}
