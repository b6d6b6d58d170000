//! Texts with their tags, or with their faults and places.
use lt_tag::{TagFault, cut_piece, first_hyphen, read_tag};
use std::alloc::Global;

/// Texts with the names and the places of their faults.
pub const FAULTS: &[(&str, &str, u32)] = &[
    ("", "EmptySubtag", 1),
    ("en-", "EmptySubtag", 2),
    ("en--us", "EmptySubtag", 2),
    ("en_US", "BadByte", 1),
    ("en-abcdefgh_", "BadByte", 2),
    ("en-abcdefghi", "LongSubtag", 2),
    // A piece that is no subtag comes first, even after a misplaced subtag.
    ("e1-a-b_", "BadByte", 3),
    ("en-419-GB-", "EmptySubtag", 4),
    ("en-a-", "EmptySubtag", 3),
    ("e1", "BadLanguage", 1),
    ("i-foo", "BadLanguage", 1),
    ("a-bb", "BadLanguage", 1),
    ("abcd-efg", "Misplaced", 2),
    ("en-419-GB", "Misplaced", 3),
    ("en-aaa-bbb-ccc-ddd", "Misplaced", 5),
    ("en-a-x-b", "Misplaced", 3),
    ("en-a-b-cc", "Misplaced", 3),
    ("sgn-BE-FR-x-a", "Misplaced", 3),
    ("en-GB-oed-x-a", "Misplaced", 3),
    ("en-a", "Unfinished", 3),
    ("qaa-x", "Unfinished", 3),
    ("x", "Unfinished", 2),
];

/// Texts with their tags as they are printed.
pub const TEXTS: &[(&str, &str)] = &[
    ("ZH-yue-hant-hk", "zh-yue-Hant-HK"),
    ("sl-ROZAJ-1994", "sl-rozaj-1994"),
    ("en-1ABC", "en-1abc"),
    ("AZ-latn-x-LATN", "az-Latn-x-latn"),
    ("en-ca-X-CA", "en-CA-x-ca"),
    ("sgn-dd-x-A", "sgn-DD-x-a"),
    ("art-lojban-x-A", "art-lojban-x-a"),
    ("en-1-AA-x-C-DD", "en-1-aa-x-c-dd"),
    ("en-b-ccc-BBB-a-aaa-X-xyz", "en-b-ccc-bbb-a-aaa-x-xyz"),
    ("X-AB-hans-c", "x-ab-hans-c"),
    ("en-Latn-a-bb", "en-Latn-a-bb"),
    (
        "zh-yue-Hant-HK-1901-abcde-a-bb-cc-b-dd-x-e",
        "zh-yue-Hant-HK-1901-abcde-a-bb-cc-b-dd-x-e",
    ),
    ("x-a-bb", "x-a-bb"),
    ("en-GB-oed", "en-GB-oed"),
    ("zh-MIN", "zh-min"),
    ("X-a", "x-a"),
    ("ZH-HANT-hk-U-CO-TRAD-X-AB", "zh-Hant-HK-u-co-trad-x-ab"),
];

/// Texts, the place of the first hyphen of each, and what is before and after that.
const CUTS: &[(&str, Option<usize>, &str, Option<&str>)] = &[
    ("zh-Hant-CN", Some(2), "zh", Some("Hant-CN")),
    ("en_US", None, "en_US", None),
    ("-", Some(0), "", Some("")),
    ("", None, "", None),
];

#[test]
fn texts_are_cut(rt: HostRuntime) {
    for (text, hyphen, piece, rest) in CUTS {
        let (first, after) = cut_piece(text.as_bytes());
        let is_after = match (after, rest) {
            (Some(after), Some(rest)) => after == rest.as_bytes(),
            (None, None) => true,
            _ => false,
        };
        assert!(rt;
            first_hyphen(text.as_bytes()) == *hyphen && first == piece.as_bytes() && is_after,
            "{text}"
        );
    }
}

/// The numbers and the texts of the grandfathered tags.
const GRANDFATHERED: &[(u8, &str)] = &[
    (1, "en-GB-oed"),
    (2, "i-ami"),
    (3, "i-bnn"),
    (4, "i-default"),
    (5, "i-enochian"),
    (6, "i-hak"),
    (7, "i-klingon"),
    (8, "i-lux"),
    (9, "i-mingo"),
    (10, "i-navajo"),
    (11, "i-pwn"),
    (12, "i-tao"),
    (13, "i-tay"),
    (14, "i-tsu"),
    (15, "sgn-BE-FR"),
    (16, "sgn-BE-NL"),
    (17, "sgn-CH-DE"),
    (18, "art-lojban"),
    (19, "cel-gaulish"),
    (20, "no-bok"),
    (21, "no-nyn"),
    (22, "zh-guoyu"),
    (23, "zh-hakka"),
    (24, "zh-min"),
    (25, "zh-min-nan"),
    (26, "zh-xiang"),
];

/// The number of the grandfathered tag of a text.
fn number_of(alloc: Global, text: &str) -> Result<Option<u8>, TagFault> {
    Ok(read_tag(alloc, text.as_bytes())?.grandfathered())
}

#[test]
fn grandfathered_tags_have_numbers(rt: HostRuntime) -> Result<(), TagFault> {
    for (number, text) in GRANDFATHERED {
        assert!(rt; number_of(rt.alloc(), text)? == Some(*number), "{text}");
    }
    assert!(rt; number_of(rt.alloc(), "zh-min-x-a")?.is_none());
    Ok(())
}
