//! The parts of tags: their kinds, where they are in the text, and where a growth of memory is refused.
mod growths;

use lt_show::{Part, PartKind};

/// A tag, and the kind, the place and the length of each of its parts.
type Row = (&'static str, &'static [(PartKind, usize, usize)]);

const ROWS: &[Row] = &[
    (
        "ZH-hant-hk-X-ab",
        &[
            (PartKind::Language, 0, 2),
            (PartKind::Script, 3, 4),
            (PartKind::Region, 8, 2),
            (PartKind::PrivateUseSingleton, 11, 1),
            (PartKind::PrivateUse, 13, 2),
        ],
    ),
    ("sgn-be-fr", &[(PartKind::Grandfathered, 0, 9)]),
    (
        "en-t-zh-k0-qwerty-x-t",
        &[
            (PartKind::Language, 0, 2),
            (PartKind::Singleton, 3, 1),
            (PartKind::SourceLanguage, 5, 2),
            (PartKind::Separator, 8, 2),
            (PartKind::Value, 11, 6),
            (PartKind::PrivateUseSingleton, 18, 1),
            (PartKind::PrivateUse, 20, 1),
        ],
    ),
    (
        "de-DE-u-attr-co-phonebk",
        &[
            (PartKind::Language, 0, 2),
            (PartKind::Region, 3, 2),
            (PartKind::Singleton, 6, 1),
            (PartKind::Attribute, 8, 4),
            (PartKind::Key, 13, 2),
            (PartKind::Type, 16, 7),
        ],
    ),
];

/// Whether a part is that of a row.
fn is_part(part: &Part, row: &(PartKind, usize, usize)) -> bool {
    (part.kind, part.start, part.length) == *row
}

#[test]
fn kinds_have_names(rt: HostRuntime) {
    assert!(rt; PartKind::Separator.name() == "Separator");
    assert!(rt; PartKind::SourceRegion.name() == "SourceRegion");
    assert!(rt; PartKind::Key != PartKind::Type && PartKind::Key == PartKind::Key);
}
