//! Which ranges match which tags.
use super::{range_of, subtags_of};
use std::alloc::Global;
use std::test::Fail;

/// Ranges and tags, and whether the range matches the tag by basic filtering, by extended filtering and by lookup. The
/// rows are the examples of RFC 4647, 3.3.1, 3.3.2 and 3.4, and of each kind of range and tag that these lack one.
const ROWS: &[(&str, &str, bool, bool, bool)] = &[
    ("de-de", "de-DE-1996", true, true, false),
    ("de-de", "de-Deva", false, false, false),
    ("de-de", "de-Latn-DE", false, true, false),
    ("de-*-DE", "de-DE", true, true, true),
    ("de-*-DE", "de-de", true, true, true),
    ("de-*-DE", "de-Latn-DE", false, true, false),
    ("de-*-DE", "de-Latf-DE", false, true, false),
    ("de-*-DE", "de-DE-x-goethe", true, true, false),
    ("de-*-DE", "de-Latn-DE-1996", false, true, false),
    ("de-*-DE", "de-Deva-DE", false, true, false),
    ("de-*-DE", "de", false, false, true),
    ("de-*-DE", "de-x-DE", false, false, false),
    ("de-*-DE", "de-Deva", false, false, false),
    ("DE-de", "de-Deva-DE", false, true, false),
    ("DE-de", "de-x-DE", false, false, false),
    ("de-CH", "de-CH", true, true, true),
    ("de-CH", "de", false, false, true),
    ("de-CH", "de-CH-1996", true, true, false),
    (
        "zh-Hant-CN-x-private1-private2",
        "zh-hant-cn-x-private1-private2",
        true,
        true,
        true,
    ),
    (
        "zh-Hant-CN-x-private1-private2",
        "zh-Hant-CN-x-private1",
        false,
        false,
        true,
    ),
    (
        "zh-Hant-CN-x-private1-private2",
        "zh-Hant-CN",
        false,
        false,
        true,
    ),
    (
        "zh-Hant-CN-x-private1-private2",
        "zh-Hant",
        false,
        false,
        true,
    ),
    ("zh-Hant-CN-x-private1-private2", "zh", false, false, true),
    (
        "zh-Hant-CN-x-private1-private2",
        "zh-Hans",
        false,
        false,
        false,
    ),
    ("*", "zh-Hant", true, true, false),
    ("*-CH", "de-CH", true, true, false),
    ("*-CH", "de-Latn-CH", true, true, false),
    ("*-CH", "de", true, false, false),
    ("de", "den", false, false, false),
    ("de-DE-DE", "de-DE", false, false, true),
    ("i-klingon", "i-klingon", true, true, true),
    ("i", "i-klingon", true, true, false),
    ("en-x-a", "en-Latn-x-a", false, true, false),
    ("en-a", "en-x-b-a", false, false, false),
];

/// Whether a range matches a tag in each of the three ways.
fn matches(alloc: Global, range: &str, tag: &str) -> Result<(bool, bool, bool), Fail> {
    let range = range_of(alloc, range)?;
    let tag = subtags_of(alloc, tag)?;
    Ok((
        range.matches_basic(&tag),
        range.matches_extended(&tag),
        range.falls_back_to(&tag),
    ))
}

#[test]
fn ranges_match_tags(rt: HostRuntime) -> Result<(), Fail> {
    for (range, tag, basic, extended, lookup) in ROWS {
        let found = matches(rt.alloc(), range, tag)?;
        assert!(rt; found == (*basic, *extended, *lookup), "{range} {tag}");
    }
    Ok(())
}
