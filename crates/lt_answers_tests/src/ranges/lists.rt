//! Filtering and lookup by priority lists.
use super::{ranges_of, subtags_of, tags_of};
use lt_range::{LanguageRange, TagSubtags, filter_basic, filter_extended, lookup};
use std::alloc::Global;
use std::test::Fail;

/// Tags that are offered.
const TAGS: &[&str] = &[
    "zh-Hant",
    "de-Latn-DE",
    "fr",
    "de-DE",
    "fr",
    "de-DE-1996",
    "de",
];

/// Whether basic filtering finds these places.
fn is_basic(
    alloc: Global,
    ranges: &[LanguageRange],
    tags: &[TagSubtags],
    places: &[usize],
) -> Result<bool, Fail> {
    Ok(filter_basic(alloc, ranges, tags)?.as_slice() == places)
}

/// Whether extended filtering finds these places.
fn is_extended(
    alloc: Global,
    ranges: &[LanguageRange],
    tags: &[TagSubtags],
    places: &[usize],
) -> Result<bool, Fail> {
    Ok(filter_extended(alloc, ranges, tags)?.as_slice() == places)
}

#[test]
fn places_go_by_priority(rt: HostRuntime) -> Result<(), Fail> {
    let tags = tags_of(rt.alloc(), TAGS)?;
    let ranges = ranges_of(rt.alloc(), &["fr", "de-DE", "de"])?;
    assert!(rt; is_basic(rt.alloc(), &ranges, &tags, &[2, 4, 3, 5, 1, 6])?);
    assert!(rt; is_extended(rt.alloc(), &ranges, &tags, &[2, 4, 1, 3, 5, 6])?);
    Ok(())
}

/// Lists of ranges, and the place of the tag that lookup finds by each.
const LOOKUPS: &[(&[&str], Option<usize>)] = &[
    (&["fr-FR", "zh-Hant"], Some(2)),
    (&["en", "zh-Hant-CN"], Some(0)),
    (&["de-DE-x-a"], Some(3)),
    (&["de-CH"], Some(6)),
    (&["*", "en"], None),
    (&[], None),
];

/// The place of the tag that lookup finds by ranges of these texts.
fn found(alloc: Global, texts: &[&str], tags: &[TagSubtags]) -> Result<Option<usize>, Fail> {
    Ok(lookup(&ranges_of(alloc, texts)?, tags))
}

#[test]
fn first_range_that_finds_a_tag(rt: HostRuntime) -> Result<(), Fail> {
    let tags = tags_of(rt.alloc(), TAGS)?;
    for (texts, place) in LOOKUPS {
        assert!(rt; found(rt.alloc(), texts, &tags)? == *place, "{place:?}");
    }
    Ok(())
}

/// Whether a tag gives a range of its subtags that falls back to it.
fn is_a_range(alloc: Global, text: &str) -> Result<bool, Fail> {
    let tag = subtags_of(alloc, text)?;
    let range = LanguageRange::of_subtags(subtags_of(alloc, text)?);
    let is_same = range.named() == tag.subtags() && !range.begins_wild();
    Ok(is_same && range.falls_back_to(&tag))
}

#[test]
fn a_tag_is_a_range(rt: HostRuntime) -> Result<(), Fail> {
    for text in TAGS {
        assert!(rt; is_a_range(rt.alloc(), text)?, "{text}");
    }
    Ok(())
}
