//! What a call does where a growth of memory is refused.
use super::{range_of, ranges_of, subtags_of, tags_of};
use lt_range::{LanguageRange, RangeFault, TagSubtags, filter_extended};
use lt_testing::again;
use std::alloc::Global;
use std::test::Fail;

/// How many subtags a range has.
fn length_of(alloc: Global, text: &str) -> Result<usize, RangeFault> {
    let range = range_of(alloc, text)?;
    Ok(range.named().len())
}

#[test]
fn a_range_is_read(rt: HostRuntime) {
    assert!(rt; matches!(length_of(rt.alloc(), "de-*-DE-1996-x-a-b-c-d-e"), Ok(9)));
}

/// How many subtags a tag has.
fn subtag_count(alloc: Global, text: &str) -> Result<usize, Fail> {
    let tag = subtags_of(alloc, text)?;
    Ok(tag.subtags().len())
}

#[test]
fn a_tag_has_its_subtags(rt: HostRuntime) -> Result<(), Fail> {
    assert!(rt; subtag_count(rt.alloc(), "zh-Hant-CN-x-private1-private2")? == 6);
    Ok(())
}

/// Whether ranges find these tags.
fn are_found(
    alloc: Global,
    ranges: &[LanguageRange],
    tags: &[TagSubtags],
    places: &[usize],
) -> bool {
    matches!(again!(filter_extended(alloc, ranges, tags)), Ok(found) if found.as_slice() == places)
}

#[test]
fn places_are_found(rt: HostRuntime) -> Result<(), Fail> {
    let ranges = ranges_of(rt.alloc(), &["de", "fr"])?;
    let tags = tags_of(rt.alloc(), &["fr", "en", "de-CH", "de", "fr-CH"])?;
    assert!(rt; are_found(rt.alloc(), &ranges, &tags, &[2, 3, 0, 4]));
    Ok(())
}
