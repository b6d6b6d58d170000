//! Which tags ranges with weights serve, and which they accept: the example of RFC 9110, 12.5.4, and others.
use super::{range_of, tags_of};
use lt_range::{Preference, TagSubtags, best, filter_accepted, weight_of};
use std::alloc::Global;
use std::test::Fail;

/// Ranges with their weights in thousandths, tags, which of these is served, and those that are accepted, with their weights.
const ROWS: &[(&[(&str, u16)], &[&str], Option<usize>, &str)] = &[
    (
        &[("da", 1000), ("en-gb", 800), ("en", 700)],
        &["de", "en", "en-GB", "da"],
        Some(3),
        "3 1000, 2 800, 1 700, ",
    ),
    (
        &[("de-CH", 1000), ("en", 500)],
        &["en", "de"],
        Some(1),
        "0 500, ",
    ),
    (
        &[("de-CH-1996", 1000)],
        &["de", "de-CH", "de-1996"],
        Some(1),
        "",
    ),
    (
        &[("en", 1000), ("fr", 500)],
        &["fr", "en-GB"],
        Some(1),
        "1 1000, 0 500, ",
    ),
    (
        &[("*", 1000), ("en", 500)],
        &["de", "en"],
        Some(1),
        "0 1000, 1 500, ",
    ),
    (
        &[("en", 1000), ("*", 500)],
        &["de", "fr"],
        Some(0),
        "0 500, 1 500, ",
    ),
    (&[("en", 1000)], &["de"], None, ""),
    (&[("de-CH", 1000), ("de", 0)], &["de", "de-AT"], None, ""),
    (
        &[("*", 1000), ("de", 0)],
        &["de-AT", "fr"],
        Some(1),
        "1 1000, ",
    ),
    (
        &[("en", 1000), ("*", 0)],
        &["de", "en-GB"],
        Some(1),
        "1 1000, ",
    ),
    (
        &[("de", 1000), ("*", 0), ("de-CH", 0)],
        &["de-CH", "de"],
        Some(1),
        "1 1000, ",
    ),
];

/// Ranges with their weights.
fn preferred(alloc: Global, ranges: &[(&str, u16)]) -> Result<Vec<Preference>, Fail> {
    let mut preferences = Vec::new(alloc);
    for (place, (text, weight)) in ranges.iter().enumerate() {
        let range = range_of(alloc, text)?;
        let weight = *weight;
        preferences.push(Preference {
            range,
            weight,
            place,
        })?;
    }
    Ok(preferences)
}

/// The places of the tags that are accepted, with their weights, as the table above has them.
fn accepted(alloc: Global, all: &[Preference], tags: &[TagSubtags]) -> Result<String, Fail> {
    let mut told = String::new(alloc);
    for place in &filter_accepted(alloc, all, tags)? {
        let Some(tag) = tags.get(*place) else {
            return Err(Fail::from("no such place"));
        };
        let weight = weight_of(all, tag).unwrap_or(0);
        let words = format!(in alloc; "{place} {weight}, ")?;
        told.push_str(words.as_str())?;
    }
    Ok(told)
}

#[test]
fn tags_are_served(rt: HostRuntime) -> Result<(), Fail> {
    for (ranges, tags, wanted, told) in ROWS {
        let all = preferred(rt.alloc(), ranges)?;
        let lists = tags_of(rt.alloc(), tags)?;
        assert!(rt; best(&all, &lists) == *wanted);
        assert!(rt; accepted(rt.alloc(), &all, &lists)?.as_str() == *told);
    }
    Ok(())
}

#[test]
fn a_tag_that_none_matches_has_no_weight(rt: HostRuntime) -> Result<(), Fail> {
    let all = preferred(rt.alloc(), &[("de", 1000)])?;
    for tag in &tags_of(rt.alloc(), &["en", "x-de"])? {
        assert!(rt; weight_of(&all, tag).is_none());
    }
    Ok(())
}
