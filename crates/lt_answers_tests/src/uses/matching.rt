//! Which tags a user asks for.
use super::{small_registry, tag_of};
use bcp47::{
    AcceptLanguage, Available, LanguageRange, Registry, Scheme, TagSubtags, any_matches,
    filter_basic, filter_extended, lookup,
};
use std::alloc::Global;
use std::test::Fail;

/// The ranges that a header accepts, by priority and in each of their spellings.
fn ranges_of(
    alloc: Global,
    registry: &Registry,
    header: &[u8],
) -> Result<Vec<LanguageRange>, Fail> {
    let accept = AcceptLanguage::read(alloc, header)?;
    let mut ranges = Vec::new(alloc);
    for accepted in &accept.acceptable {
        ranges.append(&mut registry.ranges(alloc, accepted.range)?)?;
    }
    Ok(ranges)
}

/// What ranges are matched with, for each of some tags.
fn subtags_of(alloc: Global, registry: &Registry, texts: &[&str]) -> Result<Vec<TagSubtags>, Fail> {
    let mut tags = Vec::new(alloc);
    for text in texts {
        tags.push(registry.subtags(alloc, &tag_of(alloc, text)?)?)?;
    }
    Ok(tags)
}

/// Whether these are found among three tags by headers.
fn are_found(alloc: Global, registry: &Registry) -> Result<bool, Fail> {
    let tags = subtags_of(alloc, registry, &["zh", "cmn-Hans-IL", "he-IL"])?;
    let ranges = ranges_of(alloc, registry, b"zh-cmn;q=0.5, iw, zh;q=0")?;
    let is_first = filter_basic(alloc, &ranges, &tags)?.as_slice() == [2, 1].as_slice()
        && lookup(&ranges, &tags) == Some(0);
    let ranges = ranges_of(alloc, registry, b"cmn-il, iw-IL-x-own;q=0.9")?;
    let is_second = filter_extended(alloc, &ranges, &tags)?.as_slice() == [1].as_slice()
        && lookup(&ranges[1..], &tags) == Some(2);
    Ok(is_first && is_second)
}

/// The place of the tag that is served to the reader of a header.
fn served(
    alloc: Global,
    registry: &Registry,
    available: &Available,
    header: &[u8],
) -> Result<Option<usize>, Fail> {
    let preferences = registry.preferences(alloc, header)?;
    Ok(available.best(&preferences))
}

/// Headers, and the tag that each is served of three: by weight, by what is equivalent, by `*`, and none.
const SERVED: &[(&[u8], Option<usize>)] = &[
    (b"iw;q=0.8, zh-cmn-Hans-IL", Some(1)),
    (b"zh", Some(1)),
    (b"iw", Some(0)),
    (b"*, he;q=0", Some(1)),
    (b"en", None),
];

/// Whether each header is served its tag.
fn are_served(alloc: Global, registry: &Registry, available: &Available) -> Result<bool, Fail> {
    for (header, place) in SERVED {
        if served(alloc, registry, available, header)? != *place {
            return Ok(false);
        }
    }
    Ok(true)
}

/// Whether headers are served by three tags, which another accepts in this order.
fn serves(alloc: Global, registry: &Registry) -> Result<bool, Fail> {
    let tags: [&[u8]; 3] = [b"he-IL", b"cmn-Hans", b"zh-IL"];
    let available = registry.available(alloc, &tags)?;
    let preferences = registry.preferences(alloc, b"he;q=0.5, zh, cmn;q=0")?;
    let places = available.filter(alloc, &preferences)?;
    Ok(places.as_slice() == [2, 0].as_slice() && are_served(alloc, registry, &available)?)
}

/// The refusals of a header and of a list of tags, and their places.
fn unserved(alloc: Global, registry: &Registry) -> Option<(&'static str, usize)> {
    let tags: [&[u8]; 2] = [b"he", b"he_IL"];
    let header = registry.preferences(alloc, b"he, iw;q=2").err()?;
    let list = registry.available(alloc, &tags).err()?;
    Some((header.name(), list.place))
}

/// Whether a range matches a tag by basic filtering.
fn is_matched(alloc: Global, registry: &Registry, range: &str, tag: &str) -> Result<bool, Fail> {
    let ranges = registry.ranges(alloc, range.as_bytes())?;
    let subtags = registry.subtags(alloc, &tag_of(alloc, tag)?)?;
    Ok(any_matches(Scheme::Basic, &ranges, &subtags))
}

/// Ranges, and tags that are written otherwise.
const MATCHED: &[(&str, &str)] = &[
    ("iw", "he-IL"),
    ("cmn", "zh-cmn-Hans"),
    ("zh", "zh-cmn-Hans"),
    ("iw-*", "iw"),
];

/// Whether each range matches its tag.
fn are_matched(alloc: Global, registry: &Registry) -> Result<bool, Fail> {
    for (range, tag) in MATCHED {
        if !is_matched(alloc, registry, range, tag)? {
            return Ok(false);
        }
    }
    Ok(true)
}

/// The names of the refusals of texts that are no range and no header.
fn refusals(alloc: Global, registry: &Registry) -> Option<(&'static str, &'static str, usize)> {
    let range = registry.ranges(alloc, b"he_IL").err()?;
    let header = AcceptLanguage::read(alloc, b"he, iw;q=2").err()?;
    Some((range.name(), header.kind.name(), header.place))
}

/// What the small registry answers wrongly for ranges, headers and tags, if anything.
fn answered_wrongly(alloc: Global, registry: &Registry) -> Result<&'static str, Fail> {
    if !are_found(alloc, registry)? || !serves(alloc, registry)? {
        return Ok("headers");
    }
    if !are_matched(alloc, registry)? {
        return Ok("ranges");
    }
    let is_told = unserved(alloc, registry) == Some(("BadWeight", 2))
        && refusals(alloc, registry) == Some(("BadByte", "BadWeight", 2));
    Ok(if is_told { "" } else { "refusals" })
}

#[test]
fn ranges_headers_and_tags(rt: HostRuntime) -> Result<(), Fail> {
    let registry = small_registry(rt.alloc())?;
    let wrong = answered_wrongly(rt.alloc(), &registry)?;
    assert!(rt; wrong.is_empty(), "{wrong}");
    Ok(())
}
