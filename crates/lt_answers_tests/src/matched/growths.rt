//! What a call does where a growth of memory is refused.
use super::ranges_of;
use crate::tables::matching_sample;
use lt_canon::{Refusal, TextRefusal};
use lt_range::{
    Available, HeaderRefusal, MatchingTable, RangeRefusal, header_preferences, tag_spellings,
};
use lt_registry::SortedTable;
use lt_tag::read_tag;
use lt_testing::{again, retried};
use std::alloc::Global;
use std::test::Fail;

/// Texts, how many ranges each matches by, and how many subtags the first of these has.
const RANGES: &[(&str, usize, usize)] = &[
    ("zh-yue-x-a-b-c", 1, 6),
    ("de-foo-x-a", 1, 4),
    ("yue-*-DE", 1, 3),
    ("gsg", 2, 1),
];

/// How many ranges a text matches by, and how many subtags the first of these has.
fn lengths_of(
    alloc: Global,
    table: &MatchingTable<SortedTable>,
    text: &str,
) -> Result<(usize, usize), RangeRefusal> {
    let ranges = ranges_of(alloc, table, text)?;
    let subtags = match ranges.first() {
        Some(range) => range.named().len(),
        None => 0,
    };
    Ok((ranges.len(), subtags))
}

/// Whether each text has so many ranges, and the first so many subtags.
fn are_ranges(alloc: Global, table: &MatchingTable<SortedTable>) -> Result<bool, RangeRefusal> {
    for (text, count, subtags) in RANGES {
        if lengths_of(alloc, table, text)? != (*count, *subtags) {
            return Ok(false);
        }
    }
    Ok(true)
}

/// How many subtags a tag has by its extlang form.
fn subtag_count(
    alloc: Global,
    table: &MatchingTable<SortedTable>,
    text: &str,
) -> Result<usize, Fail> {
    let tag = again!(read_tag(alloc, text.as_bytes()))?;
    let subtags = retried!(tag_spellings(alloc, table, &tag), Refusal::OutOfMemory)?;
    Ok(subtags.subtags().len())
}

/// How many ranges a header has.
fn range_count(
    alloc: Global,
    table: &MatchingTable<SortedTable>,
    header: &str,
) -> Result<usize, HeaderRefusal> {
    let preferences = retried!(
        header_preferences(alloc, table, header.as_bytes()),
        HeaderRefusal::OutOfMemory
    )?;
    Ok(preferences.len())
}

/// Whether tags are prepared.
fn are_prepared(alloc: Global, table: &MatchingTable<SortedTable>, texts: &[&[u8]]) -> bool {
    let prepared = retried!(
        Available::of_texts(alloc, table, texts),
        refused if matches!(refused.refusal, TextRefusal::OutOfMemory)
    );
    prepared.is_ok()
}

#[test]
fn ranges_and_tags_are_prepared(rt: HostRuntime) -> Result<(), Fail> {
    let table = matching_sample(rt.alloc())?;
    assert!(rt; matches!(are_ranges(rt.alloc(), &table), Ok(true)));
    assert!(rt; subtag_count(rt.alloc(), &table, "zh-yue-x-a-b-c")? == 6);
    assert!(rt;
        matches!(
            range_count(rt.alloc(), &table, "de;q=0.5, zh-yue, fr;q=0"),
            Ok(3)
        )
    );
    assert!(rt; are_prepared(rt.alloc(), &table, &[b"de", b"yue-Hans"]));
    Ok(())
}
