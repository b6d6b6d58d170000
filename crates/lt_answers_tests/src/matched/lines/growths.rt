//! What a run does where a growth of memory is refused.
use super::all_ranges;
use crate::pages::{Page, empty_page, text_of};
use crate::tables::matching_sample;
use lt_answers::{look_up_line, select_lines, serve_line};
use lt_jar::{Device, Pieces};
use lt_range::{LanguageRange, MatchingTable, Preference, Scheme, header_preferences};
use lt_registry::SortedTable;
use lt_stream::ToolFault;
use lt_testing::{again, retried};
use std::alloc::Global;
use std::test::Fail;

const INPUT: &[u8] = b"zh-yue-x-a-b-c\r\nfr\n\nde_\nyue";

const OWED: &[u8] = b"zh-yue-x-a-b-c\r\nyue\n";

/// How a run over the lines ends, and what it wrote.
fn run(
    alloc: Global,
    table: &MatchingTable<SortedTable>,
    ranges: &[LanguageRange],
) -> (Result<u64, ToolFault>, Page) {
    let mut page = empty_page();
    let end = {
        let mut output = Device::new(&mut page);
        let scheme = Scheme::Extended;
        select_lines(
            alloc,
            table,
            scheme,
            ranges,
            &mut Device::new(INPUT),
            &mut output,
        )
    };
    (end, page)
}

/// Whether a run ended with two lines, and wrote them.
fn is_owed(end: Result<u64, ToolFault>, page: &Page) -> bool {
    end == Ok(2) && text_of(page) == OWED
}

/// Whether lines are selected; and where a growth is refused, whether only the first of them were written, and another run
/// selects them.
fn are_selected(
    alloc: Global,
    table: &MatchingTable<SortedTable>,
    ranges: &[LanguageRange],
) -> bool {
    let (end, page) = run(alloc, table, ranges);
    if end == Err(ToolFault::OutOfMemory) && OWED.starts_with(text_of(&page)) {
        let (end, page) = run(alloc, table, ranges);
        return is_owed(end, &page);
    }
    is_owed(end, &page)
}

/// The line that a lookup over a reader finds, if any.
fn look_up(
    alloc: Global,
    table: &MatchingTable<SortedTable>,
    ranges: &[LanguageRange],
) -> Result<Option<Vec<u8>>, ToolFault> {
    let lines = Pieces::once(b"zh\nyue\r\nde\n", 4);
    look_up_line(alloc, table, ranges, &mut Device::new(lines))
}

/// Whether a lookup finds this line.
fn finds(
    alloc: Global,
    table: &MatchingTable<SortedTable>,
    ranges: &[LanguageRange],
    line: &[u8],
) -> bool {
    let found = retried!(look_up(alloc, table, ranges), ToolFault::OutOfMemory);
    matches!(found, Ok(Some(found)) if found.as_slice() == line)
}

#[test]
fn lines_are_selected_and_looked_up(rt: HostRuntime) -> Result<(), Fail> {
    let table = matching_sample(rt.alloc())?;
    let ranges = all_ranges(rt.alloc(), &table, &["de", "yue"])?;
    assert!(rt; are_selected(rt.alloc(), &table, &ranges));
    let ranges = all_ranges(rt.alloc(), &table, &["fr", "zh-yue-Hans"])?;
    assert!(rt; finds(rt.alloc(), &table, &ranges, b"yue\r"));
    Ok(())
}

/// How the search over some lines ends for the one that preferences serve.
fn serve(
    alloc: Global,
    table: &MatchingTable<SortedTable>,
    preferences: &[Preference],
) -> Result<Option<Vec<u8>>, ToolFault> {
    let lines = Pieces::once(b"zh\nde_\nyue\r\nde\n", 4);
    serve_line(alloc, table, preferences, &mut Device::new(lines))
}

/// Whether preferences serve this line.
fn serves(
    alloc: Global,
    table: &MatchingTable<SortedTable>,
    preferences: &[Preference],
    line: &[u8],
) -> bool {
    let found = retried!(serve(alloc, table, preferences), ToolFault::OutOfMemory);
    matches!(found, Ok(Some(found)) if found.as_slice() == line)
}

#[test]
fn a_line_is_served(rt: HostRuntime) -> Result<(), Fail> {
    let table = matching_sample(rt.alloc())?;
    let header = b"fr;q=0.4, zh-yue-Hans;q=0.8";
    let preferences = again!(header_preferences(rt.alloc(), &table, header))?;
    assert!(rt; serves(rt.alloc(), &table, &preferences, b"yue\r"));
    Ok(())
}
