//! What a run does where a growth of memory is refused.
use crate::pages::{Page, empty_page, text_of};
use crate::tables::checked_sample;
use lt_check::Checked;
use lt_jar::Device;
use lt_lines::{Counts, run_lines};
use lt_registry::SortedTable;
use lt_stream::ToolFault;
use std::alloc::Global;
use std::test::Fail;

const INPUT: &[u8] = b"zh-yue\r\nfr\n\nsgn-dd";

const OWED: &[u8] = b"yue\n! UnknownLanguage 1\n! EmptySubtag 1\ngsg\n";

const COUNTS: Counts = Counts {
    lines: 4,
    refused: 2,
};

/// How a run over the lines ends, and what it wrote.
fn run(alloc: Global, checked: &Checked<SortedTable>) -> (Result<Counts, ToolFault>, Page) {
    let mut page = empty_page();
    let end = {
        let mut output = Device::new(&mut page);
        run_lines(alloc, checked, &mut Device::new(INPUT), &mut output)
    };
    (end, page)
}

/// Whether a run counted the lines, and wrote the answer to each.
fn is_owed(end: Result<Counts, ToolFault>, page: &Page) -> bool {
    end == Ok(COUNTS) && text_of(page) == OWED
}

/// Whether lines are answered; and where a growth is refused, whether only the first answers were written, and another run
/// gives them all.
fn are_answered(alloc: Global, checked: &Checked<SortedTable>) -> bool {
    let (end, page) = run(alloc, checked);
    if end == Err(ToolFault::OutOfMemory) && OWED.starts_with(text_of(&page)) {
        let (end, page) = run(alloc, checked);
        return is_owed(end, &page);
    }
    is_owed(end, &page)
}

#[test]
fn lines_are_answered(rt: HostRuntime) -> Result<(), Fail> {
    let checked = checked_sample(rt.alloc())?;
    assert!(rt; are_answered(rt.alloc(), &checked));
    Ok(())
}
