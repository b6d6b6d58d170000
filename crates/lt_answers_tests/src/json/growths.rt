//! What a run does where a growth of memory is refused.
use crate::pages::{Page, empty_page, text_of};
use crate::tables::checked_sample;
use lt_answers::write_objects;
use lt_check::Checked;
use lt_jar::Device;
use lt_registry::SortedTable;
use lt_stream::ToolFault;
use std::alloc::Global;
use std::test::Fail;

const INPUT: &[u8] = b"zh-yue-u-attr-co-trad-t-he-m0-true-a-bc-x-a\r\nfr\n\xff";

const FRONT: &[u8] =
    b"{\"input\":\"zh-yue-u-attr-co-trad-t-he-m0-true-a-bc-x-a\",\"bytes\":null,\"canonical\":\"yue-a-bc-t-he-m0-true-u-attr-co-trad-x-a\"";

/// How a run over the lines ends, and what it wrote.
fn run(alloc: Global, checked: &Checked<SortedTable>) -> (Result<(), ToolFault>, Page) {
    let mut page = empty_page();
    let (_, end) = {
        let mut output = Device::new(&mut page);
        write_objects(alloc, checked, &mut Device::new(INPUT), &mut output)
    };
    (end, page)
}

/// Whether a run that memory ended has written nothing, or its first objects.
fn is_front(text: &[u8]) -> bool {
    text.is_empty() || text.starts_with(FRONT)
}

/// Whether a run ended well, and wrote the first object.
fn is_owed(end: Result<(), ToolFault>, page: &Page) -> bool {
    end == Ok(()) && text_of(page).starts_with(FRONT)
}

/// Whether lines are answered; and where a growth is refused, whether only the first objects were written, and another run
/// answers them.
fn are_answered(alloc: Global, checked: &Checked<SortedTable>) -> bool {
    let (end, page) = run(alloc, checked);
    if end == Err(ToolFault::OutOfMemory) && is_front(text_of(&page)) {
        let (end, page) = run(alloc, checked);
        return is_owed(end, &page);
    }
    is_owed(end, &page)
}

#[test]
fn lines_are_answered(rt: HostRuntime) -> Result<(), Fail> {
    let checked = checked_sample(rt.alloc())?;
    assert!(rt; are_answered(rt.alloc(), &checked));
    Ok(())
}
