//! What `parts` does where a growth of memory is refused.
use super::{ROWS, is_part};
use lt_show::{PartKind, parts};
use lt_tag::{TagFault, read_tag};
use lt_testing::again;
use std::alloc::Global;

/// Whether a tag has these parts.
fn has_parts(
    alloc: Global,
    text: &str,
    wanted: &[(PartKind, usize, usize)],
) -> Result<bool, TagFault> {
    let tag = again!(read_tag(alloc, text.as_bytes()))?;
    let found = again!(parts(alloc, &tag))?;
    for (index, part) in found.iter().enumerate() {
        match wanted.get(index) {
            Some(row) if is_part(part, row) => {}
            _ => return Ok(false),
        }
    }
    Ok(found.len() == wanted.len())
}

#[test]
fn parts_follow_one_another(rt: HostRuntime) -> Result<(), TagFault> {
    for (text, wanted) in ROWS {
        assert!(rt; has_parts(rt.alloc(), text, wanted)?, "{text}");
    }
    Ok(())
}
