//! Cores that spell grandfathered tags.
use lt_tag::{TagFault, read_tag};
use std::alloc::Global;

/// Texts with the number of the grandfathered tag whose list their core spells.
const LITERALS: &[(&str, Option<u8>)] = &[
    ("zh-min-x-a", Some(24)),
    ("zh-min-nan-x-a", Some(25)),
    ("zh-min-nan-cmn-x-a", None),
    ("zh-cmn", None),
    ("zh-x-a", None),
];

/// Whether a text has a core that spells the list of this number.
fn has_literal(alloc: Global, text: &str, number: Option<u8>) -> Result<bool, TagFault> {
    let tag = read_tag(alloc, text.as_bytes())?;
    Ok(matches!(tag.core(), Some(core) if core.literal() == number))
}

#[test]
fn literal_knows_grandfathered_lists(rt: HostRuntime) -> Result<(), TagFault> {
    for (text, number) in LITERALS {
        assert!(rt; has_literal(rt.alloc(), text, *number)?, "{text}");
    }
    Ok(())
}
