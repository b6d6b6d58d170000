//! Variants that occur twice.
use lt_registry::are_distinct;
use lt_tag::{TagFault, read_tag};
use std::alloc::Global;

/// Tags, and whether their variants are distinct.
const ROWS: &[(&str, bool)] = &[
    ("de", true),
    ("sl-rozaj-biske-1994", true),
    ("sl-rozaj-biske-Rozaj", false),
    (
        "de-1901-1994-1996-abl1943-alalc97-aluku-ao1990-arevela-arevmda-baku1926-balanka-barla-bauddha-biscayan-biske-bohoric-boont",
        true,
    ),
    (
        "de-1901-1994-1996-abl1943-alalc97-aluku-ao1990-arevela-arevmda-baku1926-balanka-barla-bauddha-biscayan-biske-bohoric-1901",
        false,
    ),
    (
        "de-0aaa-0aaab-0aaabb-0aaabbb-0aaabbbb-0aab-0aac-0aad-0aae-0aaf-0aag-0aah-0aai-0aaj-0aak-0aal-0aam-0aan",
        true,
    ),
];

/// Whether each tag is told as its row says.
fn tells_each(alloc: Global) -> Result<bool, TagFault> {
    for (text, distinct) in ROWS {
        let tag = read_tag(alloc, text.as_bytes())?;
        let variants = match tag.core() {
            Some(core) => core.variants(),
            None => return Ok(false),
        };
        if are_distinct(variants) != *distinct {
            return Ok(false);
        }
    }
    Ok(true)
}

#[test]
fn variants_that_occur_twice(rt: HostRuntime) {
    assert!(rt; matches!(tells_each(rt.alloc()), Ok(true)));
}
