//! The examples of RFC 4647, and what a call does where a growth of memory is refused.
mod faults;
mod growths;
mod laws;
mod lists;
mod matching;
mod preferences;

use lt_range::{LanguageRange, RangeFault, TagSubtags};
use lt_tag::read_tag;
use lt_testing::{again, retried};
use std::alloc::Global;
use std::test::Fail;

/// The range that a text is.
fn range_of(alloc: Global, text: &str) -> Result<LanguageRange, RangeFault> {
    retried!(
        LanguageRange::read(alloc, text.as_bytes()),
        RangeFault::OutOfMemory
    )
}

/// The subtags of the tag that a text is read as.
fn subtags_of(alloc: Global, text: &str) -> Result<TagSubtags, Fail> {
    let tag = again!(read_tag(alloc, text.as_bytes()))?;
    Ok(again!(TagSubtags::of(alloc, &tag))?)
}

/// The ranges that texts are.
fn ranges_of(alloc: Global, texts: &[&str]) -> Result<Vec<LanguageRange>, Fail> {
    let mut ranges = again!(Vec::with_capacity(alloc, texts.len()))?;
    for text in texts {
        ranges.push(range_of(alloc, text)?)?;
    }
    Ok(ranges)
}

/// The subtags of the tags that texts are read as.
fn tags_of(alloc: Global, texts: &[&str]) -> Result<Vec<TagSubtags>, Fail> {
    let mut tags = again!(Vec::with_capacity(alloc, texts.len()))?;
    for text in texts {
        tags.push(subtags_of(alloc, text)?)?;
    }
    Ok(tags)
}
