//! Looking up one tag by a language priority list.
ghost use Rattle.std.specs.Prelude.{MatchOption};
ghost use Rattle.lt_range.specs.Lookup.{FindsNone, Finds, IsFound, IsDefault};

use crate::ranges::LanguageRange;
use crate::tag_subtags::TagSubtags;

/// The place of the tag that lookup by a range finds: the longest tag to which the range falls back, and of equally
/// long ones the first. None if the range falls back to none.
fn closest(range: &LanguageRange, tags: &[TagSubtags]) -> Option<usize>
    ensures { MatchOption result (FindsNone tags.now range.now) (Finds range.now tags.now) }
{
    let mut best: Option<usize> = None;
    for (place, tag) in tags.iter().enumerate() {
        let is_longer = match best {
            Some(other) => tags[other].subtags().len() < tag.subtags().len(),
            None => true,
        };
        if is_longer && range.falls_back_to(tag) {
            best = Some(place);
        }
    }
    best
}

/// The place, counted from 0, of the tag that lookup finds by a language priority list (RFC 4647, 3.4). The first range
/// that finds a tag counts, and of the tags that it finds the one to which it is cut the least; of equal tags the
/// first. A range that begins with `*` finds no tag. None if no range finds a tag: the caller takes a default then.
pub fn lookup(ranges: &[LanguageRange], tags: &[TagSubtags]) -> Option<usize>
    ensures { MatchOption result (IsDefault ranges.now tags.now) (IsFound ranges.now tags.now) }
{
    for range in ranges {
        if let Some(place) = closest(range, tags) {
            return Some(place);
        }
    }
    None
}
