//! Filtering a list of tags by a language priority list. That is a list of ranges, the first of which counts most.
//! `ArePlaces P 0 tags found` says that `found` are the places, counted from 0, of the tags of which `P` is true.
ghost use Rattle.std.specs.Prelude.{◌≡◌, ◌++◌, ◌↔◌, List, ℕ, [], IsTrue, IfOk, OnOk};
ghost use Rattle.lt_range.specs.Matching.{MatchesBasic, MatchesBy, MatchesExtended};
ghost use Rattle.lt_range.specs.Filtering.{ArePlaces, NoneMatches, AreFiltered};
ghost use Rattle.lt_range.specs.Spellings.{MatchesSome};

use crate::matching::Scheme;
use crate::ranges::LanguageRange;
use crate::tag_subtags::TagSubtags;
use lt_tag::OutOfMemory;
use std::alloc::Global;

impl Scheme {
    /// Whether none of the ranges matches a tag by the scheme.
    fn none_matches(self, ranges: &[LanguageRange], tag: &TagSubtags) -> bool
        ensures { IsTrue result ↔ NoneMatches (MatchesSome (MatchesBy self)) ranges.now tag.now }
    {
        for range in ranges {
            if range.matches(self, tag) {
                return false;
            }
        }
        true
    }

    /// Adds to `places` those of the tags that `range` matches and no range of `before` does. The only refusal is
    /// running out of memory.
    fn append_places(
        self,
        places: &mut Vec<usize>,
        before: &[LanguageRange],
        range: &LanguageRange,
        tags: &[TagSubtags],
    ) -> Result<(), OutOfMemory>
        ensures { OnOk result ((found : List ℕ) × (places.new.items ≡ places.old.items ++ found) × ArePlaces (λ tag. MatchesSome (MatchesBy self) range.now tag × NoneMatches (MatchesSome (MatchesBy self)) before.now tag) 0 tags.now found) }
    {
        for (place, tag) in tags.iter().enumerate() {
            if range.matches(self, tag) && self.none_matches(before, tag) {
                places.push(place)?;
            }
        }
        Ok(())
    }

    /// The places of the tags that a priority list matches, in the order of its ranges. The only refusal is running out
    /// of memory.
    fn filter(
        self,
        alloc: Global,
        ranges: &[LanguageRange],
        tags: &[TagSubtags],
    ) -> Result<Vec<usize>, OutOfMemory>
        ensures { IfOk result (λ places. AreFiltered (MatchesSome (MatchesBy self)) ranges.now tags.now places.items) }
    {
        let mut places = Vec::new(alloc);
        for (index, range) in ranges.iter().enumerate() {
            self.append_places(&mut places, &ranges[..index], range, tags)?;
        }
        Ok(places)
    }
}

/// The places, counted from 0, of the tags that a language priority list matches by basic filtering (RFC 4647, 3.3.1):
/// first of those that its first range matches, in their order, then of others that its second range matches, and so
/// on. The only refusal is running out of memory.
pub fn filter_basic(
    alloc: Global,
    ranges: &[LanguageRange],
    tags: &[TagSubtags],
) -> Result<Vec<usize>, OutOfMemory>
    ensures { IfOk result (λ places. AreFiltered (MatchesSome MatchesBasic) ranges.now tags.now places.items) }
{
    Scheme::Basic.filter(alloc, ranges, tags)
}

/// The places, counted from 0, of the tags that a language priority list matches by extended filtering (RFC 4647,
/// 3.3.2): first of those that its first range matches, in their order, then of others that its second range matches,
/// and so on. The only refusal is running out of memory.
pub fn filter_extended(
    alloc: Global,
    ranges: &[LanguageRange],
    tags: &[TagSubtags],
) -> Result<Vec<usize>, OutOfMemory>
    ensures { IfOk result (λ places. AreFiltered (MatchesSome MatchesExtended) ranges.now tags.now places.items) }
{
    Scheme::Extended.filter(alloc, ranges, tags)
}
