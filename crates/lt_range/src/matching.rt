//! Whether a language range matches a tag. A *singleton* is a subtag of one letter or digit, which begins an extension
//! or private use: matching does not pass over it.
ghost use Rattle.std.specs.Prelude.{◌≡◌, ◌++◌, ◌↔◌, IsTrue, MatchOption};
ghost use Rattle.lt_range.specs.Matching.{BeginsWith, IsPassedTo, FollowsFirst, MatchesBasic, MatchesBy, MatchesExtended, AreInTurn, FallsBackTo};
ghost use Rattle.lt_range.specs.Matching as spec;
ghost use Rattle.lt_range.specs.Matched.{AnyMatches};
ghost use Rattle.lt_range.specs.Spellings.{MatchesSome};

use crate::ranges::LanguageRange;
use crate::tag_subtags::{SubtagList, TagSubtags};
use lt_subtag::Subtag;

/// Whether two subtags are equal.
pub(crate) fn are_same(first: &Subtag, second: &Subtag) -> bool
    ensures { IsTrue result ↔ (first.now ≡ second.now) }
{
    first == second
}

/// What follows the subtags of `front` in a list that begins with them. None if the list begins with others.
fn after_front<'a>(list: &'a [Subtag], front: &[Subtag]) -> Option<&'a [Subtag]>
    ensures { MatchOption result (BeginsWith front.now list.now → ⊥) (λ rest. list.now ≡ front.now ++ rest.now) }
{
    let mut rest = list;
    for subtag in front {
        match rest.split_first() {
            Some((first, others)) if are_same(first, subtag) => rest = others,
            _ => return None,
        }
    }
    Some(rest)
}

/// Whether two lists of subtags are equal.
pub(crate) fn are_equal(list: &[Subtag], other: &[Subtag]) -> bool
    ensures { IsTrue result ↔ (list.now ≡ other.now) }
{
    match after_front(list, other) {
        Some(rest) => rest.is_empty(),
        None => false,
    }
}

/// Whether a subtag has more than one letter or digit.
fn is_no_singleton(subtag: &Subtag) -> bool
    ensures { result ≡ spec.is_no_singleton subtag.now }
{
    subtag.bytes().len() != 1
}

/// What follows the first occurrence of a subtag in a list: after this one the most is left for the subtags to come.
/// None if the subtag isn't in the list, or if a singleton is before it.
fn after_subtag<'a>(list: &'a [Subtag], subtag: &Subtag) -> Option<&'a [Subtag]>
    ensures { MatchOption result (IsPassedTo list.now subtag.now → ⊥) (λ rest. FollowsFirst list.now subtag.now rest.now) }
{
    let mut rest = list;
    while let Some((first, others)) = rest.split_first() {
        if are_same(first, subtag) {
            return Some(others);
        }
        if !is_no_singleton(first) {
            return None;
        }
        rest = others;
    }
    None
}

/// Whether the subtags of `named` are in a list, in their order, with no singleton among those that are passed over.
fn are_in_turn(named: &[Subtag], list: &[Subtag]) -> bool
    ensures { IsTrue result ↔ AreInTurn named.now list.now }
{
    let mut rest = list;
    for subtag in named {
        match after_subtag(rest, subtag) {
            Some(others) => rest = others,
            None => return false,
        }
    }
    true
}

/// Whether the last subtag of a list is no singleton, so that lookup may stop at it. False of an empty list.
fn ends_long(list: &[Subtag]) -> bool
    ensures { result ≡ spec.ends_long list.now }
{
    match list.last() {
        Some(subtag) => is_no_singleton(subtag),
        None => false,
    }
}

/// The schemes of matching.
#[derive(Clone, Copy, Debug, PartialEq, Eq)]
pub enum Scheme {
    /// Basic filtering (RFC 4647, 3.3.1): `de-DE` matches `de-DE-1996`, but not `de-Latn-DE`.
    Basic,
    /// Extended filtering (RFC 4647, 3.3.2): `de-DE` matches both.
    Extended,
    /// Lookup (RFC 4647, 3.4): `de-DE-1996` finds `de-DE` and `de`.
    Lookup,
}

impl LanguageRange {
    /// Whether a list of subtags begins with those of the range, or the range begins with `*`.
    fn begins(&self, list: &[Subtag]) -> bool
        ensures { IsTrue result ↔ MatchesBasic self.now list.now }
    {
        self.begins_wild() || after_front(list, self.named()).is_some()
    }

    /// Whether a list begins with the first subtag of the range, or the range begins with `*`, and the others follow in
    /// turn.
    fn is_in_turn(&self, list: &[Subtag]) -> bool
        ensures { IsTrue result ↔ MatchesExtended self.now list.now }
    {
        let Some((first, others)) = list.split_first() else {
            return false;
        };
        if self.begins_wild() {
            return are_in_turn(self.named(), others);
        }
        match self.named().split_first() {
            Some((named, rest)) => are_same(named, first) && are_in_turn(rest, others),
            None => false,
        }
    }

    /// Whether a list is what is left of the range when it is cut from its end.
    fn can_be_cut_to(&self, left: &[Subtag]) -> bool
        ensures { IsTrue result ↔ FallsBackTo self.now left.now }
    {
        if self.begins_wild() || left.is_empty() {
            return false;
        }
        match after_front(self.named(), left) {
            Some(rest) => rest.is_empty() || ends_long(left),
            None => false,
        }
    }

    /// Whether the range matches a list of subtags by a scheme.
    fn matches_list(&self, scheme: Scheme, list: &[Subtag]) -> bool
        ensures { IsTrue result ↔ MatchesBy scheme self.now list.now }
    {
        match scheme {
            Scheme::Basic => self.begins(list),
            Scheme::Extended => self.is_in_turn(list),
            Scheme::Lookup => self.can_be_cut_to(list),
        }
    }

    /// Whether the range matches one of these spellings by a scheme.
    fn matches_one(&self, scheme: Scheme, lists: &[SubtagList]) -> bool
        ensures { IsTrue result ↔ MatchesSome (MatchesBy scheme) self.now lists.now }
    {
        for list in lists {
            if self.matches_list(scheme, list.subtags()) {
                return true;
            }
        }
        false
    }

    /// Whether the range matches a tag by a scheme, in one of the tag's spellings.
    pub fn matches(&self, scheme: Scheme, tag: &TagSubtags) -> bool
        ensures { IsTrue result ↔ MatchesSome (MatchesBy scheme) self.now tag.now }
    {
        let others = tag.others();
        self.matches_list(scheme, tag.subtags()) || self.matches_one(scheme, others)
    }

    /// Whether the range matches a tag by basic filtering (RFC 4647, 3.3.1): a spelling of the tag equals the range, or
    /// begins with the range and a hyphen. A range that begins with `*` matches each tag. `de-de` matches `de-DE-1996`,
    /// but not `de-Latn-DE`.
    pub fn matches_basic(&self, tag: &TagSubtags) -> bool
        ensures { IsTrue result ↔ MatchesSome MatchesBasic self.now tag.now }
    {
        self.matches(Scheme::Basic, tag)
    }

    /// Whether the range matches a tag by extended filtering (RFC 4647, 3.3.2): its first subtag is that of a spelling of
    /// the tag or `*`, and the others are in that spelling in their order, with no singleton among the subtags that are
    /// passed over. `de-DE` matches `de-Latn-DE`, but neither `de` nor `de-x-DE`.
    pub fn matches_extended(&self, tag: &TagSubtags) -> bool
        ensures { IsTrue result ↔ MatchesSome MatchesExtended self.now tag.now }
    {
        self.matches(Scheme::Extended, tag)
    }

    /// Whether lookup by the range finds a tag (RFC 4647, 3.4): a spelling of the tag is the range, or what is left where
    /// the range is cut from the end, a singleton with the subtag after it. `zh-Hant-CN-x-ab` finds `zh-Hant-CN` and
    /// `zh`, but not `zh-Hant-CN-x`; and `*` finds none.
    pub fn falls_back_to(&self, tag: &TagSubtags) -> bool
        ensures { IsTrue result ↔ MatchesSome FallsBackTo self.now tag.now }
    {
        self.matches(Scheme::Lookup, tag)
    }
}

/// Whether one of the ranges matches a tag by a scheme, in one of the tag's spellings.
pub fn any_matches(scheme: Scheme, ranges: &[LanguageRange], tag: &TagSubtags) -> bool
    ensures { IsTrue result ↔ AnyMatches scheme ranges.now tag.now }
{
    for range in ranges {
        if range.matches(scheme, tag) {
            return true;
        }
    }
    false
}
