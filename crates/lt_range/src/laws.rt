//! The laws of language ranges, of the header, and of matching, for every registry that passes the check. Nothing is
//! computed here: each contract is a law. The functions take nothing, and speak of every text, and of every list `R` of
//! entries that passes the check (`IsChecked R`).
ghost use Rattle.std.specs.Prelude.{◌≡◌, ◌↔◌, ℕ, List, Ok};
ghost use Rattle.lt_registry.specs.Parts.{EntryParts};
ghost use Rattle.lt_check.specs.Conditions.{IsChecked};
ghost use Rattle.lt_range.specs.Elements.{ElementParts};
ghost use Rattle.lt_range.specs.Grammar.{IsAcceptLanguage};
ghost use Rattle.lt_range.specs.Headers.{elements_of};
ghost use Rattle.lt_range.specs.Laws.{EquivalentListsServeAlike, EquivalentTagsMatchAlike, EquivalentRangesMatchAlike, MatchesOnlyAsSpelled, MatchingIsDetermined};
ghost use Rattle.lt_range.specs.Ranges.{IsRangeOf, RangeParts};
ghost use Rattle.lt_range.specs.Reading.{range_of};
ghost use Rattle.lt_range.specs.Preferences.{BestIsDetermined};

/// A text is read exactly if it is a range by the grammar (RFC 4647, 2.2), and then as the range that it is by that.
pub fn ranges_are_read_by_their_grammar()
    ensures { (text : List ℕ) (range : RangeParts) → (range_of text ≡ Ok range) ↔ IsRangeOf text range }
{}

/// A text is read exactly if it is a header by the grammar (RFC 9110, 12.5.4), and then as the elements that it has by
/// that.
#[tactic(auto, using(crate::proofs::HeaderLaws::read_by_grammar))]
pub fn headers_are_read_by_their_grammar()
    ensures { (text : List ℕ) (elements : List ElementParts) → (elements_of text ≡ Ok elements) ↔ IsAcceptLanguage text elements }
{}

/// Preferences and tags determine which of the tags is served, or that none is.
pub fn best_is_determined()
    ensures { BestIsDetermined }
{}

/// Equivalent tags match the same ranges, in each of the three schemes: what matches a tag matches each valid tag that
/// is equivalent to it.
#[tactic(auto, using(crate::proofs::MatchLaws::equivalent_tags))]
pub fn equivalent_tags_match_alike()
    ensures { (R : List EntryParts) → IsChecked R → EquivalentTagsMatchAlike R }
{}

/// Equivalent ranges match the same tags, in each of the three schemes: what a range that is a valid tag matches, each
/// equivalent valid tag matches as a range too.
#[tactic(auto, using(crate::proofs::MatchLaws::equivalent_ranges))]
pub fn equivalent_ranges_match_alike()
    ensures { (R : List EntryParts) → IsChecked R → EquivalentRangesMatchAlike R }
{}

/// Matching finds no more than spelling explains: if a range that is a valid tag matches a tag, then a
/// valid tag equivalent to the range matches a valid tag equivalent to the tag, as the two are spelled (RFC 4647, 3).
#[tactic(auto, using(crate::proofs::MatchLaws::only_as_spelled))]
pub fn ranges_match_only_as_spelled()
    ensures { (R : List EntryParts) → IsChecked R → MatchesOnlyAsSpelled R }
{}

/// The tag to serve, and the tags that are accepted, do not depend on how the tags of a list are spelled: the lists of
/// tags that are equivalent one by one are equal.
#[tactic(auto, using(crate::proofs::AvailableLemmas::serve_alike))]
pub fn equivalent_lists_serve_alike()
    ensures { (R : List EntryParts) → IsChecked R → EquivalentListsServeAlike R }
{}

/// The entries determine the spellings by which a tag is matched, and the ranges by which a text matches.
#[tactic(auto, using(crate::proofs::MatchLaws::determined))]
pub fn matching_is_determined()
    ensures { (R : List EntryParts) → IsChecked R → MatchingIsDetermined R }
{}
