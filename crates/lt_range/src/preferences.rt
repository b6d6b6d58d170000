//! What a reader prefers: language ranges with weights. A call takes `all` of them, even if it asks about one range,
//! since another range may refuse a tag that this one would serve.
ghost use Rattle.std.specs.Prelude.{◌≡◌, ◌++◌, ◌↔◌, ◌<◌, ◌≤◌, ℕ, List, IsTrue, IfOk, IfSome, MatchOption, OnOk, length};
ghost use Rattle.lt_range.specs.Filtering.{ArePlaces};
ghost use Rattle.lt_range.specs.Preferences as spec;
ghost use Rattle.lt_range.specs.Spellings.{Spellings};

use crate::ranges::LanguageRange;
use crate::tag_subtags::TagSubtags;
use lt_tag::OutOfMemory;
use std::alloc::Global;

/// A language range and its weight (RFC 9110, 12.4.2).
#[derive(Debug, Drop)]
pub struct Preference {
    /// The range.
    pub range: LanguageRange,
    /// The weight in thousandths, from 0 to 1,000. What a range of weight 0 matches is "not acceptable".
    pub weight: u16,
    /// The place, counted from 0, of what the reader asked for that the range is a spelling of. It must be less than the
    /// number of preferences.
    pub place: usize,
}

/// Whether the range at a place matches a tag by basic filtering, and is longer than the one at `best`, if there is
/// one. Both places must be within the list.
fn takes_over(all: &[Preference], tag: &TagSubtags, best: Option<usize>, place: usize) -> bool
    requires place { place < length all.now }
    requires best { IfSome best (λ found. found < length all.now) }
    ensures { IsTrue result ↔ (spec.Matched all.now tag.now place × spec.IsLonger (spec.length_at all.now) best place) }
{
    let range = &all[place].range;
    if !range.matches_basic(tag) {
        return false;
    }
    match best {
        Some(found) => all[found].range.named().len() < range.named().len(),
        None => true,
    }
}

/// The place of the range that decides the weight of a tag. None if no range matches it.
#[tactic(auto, using(crate::proofs::PreferenceLemmas::longest_next, crate::proofs::PreferenceLemmas::longest_same))]
fn deciding(all: &[Preference], tag: &TagSubtags) -> Option<usize>
    ensures { spec.MayDecide all.now tag.now result }
{
    let mut best: Option<usize> = None;
    for place in 0..all.len() {
        if takes_over(all, tag, best, place) {
            best = Some(place);
        }
    }
    best
}

/// The weight of a tag, in thousandths: that of the longest range that matches it by basic filtering (RFC 4647, 3.3.1).
/// `*` is the shortest range, and of equally long ones the first counts. A tag of weight 0 is not acceptable (RFC 9110,
/// 12.4.2). None if no range matches the tag.
pub fn weight_of(all: &[Preference], tag: &TagSubtags) -> Option<u16>
    ensures { spec.HasWeight all.now tag.now result }
{
    let place = deciding(all, tag)?;
    Some(all[place].weight)
}

/// Whether a tag is not acceptable: a range decides its weight, and this is 0.
#[tactic(auto, using(crate::proofs::PreferenceLemmas::refused_is_zero, crate::proofs::PreferenceLemmas::none_refused))]
fn is_refused(all: &[Preference], tag: &TagSubtags) -> bool
    ensures { IsTrue result ↔ spec.IsRefused all.now tag.now }
{
    match weight_of(all, tag) {
        Some(weight) => weight == 0,
        None => false,
    }
}

/// Whether a range falls back to a tag that is not refused.
fn falls(all: &[Preference], range: &LanguageRange, tag: &TagSubtags) -> bool
    ensures { IsTrue result ↔ spec.Falls all.now range.now tag.now }
{
    range.falls_back_to(tag) && !is_refused(all, tag)
}

/// Whether a range matches, by basic filtering, a tag that is not refused.
fn selects(all: &[Preference], range: &LanguageRange, tag: &TagSubtags) -> bool
    ensures { IsTrue result ↔ spec.Selects all.now range.now tag.now }
{
    range.matches_basic(tag) && !is_refused(all, tag)
}

/// Whether a range falls back to the tag at a place, and that tag is not refused and is longer than the one at `best`,
/// if there is one. Both places must be within the list.
fn falls_further(
    all: &[Preference],
    range: &LanguageRange,
    tags: &[TagSubtags],
    best: Option<usize>,
    place: usize,
) -> bool
    requires place { place < length tags.now }
    requires best { IfSome best (λ found. found < length tags.now) }
    ensures { IsTrue result ↔ (spec.FallsAt all.now range.now tags.now place × spec.IsLonger (spec.tag_length_at tags.now) best place) }
{
    let tag = &tags[place];
    if !falls(all, range, tag) {
        return false;
    }
    match best {
        Some(found) => tags[found].subtags().len() < tag.subtags().len(),
        None => true,
    }
}

/// The place of the tag that lookup by a range finds, of those that are not refused. None if it finds none of them.
#[tactic(auto, using(crate::proofs::PreferenceLemmas::longest_next, crate::proofs::PreferenceLemmas::longest_same))]
fn looked_up(all: &[Preference], range: &LanguageRange, tags: &[TagSubtags]) -> Option<usize>
    ensures { MatchOption result (spec.FallsToNone all.now range.now tags.now) (spec.FallsTo all.now range.now tags.now) }
{
    let mut best: Option<usize> = None;
    for place in 0..tags.len() {
        if falls_further(all, range, tags, best, place) {
            best = Some(place);
        }
    }
    best
}

/// The place of the first tag that a range matches by basic filtering, of those that are not refused. None if it
/// matches none of them.
fn selected(all: &[Preference], range: &LanguageRange, tags: &[TagSubtags]) -> Option<usize>
    ensures { spec.MaySelect all.now range.now tags.now result }
{
    for place in 0..tags.len() {
        if selects(all, range, &tags[place]) {
            return Some(place);
        }
    }
    None
}

/// The place of the tag that a range serves. None if it serves none.
fn served(all: &[Preference], range: &LanguageRange, tags: &[TagSubtags]) -> Option<usize>
    ensures { spec.Serves all.now range.now tags.now result }
{
    match looked_up(all, range, tags) {
        Some(place) => Some(place),
        None => selected(all, range, tags),
    }
}

/// Whether a preference takes part in the turn of the ranges that begin with `*`, or of those that don't.
fn takes_turn(wild: bool, preference: &Preference) -> bool
    ensures { IsTrue result ↔ spec.TakesTurn wild preference.now }
{
    preference.weight != 0 && preference.range.begins_wild() == wild
}

/// Whether a range falls back to a tag, or matches it by basic filtering. If that tag is not refused, the range then
/// serves it or a better one.
fn reaches(range: &LanguageRange, tag: &TagSubtags) -> bool
    ensures { IsTrue result ↔ spec.Reaches range.now tag.now }
{
    range.falls_back_to(tag) || range.matches_basic(tag)
}

/// Of the first `count` ranges, the place of the first that takes part in the turn (of those that begin with `*` if
/// `wild`) and reaches a tag; `count` if none does. There must be at least `count` ranges.
fn first_reaching(all: &[Preference], wild: bool, count: usize, tag: &TagSubtags) -> usize
    requires { count ≤ length all.now }
    ensures within { result ≤ count }
    ensures before { spec.NoneOf (spec.ReachesAt wild all.now tag.now) result }
    ensures reaches { result < count → spec.ReachesAt wild all.now tag.now result }
{
    for place in 0..count {
        if takes_turn(wild, &all[place]) && reaches(&all[place].range, tag) {
            return place;
        }
    }
    count
}

/// The place of the first range that serves a tag in the turn; the number of all ranges if none does. Each tag is asked
/// once whether it is refused, so that the time grows with the number of ranges times that of tags, and not with the
/// square of either.
fn first_serving(all: &[Preference], wild: bool, tags: &[TagSubtags]) -> usize
    ensures { spec.IsFirstServing wild all.now tags.now (length tags.now) result }
{
    let mut first = all.len();
    for place in 0..tags.len() {
        let tag = &tags[place];
        let index = first_reaching(all, wild, first, tag);
        if index < first && !is_refused(all, tag) {
            first = index;
        }
    }
    first
}

/// The place of the tag that is served in the turn of the ranges that begin with `*`, or of those that don't. None if
/// no tag is served in this turn.
fn served_in_turn(all: &[Preference], wild: bool, tags: &[TagSubtags]) -> Option<usize>
    ensures { spec.ServesInTurn wild all.now tags.now result }
{
    let index = first_serving(all, wild, tags);
    if index < all.len() {
        served(all, &all[index].range, tags)
    } else {
        None
    }
}

/// The place, counted from 0, of the tag to serve (RFC 9110, 12.5.4). A tag that is not acceptable is not served. The
/// ranges have their turn in order, `*` after all others, and the first that serves a tag decides. It serves the
/// longest tag to which it falls back (RFC 4647, 3.4), so that `de-CH` serves `de`. If it falls back to none, it serves
/// the first that it matches by basic filtering (3.3.1), so that `de` serves `de-CH`, and `*` the first of all. None if
/// no range serves a tag: the caller takes a default then.
pub fn best(all: &[Preference], tags: &[TagSubtags]) -> Option<usize>
    ensures { spec.IsBest all.now tags.now result }
{
    match served_in_turn(all, false, tags) {
        Some(place) => Some(place),
        None => served_in_turn(all, true, tags),
    }
}

/// For each tag the place of the range that decides its weight, or None if no range matches it. The only refusal is
/// running out of memory.
fn all_deciding(
    alloc: Global,
    all: &[Preference],
    tags: &[TagSubtags],
) -> Result<Vec<Option<usize>>, OutOfMemory>
    ensures { IfOk result (λ found. spec.AreDeciding all.now tags.now (length tags.now) found.items) }
{
    let mut found = Vec::new(alloc);
    for place in 0..tags.len() {
        found.push(deciding(all, &tags[place]))?;
    }
    Ok(found)
}

/// Whether a range of this place accepts a tag: it decides the weight of the tag, which is not 0. The tag is not looked
/// at: `decided` is the index of the range that decides its weight, None if none does, and the clause holds for each tag
/// of which that is so.
#[tactic(auto, using(crate::proofs::PreferenceLemmas::accepts_by, crate::proofs::PreferenceLemmas::none_accepts))]
fn accepts(all: &[Preference], decided: Option<usize>, place: usize) -> bool
    requires { IfSome decided (λ found. found < length all.now) }
    ensures { (tag : Spellings) → spec.MayDecide all.now tag decided → IsTrue result ↔ spec.Accepts all.now place tag }
{
    match decided {
        Some(found) => all[found].place == place && all[found].weight != 0,
        None => false,
    }
}

/// Adds the places, counted from 0, of the tags that a range of the place `index` accepts: it decides their weight, which
/// is not 0. `decided` must have for each tag the index of the range that decides its weight. The only refusal is running
/// out of memory.
fn append_accepted(
    all: &[Preference],
    decided: &[Option<usize>],
    index: usize,
    tags: &[TagSubtags],
    places: &mut Vec<usize>,
) -> Result<(), OutOfMemory>
    requires { spec.AreDeciding all.now tags.now (length tags.now) decided.now }
    ensures { OnOk result ((found : List ℕ) × (places.new.items ≡ places.old.items ++ found) × ArePlaces (spec.Accepts all.now index) 0 tags.now found) }
{
    for place in 0..tags.len() {
        if accepts(all, decided[place], index) {
            places.push(place)?;
        }
    }
    Ok(())
}

/// The places, counted from 0, of the tags whose weight is not 0 (RFC 9110, 12.5.4): for each place of what the reader
/// asked for, those whose weight a range of this place decides, in their order. So if the ranges go from the greatest weight to the least, the tags do. The
/// only refusal is running out of memory.
pub fn filter_accepted(
    alloc: Global,
    all: &[Preference],
    tags: &[TagSubtags],
) -> Result<Vec<usize>, OutOfMemory>
    ensures { IfOk result (λ places. spec.AreAccepted all.now tags.now places.items) }
{
    let decided = all_deciding(alloc, all, tags)?;
    let mut places = Vec::new(alloc);
    for index in 0..all.len() {
        append_accepted(all, &decided, index, tags, &mut places)?;
    }
    Ok(places)
}
