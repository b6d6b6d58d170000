//! The laws of ranges, of matching and of selection.
use lt_answers::laws::selection_is_determined;
use lt_range::laws::{
    best_is_determined, equivalent_ranges_match_alike, equivalent_tags_match_alike,
    headers_are_read_by_their_grammar, matching_is_determined, ranges_are_read_by_their_grammar,
    ranges_match_only_as_spelled,
};

#[test]
fn laws_hold(_rt: HostRuntime) {
    ranges_are_read_by_their_grammar();
    headers_are_read_by_their_grammar();
    equivalent_tags_match_alike();
    equivalent_ranges_match_alike();
    matching_is_determined();
    ranges_match_only_as_spelled();
    best_is_determined();
    selection_is_determined();
}
