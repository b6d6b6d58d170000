//! Whether a line is selected.
ghost use Rattle.std.specs.Prelude.{◌≡◌, ◌↔◌, IsTrue, IfOk};
ghost use Rattle.lt_jar.specs.Lines.{content_of};
ghost use Rattle.lt_answers.specs.Selection.{IsMatched, IsSelected};

use lt_range::laws::matching_is_determined;
use lt_range::{LanguageRange, MatchingTable, Scheme, any_matches, known_subtags};
use lt_registry::Lookup;
use lt_tag::OutOfMemory;
use std::alloc::Global;

/// The line without the carriage return that may end it.
pub(crate) fn without_return(line: &[u8]) -> &[u8]
    ensures { result.now ≡ content_of line.now }
{
    match line.last() {
        Some(b'\r') => &line[..line.len() - 1],
        _ => line,
    }
}

/// Whether a text is a tag that one of the ranges matches by the scheme, in one of its spellings.
fn is_matched<L: Lookup>(
    alloc: Global,
    table: &MatchingTable<L>,
    scheme: Scheme,
    ranges: &[LanguageRange],
    text: &[u8],
) -> Result<bool, OutOfMemory>
    ensures { IfOk result (λ matched. IsTrue matched ↔ IsMatched (L.listed table.now) scheme ranges.now text.now) }
{
    // This call tells the proof that the table passes the check.
    let checked = table.checked();
    let _ = checked.table();
    matching_is_determined();
    match known_subtags(alloc, table, text)? {
        Some(subtags) => Ok(any_matches(scheme, ranges, &subtags)),
        None => Ok(false),
    }
}

/// Whether a line is a tag that one of the ranges matches by the scheme. A carriage return that ends the line is no part of
/// the tag.
pub(crate) fn is_selected<L: Lookup>(
    alloc: Global,
    table: &MatchingTable<L>,
    scheme: Scheme,
    ranges: &[LanguageRange],
    line: &[u8],
) -> Result<bool, OutOfMemory>
    ensures { IfOk result (λ selected. IsTrue selected ↔ IsSelected (L.listed table.now) scheme ranges.now line.now) }
{
    is_matched(alloc, table, scheme, ranges, without_return(line))
}
