//! The whole records, which are those of whole tags, grandfathered or redundant, sorted for a search. A row has the
//! number of the tag's language, which is its bytes as one number of 64 bits, and the record's place among the entries.
ghost use Rattle.std.specs.Prelude.{◌≡◌, length, IfOk, Some};
ghost use Rattle.std.specs.Ordering.{is_eq};
ghost use Rattle.std.specs.Option.{option_copied, option_cmp};
ghost use Rattle.lt_tag.specs.Order.{tag_cmp};
ghost use Rattle.lt_registry.specs.Entries as forms;
ghost use Rattle.lt_registry.specs.Sorted as sorted;

use crate::entries::{Entry, EntryName};
use crate::indexes::entry_at;
use crate::rows::Row;
use lt_tag::Tag;
use std::alloc::{AllocError, Global};
use std::cmp::Ordering;

/// The rows of the whole records, sorted by the numbers of their languages and then by their tags. Of records of one
/// tag only the first is there.
#[derive(Debug, Drop)]
pub(crate) struct WholeIndex {
    rows: Vec<Row>,
}

impl WholeIndex {
    /// The index of the records of whole tags. It is refused only where memory runs out.
    pub(crate) fn of_entries(alloc: Global, entries: &[Entry]) -> Result<WholeIndex, AllocError>
        ensures { IfOk result (λ index. sorted.IsWholes entries.now index.rows.items) }
    {
        let mut rows = whole_rows(alloc, entries)?;
        rows.sort_by(|one, other| compare_rows(entries, *one, *other))?;
        rows.dedup_by(|later, kept| name_same_tag(entries, *later, *kept));
        Ok(WholeIndex { rows })
    }

    /// The first record of a whole tag, or None if it has none. The index must be that of these entries.
    pub(crate) fn find<'a>(&self, entries: &'a [Entry], tag: &Tag) -> Option<&'a Entry>
        requires { sorted.IsWholes entries.now self.now.rows.items }
        ensures { option_copied result ≡ forms.whole entries.now tag.now }
    {
        let number = language_number(tag);
        match self
            .rows
            .binary_search_by(|row| compare_with(entries, *row, number, tag))
        {
            Ok(found) => entry_at(entries, self.rows[found].place),
            Err(_) => None,
        }
    }
}

/// The rows of the records of whole tags, in the order of the file. They are refused only where memory runs out.
fn whole_rows(alloc: Global, entries: &[Entry]) -> Result<Vec<Row>, AllocError>
    ensures { IfOk result (λ rows. sorted.AreRows sorted.whole_row (λ (row : Row). row.place) entries.now (length entries.now) rows.items) }
{
    let mut rows = Vec::new(alloc);
    for (place, entry) in entries.iter().enumerate() {
        if let Some(row) = whole_row(entry, place) {
            rows.push(row)?;
        }
    }
    Ok(rows)
}

/// The row of an entry, which has this place, or None if it isn't of a whole tag.
fn whole_row(entry: &Entry, place: usize) -> Option<Row>
    ensures { result ≡ sorted.whole_row place entry.now }
{
    match entry.name() {
        EntryName::Whole(whole) => Some(Row {
            number: language_number(whole.tag()),
            place,
        }),
        _ => None,
    }
}

/// The number of the language of a tag, or 0 for a tag without a core.
fn language_number(tag: &Tag) -> u64
    ensures { result ≡ sorted.language_number tag.now }
{
    match tag.core() {
        Some(core) => core.language().number(),
        None => 0,
    }
}

/// The whole tag that the record at a place names, or None if it names none.
fn tag_at(entries: &[Entry], place: usize) -> Option<&Tag>
    ensures { option_copied result ≡ sorted.tag_at entries.now place }
{
    match entry_at(entries, place)?.name() {
        EntryName::Whole(whole) => Some(whole.tag()),
        _ => None,
    }
}

/// The order of two records by the numbers of their languages, which are quickly compared, and then by their tags.
fn compare_keys(entries: &[Entry], one: Row, other: Row) -> Ordering
    ensures { result ≡ sorted.whole_key_cmp (sorted.whole_key entries.now one) (sorted.whole_key entries.now other) }
{
    one.number.cmp(&other.number).then_with(|| {
        compare_optional_tags(tag_at(entries, one.place), tag_at(entries, other.place))
    })
}

/// The order of two records by their languages and tags, and of equal tags by their places, so that the first of the
/// file comes first.
fn compare_rows(entries: &[Entry], one: Row, other: Row) -> Ordering
    ensures { result ≡ sorted.whole_cmp entries.now one other }
{
    compare_keys(entries, one, other).then(one.place.cmp(&other.place))
}

/// Whether two records are of the same tag. Then only the first of them stays in the index.
fn name_same_tag(entries: &[Entry], one: Row, other: Row) -> bool
    ensures { result ≡ is_eq (sorted.whole_key_cmp (sorted.whole_key entries.now one)
        (sorted.whole_key entries.now other)) }
{
    compare_keys(entries, one, other).is_eq()
}

/// The order of the record of a row and a tag, by their languages and tags. `number` is that of the tag's language.
fn compare_with(entries: &[Entry], row: Row, number: u64, tag: &Tag) -> Ordering
    ensures { result ≡ sorted.whole_key_cmp (sorted.whole_key entries.now row) (number, Some tag.now) }
{
    row.number.cmp(&number).then_with(|| compare_optional_tags(
        tag_at(entries, row.place),
        Some(tag),
    ))
}

/// The order of two tags, where None comes before any tag.
fn compare_optional_tags(left: Option<&Tag>, right: Option<&Tag>) -> Ordering
    ensures { result ≡ option_cmp tag_cmp (option_copied left.entry) (option_copied right.entry) }
{
    left.cmp(&right)
}
