//! The rows of an index. The number of a subtag is its bytes as one number of 64 bits, and its rank is its length with
//! that number below it (`subtag_numbers`). A place is the index of an entry.

/// A row of the index of single subtags or of whole tags: the number that is looked for, and the place of its record
/// among the entries. Rows are ordered by the number, and rows of one number by the place.
#[derive(Clone, Copy, Debug, PartialEq, Eq, PartialOrd, Ord)]
pub(crate) struct Row {
    /// The number of the record's subtag, or of the language of the tag that it names.
    pub(crate) number: u64,
    pub(crate) place: usize,
}

/// A range of subtags: the rank of its first subtag, one more than the rank of its last, and the place of its record
/// among the entries.
#[derive(Clone, Copy, Debug)]
pub(crate) struct RangeRow {
    pub(crate) start: u128,
    pub(crate) end: u128,
    pub(crate) place: usize,
}

/// The ranks from `start` up to the start of the next stretch, which is not among them. `place` is that of the first
/// range that holds these ranks, or None if no range does.
#[derive(Clone, Copy, Debug)]
pub(crate) struct Stretch {
    pub(crate) start: u128,
    pub(crate) place: Option<usize>,
}
