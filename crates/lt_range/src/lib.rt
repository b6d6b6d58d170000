//! Language ranges (RFC 4647) and the Accept-Language header (RFC 9110, 12.5.4): reading them, which tags they match,
//! and which tag they serve. Ranges and tags are matched in their *spellings*: the extlang form (RFC 5646, 4.5), and the
//! whole tags of records that have the same canonical form. So equivalent tags match the same ranges, equivalent ranges
//! the same tags, `zh` finds `yue`, and `no` finds `nb`. A program begins with the crate `bcp47`, whose `Registry` has
//! these calls as methods.
//!
//! Words of this crate: a range is *wild* if it begins with `*`, and its other subtags are *named*. It *falls back* to
//! a tag that lookup by it may find. A *preference* is a range with a weight in thousandths. The longest range that
//! matches a tag *decides* the weight of the tag, which is *refused* if that is 0. A preference *serves* a tag in a
//! *turn*: the ranges that are not wild have the first, and the wild ones the second. A *piece* is what is between two
//! hyphens of a range or two commas of a header; a *place* counts from 0, and the number of a list element from 1.
//! `from_gives` is what a proof knows of the fault that `?` makes of another.
#![tactic(auto)]

mod accept_faults;
mod asked;
mod available;
mod basic_ranges;
mod elements;
mod faults;
mod filters;
mod headers;
pub mod laws;
mod lookups;
mod matched;
mod matching;
mod matching_table;
mod preferences;
mod ranges;
mod refusals;
mod tag_subtags;
mod weights;
mod words;

pub use accept_faults::{AcceptFault, AcceptFaultKind};
pub use asked::{HeaderRefusal, header_preferences};
pub use available::{Available, AvailableRefusal};
pub use elements::WeightedRange;
pub use faults::RangeFault;
pub use filters::{filter_basic, filter_extended};
pub use headers::AcceptLanguage;
pub use lookups::lookup;
pub use matched::{append_ranges, known_subtags, subtags_of_text, tag_spellings};
pub use matching::{Scheme, any_matches};
pub use matching_table::MatchingTable;
pub use preferences::{Preference, best, filter_accepted, weight_of};
pub use ranges::LanguageRange;
pub use refusals::RangeRefusal;
pub use tag_subtags::TagSubtags;
