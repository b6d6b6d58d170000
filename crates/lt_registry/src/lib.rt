//! The entries of a registry of language subtags, their look-up, and which tags are valid by them (RFC 5646, 2.2.9 and
//! 3.1). A program begins with the crate `bcp47`, whose registry has also passed the check of the crate `lt_check`.
#![tactic(auto)]

pub mod comparing_laws;
mod drafts;
mod entries;
mod faults;
mod fields;
mod indexes;
mod kind_index;
mod kind_rows;
pub mod laws;
mod list_table;
mod lookup;
mod names;
mod prefixes;
mod ranges;
mod records;
mod registry;
mod rows;
mod sorted_table;
mod subtag_numbers;
mod validity;
mod variants;
mod whole_index;
mod whole_tags;

pub use entries::{Entry, EntryName, EntryValue, Kind, Prefix};
pub use faults::{
    RecordFault, RecordFaultKind, RegistryFault, ValidFault, ValidFaultKind, ValidRefusal,
};
pub use list_table::ListTable;
pub use lookup::Lookup;
pub use registry::Registry;
pub use sorted_table::SortedTable;
pub use validity::{proper, validate};
pub use variants::are_distinct;
pub use whole_tags::WholeTag;
