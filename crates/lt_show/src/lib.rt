//! The parts of a tag (RFC 5646, 2.1; RFC 6067, 2.1; RFC 6497, 2.2): the kind and the place of each, and what the records
//! of a registry say of it (RFC 5646, 3.1), as a table and as JSON; and the texts of JSON (RFC 8259), each appended to
//! others by a call that is refused only where memory runs out. A program begins with the crate `bcp47`.
#![tactic(auto)]

mod fields;
mod json;
mod kinds;
mod listings;
mod members;
mod placing;
mod reading;
mod rows;
mod strings;
mod tables;
mod values;
mod walks;

pub use fields::{fields_of, is_shown};
pub use json::append_rows;
pub use kinds::PartKind;
pub use listings::{Listing, Subject};
pub use members::{
    append_first_name, append_first_string, append_name, append_next_null, append_next_string,
};
pub use placing::{Part, parts};
pub use reading::{RecordsFault, read_records};
pub use rows::{Row, rows_of};
pub use strings::append_string;
pub use tables::{append_printable, append_table};
pub use values::{append_comma, append_null, append_number};
