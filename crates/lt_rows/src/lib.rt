//! Rows of text: byte order marks, what is within quotes, fields and records. It is a part of the
//! program `langtag`; a program of your own begins with the crate `bcp47`.
#![tactic(auto)]

mod lanes;
mod looks;
mod marks;
mod plain_rows;
mod quotes;
mod records;
mod rows;
mod short_rows;
mod splitting;

pub use lanes::count_of;
pub use looks::{Found, Lacks, Look, TextAt, lacks_of, look_at};
pub use marks::{is_wide, may_be_mark, split_mark};
pub use quotes::{Place, after_text};
pub use records::records_are_those_of_the_grammar;
pub use rows::{Separator, find_field, has_return, text_in};
pub use splitting::split_first;
