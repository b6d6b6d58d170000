//! What the tests of several crates share: a small registry, its tables, and calls that are made again where a
//! growth of memory is refused.
#![tactic(auto)]

mod growths;
mod tables;
mod texts;

pub use growths::{is_shown, mark, shown};
pub use tables::{registry_of, sample, sample_with, sorted, sorted_sample};
pub use texts::{FOLDED, HEADER, ROWS, Row, changed_text, push_record, returned_text, sample_text};
