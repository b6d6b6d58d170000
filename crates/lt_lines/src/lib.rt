//! Answers to the lines of a reader, each a tag or a row with a tag in one field: the canonical text, or why it
//! is refused. A program that handles tags one by one begins with the crate `bcp47`.
#![tactic(auto)]

mod answer_lines;
mod answer_rows;
mod answering;
mod bases;
mod forms;
mod line_looks;
mod marked;
mod recent_answers;
mod runs;
mod tallying;

pub use answer_lines::append_refusal;
pub use bases::Basis;
pub use forms::{LineForm, RowForm};
pub use lt_stream::{Tallies, Tally, ToolFault, write_fault, write_text};
pub use runs::{Counts, run_lines, run_tallied};
