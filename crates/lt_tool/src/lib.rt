//! The program `langtag`: what its commands read and print, and what a run of them came to. A program of your own
//! begins with the crate `bcp47`.
//!
//! In clauses `stream F.remaining file.old file.new` is a file before and after a call; `F.remaining` gives the bytes
//! that are left in the file, if they are known. For an output, `O.contents` gives the bytes that were written to it.
//! `L.listed checked.now` are the entries of a registry, which definitions call `R`. `ByRegistry` says that a command
//! reads its registry first, and goes on with the entries if they pass the check.
#![tactic(auto)]

mod answers;
mod explaining;
mod faults;
mod headers;
mod outcomes;
mod plans;
mod printing;
mod program;
mod ranges;
mod registries;
mod rows;
mod running;
mod showing;
mod showing_json;
mod status;
mod streams;
mod tag_commands;

pub use answers::Answer;
pub use faults::{Fault, Role};
pub use lt_lines::{Counts, LineForm, RowForm, Tallies, Tally, ToolFault, run_lines};
pub use lt_words::{
    Column, Command, Matching, Ranges, Rows, Run, Tags, WordsFault, read_words, word_text,
};
pub use outcomes::Outcome;
pub use program::{path_of, perform, report, run_program};
pub use registries::RegistryRefusal;
pub use status::Status;
pub use streams::{Files, Source, Streams};
