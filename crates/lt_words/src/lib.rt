//! The words of the command line of the program `langtag`, and the command that they name. A program of your
//! own begins with the crate `bcp47`.
#![tactic(auto)]

mod commands;
mod faults;
mod given;
mod helps;
mod program;
mod reading;
mod subcommands;
mod values;

pub use commands::{Column, Command, Matching, Ranges, Rows, Run, Tags};
pub use faults::WordsFault;
pub use given::{escaped, word_text};
pub use reading::read_words;
