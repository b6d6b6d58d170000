//! Runs over readers: the lines that are cut, the answers to them, what ends a run, and how many lines were refused by
//! each fault. It is a part of the program `langtag`; a program of your own begins with the crate `bcp47`.
#![tactic(auto)]

mod device_output;
mod faults;
mod lines;
mod pieces;
mod tallies;
mod texts;

pub use device_output::{write_fault, write_text};
pub use faults::ToolFault;
pub use lines::{Lines, run_lines};
pub use pieces::{Pieces, run_pieces};
pub use tallies::{Tallies, Tally};
pub use texts::{run_text, take_front};
