//! A run of the program `langtag` for a person: what is said at a terminal, or where a summary is asked for, besides
//! what the program prints. A program of your own begins with the crate `bcp47`, whose errors say what is wrong by
//! `{}`.
//!
//! The contracts say that the run is that of the program, and when nothing is said. What is said they leave open, so
//! most functions here have none; a `told` is the bytes that are to be said, to which a function appends.
#![tactic(auto)]

mod advice;
mod codes;
mod hints;
mod meanings;
mod progress;
mod records;
mod run;
mod table;
mod telling;
mod wrapped;

pub use progress::Progress;
pub use run::{People, run_for_people};
