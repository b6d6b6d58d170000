//! The column that has a name in the heading of rows. It is a part of the program `langtag`; a program of your own begins
//! with the crate `bcp47`.
#![tactic(auto)]

mod finding;
mod first_rows;
mod names;

pub use finding::{ColumnFault, FoundColumn, find_column};
