//! Codes of languages as library catalogues write them (ISO 639-2), for example `ger` and `fre`, and what BCP 47
//! registers for them, by the table that the Library of Congress publishes. A program of your own begins with the crate
//! `bcp47`.
//!
//! A *row* is a line of the table: a bibliographic code (`ger`), perhaps a terminologic one (`deu`) and one of two
//! letters (`de`), and two names. The *registered* subtag is the one that stands for the language in a tag.
#![tactic(auto)]

mod codes;
mod faults;
mod reading;
mod rows;
mod tables;
mod texts;

pub use codes::{Code, CodeTable};
pub use faults::{TableFault, TableFaultKind};
