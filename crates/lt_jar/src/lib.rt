//! The record-jar format, in which the IANA Language Subtag Registry is kept (RFC 5646, 3.1.1): a whole text,
//! or a device record by record. A program that reads a registry begins with the crate `bcp47`.
//!
//! A *jar* is the records of a text, and each record its fields, `Type: language`. A record *goes on* from its first
//! field until a line `%%` or the end of the text *ends* it. The *engine* takes a text in *pieces*, some bytes at a
//! time, and *keeps* the front of a line that a piece cuts. A *source* reads pieces from a *device*, which is a reader
//! that counts, and *lends* one record after another. Lemmas and definitions count `earlier` records, those before
//! their text.
#![tactic(auto)]

mod calls;
mod devices;
mod drafts;
mod engine;
mod faults;
mod jars;
pub mod laws;
mod lines;
mod pieces;
mod places;
mod readers;
mod reading;
mod sources;
mod words;

pub use devices::Device;
pub use faults::{JarFault, JarFaultKind};
pub use jars::{Jar, JarField, Record};
pub use pieces::{Pieces, Takes};
pub use places::{TOGETHER, first_place};
pub use readers::{JarReader, RecordRef};
pub use reading::read_jar;
