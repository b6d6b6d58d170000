//! What the program `langtag` answers to the lines of a reader besides their canonical texts: an object of JSON (RFC
//! 8259) for each line; the lines that language ranges (RFC 4647, 3.3 and 3.4) or an Accept-Language header (RFC 9110,
//! 12.5.4) select by extlang forms (RFC 5646, 4.5), so that `zh` and `zh-yue` select `yue-HK`; and the verdict on an
//! explanation. A program of your own begins with the crate `bcp47`.
#![tactic(auto)]

mod answering;
mod answers;
mod classes;
mod closest;
mod cores;
mod extensions;
mod following;
mod judging;
mod labels;
pub mod laws;
mod looking;
mod matching;
mod objects;
mod parts;
mod selecting;
mod serving;
mod sources;
mod subtags;
mod tags;
mod verdicts;

pub use answering::write_objects;
pub use classes::class_name;
pub use following::verify_lines;
pub use looking::look_up_line;
pub use objects::append_object;
pub use selecting::select_lines;
pub use serving::serve_line;
pub use verdicts::Verdict;
