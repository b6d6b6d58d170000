//! What was made canonical lately, and texts that are canonical already, so that neither is made canonical again. Answers are
//! kept in a table of fixed size. So are the ends of tags, from the first one-character subtag on: by a law they are right
//! after any canonical core. And of some texts the end is seen to be canonical without reading them as tags. The crate is a
//! part of the program `langtag` and of the library; a program of your own begins with the crate `bcp47`.
//!
//! Words of this crate: the *end* of a text goes from the hyphen before its first one-character subtag on, and the
//! *front* is what is before it: `-u-nu-latn` and `ar`. A subtag *stays* if steps leave it as it is; a front of subtags
//! that stay is a canonical core. An end is *settled* if it is canonical but for its letter case. A `t` extension has a
//! *source*, a langtag, and then *fields*: `it` and `-m0-names`. A table of answers has *places*. A place is empty, or
//! has a *line*, which is the text that was asked for, and its answer.
#![tactic(auto)]

mod ends;
mod keyword_ends;
pub mod laws;
mod recent;
mod recent_ends;
mod short_texts;
mod splitting;
mod texts;

pub use recent::{Found, Recent};
pub use recent_ends::RecentEnds;
pub use short_texts::ShortText;
pub use texts::append_canonical_text;
