//! Canonical tags, explanations of them, and their laws (RFC 5646, 4.5), over any table that passes the check.
//! A program begins with the crate `bcp47`, whose `Registry` has these calls as methods.
//!
//! Words of this crate: `checked` is a table that passes the check, and `L.listed checked.now`, mostly `R`, are its
//! records. A *value* is the Preferred-Value of a record. A *step* replaces a subtag or a whole tag by its value, or
//! puts parts of extensions in order. A *proper* tag is valid, except that variants may occur twice in it, and steps
//! lead to proper tags. A valid tag is *canonical* if no step leads on. A core (language to variants) or a list of
//! extensions has a *normal form*, in which steps end, and is *settled* in it. The *source* of a `t` extension is the
//! langtag in it. Steps can *repeat* a variant: lead to a tag in which one occurs twice. A tag is of the *usual* kind
//! if it is a language, alone or with a script, a region or both. A subtag *stays* if it is registered without a value,
//! and no record replaces a whole tag of the usual kind with it as the language. `from_gives` is what a proof knows of
//! the refusal that `?` makes of another.
#![tactic(auto)]

mod canonical_tags;
mod canonical_texts;
mod equivalence;
mod explaining;
mod explanation_texts;
mod extlang_forms;
pub mod laws;
mod refusals;
mod repeats;
mod traces;
mod usual_tags;
mod usual_texts;

pub use canonical_tags::canonical;
pub use canonical_texts::{append_canonical_text, append_looked_up_text, canonical_text};
pub use equivalence::equivalent;
pub use explaining::explain;
pub use explanation_texts::{ExplanationLines, explanation_text};
pub use extlang_forms::extlang_form;
pub use lt_check::{Checked, Condition, Finding, Rejected, RejectedCause};
pub use refusals::{Refusal, TextRefusal};
pub use traces::{Trace, TraceFault, verify};
pub use usual_texts::append_usual_text;
