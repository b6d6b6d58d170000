//! The check of a registry by twelve conditions, which no RFC asks for: they are rules of this project (on RFC 5646,
//! 2.2.8 and 3.1). And the *usual* subtags of a registry: the languages of 2 or 3 letters, the scripts and the regions
//! that *stay*, which means that canonicalization leaves them as they are. A langtag of only such subtags is shown
//! without a look into the registry (RFC 5646, 4.5). A usual subtag has its *flag* set, at the place that its bytes
//! tell. The flag is clear for a subtag that only a range names, and for a language if a record gives a value to a tag
//! of this language without extlangs and variants, so that nothing need be looked up. A program begins with the crate
//! `bcp47`, whose `Registry` has passed the check. The flags take 8,655 words of 64 bits, for 553,913 places.
//!
//! Words of this crate: a *record* is an entry of the table, `L.listed table.now` are all of them, and its *value* is
//! its Preferred-Value. A *whole* record names a whole tag: it is grandfathered or redundant. A *chain* goes from a
//! subtag to its value, to the value of that, and so on, and *shortcuts* find its *end* at once. A *core* is the
//! language, extlangs, script, region and variants of a langtag, and a tag is a *core alone* without extensions and
//! private use. Its *core normal form* is where steps on it lead (RFC 5646, 4.5, rule 3) when no more can be made.
#![tactic(auto)]

mod checked;
mod checking;
mod conditions;
mod grandfathered_checks;
mod name_checks;
mod places;
mod range_names;
mod record_checks;
mod rejections;
mod texts;
mod usual_subtags;
mod whole_checks;

pub use checked::Checked;
pub use conditions::Condition;
pub use rejections::{Finding, Rejected, RejectedCause};
pub use usual_subtags::UsualSubtags;
