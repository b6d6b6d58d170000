//! BCP 47 language tags by a registry of language subtags: reads tags, compares them, makes them canonical
//! (RFC 5646, 4.5), so that `zh-yue` gives `yue`, and finds those that language ranges match (RFC 4647). A program
//! begins with this crate, and needs no other of the repository.
//!
//! A [`Registry`] is read from bytes or from a device, and passes the check of its twelve conditions; its
//! methods answer the rest. What it promises for every such registry is on one page, `specs/Promise.antt`.
//!
//! In contracts a registry is the list of its entries. A *step* (4.5) replaces a subtag or a whole tag by its
//! Preferred-Value, or orders parts of extensions. A tag is *canonical* if it is valid and no step leads on, and its
//! canonical form is the canonical tag that steps reach from it. Steps can *repeat* a variant if they reach a tag in
//! which one occurs twice: such a tag has no canonical form.
#![tactic(auto)]

mod errors;
mod readings;
mod registries;

pub use errors::RegistryError;
pub use lt_canon::{Refusal, TextRefusal, Trace, TraceFault};
pub use lt_check::{Condition, Finding};
pub use lt_jar::{Device, Jar, JarFault, JarFaultKind, JarField, Record, read_jar};
pub use lt_range::{
    AcceptFault, AcceptFaultKind, AcceptLanguage, Available, AvailableRefusal, HeaderRefusal,
    LanguageRange, Preference, RangeFault, RangeRefusal, Scheme, TagSubtags, WeightedRange,
    any_matches, best, filter_accepted, filter_basic, filter_extended, lookup, weight_of,
};
pub use lt_registry::{
    Entry, EntryName, EntryValue, Kind, Prefix, RecordFault, RecordFaultKind, ValidFault,
    ValidFaultKind, ValidRefusal, WholeTag,
};
pub use lt_rewrite::{Step, StepKind};
pub use lt_show::{Listing, Part, PartKind, Row, Subject, fields_of, is_shown, parts};
pub use lt_subtag::{Case, Subtag, SubtagFault};
pub use lt_tag::{
    Class, Core, Extension, Field, Keyword, OutOfMemory, TParts, Tag, TagFault, TagFaultKind,
    TransformFault, UParts, append_tag, join_t, join_u, read_tag, split_t, split_u, write_tag,
};
pub use lt_upgrade::{UpgradeCondition, UpgradeFault};
pub use registries::Registry;
