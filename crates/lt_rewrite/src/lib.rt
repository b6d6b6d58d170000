//! The steps that lead from a tag to its canonical form (RFC 5646, 4.5; RFC 6067; RFC 6497), by any table of registry
//! entries. Most programs need only the crate `bcp47`, whose `explain` and `verify` give and check these steps.
#![tactic(auto)]

mod apply_faults;
mod applying;
mod chain_ends;
mod core_applying;
mod core_explaining;
mod core_settling;
mod cycles;
mod extension_applying;
mod extension_parts;
mod extension_settling;
mod extensions_explaining;
mod extensions_settling;
mod field_applying;
mod keyword_applying;
pub mod laws;
pub mod ordering_laws;
mod part_applying;
mod part_explaining;
mod part_ordering;
mod rising_keys;
mod shortcuts;
mod steps;
mod transform_explaining;
mod unicode_explaining;
pub mod values;
mod variant_languages;

pub use apply_faults::ApplyFault;
pub use applying::apply;
pub use chain_ends::{Cycle, chain_end};
pub use core_explaining::explain_core;
pub use core_settling::settle_core;
pub use cycles::first_cycle;
pub use extension_settling::{settle_t, settle_u};
pub use extensions_explaining::explain_extensions;
pub use extensions_settling::settle_extensions;
pub use field_applying::core_length;
pub use rising_keys::next_key;
pub use shortcuts::Shortcuts;
pub use steps::{Step, StepKind};
