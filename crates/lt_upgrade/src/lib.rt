//! The check of a newer registry beside an older one by six conditions, which no RFC asks for: they are rules of this
//! project. And what follows for tags. A program begins with the crate `bcp47`: its `Registry::upgrade_check` is this
//! call.
//!
//! In contracts `A` are the records of the older registry, and `B` those of the newer. The *chain* of a subtag goes to
//! its Preferred-Value, to the value of that, and so on, to its *end*, which *shortcuts* find at once. A *whole* record
//! names a whole tag: it is grandfathered or redundant. A range *covers* another of its kind that lies within it.
//! `from_gives` is what a proof knows of the fault that `?` makes of another.
#![tactic(auto)]

mod conditions;
mod upgrade_checks;
pub mod upgrade_laws;
mod upgrades;
mod widest_ranges;

pub use conditions::UpgradeCondition;
pub use upgrades::{UpgradeFault, upgrade_check};
