//! What follows for tags from an upgrade of the registry. Nothing is computed here: the contract is a law on all lists
//! of records `A` and `B`.
ghost use Rattle.std.specs.Prelude.{List};
ghost use Rattle.lt_registry.specs.Parts.{EntryParts};
ghost use Rattle.lt_check.specs.Conditions.{IsChecked};
ghost use Rattle.lt_upgrade.specs.Laws.{UpgradeKeepsTags};
ghost use Rattle.lt_upgrade.specs.Upgrade.{Upgrades};

/// After an upgrade valid tags stay valid, and equivalent tags equivalent. What the newer registry makes of an old
/// canonical form is what it makes of the tag: the same canonical form, or a refusal that names the same variant.
#[tactic(auto, using(crate::proofs::UpgradeLaws::upgrade_keeps))]
pub fn upgrades_keep_tags()
    ensures { (A B : List EntryParts) → IsChecked A → IsChecked B → Upgrades A B → UpgradeKeepsTags A B }
{}
