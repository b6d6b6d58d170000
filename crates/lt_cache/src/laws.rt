//! The laws of ends of tags, on every list `R` of entries that passes the check. Nothing is computed here: each
//! contract is a law.
ghost use Rattle.std.specs.Prelude.{List};
ghost use Rattle.lt_registry.specs.Parts.{EntryParts};
ghost use Rattle.lt_check.specs.Conditions.{IsChecked};
ghost use Rattle.lt_cache.specs.Ends.{EndsAreShared, FieldsAreShared};

/// In a registry that passes the check, what follows a canonical core in the canonical text of a tag is the same with each
/// canonical core: `de-u-kn` is the canonical text of `de-u-kn-true`, so `en-GB-u-kn` is that of `en-GB-u-kn-true`
/// (RFC 5646, 4.5).
#[tactic(auto, using(crate::proofs::EndLemmas::ends_shared))]
pub fn ends_are_shared()
    ensures { (R : List EntryParts) → IsChecked R → EndsAreShared R }
{}

/// In a registry that passes the check, what follows the source of a `t` extension of fields in the canonical text of a tag
/// is the same with each canonical core and source: `de-t-it-m0-names` is the canonical text of `de-t-IT-M0-names`, so
/// `en-t-fr-m0-names` is that of `en-t-FR-M0-names` (RFC 5646, 4.5; RFC 6497, 2.2).
pub fn fields_are_shared()
    ensures { (R : List EntryParts) → IsChecked R → FieldsAreShared R }
{}
