//! Laws: what follows from just the definitions. A law computes nothing and has no arguments; its clause speaks of
//! every list of entries `R` and every tag `t`, or of all the records of a file. A proper tag is valid, except that
//! variants may occur twice in it.
ghost use Rattle.std.specs.Prelude.{ℕ, ◌≡◌, ◌↔◌, List};
ghost use Rattle.lt_tag.specs.Parts.{TagForm};
ghost use Rattle.lt_tag.specs.Values.{IsTagValue};
ghost use Rattle.lt_registry.specs.Parts.{EntryParts};
ghost use Rattle.lt_registry.specs.Validity.{IsValid, IsProper};
ghost use Rattle.lt_registry.specs.Faults.{HasNoFault, RepeatsAtMost, IsFirstFault};
ghost use Rattle.lt_jar.specs.Records.{Field};
ghost use Rattle.lt_registry.specs.Records.{HasEntries, HasFaultAt, IsFirstRecordFault};
ghost use Rattle.lt_registry.specs.declared.faults.ValidFaultKind.{ValidFaultKind};
ghost use Rattle.lt_registry.specs.declared.faults.RecordFaultKind.{RecordFaultKind};

/// A tag is valid exactly if it has no fault. So `validate`, which looks for faults, decides it.
pub fn valid_is_faultless()
    ensures { (R : List EntryParts) (t : TagForm) → IsTagValue t → IsValid R t ↔ HasNoFault R t }
{}

/// A tag is proper exactly if it has no fault other than variants that occur twice.
#[tactic(auto, using(crate::proofs::ValidityLaws::proper_law))]
pub fn proper_repeats_at_most()
    ensures { (R : List EntryParts) (t : TagForm) → IsTagValue t → IsProper R t ↔ RepeatsAtMost R t }
{}

/// A tag has at most one first fault: if the kind `k` at the place `p` and the kind `l` at the place `q` are both
/// first, the kinds and the places are the same. So a checker has only one fault to report.
#[tactic(auto, using(crate::proofs::ValidityLaws::one_fault_law))]
pub fn one_first_fault()
    ensures { (R : List EntryParts) (t : TagForm) (k l : ValidFaultKind) (p q : ℕ) → IsFirstFault R t k p → IsFirstFault R t l q → (k ≡ l) × (p ≡ q) }
{}

/// Records give at most one list of entries.
#[tactic(auto, using(crate::proofs::EntryLaws::one_list))]
pub fn one_list_of_entries()
    ensures { (records : List (List Field)) (a b : List EntryParts) → HasEntries records a → HasEntries records b → a ≡ b }
{}

/// Records of which one has a fault have no list of entries.
pub fn fault_or_entries()
    ensures { (records : List (List Field)) (entries : List EntryParts) (kind : RecordFaultKind) (number : ℕ)
        → HasEntries records entries → HasFaultAt records kind number → ⊥ }
{}

/// Records have at most one first fault: if the kind `k` in the record `m` and the kind `l` in the record `n` are both
/// first, the kinds and the records are the same.
pub fn one_first_record_fault()
    ensures { (records : List (List Field)) (k l : RecordFaultKind) (m n : ℕ)
        → IsFirstRecordFault records k m → IsFirstRecordFault records l n → (k ≡ l) × (m ≡ n) }
{}
