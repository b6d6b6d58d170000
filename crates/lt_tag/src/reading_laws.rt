//! A text has one tag or one fault: what `read_tag` answers, running out of memory aside, follows from
//! the text alone. Each law is the contract of a function that does nothing.
ghost use Rattle.std.specs.Prelude.{◌≡◌, ℕ, List, ◌⊎◌};
ghost use Rattle.lt_tag.specs.Parts.{TagForm};
ghost use Rattle.lt_tag.specs.Faults.{HasFault, HasTag};
ghost use Rattle.lt_tag.specs.declared.faults.TagFaultKind.{TagFaultKind};

/// A text has a tag or a fault.
pub fn tag_or_fault()
    ensures { (text : List ℕ) → ((tag : TagForm) × HasTag text tag)
        ⊎ ((kind : TagFaultKind) × (place : ℕ) × HasFault text kind place) }
{}

/// A text that has a fault has no tag.
pub fn fault_excludes_tag()
    ensures { (text : List ℕ) (kind : TagFaultKind) (place : ℕ) (tag : TagForm)
        → HasFault text kind place → HasTag text tag → ⊥ }
{}

/// A text has one fault at most.
#[tactic(auto, using(crate::proofs::FaultLemmas::one_fault))]
pub fn one_fault()
    ensures { (text : List ℕ) (kind other : TagFaultKind) (place elsewhere : ℕ)
        → HasFault text kind place → HasFault text other elsewhere → (kind ≡ other) × (place ≡ elsewhere) }
{}
