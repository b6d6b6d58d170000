//! What follows from just the definitions: together with the contract of `read_jar`, that it answers exactly the
//! records of a text, or exactly its fault.
ghost use Rattle.std.specs.Prelude.{◌≡◌, ◌⊎◌, ℕ, List};
ghost use Rattle.lt_jar.specs.Records.{Field, HasRecords, IsWithin};
ghost use Rattle.lt_jar.specs.Faults.{Fault, IsTheFault, IsWrongAt};

/// A text has one list of records at most.
pub fn one_list_of_records()
    ensures { (text : List ℕ) (a b : List (List Field)) → HasRecords text a → HasRecords text b → a ≡ b }
{}

/// A text that comes after `earlier` records has one fault at most, in one line; m and n are numbers of lines.
pub fn one_fault()
    ensures { (earlier : ℕ) (text : List ℕ) (a b : Fault) (m n : ℕ)
        → IsTheFault earlier text a m → IsTheFault earlier text b n → (a ≡ b) × (m ≡ n) }
{}

/// Nothing is wrong with a text that has records and keeps the limits, where no records come before it (0).
pub fn records_without_fault()
    ensures { (text : List ℕ) (records : List (List Field)) → HasRecords text records → IsWithin text records
        → (fault : Fault) (number : ℕ) → ¬ IsWrongAt 0 text fault number }
{}

/// A text, before which no records come (0), has records and keeps the limits, or it has a fault.
pub fn records_or_fault()
    ensures { (text : List ℕ)
        → ((records : List (List Field)) × HasRecords text records × IsWithin text records)
        ⊎ ((fault : Fault) × ((number : ℕ) × IsTheFault 0 text fault number)) }
{}
