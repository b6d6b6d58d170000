//! Why a step is not applied. The clause `output` gives the text that is printed of a fault, and `from_gives` the fault
//! that `?` makes of `OutOfMemory`.
ghost use Rattle.std.specs.Prelude.{◌≡◌, Some};
ghost use Rattle.lt_rewrite.specs.ApplyFaults.{fault_name_of, no_memory};

use lt_tag::OutOfMemory;
use std::fmt;

/// Why a step is not applied to a tag.
#[derive(Clone, Copy, Debug, Drop, PartialEq, Eq)]
pub enum ApplyFault {
    /// No step with this kind, this place and this number of a record leads from the tag to a proper tag: one
    /// that is valid, except that a variant may occur twice.
    NoSuchStep,
    /// A growth of memory was refused.
    OutOfMemory,
}

impl ApplyFault {
    /// The fault's name, as it is written here: `NoSuchStep` or `OutOfMemory`.
    pub fn name(self) -> &'static str
        ensures { result.now ≡ fault_name_of self }
    {
        match self {
            ApplyFault::NoSuchStep => "NoSuchStep",
            ApplyFault::OutOfMemory => "OutOfMemory",
        }
    }
}

impl fmt::Display for ApplyFault {
    ghost output = { λ fault. Some (fault_name_of fault) };

    fn fmt<W: fmt::Write>(&self, f: &mut fmt::Formatter<W>) -> fmt::Result {
        f.write_str(self.name())
    }
}

impl std::error::Error for ApplyFault {}

/// Running out of memory becomes the fault `OutOfMemory`.
impl From<OutOfMemory> for ApplyFault {
    ghost from_gives = { λ _ fault. fault ≡ no_memory };

    fn from(_error: OutOfMemory) -> ApplyFault {
        ApplyFault::OutOfMemory
    }
}
