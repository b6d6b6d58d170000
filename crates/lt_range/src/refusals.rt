//! Why a text can't be used as a language range.
ghost use Rattle.std.specs.Prelude.{◌≡◌};
ghost use Rattle.lt_range.specs.Refusals.{name_of, of_fault, no_memory};

use crate::faults::RangeFault;
use lt_subtag::Subtag;
use lt_tag::OutOfMemory;
use std::alloc::AllocFailed;
use thiserror::Error;

/// Why a text can't be used as a language range.
#[derive(Debug, Drop, Error)]
pub enum RangeRefusal {
    /// The text is no valid tag, and no range for this fault, which is never `OutOfMemory` where a call of this crate
    /// answers it.
    #[error("{0}")]
    NotARange(RangeFault),
    /// The text is a valid tag, but steps can repeat a variant of it, so it has no canonical form: once no core step
    /// leads on, this variant occurs twice.
    #[error("replacements can repeat a variant: take one of the variants out")]
    ReplacementRepeats(Subtag),
    /// Memory ran out.
    #[error("out of memory: free some, and ask again")]
    OutOfMemory,
}

impl RangeRefusal {
    /// The refusal's name, as it is printed: `ReplacementRepeats`, `OutOfMemory`, or for a text that is no range the
    /// name of its fault, for example `BadByte`.
    pub fn name(&self) -> &'static str
        ensures { result.now ≡ name_of self.now }
    {
        match self {
            RangeRefusal::NotARange(fault) => fault.name(),
            RangeRefusal::ReplacementRepeats(_) => "ReplacementRepeats",
            RangeRefusal::OutOfMemory => "OutOfMemory",
        }
    }
}

impl From<RangeFault> for RangeRefusal {
    ghost from_gives = { λ fault refusal. refusal ≡ of_fault fault };

    fn from(fault: RangeFault) -> RangeRefusal {
        match fault {
            RangeFault::OutOfMemory => RangeRefusal::OutOfMemory,
            _ => RangeRefusal::NotARange(fault),
        }
    }
}

impl From<OutOfMemory> for RangeRefusal {
    ghost from_gives = { λ _ refusal. refusal ≡ no_memory };

    fn from(_error: OutOfMemory) -> RangeRefusal {
        RangeRefusal::OutOfMemory
    }
}

impl<T: Drop> From<AllocFailed<T>> for RangeRefusal {
    ghost from_gives = { λ _ refusal. refusal ≡ no_memory };

    fn from(_error: AllocFailed<T>) -> RangeRefusal {
        RangeRefusal::OutOfMemory
    }
}
