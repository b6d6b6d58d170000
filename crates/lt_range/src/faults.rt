//! Why a text is no language range.
ghost use Rattle.std.specs.Prelude.{◌≡◌};
ghost use Rattle.lt_range.specs.Names.{name_of, no_memory, of_subtag_fault};

use lt_subtag::SubtagFault;
use lt_tag::OutOfMemory;
use std::alloc::{AllocError, AllocFailed};
use thiserror::Error;

/// Why a text is no language range (RFC 4647, 2.2): the fault of its leftmost piece that has one.
#[derive(Clone, Copy, Debug, Drop, Error, PartialEq, Eq)]
pub enum RangeFault {
    /// A piece between hyphens is neither `*` nor a subtag, for this fault.
    #[error("{}: write each subtag as `*` or as 1 to 8 letters or digits", self.name())]
    BadSubtag(SubtagFault),
    /// The first subtag has a digit.
    #[error("BadFirst: begin with a subtag of letters, or with `*`")]
    BadFirst,
    /// Memory ran out.
    #[error("out of memory: free some, and ask again")]
    OutOfMemory,
}

impl RangeFault {
    /// The fault's name: `BadFirst`, `OutOfMemory`, or the name that the same fault of a tag has: `EmptySubtag`,
    /// `BadByte` or `LongSubtag`.
    pub fn name(self) -> &'static str
        ensures { result.now ≡ name_of self }
    {
        match self {
            RangeFault::BadSubtag(SubtagFault::Empty) => "EmptySubtag",
            RangeFault::BadSubtag(SubtagFault::BadByte) => "BadByte",
            RangeFault::BadSubtag(SubtagFault::TooLong) => "LongSubtag",
            RangeFault::BadFirst => "BadFirst",
            RangeFault::OutOfMemory => "OutOfMemory",
        }
    }
}

impl From<SubtagFault> for RangeFault {
    ghost from_gives = { λ fault refusal. refusal ≡ of_subtag_fault fault };

    fn from(fault: SubtagFault) -> RangeFault {
        RangeFault::BadSubtag(fault)
    }
}

impl From<AllocError> for RangeFault {
    ghost from_gives = { λ _ fault. fault ≡ no_memory };

    fn from(_error: AllocError) -> RangeFault {
        RangeFault::OutOfMemory
    }
}

impl<T: Drop> From<AllocFailed<T>> for RangeFault {
    ghost from_gives = { λ _ fault. fault ≡ no_memory };

    fn from(_error: AllocFailed<T>) -> RangeFault {
        RangeFault::OutOfMemory
    }
}

impl From<OutOfMemory> for RangeFault {
    ghost from_gives = { λ _ fault. fault ≡ no_memory };

    fn from(_error: OutOfMemory) -> RangeFault {
        RangeFault::OutOfMemory
    }
}
