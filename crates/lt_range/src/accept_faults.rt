//! Why a text is no Accept-Language header.
ghost use Rattle.std.specs.Prelude.{◌≡◌};
ghost use Rattle.lt_range.specs.AcceptNames.{name_of, no_memory, of_range_fault};

use crate::faults::RangeFault;
use std::alloc::{AllocError, AllocFailed};
use thiserror::Error;

/// What is wrong with a list element (RFC 9110, 12.5.4), in the order in which faults are looked for.
#[derive(Clone, Copy, Debug, Drop, Error, PartialEq, Eq)]
pub enum AcceptFaultKind {
    /// It does not begin with a language range, for this fault, which is never `OutOfMemory` where a call of this crate
    /// answers it.
    #[error("{0}")]
    BadRange(RangeFault),
    /// Its range has a `*` beside other subtags, as `de-*-DE` has. The header has only basic ranges (RFC 4647, 2.1).
    #[error("ExtendedRange: write a range without `*`, or `*` alone")]
    ExtendedRange,
    /// What follows the range is no weight (RFC 9110, 12.4.2), as in `en;q=2` and `en fr`.
    #[error("BadWeight: write `;q=` and a number from 0 to 1 with up to three decimals, or a comma")]
    BadWeight,
    /// Memory ran out.
    #[error("out of memory: free some, and ask again")]
    OutOfMemory,
}

impl AcceptFaultKind {
    /// The kind's name: `ExtendedRange`, `BadWeight`, `OutOfMemory`, or that of the range's fault, for example
    /// `BadByte`.
    pub fn name(self) -> &'static str
        ensures { result.now ≡ name_of self }
    {
        match self {
            AcceptFaultKind::BadRange(fault) => fault.name(),
            AcceptFaultKind::ExtendedRange => "ExtendedRange",
            AcceptFaultKind::BadWeight => "BadWeight",
            AcceptFaultKind::OutOfMemory => "OutOfMemory",
        }
    }
}

impl From<RangeFault> for AcceptFaultKind {
    ghost from_gives = { λ fault kind. kind ≡ of_range_fault fault };

    fn from(fault: RangeFault) -> AcceptFaultKind {
        match fault {
            RangeFault::OutOfMemory => AcceptFaultKind::OutOfMemory,
            _ => AcceptFaultKind::BadRange(fault),
        }
    }
}

/// Why a text is no Accept-Language header, and where.
#[derive(Clone, Copy, Debug, Drop, Error, PartialEq, Eq)]
#[error("list element {place}: {kind}")]
pub struct AcceptFault {
    /// What the fault is.
    pub kind: AcceptFaultKind,
    /// The number of the leftmost list element at fault, counted from 1; empty elements count too. For `OutOfMemory` it
    /// says nothing.
    pub place: usize,
}

impl From<AllocError> for AcceptFault {
    ghost from_gives = { λ _ fault. fault ≡ no_memory };

    fn from(_error: AllocError) -> AcceptFault {
        AcceptFault {
            kind: AcceptFaultKind::OutOfMemory,
            place: 0,
        }
    }
}

impl<T: Drop> From<AllocFailed<T>> for AcceptFault {
    ghost from_gives = { λ _ fault. fault ≡ no_memory };

    fn from(_error: AllocFailed<T>) -> AcceptFault {
        AcceptFault {
            kind: AcceptFaultKind::OutOfMemory,
            place: 0,
        }
    }
}
