//! Why a table is rejected.
ghost use Rattle.std.specs.Prelude.{◌≡◌};
ghost use Rattle.lt_check.specs.Codes.{cause_name_of};

use crate::conditions::Condition;
use thiserror::Error;

/// What the check finds: the first condition that some record does not meet, and the lowest number of those
/// records.
#[derive(Clone, Copy, Debug, Drop, Error, PartialEq, Eq)]
#[error("record {number} does not meet {condition:?}: mend this record, or take another registry")]
pub struct Finding {
    /// The condition that is not met.
    pub condition: Condition,
    /// The number of the record in the file, counted from 1, with the header counted too.
    pub number: u32,
}

/// Why a table is rejected: the check is this project's own.
#[derive(Clone, Copy, Debug, Drop, Error, PartialEq, Eq)]
pub enum RejectedCause {
    /// A record is at fault.
    #[error("{0}")]
    Finding(Finding),
    /// Memory ran out.
    #[error("out of memory: free some, and check again")]
    OutOfMemory,
}

impl RejectedCause {
    /// The cause's name, as it is printed: the code of the condition that is not met, such as `C2`, or
    /// `OutOfMemory`.
    pub fn name(self) -> &'static str
        ensures { result.now ≡ cause_name_of self }
    {
        match self {
            RejectedCause::Finding(finding) => finding.condition.code(),
            RejectedCause::OutOfMemory => "OutOfMemory",
        }
    }
}

/// A table that is handed back, and why.
#[derive(Debug, Drop)]
pub struct Rejected<L> {
    /// The table, as it was.
    pub table: L,
    /// Why it is rejected.
    pub cause: RejectedCause,
}
