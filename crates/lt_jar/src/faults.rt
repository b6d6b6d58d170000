//! Why a text gives no records.
ghost use Rattle.std.specs.Prelude.{◌≡◌};
ghost use Rattle.lt_jar.specs.Names.{name_of};
ghost use Rattle.lt_jar.specs.declared.faults.JarFaultKind.TheVariants as kinds;

use std::alloc::{AllocError, AllocFailed};
use thiserror::Error;

/// What is wrong with a line, or why it was not read. Of several things that are wrong with one line the first
/// in this order is answered; `OutOfMemory`, `Read` and `TooManyTurns` come when they happen.
#[derive(Clone, Copy, Debug, PartialEq, Eq)]
pub enum JarFaultKind {
    /// The line has more than 65,536 bytes, the carriage return counted and the line feed not.
    LineTooLong,
    /// The line is no UTF-8.
    NotUtf8,
    /// The line continues a field, and its record has none yet.
    LeadingContinuation,
    /// The line is not blank, and neither `%%`, nor a field, nor a continuation (RFC 5646, 3.1.1).
    BadLine,
    /// The line begins record 100,001.
    TooManyRecords,
    /// A growth of memory was refused.
    OutOfMemory,
    /// The reader failed.
    Read,
    /// 10,000,000 reads were made, and the last of them gave bytes.
    TooManyTurns,
    /// There was a fault before, whose line this is.
    Failed,
}

impl JarFaultKind {
    /// The kind's name, as it is written here: `BadLine`.
    pub fn name(self) -> &'static str
        ensures { result.now ≡ name_of self }
    {
        match self {
            JarFaultKind::LineTooLong => "LineTooLong",
            JarFaultKind::NotUtf8 => "NotUtf8",
            JarFaultKind::LeadingContinuation => "LeadingContinuation",
            JarFaultKind::BadLine => "BadLine",
            JarFaultKind::TooManyRecords => "TooManyRecords",
            JarFaultKind::OutOfMemory => "OutOfMemory",
            JarFaultKind::Read => "Read",
            JarFaultKind::TooManyTurns => "TooManyTurns",
            JarFaultKind::Failed => "Failed",
        }
    }
}

impl From<AllocError> for JarFaultKind {
    ghost from_gives = { λ _ kind. kind ≡ kinds.OutOfMemory };

    /// The refusal of a growth of memory.
    fn from(_error: AllocError) -> JarFaultKind {
        JarFaultKind::OutOfMemory
    }
}

impl<T: Drop> From<AllocFailed<T>> for JarFaultKind {
    ghost from_gives = { λ _ kind. kind ≡ kinds.OutOfMemory };

    /// The refusal of a growth of memory.
    fn from(_error: AllocFailed<T>) -> JarFaultKind {
        JarFaultKind::OutOfMemory
    }
}

/// What is wrong with a text, and at which line. It is printed as `BadLine in line 3`.
#[derive(Clone, Copy, Debug, Drop, Error, PartialEq, Eq)]
#[error("{kind:?} in line {line}")]
pub struct JarFault {
    /// What is wrong.
    pub kind: JarFaultKind,
    /// The number of the line, counted from 1; for a refusal of memory or a failed read that of the line that
    /// was being read.
    pub line: u64,
}
