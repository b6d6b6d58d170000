//! What ends a run over lines.
ghost use Rattle.std.specs.Prelude.{◌≡◌};
ghost use Rattle.lt_stream.specs.Faults.{tool_name_of};
ghost use Rattle.lt_stream.specs.declared.faults.ToolFault.TheVariants as faults;

use lt_tag::OutOfMemory;
use std::alloc::AllocError;

/// What ended a run over lines before its reader did.
#[derive(Clone, Copy, Debug, PartialEq, Eq)]
pub enum ToolFault {
    /// A read failed.
    Read,
    /// A write failed, or took none of some bytes.
    Write,
    /// 10,000,000 reads were made, and the last of them gave bytes.
    TooManyTurns,
    /// Memory ran out.
    OutOfMemory,
    /// The record of CSV that begins in this line, counted from 1, can't be read: the reader ended within its quotes,
    /// or it is longer than 16,777,216 bytes.
    BadCsv(u64),
    /// The row in this line, counted from 1, is longer than 16,777,216 bytes.
    BadTsv(u64),
    /// The text begins with a byte order mark of UTF-16.
    Utf16,
}

impl ToolFault {
    /// The fault's name, as its variant is called: for example `BadCsv`, without the number of its line.
    pub fn name(self) -> &'static str
        ensures { result.now ≡ tool_name_of self }
    {
        match self {
            ToolFault::Read => "Read",
            ToolFault::Write => "Write",
            ToolFault::TooManyTurns => "TooManyTurns",
            ToolFault::OutOfMemory => "OutOfMemory",
            ToolFault::BadCsv(_) => "BadCsv",
            ToolFault::BadTsv(_) => "BadTsv",
            ToolFault::Utf16 => "Utf16",
        }
    }
}

/// With this, `?` turns a lack of memory into the fault `OutOfMemory`, as `from_gives` says.
impl From<AllocError> for ToolFault {
    ghost from_gives = { λ _ fault. fault ≡ faults.OutOfMemory };

    fn from(_error: AllocError) -> ToolFault {
        ToolFault::OutOfMemory
    }
}

/// With this, `?` does the same with the lack of memory that a call of `lt_tag` gives.
impl From<OutOfMemory> for ToolFault {
    ghost from_gives = { λ _ fault. fault ≡ faults.OutOfMemory };

    fn from(_error: OutOfMemory) -> ToolFault {
        ToolFault::OutOfMemory
    }
}
