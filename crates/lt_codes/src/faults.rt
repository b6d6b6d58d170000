//! Why a table of codes is refused.
ghost use Rattle.std.specs.Prelude.{◌≡◌};
ghost use Rattle.lt_codes.specs.Names.{name_of};
ghost use Rattle.lt_codes.specs.declared.faults.TableFaultKind.TheVariants as kinds;

use std::alloc::AllocError;

/// What is wrong with a line of a table, or why the table was not read. If several things are wrong with one line, the
/// first in this order is answered; the last three come when they happen.
#[derive(Clone, Copy, Debug, PartialEq, Eq)]
pub enum TableFaultKind {
    /// The line is no UTF-8.
    NotUtf8,
    /// The line doesn't have five fields, with four vertical bars between them.
    BadRow,
    /// One of the first three fields lacks its form: three letters, but two in the third. The second and the third may
    /// be empty.
    BadCode,
    /// An earlier line has one of the codes, and another subtag is registered for it there.
    RepeatedCode,
    /// The table has more than 1,048,576 bytes.
    TableTooLong,
    /// The reader failed.
    Read,
    /// A growth of memory was refused.
    OutOfMemory,
}

impl TableFaultKind {
    /// The kind's name, as it is written here: `BadRow`.
    pub fn name(self) -> &'static str
        ensures { result.now ≡ name_of self }
    {
        match self {
            TableFaultKind::NotUtf8 => "NotUtf8",
            TableFaultKind::BadRow => "BadRow",
            TableFaultKind::BadCode => "BadCode",
            TableFaultKind::RepeatedCode => "RepeatedCode",
            TableFaultKind::TableTooLong => "TableTooLong",
            TableFaultKind::Read => "Read",
            TableFaultKind::OutOfMemory => "OutOfMemory",
        }
    }
}

impl From<AllocError> for TableFaultKind {
    ghost from_gives = { λ _ kind. kind ≡ kinds.OutOfMemory };

    /// The refusal of a growth of memory.
    fn from(_error: AllocError) -> TableFaultKind {
        TableFaultKind::OutOfMemory
    }
}

/// What is wrong with a table, and at which line.
#[derive(Clone, Copy, Debug, PartialEq, Eq)]
pub struct TableFault {
    /// What is wrong.
    pub kind: TableFaultKind,
    /// The number of the line, counted from 1. For `TableTooLong`, `Read` and `OutOfMemory` it is the number of the
    /// line that was reached.
    pub line: u64,
}
