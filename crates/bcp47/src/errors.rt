//! Why there is no registry.
ghost use Rattle.std.specs.Prelude.{◌≡◌, Err, Some};
ghost use Rattle.bcp47.specs.Errors.{error_name_of, error_text};
ghost use Rattle.bcp47.specs.Promise.{IsRefusal};

use lt_check::Finding;
use lt_jar::{JarFault, JarFaultKind};
use lt_registry::{RecordFault, RecordFaultKind, RegistryFault};
use std::error::Error;
use std::fmt;

/// Why bytes or a device give no registry that passes the check.
///
/// It is printed as `jar BadLine line 3`, `record 7 UnknownType`, `check C2 record 5` or `OutOfMemory`.
#[derive(Clone, Copy, Debug, Drop, PartialEq, Eq)]
pub enum RegistryError {
    /// The text is not in the format of a registry (RFC 5646, 3.1.1), or was not read to its end. The line is
    /// counted from 1.
    Jar(JarFault),
    /// A record gives no entry (RFC 5646, 3.1). Records are counted from 1, the header among them.
    Record(RecordFault),
    /// The entries do not pass the check: the first [`Condition`](crate::Condition) that some record does not
    /// meet, and the lowest number of those records.
    Check(Finding),
    /// Memory ran out.
    OutOfMemory,
}

impl RegistryError {
    /// The name of what is wrong: the kind of a fault, for example `BadLine` or `UnknownType`, the code of a condition, from
    /// `C1` to `C12`, or `OutOfMemory`.
    pub fn name(self) -> &'static str
        ensures { result.now ≡ error_name_of self }
    {
        match self {
            RegistryError::Jar(fault) => fault.kind.name(),
            RegistryError::Record(fault) => fault.kind.name(),
            RegistryError::Check(finding) => finding.condition.code(),
            RegistryError::OutOfMemory => "OutOfMemory",
        }
    }
}

impl From<RegistryFault> for RegistryError {
    ghost from_gives = { λ fault error. IsRefusal (Err fault) error };

    /// The error of a reading with this fault. Memory that ran out for the file and memory that ran out for a record are one
    /// error.
    fn from(fault: RegistryFault) -> RegistryError {
        match fault {
            RegistryFault::Jar(fault) if fault.kind == JarFaultKind::OutOfMemory => {
                RegistryError::OutOfMemory
            }
            RegistryFault::Jar(fault) => RegistryError::Jar(fault),
            RegistryFault::Record(fault) if fault.kind == RecordFaultKind::OutOfMemory => {
                RegistryError::OutOfMemory
            }
            RegistryFault::Record(fault) => RegistryError::Record(fault),
        }
    }
}

impl fmt::Display for RegistryError {
    ghost output = { λ error. Some (error_text error) };

    /// Where the fault was found, and its name, for example `jar BadLine line 3`.
    fn fmt<W: fmt::Write>(&self, f: &mut fmt::Formatter<W>) -> fmt::Result {
        let name = self.name();
        match self {
            RegistryError::Jar(fault) => {
                let line = fault.line;
                write!(f, "jar {name} line {line}")
            }
            RegistryError::Record(fault) => {
                let number = fault.number;
                write!(f, "record {number} {name}")
            }
            RegistryError::Check(finding) => {
                let number = finding.number;
                write!(f, "check {name} record {number}")
            }
            RegistryError::OutOfMemory => f.write_str("OutOfMemory"),
        }
    }
}

impl Error for RegistryError {}
