//! What is answered if bytes are no registry, or a registry is no upgrade of another.
ghost use Rattle.std.specs.Prelude.{◌≡◌};
ghost use Rattle.bcp47_c.specs.Ends as spec;

use crate::numbers::{
    BAD_FILE, BAD_RECORD, NO_UPGRADE, OUT_OF_MEMORY, REJECTED, condition, file_fault, record_fault,
    upgrade_condition,
};
use crate::outcomes::{Outcome, Said, deliver, ended};
use bcp47::{RegistryError, UpgradeFault};
use std::alloc::Global;

/// What an outcome says of an error of a registry: the status, the number of the fault, and its line or record.
fn error_said(error: RegistryError) -> Said
    ensures { result ≡ spec.error_said error }
{
    match error {
        RegistryError::Jar(fault) => Said {
            status: BAD_FILE,
            detail: file_fault(fault.kind),
            place: fault.line,
        },
        RegistryError::Record(fault) => Said {
            status: BAD_RECORD,
            detail: record_fault(fault.kind),
            place: u64::from(fault.number),
        },
        RegistryError::Check(finding) => Said {
            status: REJECTED,
            detail: condition(finding.condition),
            place: u64::from(finding.number),
        },
        RegistryError::OutOfMemory => ended(OUT_OF_MEMORY),
    }
}

/// Answers an error of a registry, and writes it to the buffer, for example as `jar BadLine line 3`. If there is no
/// memory for that text, `OutOfMemory` is answered and written instead.
pub(crate) fn refuse_registry(alloc: Global, error: RegistryError, buffer: &mut [u8]) -> Outcome
    ensures { spec.IsRefusedRegistry error buffer.old buffer.new result }
{
    match format!(in alloc; "{error}") {
        Ok(line) => deliver(error_said(error), line.as_bytes(), buffer),
        Err(_) => deliver(ended(OUT_OF_MEMORY), b"OutOfMemory", buffer),
    }
}

/// What an outcome says of a registry that is no upgrade: the number of the condition that fails, and the record at fault.
pub(crate) fn upgrade_said(fault: UpgradeFault) -> Said
    ensures { result ≡ spec.upgrade_said fault }
{
    match fault {
        UpgradeFault::Fails { condition, number } => Said {
            status: NO_UPGRADE,
            detail: upgrade_condition(condition),
            place: u64::from(number),
        },
        UpgradeFault::OutOfMemory => ended(OUT_OF_MEMORY),
    }
}
