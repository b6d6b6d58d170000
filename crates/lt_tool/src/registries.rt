//! The registry that a command names. A file is first read: its reading is its entries, or a fault. Then it is judged:
//! its entries pass the check, or the registry is refused.
ghost use Rattle.std.specs.Prelude.{◌≡◌, Err, IfErr, IfOk, Ok};
ghost use Rattle.lt_tool.specs.Registries as spec;
ghost use Rattle.lt_tool.specs.Registries.{IsJudged, IsRegistryRefusal, ReadsFile, ReadsJudged};
ghost use Rattle.lt_tool.specs.Results.{no_memory};
ghost use Rattle.lt_tool.specs.Streams.{stream};

use crate::faults::{Fault, Role};
use crate::status::Status;
use lt_canon::{Checked, Finding, RejectedCause};
use lt_jar::{Device, JarFault, JarFaultKind};
use lt_range::MatchingTable;
use lt_registry::{RecordFault, RecordFaultKind, Registry, RegistryFault, SortedTable};
use lt_stream::ToolFault;
use std::alloc::Global;
use std::io::Read;

/// Why a file holds no registry that passes the check.
#[derive(Debug, Drop)]
pub enum RegistryRefusal {
    /// The file is not in the format of a registry, or was not read to its end.
    Jar(JarFault),
    /// A record of the file can't be read as an entry.
    Record(RecordFault),
    /// The entries do not pass the check: a condition of it fails at a record.
    Check(Finding),
    /// Memory ran out.
    OutOfMemory,
}

impl RegistryRefusal {
    /// The status of a run that refuses a registry: `Failed` if a read failed or was one too many, else
    /// `RegistryRefused`.
    pub(crate) fn status(&self) -> Status
        ensures { result ≡ spec.refused_end self.now }
    {
        match self {
            RegistryRefusal::Jar(
                JarFault {
                    kind: JarFaultKind::Read | JarFaultKind::TooManyTurns,
                    line: _,
                },
            ) => Status::Failed,
            _ => Status::RegistryRefused,
        }
    }

    /// The name of the fault, or the code of the condition that is not met. It has no contract: it serves
    /// [`Fault::name`].
    pub(crate) fn name(&self) -> &'static str {
        match self {
            RegistryRefusal::Jar(fault) => fault.kind.name(),
            RegistryRefusal::Record(fault) => fault.kind.name(),
            RegistryRefusal::Check(finding) => finding.condition.code(),
            RegistryRefusal::OutOfMemory => "OutOfMemory",
        }
    }

    /// The number of the record at fault, counted from 1. None for a fault of the format, which has the number of a
    /// line instead, and if memory ran out. It has no contract: it serves [`Fault::record`].
    pub(crate) fn record(&self) -> Option<u32> {
        match self {
            RegistryRefusal::Record(fault) => Some(fault.number),
            RegistryRefusal::Check(finding) => Some(finding.number),
            RegistryRefusal::Jar(_) | RegistryRefusal::OutOfMemory => None,
        }
    }
}

impl From<RegistryFault> for RegistryRefusal {
    ghost from_gives = { λ fault refusal. IsRegistryRefusal (Err fault) refusal };

    /// The refusal of a file whose reading is this fault. It is `OutOfMemory` if the kind of the fault is.
    fn from(fault: RegistryFault) -> RegistryRefusal {
        match fault {
            RegistryFault::Jar(fault) if fault.kind == JarFaultKind::OutOfMemory => {
                RegistryRefusal::OutOfMemory
            }
            RegistryFault::Jar(fault) => RegistryRefusal::Jar(fault),
            RegistryFault::Record(fault) if fault.kind == RecordFaultKind::OutOfMemory => {
                RegistryRefusal::OutOfMemory
            }
            RegistryFault::Record(fault) => RegistryRefusal::Record(fault),
        }
    }
}

/// The entries of `registry`, as a table that passed the check; or why they are refused, which is the first finding of
/// the check or lack of memory. In the clause, `Ok registry` is the reading of the file that has these entries.
pub(crate) fn check_entries(
    alloc: Global,
    registry: Registry,
) -> Result<Checked<SortedTable>, RegistryRefusal>
    ensures { IsJudged (Ok registry) result }
{
    let Ok(table) = SortedTable::new(alloc, registry) else {
        return Err(RegistryRefusal::OutOfMemory);
    };
    match Checked::new(alloc, table) {
        Ok(checked) => Ok(checked),
        Err(rejected) => Err(match rejected.cause {
            RejectedCause::Finding(finding) => RegistryRefusal::Check(finding),
            RejectedCause::OutOfMemory => RegistryRefusal::OutOfMemory,
        }),
    }
}

/// The entries of a file, as a table that passed the check, or why the file is refused.
fn judge_file<F: Read>(
    alloc: Global,
    file: &mut Device<F>,
) -> Result<Checked<SortedTable>, RegistryRefusal>
    ensures { ReadsFile (stream F.remaining file.old file.new) (λ reading. IsJudged reading result) }
{
    match Registry::read(alloc, file) {
        Ok(registry) => check_entries(alloc, registry),
        Err(fault) => Err(RegistryRefusal::from(fault)),
    }
}

/// The registry of a file, or the fault with which it is refused. `role` says which of the command's registries it is.
pub(crate) fn read_registry<F: Read>(
    alloc: Global,
    role: Role,
    file: &mut Device<F>,
) -> Result<Checked<SortedTable>, Fault>
    ensures { ReadsJudged (stream F.remaining file.old file.new) role result }
{
    match judge_file(alloc, file) {
        Ok(checked) => Ok(checked),
        Err(refusal) => Err(Fault::Registry(role, refusal)),
    }
}

/// A table prepared for matching. Refused only where memory runs out.
pub(crate) fn prepared(
    alloc: Global,
    checked: Checked<SortedTable>,
) -> Result<MatchingTable<SortedTable>, Fault>
    ensures table { IfOk result (λ table. table ≡ checked) }
    ensures fault { IfErr result (λ fault. fault ≡ no_memory) }
{
    match MatchingTable::new(alloc, checked) {
        Ok(table) => Ok(table),
        Err(_) => Err(Fault::Run(ToolFault::OutOfMemory)),
    }
}
