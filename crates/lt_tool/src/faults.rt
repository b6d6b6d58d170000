//! Why a run did not do what was asked for.
ghost use Rattle.std.specs.Prelude.{◌≡◌};
ghost use Rattle.lt_tool.specs.Faults as spec;
ghost use Rattle.lt_tool.specs.declared.faults.Fault.TheVariants as faults;
ghost use Rattle.lt_stream.specs.declared.faults.ToolFault.TheVariants as tool_faults;

use crate::registries::RegistryRefusal;
use crate::status::Status;
use lt_answers::Verdict;
use lt_canon::TextRefusal;
use lt_codes::{TableFault, TableFaultKind};
use lt_stream::ToolFault;
use lt_tag::OutOfMemory;
use lt_upgrade::UpgradeCondition;

/// Which of the registries of a command is meant.
#[derive(Clone, Copy, Debug, PartialEq, Eq)]
pub enum Role {
    /// The only one.
    Only,
    /// The older one of two.
    Older,
    /// The newer one of two.
    Newer,
}

impl Role {
    /// What the line of a refused registry begins with, to tell two registries apart.
    pub(crate) fn mark(self) -> &'static str
        ensures { result.now ≡ spec.mark_of self }
    {
        match self {
            Role::Only => "",
            Role::Older => "old ",
            Role::Newer => "new ",
        }
    }
}

/// The status of a run that refuses a table of codes for a fault of this kind: `Failed` if a read failed, and
/// `RegistryRefused` for every other kind.
fn table_end(kind: TableFaultKind) -> Status
    ensures { result ≡ spec.table_end kind }
{
    match kind {
        TableFaultKind::Read => Status::Failed,
        _ => Status::RegistryRefused,
    }
}

/// Why a run did not do what was asked for: what was refused, or what failed.
#[derive(Drop)]
pub enum Fault {
    /// A text is no tag, or its tag is refused.
    Text(TextRefusal),
    /// The second of two texts is no tag, or its tag is refused. The first one is a tag, and if the second is a tag
    /// too, the first has a canonical form.
    OtherText(TextRefusal),
    /// A registry is refused.
    Registry(Role, RegistryRefusal),
    /// A table of codes is refused.
    Table(TableFault),
    /// The newer registry does not upgrade the older one: this condition fails at the record with this number. It is a
    /// record of the newer registry for `NoNewVariantLanguage`, and of the older one for every other condition.
    Upgrade(UpgradeCondition, u32),
    /// The lines of the input are not an explanation of the tag, and this is what is wrong with them.
    Explanation(Verdict),
    /// The words of the command line can't be followed. The text says why, and ends with a line feed.
    Usage(String),
    /// A file can't be opened. The line says which file and why; it is None if there was no memory for it.
    File(Option<String>),
    /// A read or a write failed, or memory ran out.
    Run(ToolFault),
}

impl Fault {
    /// The status of a run that ends with this fault.
    pub fn status(&self) -> Status
        ensures { result ≡ spec.status_of self.now }
    {
        match self {
            Fault::Text(_) | Fault::OtherText(_) | Fault::Explanation(_) => Status::Refused,
            Fault::Registry(_, refusal) => refusal.status(),
            Fault::Table(fault) => table_end(fault.kind),
            Fault::Upgrade(_, _) => Status::RegistryRefused,
            Fault::Usage(_) => Status::Usage,
            Fault::File(_) | Fault::Run(_) => Status::Failed,
        }
    }

    /// The name by which the manual explains the fault, for example `BadByte` or `C2`. None for wrong usage, whose text
    /// says all. The function has no contract: it is only for the texts that people are told after a run, which no
    /// clause states.
    pub fn name(&self) -> Option<&'static str> {
        Some(match self {
            Fault::Text(refusal) | Fault::OtherText(refusal) => refusal.name(),
            Fault::Registry(_, refusal) => refusal.name(),
            Fault::Table(fault) => fault.kind.name(),
            Fault::Upgrade(condition, _) => condition.code(),
            Fault::Explanation(Verdict::NoSuchStep(_)) => "NoSuchStep",
            Fault::Explanation(Verdict::WrongEnd) => "WrongEnd",
            Fault::Explanation(_) => "BadStep",
            Fault::Usage(_) => return None,
            Fault::File(_) => "File",
            Fault::Run(fault) => fault.name(),
        })
    }

    /// The number of the record that the fault names, counted from 1, and the registry that has it. None if the fault
    /// names no record. It has no contract, for the same reason as [`Fault::name`].
    pub fn record(&self) -> Option<(Role, u32)> {
        match self {
            Fault::Registry(role, refusal) => Some((*role, refusal.record()?)),
            Fault::Upgrade(UpgradeCondition::NoNewVariantLanguage, number) => {
                Some((Role::Newer, *number))
            }
            Fault::Upgrade(_, number) => Some((Role::Older, *number)),
            _ => None,
        }
    }
}

impl From<TextRefusal> for Fault {
    ghost from_gives = { λ refusal fault. fault ≡ faults.Text refusal };

    /// The fault of a refused text, so that `?` can give it. `equal` does not use it: it has two texts, and says which
    /// of them is refused.
    fn from(refusal: TextRefusal) -> Fault {
        Fault::Text(refusal)
    }
}

impl From<OutOfMemory> for Fault {
    ghost from_gives = { λ _ fault. fault ≡ faults.Run tool_faults.OutOfMemory };

    /// The fault of a run for which memory ran out, so that `?` can give it.
    fn from(_error: OutOfMemory) -> Fault {
        Fault::Run(ToolFault::OutOfMemory)
    }
}
