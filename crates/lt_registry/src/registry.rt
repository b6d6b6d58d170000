//! The entries of a registry.
ghost use Rattle.std.specs.Prelude.{◌≡◌, ◌≤◌, length, IfOk, IfErr};
ghost use Rattle.lt_registry.specs.Entries.{IsRegistry};
ghost use Rattle.lt_registry.specs.ReadRegistry.{ReadsRegistry};
ghost use Rattle.lt_registry.specs.Records.{HasEntries};
ghost use Rattle.lt_registry.specs.RecordRefusals.{IsRecordRefusal};

use crate::drafts::{Draft, add_record};
use crate::entries::Entry;
use crate::faults::{RecordFault, RegistryFault};
use lt_jar::{Device, JarReader, Record};
use std::alloc::Global;
use std::io::Read;
use std::marker::Model;

/// The entries of a registry in the order of the file. They need not pass the check that the crate `lt_check` makes.
#[derive(Debug, Drop)]
pub struct Registry {
    entries: Vec<Entry>,
}

// A contract sees the list of the entries.
impl Model for Registry {
    ghost use Rattle.std.specs.Prelude.{List};
    ghost use Rattle.lt_registry.specs.Parts.{EntryParts};
    ghost use Rattle.lt_registry.specs.Entries.{IsRegistry};

    ghost Value = { List EntryParts };

    ghost view = { λ r. r.entries.items };

    ghost invariant = { λ r. IsRegistry r.entries.items };
}

impl Registry {
    /// The entries of a file's records, as the record-jar reader gives them. Each record but the header gives one (RFC
    /// 5646, 3.1). There must be at most 100,000 records, the most that this reader gives. A refusal names the lowest
    /// record at fault and its first fault; where memory runs out, it names the record that was being read.
    #[tactic(auto, using(crate::proofs::EntryLaws::made_stops))]
    pub fn from_records(alloc: Global, records: &[Record]) -> Result<Registry, RecordFault>
        requires { length records.now ≤ 100000 }
        ensures ok { IfOk result (HasEntries records.now) }
        ensures err { IfErr result (IsRecordRefusal records.now) }
    {
        let mut entries = Vec::new(alloc);
        for (index, record) in records.iter().enumerate() {
            add_record(alloc, &mut entries, record.fields(), index as u32 + 1)?;
        }
        Ok(Registry { entries })
    }

    /// The entries of a file's records, which are read one by one to the end of what the device gives.
    ///
    /// - `Jar`: what is wrong with the text, or that the device failed, that 10,000,000 reads did not come to its end,
    ///   or that memory ran out for a line, each with the line. It is answered even if a record is at fault too.
    /// - `Record`: else the lowest record at fault, as `from_records` names it.
    #[tactic(auto, using(crate::proofs::EntryLaws::draft_none, crate::proofs::EntryLaws::draft_next))]
    pub fn read<R: Read>(alloc: Global, device: &mut Device<R>) -> Result<Registry, RegistryFault>
        ensures { ReadsRegistry R.remaining device.old device.new result }
    {
        let mut reader = JarReader::new(alloc, device)?;
        let mut draft = Draft::new(alloc);
        'records: while draft.take_next(alloc, &mut reader)? {}
        Ok(Registry {
            entries: draft.finish()?,
        })
    }

    /// The entries in the order of the file. Their numbers rise, and each has the forms of its kind.
    pub fn entries(&self) -> &[Entry]
        ensures value { result.now ≡ self.now }
        ensures registry { IsRegistry self.now }
    {
        self.entries.as_slice()
    }
}
