//! A registry and the records of its file, which is read once.
ghost use Rattle.std.specs.Prelude.{◌≡◌, ◌++◌, ◌∷◌, [], IfOk, OnOk, false};
ghost use Rattle.lt_jar.specs.Sources.{lent_by};
ghost use Rattle.lt_show.specs.Fields.{kept_fields};
ghost use Rattle.lt_show.specs.Kept.{Keeps, KeepsNext, ReadsDraft};
ghost use Rattle.lt_show.specs.Reading.{ReadsRecords};

use crate::fields::is_kept;
use lt_jar::{Device, Jar, JarFault, JarField, JarReader, Record};
use lt_registry::{Registry, RegistryFault};
use lt_tag::OutOfMemory;
use std::alloc::Global;
use std::io::Read;

/// Why a file gives no registry with its records.
#[derive(Clone, Copy, Debug, Drop, PartialEq, Eq)]
pub enum RecordsFault {
    /// The file is refused as when only the registry is read from it.
    Registry(RegistryFault),
    /// Memory ran out for the records.
    OutOfMemory,
}

/// A copy of a field, since a reader lends its record only until the next one. It is refused only where memory runs
/// out.
fn copy_field(alloc: Global, field: &JarField) -> Result<JarField, OutOfMemory>
    ensures { IfOk result (λ copy. copy ≡ field.now) }
{
    Ok(JarField {
        name: String::from_str(alloc, field.name())?,
        body: String::from_str(alloc, field.body())?,
    })
}

/// Copies of the fields of a record that are kept. They are refused only where memory runs out.
fn copy_fields(alloc: Global, fields: &[JarField]) -> Result<Vec<JarField>, OutOfMemory>
    ensures { IfOk result (λ copies. copies.items ≡ kept_fields fields.now) }
{
    let mut copies = Vec::new(alloc);
    for field in fields {
        if is_kept(field) {
            copies.push(copy_field(alloc, field)?)?;
        }
    }
    Ok(copies)
}

/// Puts a record after the other records, with copies of those `fields` that are kept. It is refused only where memory
/// runs out.
fn push_record(
    alloc: Global,
    records: &mut Vec<Record>,
    fields: &[JarField],
) -> Result<(), OutOfMemory>
    ensures { OnOk result (records.new.items ≡ records.old.items ++ kept_fields fields.now ∷ []) }
{
    let fields = copy_fields(alloc, fields)?;
    records.push(Record { fields })?;
    Ok(())
}

/// The records so far, and whether memory ran out for one.
#[derive(Drop)]
struct Draft {
    records: Vec<Record>,
    /// Whether memory ran out for a record. No more are kept then.
    lacks: bool,
}

impl Draft {
    /// A draft without records.
    fn new(alloc: Global) -> Draft
        ensures records { result.records.items ≡ [] }
        ensures lacks { result.lacks ≡ false }
    {
        Draft {
            records: Vec::new(alloc),
            lacks: false,
        }
    }

    /// Keeps a record after the others, with copies of those `fields` that are kept. Once memory has run out for a
    /// record, no more are kept, and the clause states nothing more. The file is still read to its end, since a fault
    /// of the file is answered before lack of memory.
    fn take(&mut self, alloc: Global, fields: &[JarField])
        ensures { Keeps fields.now self.old self.new }
    {
        if !self.lacks {
            self.lacks = push_record(alloc, &mut self.records, fields).is_err();
        }
    }

    /// Keeps the next record of a reader, and tells whether there is one. It is refused with the reader's fault. In the
    /// clause `R.remaining` gives what the reader has left, where that is known.
    fn take_next<R: Read>(
        &mut self,
        alloc: Global,
        reader: &mut JarReader<'_, R>,
    ) -> Result<bool, JarFault>
        ensures { KeepsNext R.remaining reader.old reader.new self.old self.new result }
    {
        match reader.next() {
            Ok(Some(record)) => {
                self.take(alloc, record.fields());
                Ok(true)
            }
            Ok(None) => Ok(false),
            Err(fault) => Err(fault),
        }
    }
}

/// A draft of the records that a device gives, read to its end, or the fault of the file.
#[tactic(auto, using(crate::proofs::KeptLemmas::kept_none))]
fn read_draft<R: Read>(alloc: Global, device: &mut Device<R>) -> Result<Draft, JarFault>
    ensures { ReadsDraft R.remaining device.old device.new result }
{
    let mut reader = JarReader::new(alloc, device)?;
    let mut draft = Draft::new(alloc);
    'records: while draft.take_next(alloc, &mut reader)? {}
    Ok(draft)
}

/// The registry that a device gives, and the records of its file, each with the fields that are shown or make its entry. An
/// entry's number is that of its record among them, counted from 1. The device is read to its end, record by record, once. It
/// is refused as `Registry::read` refuses it, and by `OutOfMemory` if memory runs out for the records.
#[tactic(auto, unfolding(crate::specs::Kept::ReadsDraft, crate::specs::Reading::ReadsRecords))]
pub fn read_records<R: Read>(
    alloc: Global,
    device: &mut Device<R>,
) -> Result<(Registry, Jar), RecordsFault>
    ensures { ReadsRecords R.remaining device.old device.new result }
{
    let draft = match read_draft(alloc, device) {
        Ok(draft) => draft,
        Err(fault) => return Err(RecordsFault::Registry(RegistryFault::Jar(fault))),
    };
    let Draft { records, lacks } = draft;
    if lacks {
        return Err(RecordsFault::OutOfMemory);
    }
    match Registry::from_records(alloc, &records) {
        Ok(registry) => Ok((registry, Jar { records })),
        Err(fault) => Err(RecordsFault::Registry(RegistryFault::Record(fault))),
    }
}
