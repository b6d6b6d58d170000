//! A draft: the registry that is being read, record by record. `Registry::read` makes one.
ghost use Rattle.std.specs.Prelude.{◌≡◌, ◌<◌, [], IfErr, OnOk, None};
ghost use Rattle.lt_jar.specs.Sources.{lent_by};
ghost use Rattle.lt_registry.specs.AddedRecords.{IsAdded, IsPut, IsRefusedAt, Takes, TakesNext, finished};
ghost use Rattle.lt_registry.specs.RecordRefusals.{IsRefused};

use crate::entries::Entry;
use crate::faults::{RecordFault, RecordFaultKind};
use crate::fields::RecordFields;
use crate::records::read_entry;
use lt_jar::{JarFault, JarField, JarReader};
use std::alloc::Global;
use std::io::Read;

/// Puts the entry of a record after the others. The first record puts none if it is a header, with a File-Date and no
/// Type. `number` is that of the record in the file, counted from 1. Refused with the record's number and its first
/// fault, or where memory runs out.
pub(crate) fn add_record(
    alloc: Global,
    entries: &mut Vec<Entry>,
    fields: &[JarField],
    number: u32,
) -> Result<(), RecordFault>
    ensures ok { OnOk result (IsAdded fields.now number entries.old.items entries.new.items) }
    ensures err { IfErr result (IsRefusedAt fields.now number) }
{
    let fields = RecordFields::of(fields);
    if number == 1 && fields.are_header() {
        return Ok(());
    }
    match add_entry(alloc, entries, &fields, number) {
        Ok(()) => Ok(()),
        Err(kind) => Err(RecordFault { kind, number }),
    }
}

/// Puts the entry of a record, which has this number, after the others. Refused with the first fault of the record, or
/// where memory runs out.
fn add_entry(
    alloc: Global,
    entries: &mut Vec<Entry>,
    fields: &RecordFields<'_>,
    number: u32,
) -> Result<(), RecordFaultKind>
    ensures ok { OnOk result (IsPut fields.now.all.now number entries.old.items entries.new.items) }
    ensures err { IfErr result (IsRefused fields.now.all.now) }
{
    entries.push(read_entry(alloc, fields, number)?)?;
    Ok(())
}

/// The entries of the records so far, how many records there were, and the fault of the first record that has one.
#[derive(Drop)]
pub(crate) struct Draft {
    entries: Vec<Entry>,
    number: u32,
    fault: Option<RecordFault>,
}

impl Draft {
    /// A draft before the first record.
    pub(crate) fn new(alloc: Global) -> Draft
        ensures entries { result.entries.items ≡ [] }
        ensures number { result.number ≡ 0 }
        ensures fault { result.fault ≡ None }
    {
        Draft {
            entries: Vec::new(alloc),
            number: 0,
            fault: None,
        }
    }

    /// Takes the fields of the next record. After a record at fault no more entries are made. The draft must have taken
    /// fewer than 100,000 records, the most that a reader lends, so that their count is a `u32`.
    fn take(&mut self, alloc: Global, fields: &[JarField])
        requires { self.old.number < 100000 }
        ensures { Takes fields.now self.old self.new }
    {
        self.number += 1;
        if self.fault.is_none() {
            self.fault = add_record(alloc, &mut self.entries, fields, self.number).err();
        }
    }

    /// Takes the next record of a reader: true, or false if there is none. Refused with the reader's fault; a fault of
    /// the record is kept in the draft. The draft must have taken each record that the reader lent before, so that it
    /// gives the next one its number in the file.
    pub(crate) fn take_next<R: Read>(
        &mut self,
        alloc: Global,
        reader: &mut JarReader<'_, R>,
    ) -> Result<bool, JarFault>
        requires { self.old.number ≡ lent_by reader.old.source }
        ensures { TakesNext R.remaining reader.old reader.new self.old self.new result }
    {
        match reader.next() {
            Ok(Some(record)) => {
                self.take(alloc, record.fields());
                Ok(true)
            }
            Ok(None) => Ok(false),
            Err(fault) => Err(fault),
        }
    }

    /// The entries, or the fault of the first record that has one.
    pub(crate) fn finish(self) -> Result<Vec<Entry>, RecordFault>
        ensures { result ≡ finished self.entries self.fault }
    {
        let Draft {
            entries,
            number: _,
            fault,
        } = self;
        match fault {
            None => Ok(entries),
            Some(fault) => Err(fault),
        }
    }
}
