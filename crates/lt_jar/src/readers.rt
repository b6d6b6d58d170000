//! A reader that lends one record at a time from its buffer.
ghost use Rattle.std.specs.Prelude.{◌≡◌, ◌<◌, IfSome, length, slice_get};

use crate::devices::Device;
use crate::faults::JarFault;
use crate::jars::JarField;
use crate::sources::JarSource;
use std::alloc::Global;
use std::io::Read;

/// A record, in its reader's buffer. A new call of the reader ends it.
#[derive(Clone, Copy)]
pub struct RecordRef<'a> {
    fields: &'a [JarField],
}

impl<'a> RecordRef<'a> {
    /// How many fields it has: at least one.
    pub fn len(&self) -> usize
        ensures { result ≡ length self.now.fields.now }
    {
        self.fields.len()
    }

    /// The fields, in the order of the text.
    pub fn fields(self) -> &'a [JarField]
        ensures { result.now ≡ self.entry.fields.now }
    {
        let RecordRef { fields } = self;
        fields
    }

    /// The name of the field at an index, counted from 0, in the case in which the text has it. There must be a field
    /// at the index, so `IfSome` leaves no case open.
    pub fn name(&self, i: usize) -> &'a str
        requires { i < length self.now.fields.now }
        ensures { IfSome (slice_get self.now.fields.now i) (λ field. result.now ≡ field.0) }
    {
        self.fields[i].name()
    }

    /// The body of the field at an index, counted from 0, with its continuation lines joined to it by single spaces.
    /// There must be a field at the index, so `IfSome` leaves no case open.
    pub fn body(&self, i: usize) -> &'a str
        requires { i < length self.now.fields.now }
        ensures { IfSome (slice_get self.now.fields.now i) (λ field. result.now ≡ field.1) }
    {
        self.fields[i].body()
    }
}

/// Reads a device record by record (RFC 5646, 3.1.1), each into the memory of those before it. This memory grows to the
/// most fields that a record had, and to the longest field in each place.
pub struct JarReader<'d, R, S = JarSource> {
    device: &'d mut Device<R>,
    source: S,
    alloc: Global,
}

impl<'d, R: Read> JarReader<'d, R, JarSource> {
    ghost use Rattle.std.specs.Prelude.{◌≡◌, IsOk, IfOk};
    ghost use Rattle.std.specs.Borrow.{sem};
    ghost use Rattle.lt_jar.specs.Lent.{LendsAs};
    ghost use Rattle.lt_jar.specs.Sources.{IsFresh};

    /// A reader at the start of what the device gives. It takes no memory, so it is never refused,
    /// and the device is as it was. By `same_reference` it is this very device that the reader changes.
    pub fn new(
        alloc: Global,
        device: &'d mut Device<R>,
    ) -> Result<JarReader<'d, R, JarSource>, JarFault>
        ensures ok { IsOk result }
        ensures same_reference { IfOk result (λ reader. reader.device.ghost_name ≡ device.entry.ghost_name) }
        ensures same { IfOk result (λ reader. reader.device.now ≡ device.old) }
        ensures fresh { IfOk result (λ reader. IsFresh reader.source) }
    {
        Ok(JarReader {
            device,
            source: JarSource::new(alloc),
            alloc,
        })
    }

    /// The next record, which stays until the next call. After the last record the answer is None.
    ///
    /// A line has at most 65,536 bytes, a text at most 100,000 records. If anything is wrong, the answer is the
    /// lowest line at which it is, and of the faults of that line the first in the order of `JarFaultKind`. These
    /// come with the line that was being read:
    ///
    /// - `Read`, if a read fails.
    /// - `TooManyTurns`, if all 10,000,000 reads were made and the last gave bytes.
    /// - `OutOfMemory`, if memory runs out.
    ///
    /// After a fault the answer is `Failed`, with that fault's line.
    // While the record is borrowed, nothing can be said of the reader: `ends` says what it is after that.
    pub fn next<'a>(&'a mut self) -> Result<Option<RecordRef<'a>>, JarFault>
        ensures* ends { sem 𝓛 (LendsAs R.row R.remaining self.entry result) }
    {
        if self.source.advance(self.alloc, self.device)? {
            Ok(Some(RecordRef {
                fields: self.source.fields(),
            }))
        } else {
            Ok(None)
        }
    }
}

impl<R, S: Drop> Drop for JarReader<'_, R, S> {
    /// Ends the reader. The device, which `exit.0` shows as the call ends, stays as the reader left it.
    fn drop(self)
        ensures { self.exit.0.now ≡ self.entry.device.now }
    {
        let JarReader {
            device: _,
            source: _,
            alloc: _,
        } = self;
    }
}
