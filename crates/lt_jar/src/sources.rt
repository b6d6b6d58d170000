//! The records of a reader, one by one. A *source* reads into a buffer of 8,192 bytes, hands these on to the engine,
//! and *lends* the record that the engine has read. `turns` counts the reads.
ghost use Rattle.std.specs.Prelude.{◌≡◌, ◌≤◌, ◌+◌, ◌-◌, ◌*◌, true, false, length, take, drop};
ghost use Rattle.std.specs.Str.{is_utf8};
ghost use Rattle.lt_jar.specs.Lines.{IsOneLine};

use crate::devices::Device;
use crate::engine::Engine;
use crate::faults::{JarFault, JarFaultKind};
use crate::jars::JarField;
use std::alloc::Global;
use std::io::Read;

/// The most reads of one reader, so that the reading ends, even of a reader that has no end.
const MOST_READS: u32 = 10_000_000;

/// The most bytes that a read is asked for.
const PIECE: usize = 8_192;

/// Whether there may be more records, or the text has ended, or there was a fault.
#[derive(Clone, Copy)]
pub(crate) enum Status {
    Open,
    Ended,
    Failed,
}

/// The engine, and the bytes that were read and not yet handed on to it.
#[derive(Drop)]
pub struct JarSource {
    engine: Engine,
    buffer: [u8; PIECE],
    /// Where the bytes that are not yet handed on begin in the buffer.
    start: usize,
    /// Where they end: the place after the last.
    end: usize,
    /// Whether the bytes that are not yet handed on are known to be UTF-8, so that their lines are not checked again.
    is_text: bool,
    /// How many reads were made.
    turns: u32,
    status: Status,
    // No read gives more than 65,536 bytes, since the buffer has 8,192. So after the most reads the numbers of lines
    // still fit in 64 bits (`bounded`). The other bounds are those of the buffer and of the records.
    ghost placed: { (start ≤ end) × (end ≤ 8192) },
    ghost bounded: { (turns ≤ 10000000) × (engine.line + (end - start) ≤ 1 + 65536 * turns) },
    ghost begun: { IsOneLine engine.partial.items },
    ghost few: { engine.ended ≤ 100000 },
    ghost text: { is_text ≡ true → is_utf8 (take (end - start) (drop start buffer)) ≡ true },
}

impl JarSource {
    ghost use Rattle.std.specs.Prelude.{◌≡◌, ◌<◌, ◌≤◌, ◌+◌, ◌*◌, IfErr, IfOk};
    ghost use Rattle.lt_jar.specs.Pieces.{fields_in};
    ghost use Rattle.lt_jar.specs.Sources.{Advances, Fills, Finished, HasRoom, IsFresh, ReadsRecord, TakesUnread, line_of_kept, record_in, unread_in};
    ghost use Rattle.lt_jar.specs.declared.faults.JarFaultKind.TheVariants as kinds;
    ghost use Rattle.lt_jar.specs.declared.sources.Status.TheVariants as state;

    /// Nothing read so far.
    pub(crate) fn new(alloc: Global) -> JarSource
        ensures { IsFresh result }
    {
        JarSource {
            engine: Engine::new(alloc),
            buffer: [0; PIECE],
            start: 0,
            end: 0,
            is_text: false,
            turns: 0,
            status: Status::Open,
        }
    }

    /// Takes the bytes that were read, up to the end of a record, and tells whether one ended. If none did, all bytes
    /// were taken. It reads nothing (`same`). Refused at the first line with a fault, or where memory runs out.
    fn take_unread(&mut self, alloc: Global) -> Result<bool, JarFaultKind>
        ensures takes { TakesUnread self.old self.new result }
        ensures same { (self.new.turns ≡ self.old.turns) × (self.new.status ≡ self.old.status) }
    {
        if self.is_text {
            self.take_unread_text(alloc)
        } else {
            self.take_unread_bytes(alloc)
        }
    }

    /// Takes the bytes that were read, as `take_unread` does. They must be known to be UTF-8.
    fn take_unread_text(&mut self, alloc: Global) -> Result<bool, JarFaultKind>
        requires { self.old.is_text ≡ true }
        ensures takes { TakesUnread self.old self.new result }
        ensures same { (self.new.turns ≡ self.old.turns) × (self.new.status ≡ self.old.status) }
    {
        let piece = between(&self.buffer, self.start, self.end);
        // It was found to be UTF-8 when it was read.
        let text = unsafe { str::from_utf8_unchecked(piece) };
        match self.engine.take_text(alloc, text) {
            Ok(Some(rest)) => {
                // Does nothing when it runs: by it the proof knows that the rest is UTF-8.
                let _ = rest.as_bytes();
                self.start = self.end - rest.len();
                Ok(true)
            }
            Ok(None) => {
                self.start = self.end;
                self.is_text = false;
                Ok(false)
            }
            Err(kind) => {
                self.start = self.end;
                self.is_text = false;
                Err(kind)
            }
        }
    }

    /// Takes the bytes that were read, as `take_unread` does. They must not be known to be UTF-8, and may be
    /// something else.
    fn take_unread_bytes(&mut self, alloc: Global) -> Result<bool, JarFaultKind>
        requires { self.old.is_text ≡ false }
        ensures takes { TakesUnread self.old self.new result }
        ensures same { (self.new.turns ≡ self.old.turns) × (self.new.status ≡ self.old.status) }
    {
        let piece = between(&self.buffer, self.start, self.end);
        match self.engine.take(alloc, piece) {
            Ok(Some(rest)) => {
                self.start = self.end - rest.len();
                Ok(true)
            }
            Ok(None) => {
                self.start = self.end;
                Ok(false)
            }
            Err(kind) => {
                self.start = self.end;
                Err(kind)
            }
        }
    }

    /// Reads once into the buffer, and tells whether bytes came; if none did, the text has ended. All bytes read
    /// before must have been handed on. The engine takes nothing of it (`same`). Refused if the read fails or is one
    /// too many.
    fn fill<R: Read>(&mut self, device: &mut Device<R>) -> Result<bool, JarFaultKind>
        requires { self.old.start ≡ self.old.end }
        ensures fills { Fills R.remaining self.old self.new device.old device.new result }
        ensures same { (self.new.engine ≡ self.old.engine) × (self.new.status ≡ self.old.status) }
    {
        if self.turns == MOST_READS {
            return Err(JarFaultKind::TooManyTurns);
        }
        self.turns += 1;
        self.start = 0;
        self.end = 0;
        self.is_text = false;
        match device.read(&mut self.buffer) {
            Ok(0) => Ok(false),
            Ok(count) => {
                self.end = count;
                self.is_text = simdutf8::basic::from_utf8(&self.buffer[..count]).is_ok();
                Ok(true)
            }
            Err(_) => Err(JarFaultKind::Read),
        }
    }

    /// Takes the end of the text, and tells whether a record ends there. All bytes read must have been handed on. Such
    /// a record must be at most the 100,000th (`few`). The number of the next line must be within the bound that the
    /// reads give, 65,536 lines for each (`room`). Refused if the last line has a fault, or where memory runs out.
    fn finish(&mut self, alloc: Global) -> Result<bool, JarFaultKind>
        requires room { line_of_kept self.old + 1 ≤ 1 + 65536 * self.old.turns }
        requires few { HasRoom self.old }
        requires used { self.old.start ≡ self.old.end }
        ensures { Finished self.old self.new result }
    {
        let some = self.engine.finish(alloc)?;
        if some {
            self.engine.count_record();
        }
        self.status = Status::Ended;
        Ok(some)
    }

    /// Reads up to the end of a record, and tells whether there is one; if there is none, the text has ended. The
    /// source must be open. Refused at the first line with a fault, if a read fails or is one too many, or where
    /// memory runs out.
    fn read_record<R: Read>(
        &mut self,
        alloc: Global,
        device: &mut Device<R>,
    ) -> Result<bool, JarFaultKind>
        requires { self.old.status ≡ state.Open }
        ensures { ReadsRecord R.remaining self.old self.new device.old device.new result }
    {
        self.engine.begin_record();
        loop {
            if self.take_unread(alloc)? {
                self.engine.count_record();
                return Ok(true);
            }
            if !self.fill(device)? {
                return self.finish(alloc);
            }
        }
    }

    /// Moves to the next record, and tells whether there is one; if there is none, the text has ended. Refused as
    /// `read_record` is, with the number of the line that was being read. After a fault the answer is `Failed`, with
    /// that fault's line.
    pub(crate) fn advance<R: Read>(
        &mut self,
        alloc: Global,
        device: &mut Device<R>,
    ) -> Result<bool, JarFault>
        ensures { Advances R.remaining self.old self.new device.old device.new result }
    {
        let line = self.engine.line();
        match self.status {
            Status::Failed => Err(JarFault {
                kind: JarFaultKind::Failed,
                line,
            }),
            Status::Ended => Ok(false),
            Status::Open => match self.read_record(alloc, device) {
                Ok(some) => Ok(some),
                Err(kind) => {
                    self.status = Status::Failed;
                    Err(JarFault {
                        kind,
                        line: self.engine.line(),
                    })
                }
            },
        }
    }

    /// The fields of the record to which the last call moved.
    pub(crate) fn fields(&self) -> &[JarField]
        ensures { result.now ≡ record_in self.now }
    {
        self.engine.fields()
    }
}

/// The bytes of a buffer, which has 8,192, from `start` up to `end`. Both must be places in it, in this order.
fn between(buffer: &[u8; PIECE], start: usize, end: usize) -> &[u8]
    requires { (start ≤ end) × (end ≤ 8192) }
    ensures bytes { result.now ≡ take (end - start) (drop start buffer.now) }
    ensures room { end ≤ length buffer.now }
{
    &buffer[start..end]
}
