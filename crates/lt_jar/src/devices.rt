//! Devices, which count the failures of a reader or a writer.
ghost use Rattle.std.specs.Prelude.{◌≡◌, ◌<◌, IfOk, OnErr, OnOk, length};
ghost use Rattle.std.specs.Io.{ReadsAtMost, WritesAtMost};
ghost use Rattle.std.specs.Io.KnownBytes.{Keeps, ReadConsumes, WriteAppends};
ghost use Rattle.lt_jar.specs.Devices.{HasFailed, failures_after_read, failures_after_write, failures_of, given_by, inner_of, last_given_of, one_more, reads_of};

use crate::calls::{Reads, Writes};
use std::io::{self, Read, Write};

/// A reader or a writer that is read and written only through this value, and how often it failed. `Device::new(bytes)`
/// is one for a slice of bytes.
///
/// A device failed in a call if its count of failures rose in it, or is at its greatest value, 2^64 - 1.
#[derive(Drop)]
pub struct Device<T> {
    /// The reader or the writer.
    inner: T,
    failures: u64,
    /// How often it was read.
    reads: u64,
    /// How many bytes the last read gave.
    last_given: usize,
}

impl<T> Device<T> {
    /// A device that has not failed.
    pub fn new(inner: T) -> Device<T>
        ensures inner { inner_of result ≡ inner }
        ensures failures { failures_of result ≡ 0 }
        ensures reads { reads_of result ≡ 0 }
    {
        Device {
            inner,
            failures: 0,
            reads: 0,
            last_given: 0,
        }
    }

    /// How often a read or a write answered an error, or a write took 0 bytes of a slice that is
    /// not empty. It stays at its greatest value.
    pub fn failures(&self) -> u64
        ensures { result ≡ failures_of self.now }
    {
        self.failures
    }
}

impl<R: Reads> Read for Device<R> {
    ghost remaining = { λ device. R.remaining (inner_of device) };

    /// Calls the reader once. The call, a failure, and the bytes of this call are counted. By `passes` the answer is
    /// the reader's. `counts` says exactly when the count of failures rises; `works` and `fails` follow from it, and
    /// are what a caller needs.
    fn read(&mut self, buf: &mut [u8]) -> io::Result<usize>
        ensures bound { ReadsAtMost result buf.new }
        ensures bytes { ReadConsumes (R.remaining (inner_of self.old)) (R.remaining (inner_of self.new))
            result buf.new }
        ensures passes { R.gives (inner_of self.old) buf.old result (inner_of self.new) buf.new }
        ensures counts { failures_of self.new ≡ failures_after_read result (failures_of self.old) }
        ensures works { OnOk result (failures_of self.new ≡ failures_of self.old) }
        ensures fails { OnErr result (HasFailed self.old self.new) }
        ensures reads { reads_of self.new ≡ one_more (reads_of self.old) }
        ensures last { last_given_of self.new ≡ given_by result }
    {
        count_up(&mut self.reads);
        match self.inner.read_once(buf) {
            Ok(count) => {
                self.last_given = count;
                Ok(count)
            }
            Err(error) => {
                self.last_given = 0;
                count_up(&mut self.failures);
                Err(error)
            }
        }
    }
}

impl<W: Writes> Write for Device<W> {
    ghost contents = { λ device. W.contents (inner_of device) };

    /// Calls the writer once. A failure is counted: an error, or no byte taken of a slice that is not empty. By
    /// `passes` the answer is the writer's. `counts` says exactly when the count of failures rises; `works`,
    /// `takes_none` and `fails` follow from it.
    fn write(&mut self, buf: &[u8]) -> io::Result<usize>
        ensures bound { WritesAtMost result buf.now }
        ensures bytes { WriteAppends (W.contents (inner_of self.old)) (W.contents (inner_of self.new))
            result buf.now }
        ensures passes { W.takes (inner_of self.old) buf.now result (inner_of self.new) }
        ensures counts { failures_of self.new
            ≡ failures_after_write result buf.now (failures_of self.old) }
        ensures works { IfOk result (λ count. 0 < count → failures_of self.new ≡ failures_of self.old) }
        ensures takes_none { IfOk result (λ count. count ≡ 0 → 0 < length buf.now → HasFailed self.old self.new) }
        ensures fails { OnErr result (HasFailed self.old self.new) }
        ensures reads { reads_of self.new ≡ reads_of self.old }
        ensures last { last_given_of self.new ≡ last_given_of self.old }
    {
        match self.inner.write_once(buf) {
            Ok(count) => {
                if count == 0 && !buf.is_empty() {
                    count_up(&mut self.failures);
                }
                Ok(count)
            }
            Err(error) => {
                count_up(&mut self.failures);
                Err(error)
            }
        }
    }

    /// Calls the writer's `flush`. If that fails, the failure is not counted: all counts stay.
    fn flush(&mut self) -> io::Result<()>
        ensures bytes { Keeps (W.contents (inner_of self.old)) (W.contents (inner_of self.new)) }
        ensures passes { W.flushes (inner_of self.old) result (inner_of self.new) }
        ensures counts { failures_of self.new ≡ failures_of self.old }
        ensures reads { reads_of self.new ≡ reads_of self.old }
        ensures last { last_given_of self.new ≡ last_given_of self.old }
    {
        self.inner.flush_once()
    }
}

/// Adds one to a count, up to the greatest number.
fn count_up(count: &mut u64)
    ensures { count.new ≡ one_more count.old }
{
    *count = count.saturating_add(1);
}
