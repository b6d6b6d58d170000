//! Traits of readers and writers whose calls have names, so that a clause can speak of a single call.
ghost use Rattle.std.specs.Prelude.{ℕ, List, Result};
ghost use Rattle.std.specs.Io.{ReadsAtMost, WritesAtMost};
ghost use Rattle.std.specs.Io.KnownBytes.{Keeps, ReadConsumes, WriteAppends};
ghost use Rattle.std.specs.declared.io.Error.{Error};

use std::io::{self, Read, Write};

/// A reader whose calls have a name in clauses. Each reader is one.
pub trait Reads: Read {
    /// What a call gave: the reader and the slice before it, the answer, the reader and the slice after it. By this a
    /// `Device` over a reader of unknown kind promises that its answer is that of one call. `bytes` could hold even if
    /// it called the reader twice.
    ghost gives: { Self → List ℕ → Result ℕ Error → Self → List ℕ → Type 0 };

    /// Calls `read` once. `bound` and `bytes` are what each `Read` promises: at most the slice's bytes, and the next
    /// ones.
    fn read_once(&mut self, buf: &mut [u8]) -> io::Result<usize>
        ensures bound { ReadsAtMost result buf.new }
        ensures bytes { ReadConsumes (Self.remaining self.old) (Self.remaining self.new) result buf.new }
        ensures gives { gives self.old buf.old result self.new buf.new };
}

impl<R: Read> Reads for R {
    ghost gives = { λ old before result new after. ReadConsumes (R.remaining old) (R.remaining new) result after };

    /// Calls the reader's `read`.
    fn read_once(&mut self, buf: &mut [u8]) -> io::Result<usize> {
        self.read(buf)
    }
}

/// A writer whose calls have names in clauses. Each writer is one.
pub trait Writes: Write {
    /// What a call of `write` did: the writer before it, the slice, the answer, the writer after it. By this a
    /// `Device` promises that its answer is that of one call.
    ghost takes: { Self → List ℕ → Result ℕ Error → Self → Type 0 };

    /// What a call of `flush` did: the writer before it, the answer, the writer after it.
    ghost flushes: { Self → Result (Unit {0}) Error → Self → Type 0 };

    /// Calls `write` once. `bound` and `bytes` are what each `Write` promises.
    fn write_once(&mut self, buf: &[u8]) -> io::Result<usize>
        ensures bound { WritesAtMost result buf.now }
        ensures bytes { WriteAppends (Self.contents self.old) (Self.contents self.new) result buf.now }
        ensures takes { takes self.old buf.now result self.new };

    /// Calls `flush` once. By `bytes` the bytes that were taken stay.
    fn flush_once(&mut self) -> io::Result<()>
        ensures bytes { Keeps (Self.contents self.old) (Self.contents self.new) }
        ensures flushes { flushes self.old result self.new };
}

impl<W: Write> Writes for W {
    ghost takes = { λ old bytes result new. WriteAppends (W.contents old) (W.contents new) result bytes };

    ghost flushes = { λ old result new. Keeps (W.contents old) (W.contents new) };

    /// Calls the writer's `write`.
    fn write_once(&mut self, buf: &[u8]) -> io::Result<usize> {
        self.write(buf)
    }

    /// Calls the writer's `flush`.
    fn flush_once(&mut self) -> io::Result<()> {
        self.flush()
    }
}
