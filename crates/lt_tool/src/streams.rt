//! What a run reads and writes.
ghost use Rattle.std.specs.Io.KnownBytes.{ReadConsumes};
ghost use Rattle.std.specs.Io.{ReadsAtMost};

use lt_jar::Device;
use std::io::{self, Read};

/// The standard streams of a run.
#[derive(Drop)]
pub struct Streams<I, O, E> {
    /// The standard input.
    pub input: Device<I>,
    /// The standard output, where answers are printed.
    pub output: Device<O>,
    /// The standard error, which is told what failed.
    pub errors: Device<E>,
}

/// A file that a command names, or no file, which reads like an empty one.
#[derive(Drop)]
pub enum Source<F> {
    /// The file.
    File(F),
    /// The command names no file here.
    Empty,
}

impl<F: Read> Read for Source<F> {
    ghost use Rattle.lt_tool.specs.Streams.{bytes_of};

    ghost remaining = { λ source. bytes_of F.remaining source };

    /// Reads once from the file, or gives no bytes if there is none. As with every reader, no more bytes are given than
    /// `buf` has room for (`bound`), and they are the next of those that are left (`bytes`).
    fn read(&mut self, buf: &mut [u8]) -> io::Result<usize>
        ensures bound { ReadsAtMost result buf.new }
        ensures bytes { ReadConsumes (bytes_of F.remaining self.old) (bytes_of F.remaining self.new) result buf.new }
    {
        match self {
            Source::File(file) => file.read(buf),
            Source::Empty => Ok(0),
        }
    }
}

/// The files that a command names, in the order in which they are read: a registry before a table of codes, and an older
/// registry before a newer one.
#[derive(Drop)]
pub struct Files<F> {
    /// The registry, or the older one.
    pub first: Device<Source<F>>,
    /// The newer registry, or the table of codes.
    pub second: Device<Source<F>>,
}
