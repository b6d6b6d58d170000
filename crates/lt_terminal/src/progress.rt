//! How far a long run is.
ghost use Rattle.std.specs.Prelude.{◌≡◌, OnErr, false};
ghost use Rattle.std.specs.Io.KnownBytes.{Keeps, WriteAppends};
ghost use Rattle.std.specs.Io.{WritesAtMost};
ghost use Rattle.lt_jar.specs.Devices.{HasFailed, failures_of, inner_of};

use crate::telling::say;
use crate::wrapped::append_number;
use lt_jar::Device;
use lt_rows::count_of;
use std::alloc::{AllocError, Global};
use std::cell::Cell;
use std::io::{self, ErrorKind, Write};

/// A person is told how many lines were answered each time that this many more are full.
const MILLION: u64 = 1_000_000;

/// A writer that hands on what it takes, and tells a person how many lines that were, each time that a million more
/// are full. It notes that nobody reads the output any more, for example since the reader of a pipe has ended.
#[derive(Drop)]
pub struct Progress<'a, W, T> {
    alloc: Global,
    is_unread: &'a Cell<bool>,
    inner: Device<W>,
    people: Device<T>,
    is_told: bool,
    lines: u64,
}

impl<'a, W, T> Progress<'a, W, T> {
    /// A writer over `inner`, in a device that has not failed (`inner`), that took nothing so far. If `is_told`, it
    /// tells people how many lines it took, each time that a million more are full (`told`). `is_told` is false if the
    /// output is a terminal itself, whose lines tell that. `is_unread` is set once a write finds no reader.
    pub fn new(
        alloc: Global,
        inner: W,
        people: T,
        is_told: bool,
        is_unread: &'a Cell<bool>,
    ) -> Progress<'a, W, T>
        ensures inner { (inner_of result.inner ≡ inner) × (failures_of result.inner ≡ 0) }
        ensures told { result.is_told ≡ is_told }
    {
        Progress {
            alloc,
            is_unread,
            inner: Device::new(inner),
            people: Device::new(people),
            is_told,
            lines: 0,
        }
    }
}

/// The line that tells how many lines were answered, which the next one overwrites.
fn progress_line(alloc: Global, lines: u64) -> Result<Vec<u8>, AllocError> {
    let mut line = Vec::new(alloc);
    append_number(&mut line, alloc, lines)?;
    line.extend_from_slice(b" lines\r")?;
    Ok(line)
}

/// Tells a person that `after` lines are answered, if a multiple of a million was reached since there were `before`.
fn tell_progress<T: Write>(alloc: Global, before: u64, after: u64, people: &mut Device<T>) {
    if after / MILLION != before / MILLION {
        if let Ok(line) = progress_line(alloc, after) {
            say(&line, people);
        }
    }
}

impl<'a, W: Write, T: Write> Write for Progress<'a, W, T> {
    ghost contents = { λ progress. W.contents (inner_of progress.inner) };

    /// Writes once to the writer, and counts the lines that it took, if a person is told of them; else nothing is
    /// written to people (`told`). As with every writer, it takes no more bytes than `buf` has (`bound`), and what
    /// it takes follows what it took before (`bytes`). An error is a failure of its device (`fails`).
    fn write(&mut self, buf: &[u8]) -> io::Result<usize>
        ensures bound { WritesAtMost result buf.now }
        ensures bytes { WriteAppends (W.contents (inner_of self.old.inner)) (W.contents (inner_of self.new.inner)) result buf.now }
        ensures fails { OnErr result (HasFailed self.old.inner self.new.inner) }
        ensures told { self.old.is_told ≡ false → self.new.people ≡ self.old.people }
    {
        match self.inner.write(buf) {
            Ok(count) => {
                if self.is_told {
                    let before = self.lines;
                    let feeds = count_of(b'\n', &buf[..count]);
                    self.lines = before.saturating_add(feeds as u64);
                    tell_progress(self.alloc, before, self.lines, &mut self.people);
                }
                Ok(count)
            }
            Err(error) => {
                if error.kind() == ErrorKind::BrokenPipe {
                    self.is_unread.set(true);
                }
                Err(error)
            }
        }
    }

    /// Flushes the writer, which takes no bytes by that (`bytes`).
    fn flush(&mut self) -> io::Result<()>
        ensures bytes { Keeps (W.contents (inner_of self.old.inner)) (W.contents (inner_of self.new.inner)) }
    {
        self.inner.flush()
    }
}
