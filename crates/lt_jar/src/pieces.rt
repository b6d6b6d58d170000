//! A reader and a writer for tests.
ghost use Rattle.std.specs.Prelude.{◌≡◌, ◌+◌, ◌⊎◌, ◌++◌, ◌↔◌, false, true, take, drop, length, Some, None, IfErr, IfOk, IsErr, IsErrAnd, IsOk, OnErr};
ghost use Rattle.std.specs.Io.{ReadsAtMost, WritesAtMost};
ghost use Rattle.std.specs.Io.KnownBytes.{Keeps, ReadConsumes, WriteAppends};
ghost use Rattle.std.specs.IoError.{error_kind};
ghost use Rattle.lt_jar.specs.Devices.{one_more};
ghost use Rattle.lt_jar.specs.TestDevices.{IsUnread, IsUnwritten, ReadFails, WriteFails, given_in, next_bytes, next_count, next_place, remaining_of, take_count, taken_by};

use std::alloc::Global;
use std::io::{self, ErrorKind, Read, Write};

/// A reader for tests that gives bytes in pieces, once or again and again, and may fail at one call.
#[derive(Drop)]
pub struct Pieces<'a> {
    /// What it gives.
    bytes: &'a [u8],
    /// Where the next read begins.
    at: usize,
    /// The most bytes of a read.
    piece: usize,
    /// Whether it begins again after the last byte.
    endless: bool,
    /// How many calls were made.
    calls: u64,
    /// The number of the call that fails, counted from 1, or 0 if none does.
    fails_at: u64,
}

impl<'a> Pieces<'a> {
    /// A reader that gives the bytes once, at most `piece` of them in a call; if `piece` is 0 it gives none.
    pub fn once(bytes: &'a [u8], piece: usize) -> Pieces<'a>
        ensures unread { IsUnread result bytes.now piece }
        ensures ends { result.endless ≡ false }
        ensures remaining { remaining_of result ≡ Some (given_in piece bytes.now) }
    {
        Pieces {
            bytes,
            at: 0,
            piece,
            endless: false,
            calls: 0,
            fails_at: 0,
        }
    }

    /// A reader that gives at most `piece` bytes in a call, and begins again after the last byte.
    pub fn for_ever(bytes: &'a [u8], piece: usize) -> Pieces<'a>
        ensures unread { IsUnread result bytes.now piece }
        ensures endless { result.endless ≡ true }
        ensures remaining { remaining_of result ≡ None }
    {
        Pieces {
            bytes,
            at: 0,
            piece,
            endless: true,
            calls: 0,
            fails_at: 0,
        }
    }

    /// The same reader, but for its call of this number, counted from 1, which fails.
    pub fn failing_at(self, call: u64) -> Pieces<'a>
        ensures fails { result ≡ record self.entry { fails_at = call } }
        ensures remaining { remaining_of result ≡ remaining_of self.entry }
    {
        Pieces {
            bytes: self.bytes,
            at: self.at,
            piece: self.piece,
            endless: self.endless,
            calls: self.calls,
            fails_at: call,
        }
    }
}

impl Read for Pieces<'_> {
    ghost remaining = { remaining_of };

    /// Gives the next bytes, at most one piece; or fails, at the call that is to fail. After an answer Ok, `copied`
    /// says what is in the buffer, and `moves` what the reader is; after an error, `unread` says that the buffer is as
    /// it was, and `stays` that the reader only counted the call.
    fn read(&mut self, buf: &mut [u8]) -> io::Result<usize>
        ensures bound { ReadsAtMost result buf.new }
        ensures bytes { ReadConsumes (remaining_of self.old) (remaining_of self.new)
            result buf.new }
        ensures fails { IsErr result ↔ ReadFails self.old }
        ensures kind { IfErr result (λ error. error_kind error ≡ ErrorKind.Other) }
        ensures count { IfOk result (λ count. count ≡ next_count self.old (length buf.old)) }
        ensures copied { IfOk result (λ count.
            buf.new ≡ take count (next_bytes self.old) ++ drop count buf.old) }
        ensures moves { IfOk result (λ count.
            self.new ≡ record self.old {
              at = next_place self.old + count;
              calls = one_more self.old.calls;
            }) }
        ensures stays { OnErr result (self.new ≡ record self.old { calls = one_more self.old.calls }) }
        ensures unread { OnErr result (buf.new ≡ buf.old) }
    {
        self.calls = self.calls.saturating_add(1);
        if self.calls == self.fails_at {
            return Err(io::Error::from(ErrorKind::Other));
        }
        if self.endless && self.at >= self.bytes.len() {
            self.at = 0;
        }
        let left = self.bytes.get(self.at..).unwrap_or(&[]);
        let count = left.len().min(self.piece).min(buf.len());
        buf[..count].copy_from_slice(&left[..count]);
        self.at = self.at.saturating_add(count);
        Ok(count)
    }
}

/// A writer for tests that takes at most a number of bytes in a call, keeps them, and may fail at one call.
#[derive(Drop)]
pub struct Takes {
    taken: Vec<u8>,
    /// The most bytes that it takes in a call.
    piece: usize,
    /// How many calls were made.
    calls: u64,
    /// The number of the call that fails, counted from 1, or 0 if none does.
    fails_at: u64,
    /// The number of the call that takes no byte, counted from 1, or 0 if none is to.
    full_at: u64,
}

impl Takes {
    /// A writer that takes at most `piece` bytes in a call, has none yet, and doesn't fail.
    pub fn new(alloc: Global, piece: usize) -> Takes
        ensures { IsUnwritten result piece }
    {
        Takes {
            taken: Vec::new(alloc),
            piece,
            calls: 0,
            fails_at: 0,
            full_at: 0,
        }
    }

    /// From now on the call of this number, counted from 1, fails.
    pub fn fail_at(&mut self, call: u64)
        ensures { self.new ≡ record self.old { fails_at = call } }
    {
        self.fails_at = call;
    }

    /// From now on the call of this number, counted from 1, takes no byte.
    pub fn take_none_at(&mut self, call: u64)
        ensures { self.new ≡ record self.old { full_at = call } }
    {
        self.full_at = call;
    }

    /// The bytes that were taken.
    pub fn taken(&self) -> &[u8]
        ensures { result.now ≡ taken_by self.now }
    {
        &self.taken
    }
}

impl Write for Takes {
    ghost contents = { λ writer. Some (taken_by writer) };

    /// Takes at most one piece of the bytes, and keeps them after those that it had (`bytes`). A call that is to take
    /// none takes none. It fails at the call that is to fail, or where memory runs out. By `same` only the bytes that
    /// it keeps and the count of calls change.
    fn write(&mut self, buf: &[u8]) -> io::Result<usize>
        ensures bound { WritesAtMost result buf.now }
        ensures bytes { WriteAppends (Some (taken_by self.old)) (Some (taken_by self.new))
            result buf.now }
        ensures fails { WriteFails self.old → IsErrAnd result (λ error. error_kind error ≡ ErrorKind.Other) }
        ensures memory { IfErr result (λ error.
            WriteFails self.old ⊎ (error_kind error ≡ ErrorKind.OutOfMemory)) }
        ensures count { IfOk result (λ count. count ≡ take_count self.old (length buf.now)) }
        ensures same { self.new ≡ record self.old {
          taken = self.new.taken;
          calls = one_more self.old.calls;
        } }
    {
        self.calls = self.calls.saturating_add(1);
        if self.calls == self.fails_at {
            return Err(io::Error::from(ErrorKind::Other));
        }
        if self.calls == self.full_at {
            return Ok(0);
        }
        let count = buf.len().min(self.piece);
        if self.taken.extend_from_slice(&buf[..count]).is_err() {
            return Err(io::Error::from(ErrorKind::OutOfMemory));
        }
        Ok(count)
    }

    /// Does nothing.
    fn flush(&mut self) -> io::Result<()>
        ensures bytes { Keeps (Some (taken_by self.old)) (Some (taken_by self.new)) }
        ensures ok { IsOk result }
        ensures same { self.new ≡ self.old }
    {
        Ok(())
    }
}
