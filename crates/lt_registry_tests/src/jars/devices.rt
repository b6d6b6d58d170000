//! Devices pass on what a reader or a writer answers, call by call, and count the calls that fail.
use lt_jar::{Device, Pieces, Takes};
use std::io::{self, ErrorKind, Read, Write};
use std::test::Fail;

/// A reader and a writer that fails in its first two calls, and then gives or takes one byte in each. It keeps how
/// often it was called, and the longest slice that it was handed.
#[derive(Drop)]
struct FailsTwice {
    calls: u64,
    longest: usize,
}

impl FailsTwice {
    fn new() -> FailsTwice {
        FailsTwice {
            calls: 0,
            longest: 0,
        }
    }

    /// One byte of a slice of this many, but in the first two calls.
    fn answer(&mut self, room: usize) -> io::Result<usize>
        ensures { IfOk result (λ count. count ≤ room) }
    {
        self.calls = self.calls.saturating_add(1);
        self.longest = self.longest.max(room);
        if self.calls <= 2 {
            return Err(io::Error::from(ErrorKind::Interrupted));
        }
        Ok(room.min(1))
    }
}

ghost use Rattle.std.specs.Prelude.{◌≤◌, IfOk};

impl Read for FailsTwice {
    fn read(&mut self, buf: &mut [u8]) -> io::Result<usize> {
        self.answer(buf.len())
    }
}

impl Write for FailsTwice {
    fn write(&mut self, buf: &[u8]) -> io::Result<usize> {
        self.answer(buf.len())
    }

    fn flush(&mut self) -> io::Result<()> {
        match self.answer(0) {
            Ok(_) => Ok(()),
            Err(error) => Err(error),
        }
    }
}

/// How many bytes a call moved, or none if it was interrupted; and how many calls of its device failed.
fn told(answer: io::Result<usize>, failures: u64) -> (Option<usize>, u64) {
    match answer {
        Ok(count) => (Some(count), failures),
        Err(error) if error.kind() == ErrorKind::Interrupted => (None, failures),
        Err(_) => (None, u64::MAX),
    }
}

/// What a read of a device tells.
fn read<R: Read>(device: &mut Device<R>, buf: &mut [u8]) -> (Option<usize>, u64) {
    let answer = device.read(buf);
    told(answer, device.failures())
}

/// What a write to a device tells.
fn written<W: Write>(device: &mut Device<W>, bytes: &[u8]) -> (Option<usize>, u64) {
    let answer = device.write(bytes);
    told(answer, device.failures())
}

/// What a flush of a device tells, which moves no byte.
fn flushed<W: Write>(device: &mut Device<W>) -> (Option<usize>, u64) {
    let answer = match device.flush() {
        Ok(()) => Ok(0),
        Err(error) => Err(error),
    };
    told(answer, device.failures())
}

#[test]
fn reads_that_fail(rt: HostRuntime) {
    let mut reader = FailsTwice::new();
    {
        let mut device = Device::new(&mut reader);
        let mut buf = [0u8; 8];
        assert!(rt; read(&mut device, &mut buf) == (None, 1));
        assert!(rt; read(&mut device, &mut buf) == (None, 2));
        assert!(rt; read(&mut device, &mut buf) == (Some(1), 2));
    }
    assert!(rt; reader.calls == 3 && reader.longest == 8);
}

#[test]
fn writes_that_fail(rt: HostRuntime) {
    let mut writer = FailsTwice::new();
    {
        let mut device = Device::new(&mut writer);
        assert!(rt; written(&mut device, b"abc") == (None, 1));
        assert!(rt; written(&mut device, b"a") == (None, 2));
        assert!(rt; written(&mut device, b"abc") == (Some(1), 2));
    }
    assert!(rt; writer.calls == 3 && writer.longest == 3);
}

/// A flush that fails is told, and not counted.
#[test]
fn flushes_that_fail(rt: HostRuntime) {
    let mut writer = FailsTwice::new();
    {
        let mut device = Device::new(&mut writer);
        assert!(rt; flushed(&mut device) == (None, 0));
        assert!(rt; flushed(&mut device) == (None, 0));
        assert!(rt; flushed(&mut device) == (Some(0), 0));
    }
    assert!(rt; writer.calls == 3);
}

/// A read asks for as many bytes as the slice has room for.
#[test]
fn a_whole_slice_is_read(rt: HostRuntime) {
    let mut device = Device::new(Pieces::once(b"abcdefgh", 5));
    let mut buf = [0u8; 8];
    assert!(rt; read(&mut device, &mut buf) == (Some(5), 0));
    assert!(rt; buf == [b'a', b'b', b'c', b'd', b'e', 0, 0, 0]);
    assert!(rt; read(&mut device, &mut buf) == (Some(3), 0));
    assert!(rt; read(&mut device, &mut buf) == (Some(0), 0));
}

/// A write that takes none of some bytes is passed on as that, and counted; one of no bytes is not.
#[test]
fn none_taken_is_no_error(rt: HostRuntime) -> Result<(), Fail> {
    let mut takes = Takes::new(rt.alloc(), 4);
    takes.take_none_at(3);
    takes.fail_at(4);
    {
        let mut device = Device::new(&mut takes);
        assert!(rt; written(&mut device, b"") == (Some(0), 0));
        assert!(rt; written(&mut device, b"abcdef") == (Some(4), 0));
        assert!(rt; written(&mut device, b"ef") == (Some(0), 1));
        assert!(rt; device.write(b"ef").is_err() && device.failures() == 2);
        assert!(rt; written(&mut device, b"ef") == (Some(2), 2));
        assert!(rt; flushed(&mut device) == (Some(0), 2));
    }
    assert!(rt; takes.taken() == b"abcdef".as_slice());
    Ok(())
}
