ghost use Rattle.std.specs.Prelude.{◌≡◌};

use std::cell::Cell;
use std::io;
use std::io::{ErrorKind, Read, Write};

/// A reader that gives at most forty bytes at a time and fails at one of its calls; later calls give what is left. Each
/// call is interrupted once before.
#[derive(Drop)]
pub struct Reader<'a> {
    left: &'a [u8],
    calls: u32,
    fails: u32,
}

impl<'a> Reader<'a> {
    /// A reader of the bytes that fails at this call.
    pub fn new(left: &'a [u8], fails: u32) -> Reader<'a>
        ensures { result ≡ record { left = left.entry; calls = 0; fails = fails } }
    {
        Reader {
            left,
            calls: 0,
            fails,
        }
    }
}

impl<'a> Read for Reader<'a> {
    fn read(&mut self, buffer: &mut [u8]) -> io::Result<usize> {
        self.calls = self.calls.saturating_add(1);
        if self.calls % 2 == 1 {
            return Err(io::Error::from(ErrorKind::Interrupted));
        }
        if self.calls / 2 == self.fails {
            return Err(io::Error::other("broken"));
        }
        let count = buffer.len().min(40);
        self.left.read(&mut buffer[..count])
    }
}

/// A writer that takes at most forty bytes at a time and fails at one of its calls; later calls take what they are
/// given. It fails too where a byte is not the next of those that are wanted. It counts the bytes that it took.
#[derive(Drop)]
pub struct Writer<'a> {
    wanted: &'a [u8],
    taken: &'a Cell<usize>,
    calls: u32,
    fails: u32,
}

impl<'a> Writer<'a> {
    /// A writer that wants these bytes, and fails at this call.
    pub fn new(wanted: &'a [u8], fails: u32, taken: &'a Cell<usize>) -> Writer<'a>
        ensures { result ≡ record { wanted = wanted.entry; taken = taken.entry; calls = 0; fails = fails } }
    {
        Writer {
            wanted,
            taken,
            calls: 0,
            fails,
        }
    }
}

impl<'a> Write for Writer<'a> {
    fn write(&mut self, bytes: &[u8]) -> io::Result<usize> {
        self.calls = self.calls.saturating_add(1);
        if self.calls == self.fails {
            return Err(io::Error::other("broken"));
        }
        let count = bytes.len().min(40);
        let Some(rest) = self.wanted.strip_prefix(&bytes[..count]) else {
            return Err(io::Error::other("other bytes"));
        };
        self.wanted = rest;
        self.taken.set(self.taken.get().saturating_add(count));
        Ok(count)
    }

    fn flush(&mut self) -> io::Result<()> {
        Ok(())
    }
}

/// A writer that takes what it is given, and fails where what it took before is not flushed. It counts the bytes that
/// it took, and those of them that are not flushed.
#[derive(Drop)]
pub struct Unforgiving<'a> {
    taken: &'a Cell<usize>,
    unflushed: &'a Cell<usize>,
}

impl<'a> Unforgiving<'a> {
    /// A writer that counts here.
    pub fn new(taken: &'a Cell<usize>, unflushed: &'a Cell<usize>) -> Unforgiving<'a>
        ensures { result ≡ record { taken = taken.entry; unflushed = unflushed.entry } }
    {
        Unforgiving { taken, unflushed }
    }
}

impl<'a> Write for Unforgiving<'a> {
    fn write(&mut self, bytes: &[u8]) -> io::Result<usize> {
        if self.unflushed.get() > 0 {
            return Err(io::Error::other("not flushed"));
        }
        self.taken.set(self.taken.get().saturating_add(bytes.len()));
        self.unflushed.set(bytes.len());
        Ok(bytes.len())
    }

    fn flush(&mut self) -> io::Result<()> {
        self.unflushed.set(0);
        Ok(())
    }
}

/// A writer that takes what it is given, and fails at each flush.
#[derive(Drop)]
pub struct Unflushable;

impl Write for Unflushable {
    fn write(&mut self, bytes: &[u8]) -> io::Result<usize> {
        Ok(bytes.len())
    }

    fn flush(&mut self) -> io::Result<()> {
        Err(io::Error::other("broken"))
    }
}
