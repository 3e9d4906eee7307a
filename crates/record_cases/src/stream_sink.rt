use book_keeper::{Failed, Sink, StreamSink};
use std::io;
use std::io::{ErrorKind, Write};
use std::test::Fail;

/// A writer that keeps back what it takes until it is flushed; its calls are interrupted, take two bytes,
/// fail, take none, and from then on take two bytes.
#[derive(Drop)]
struct Uneven {
    calls: u32,
    kept: Vec<u8>,
    flushed: Vec<u8>,
}

impl Write for Uneven {
    fn write(&mut self, bytes: &[u8]) -> io::Result<usize> {
        self.calls = self.calls.saturating_add(1);
        match self.calls {
            1 => return Err(io::Error::new(ErrorKind::Interrupted, "interrupted")),
            3 => return Err(io::Error::other("broken")),
            4 => return Ok(0),
            _ => {}
        }
        let count = bytes.len().min(2);
        self.kept.extend_from_slice(&bytes[..count])?;
        Ok(count)
    }

    fn flush(&mut self) -> io::Result<()> {
        self.flushed.extend_from_slice(self.kept.as_slice())?;
        self.kept.clear();
        Ok(())
    }
}

#[test]
fn hands_on_what_it_says(rt: HostRuntime) -> Result<(), Fail> {
    let mut writer = Uneven {
        calls: 0,
        kept: Vec::new(rt.alloc()),
        flushed: Vec::new(rt.alloc()),
    };
    let steps = [
        (Ok(2), "ab"),
        (Err(Failed), "ab"),
        (Err(Failed), "ab"),
        (Ok(2), "abab"),
    ];
    for (answer, flushed) in steps {
        assert_eq!(rt; StreamSink::new(&mut writer).write(b"abc"), answer);
        assert_eq!(rt; writer.flushed.as_slice(), flushed.as_bytes());
    }
    assert_eq!(rt; StreamSink::new(&mut writer).write(b""), Ok(0));
    Ok(())
}

/// A writer that takes at most 50,000 bytes of a piece and keeps them back until it is flushed. Its writes and its
/// flushes are interrupted so many times first.
#[derive(Drop)]
struct Lazy {
    write: u32,
    flush: u32,
    kept: usize,
    flushed: usize,
}

fn lazy_writer(write: u32, flush: u32) -> Lazy {
    Lazy {
        write,
        flush,
        kept: 0,
        flushed: 0,
    }
}

impl Write for Lazy {
    fn write(&mut self, bytes: &[u8]) -> io::Result<usize> {
        if self.write > 0 {
            self.write -= 1;
            return Err(io::Error::from(ErrorKind::Interrupted));
        }
        let count = bytes.len().min(50_000);
        self.kept = self.kept.saturating_add(count);
        Ok(count)
    }

    fn flush(&mut self) -> io::Result<()> {
        if self.flush > 0 {
            self.flush -= 1;
            return Err(io::Error::from(ErrorKind::Interrupted));
        }
        self.flushed = self.flushed.saturating_add(self.kept);
        self.kept = 0;
        Ok(())
    }
}

#[test]
fn flushes_pieces_of_every_length(rt: HostRuntime) {
    let bytes = [b'a'; 65_536];
    for length in [1, 2, 100, 4_096, 40_000, 50_000, 50_001, 65_536] {
        let mut writer = lazy_writer(0, 0);
        let taken = length.min(50_000);
        assert_eq!(rt;
            StreamSink::new(&mut writer).write(&bytes[..length]),
            Ok(taken),
            "at {length}"
        );
        assert_eq!(rt; writer.flushed, taken, "at {length}");
    }
}

#[test]
fn is_interrupted_up_to_a_million_times(rt: HostRuntime) {
    let rows = [
        (999_999, 999_999, Ok(1), 1),
        (1_000_000, 0, Err(Failed), 0),
        (0, 1_000_000, Err(Failed), 0),
    ];
    for (writes, flushes, answer, flushed) in rows {
        let mut writer = lazy_writer(writes, flushes);
        assert_eq!(rt; StreamSink::new(&mut writer).write(b"a"), answer);
        assert_eq!(rt; writer.flushed, flushed);
    }
}
