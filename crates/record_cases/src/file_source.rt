ghost use Rattle.std.specs.Prelude.{◌≤◌, length};

use book_keeper::{Failed, FileSource, Source};
use std::io;
use std::io::{ErrorKind, Read};

/// A reader that is interrupted, gives two bytes, fails, gives one more and is at its end.
#[derive(Drop)]
struct Uneven {
    calls: u32,
}

impl Read for Uneven {
    fn read(&mut self, buffer: &mut [u8]) -> io::Result<usize> {
        self.calls = self.calls.saturating_add(1);
        match self.calls {
            1 => Err(io::Error::new(ErrorKind::Interrupted, "interrupted")),
            2 => Ok(copy_front(buffer, b"ab")),
            3 => Err(io::Error::other("broken")),
            4 => Ok(copy_front(buffer, b"c")),
            _ => Ok(0),
        }
    }
}

fn copy_front(buffer: &mut [u8], bytes: &[u8]) -> usize
    ensures { result ≤ length buffer.old }
{
    let count = bytes.len().min(buffer.len());
    buffer[..count].copy_from_slice(&bytes[..count]);
    count
}

#[test]
fn gives_what_the_reader_gives(rt: HostRuntime) {
    let mut source = FileSource::new(Uneven { calls: 0 });
    let mut buffer = [b'.'; 4];
    let steps = [
        (Ok(2), b"ab.."),
        (Err(Failed), b"ab.."),
        (Ok(1), b"cb.."),
        (Ok(0), b"cb.."),
    ];
    for (answer, after) in steps {
        assert_eq!(rt; source.read(&mut buffer), answer);
        assert_eq!(rt; &buffer, after);
    }
}

/// A reader that is interrupted so many times, and then gives one byte.
#[derive(Drop)]
struct Interrupted {
    left: u32,
}

impl Read for Interrupted {
    fn read(&mut self, buffer: &mut [u8]) -> io::Result<usize> {
        if self.left > 0 {
            self.left -= 1;
            return Err(io::Error::from(ErrorKind::Interrupted));
        }
        Ok(copy_front(buffer, b"a"))
    }
}

#[test]
fn is_interrupted_up_to_a_million_times(rt: HostRuntime) {
    let rows = [
        (999_999, Ok(1), 0),
        (1_000_000, Err(Failed), 0),
        (1_000_001, Err(Failed), 1),
    ];
    for (times, answer, left) in rows {
        let mut reader = Interrupted { left: times };
        assert_eq!(rt; FileSource::new(&mut reader).read(&mut [0; 4]), answer);
        assert_eq!(rt; reader.left, left);
    }
}
