ghost use Rattle.std.specs.Prelude.{◌≡◌, ◌<◌, ◌≤◌, Ok, IfOk, OnOk, OnErr, length, take};
ghost use Rattle.std.specs.Io.KnownBytes.{Consumes, IsAtEnd, Keeps};
ghost use Rattle.book_keeper.specs.Faults.{HasCause, next_count};

use crate::interrupted::{TRIES, is_interrupted};
use crate::{Failed, Source};
use std::io::Read;

/// A source over a reader of std, such as a file or standard input. It reports what its reader reports: the bytes that
/// are left where the reader is one over memory, and nothing of what a file, a terminal or a pipe holds.
#[derive(Drop)]
pub struct FileSource<R> {
    reader: R,
    faults: u64,
}

impl<R: Read> FileSource<R> {
    /// A source of what the reader gives, with no fault yet.
    pub fn new(reader: R) -> FileSource<R>
        ensures { result ≡ record { reader = reader; faults = 0 } }
    {
        FileSource { reader, faults: 0 }
    }
}

impl<R: Read> Source for FileSource<R> {
    ghost left = { λ source. R.remaining source.reader };

    ghost faults = { λ source. source.faults };

    /// Reads once, and again only where that was interrupted: up to 1,000,000 times in all. Failed, and one fault
    /// counted, where the reader answers another error or is interrupted each time.
    fn read(&mut self, buffer: &mut [u8]) -> Result<usize, Failed>
        ensures within { IfOk result (λ count. count ≤ length buffer.old) }
        ensures taken { IfOk result (λ count.
            Consumes (R.remaining self.old.reader) (R.remaining self.new.reader) (take count buffer.new)) }
        ensures end { result ≡ Ok 0 → 0 < length buffer.old → IsAtEnd (R.remaining self.new.reader) }
        ensures unchanged { OnErr result (Keeps (R.remaining self.old.reader) (R.remaining self.new.reader)) }
        ensures read { OnOk result (self.new.faults ≡ self.old.faults) }
        ensures failed { OnErr result (self.new.faults ≡ next_count self.old.faults) }
        ensures cause { HasCause self.old.faults self.new.faults result }
    {
        if let Ok(count) = read_some(&mut self.reader, buffer) {
            return Ok(count);
        }
        self.faults = self.faults.saturating_add(1);
        Err(Failed)
    }
}

/// Reads into the front of the buffer, again where that was interrupted, and says how many bytes.
fn read_some<R: Read>(reader: &mut R, buffer: &mut [u8]) -> Result<usize, Failed>
    ensures within { IfOk result (λ count. count ≤ length buffer.old) }
    ensures taken { IfOk result (λ count.
        Consumes (R.remaining reader.old) (R.remaining reader.new) (take count buffer.new)) }
    ensures end { result ≡ Ok 0 → 0 < length buffer.old → IsAtEnd (R.remaining reader.new) }
    ensures unchanged { OnErr result (Keeps (R.remaining reader.old) (R.remaining reader.new)) }
{
    'tries: for _ in 0..TRIES {
        match reader.read(buffer) {
            Ok(count) => return Ok(count),
            Err(error) if is_interrupted(&error) => {}
            Err(_) => break,
        }
    }
    Err(Failed)
}
