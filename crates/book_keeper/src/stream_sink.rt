ghost use Rattle.std.specs.Prelude.{◌≡◌, ◌<◌, ◌≤◌, [], false, IfOk, OnOk, OnErr, length, take};
ghost use Rattle.std.specs.Io.KnownBytes.{Appends, Keeps};
ghost use Rattle.book_keeper.specs.Faults.{HasCause, next_count};
ghost use Rattle.book_keeper.specs.Stream.{Wrote};
ghost use Rattle.book_keeper.specs.Written.{HasTaken, may_hold};

use crate::interrupted::{TRIES, is_interrupted};
use crate::{Failed, Sink};
use std::io::Write;

/// A sink over a writer of std, such as a file or standard output. It reports what its writer reports: the bytes that
/// a writer into memory holds, and nothing of what a file, a terminal or a pipe took. Each write is flushed: what it
/// says was taken has left. Once a flush has failed it reports nothing, since what was taken may not have left.
#[derive(Drop)]
pub struct StreamSink<W> {
    writer: W,
    faults: u64,
    unflushed: bool,
}

impl<W: Write> StreamSink<W> {
    /// A sink into the writer, with no fault yet.
    pub fn new(writer: W) -> StreamSink<W>
        ensures { result ≡ record { writer = writer; faults = 0; unflushed = false } }
    {
        StreamSink {
            writer,
            faults: 0,
            unflushed: false,
        }
    }

    /// Writes from the front of the bytes and flushes the writer; says how many bytes it took. Where that failed, the
    /// writer holds what it held and then, if it took some before its flush failed, some of the bytes from their front.
    fn write_flushed(&mut self, bytes: &[u8]) -> Result<usize, Failed>
        ensures within { IfOk result (λ count. count ≤ length bytes.now) }
        ensures progress { IfOk result (λ count. 0 < length bytes.now → 0 < count) }
        ensures added { IfOk result (λ count.
            Wrote (may_hold W.contents self.old) (may_hold W.contents self.new) (take count bytes.now)) }
        ensures unchanged { OnErr result (Wrote (may_hold W.contents self.old) (may_hold W.contents self.new) []) }
        ensures held { HasTaken (W.contents self.old.writer) (W.contents self.new.writer) bytes.now }
        ensures faults { self.new.faults ≡ self.old.faults }
        ensures reports { OnOk result (self.new.unflushed ≡ self.old.unflushed) }
    {
        let count = write_some(&mut self.writer, bytes)?;
        if count == 0 && !bytes.is_empty() {
            return Err(Failed);
        }
        if flush(&mut self.writer).is_err() {
            self.unflushed = true;
            return Err(Failed);
        }
        Ok(count)
    }
}

impl<W: Write> Sink for StreamSink<W> {
    ghost written = { may_hold W.contents };

    ghost faults = { λ sink. sink.faults };

    /// Writes and flushes once, each again only where it was interrupted: up to 1,000,000 times in all. Failed, and
    /// one fault counted, where the writer answers another error, is interrupted each time, or takes nothing of a
    /// piece. Also then the writer holds what it held, and nothing behind it but some of the bytes from their front.
    fn write(&mut self, bytes: &[u8]) -> Result<usize, Failed>
        ensures within { IfOk result (λ count. count ≤ length bytes.now) }
        ensures progress { IfOk result (λ count. 0 < length bytes.now → 0 < count) }
        ensures added { IfOk result (λ count.
            Wrote (may_hold W.contents self.old) (may_hold W.contents self.new) (take count bytes.now)) }
        ensures unchanged { OnErr result (Wrote (may_hold W.contents self.old) (may_hold W.contents self.new) []) }
        ensures held { HasTaken (W.contents self.old.writer) (W.contents self.new.writer) bytes.now }
        ensures wrote { OnOk result (self.new.faults ≡ self.old.faults) }
        ensures reports { OnOk result (self.new.unflushed ≡ self.old.unflushed) }
        ensures failed { OnErr result (self.new.faults ≡ next_count self.old.faults) }
        ensures cause { HasCause self.old.faults self.new.faults result }
    {
        if let Ok(count) = self.write_flushed(bytes) {
            return Ok(count);
        }
        self.faults = self.faults.saturating_add(1);
        Err(Failed)
    }
}

/// Writes from the front of the bytes, again where that was interrupted, and says how many it took.
fn write_some<W: Write>(writer: &mut W, bytes: &[u8]) -> Result<usize, Failed>
    ensures within { IfOk result (λ count. count ≤ length bytes.now) }
    ensures added { IfOk result (λ count.
        Appends (W.contents writer.old) (W.contents writer.new) (take count bytes.now)) }
    ensures unchanged { OnErr result (Keeps (W.contents writer.old) (W.contents writer.new)) }
{
    'tries: for _ in 0..TRIES {
        match writer.write(bytes) {
            Ok(count) => return Ok(count),
            Err(error) if is_interrupted(&error) => {}
            Err(_) => break,
        }
    }
    Err(Failed)
}

/// Flushes the writer, again where that was interrupted.
fn flush<W: Write>(writer: &mut W) -> Result<(), Failed>
    ensures { Keeps (W.contents writer.old) (W.contents writer.new) }
{
    'tries: for _ in 0..TRIES {
        match writer.flush() {
            Ok(()) => return Ok(()),
            Err(error) if is_interrupted(&error) => {}
            Err(_) => break,
        }
    }
    Err(Failed)
}
