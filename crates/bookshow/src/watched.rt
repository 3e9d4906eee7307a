use std::io;
use std::io::{ErrorKind, Write};

/// A writer that keeps in mind whether what reads it has closed it.
#[derive(Drop)]
pub(crate) struct Watched<W> {
    writer: W,
    closed: bool,
}

impl<W: Write> Watched<W> {
    /// The writer, of which nothing is known yet.
    pub(crate) fn new(writer: W) -> Watched<W> {
        Watched {
            writer,
            closed: false,
        }
    }

    /// Whether a call found it closed.
    pub(crate) fn is_closed(&self) -> bool {
        self.closed
    }
}

/// Whether an error says that what reads the writer closed it.
fn says_closed(error: &io::Error) -> bool {
    error.kind() == ErrorKind::BrokenPipe
}

impl<W: Write> Write for Watched<W> {
    ghost contents = { λ watched. W.contents watched.writer };

    fn write(&mut self, bytes: &[u8]) -> io::Result<usize> {
        match self.writer.write(bytes) {
            Ok(count) => Ok(count),
            Err(error) => {
                self.closed = self.closed || says_closed(&error);
                Err(error)
            }
        }
    }

    fn flush(&mut self) -> io::Result<()> {
        match self.writer.flush() {
            Ok(()) => Ok(()),
            Err(error) => {
                self.closed = self.closed || says_closed(&error);
                Err(error)
            }
        }
    }
}
