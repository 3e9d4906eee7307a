ghost use Rattle.std.specs.Prelude.{◌≡◌, ◌<◌, ◌≤◌, IfOk, OnOk, OnErr, length};
ghost use Rattle.book_keeper.specs.Faults.{HasCause, next_count};
ghost use Rattle.book_ports.specs.OverTcp.{HasNoFault};

use crate::Link;
use book_keeper::{Failed, FileSource, Sink, Source, StreamSink};
use std::io;
use std::net::{OpenStream, Shutdown, TcpStream};
use std::time::Duration;

/// How many bytes are read at a time of a connection that ends.
const PIECE: usize = 16_384;

/// How often such a connection is read at most.
const READS: usize = 1_024;

/// The side of a connection that is read, with a handle to the connection.
#[derive(Drop)]
pub struct TcpInput {
    source: FileSource<TcpStream>,
    stream: TcpStream,
}

/// A connection over TCP. It counts the calls that fail, and reports nothing of the bytes that come and go.
#[derive(Drop)]
pub struct TcpLink {
    input: TcpInput,
    sink: StreamSink<TcpStream>,
}

impl TcpInput {
    /// Reads what still comes, up to 16 MiB. It stops where the other end has ended, or sends nothing for a second.
    fn read_rest(&mut self) {
        let mut piece = [0u8; PIECE];
        for _ in 0..READS {
            match self.source.read(&mut piece) {
                Ok(0) | Err(Failed) => return,
                Ok(_) => {}
            }
        }
    }

    /// Says to the other end that nothing more is written, and has a read wait for a second at most.
    fn end_writing(&self) -> io::Result<()> {
        self.stream.shutdown(Shutdown::Write)?;
        self.stream.set_read_timeout(Some(Duration::from_secs(1)))
    }
}

impl TcpLink {
    /// The link over a connection, with no fault yet. An error where std gives no more handles to it: one is to read
    /// from, one to write to, and one to end it by.
    pub(crate) fn over(stream: TcpStream) -> io::Result<TcpLink>
        ensures { IfOk result HasNoFault }
    {
        stream.set_nodelay(true)?;
        let reader = stream.try_clone()?;
        let writer = stream.try_clone()?;
        Ok(TcpLink {
            input: TcpInput {
                source: FileSource::new(reader),
                stream,
            },
            sink: StreamSink::new(writer),
        })
    }

    /// Ends the connection. What the other end still sends is read first, since the system would else reset the
    /// connection, and the other end could lose the last response.
    pub(crate) fn end(self) {
        let TcpLink { mut input, sink } = self;
        if input.end_writing().is_ok() {
            input.read_rest();
        }
        drop(sink);
        drop(input);
    }
}

impl Source for TcpInput {
    ghost use Rattle.std.specs.Prelude.{None};

    ghost left = { λ _. None };

    ghost faults = { λ input. input.source.faults };

    /// Reads as a `FileSource` does.
    fn read(&mut self, buffer: &mut [u8]) -> Result<usize, Failed>
        ensures within { IfOk result (λ count. count ≤ length buffer.old) }
        ensures failed { OnErr result (self.new.source.faults ≡ next_count self.old.source.faults) }
        ensures cause { HasCause self.old.source.faults self.new.source.faults result }
    {
        self.source.read(buffer)
    }
}

impl Source for TcpLink {
    ghost use Rattle.std.specs.Prelude.{None};

    ghost left = { λ _. None };

    ghost faults = { λ link. link.input.source.faults };

    /// Reads as a `FileSource` does.
    fn read(&mut self, buffer: &mut [u8]) -> Result<usize, Failed>
        ensures within { IfOk result (λ count. count ≤ length buffer.old) }
        ensures sink { self.new.sink ≡ self.old.sink }
        ensures failed { OnErr result (self.new.input.source.faults ≡ next_count self.old.input.source.faults) }
        ensures cause { HasCause self.old.input.source.faults self.new.input.source.faults result }
    {
        self.input.read(buffer)
    }
}

impl Sink for TcpLink {
    ghost written = { λ _ _. ⊥ };

    ghost faults = { λ link. link.sink.faults };

    /// Writes as a `StreamSink` does.
    fn write(&mut self, bytes: &[u8]) -> Result<usize, Failed>
        ensures within { IfOk result (λ count. count ≤ length bytes.now) }
        ensures progress { IfOk result (λ count. 0 < length bytes.now → 0 < count) }
        ensures input { self.new.input ≡ self.old.input }
        ensures failed { OnErr result (self.new.sink.faults ≡ next_count self.old.sink.faults) }
        ensures cause { HasCause self.old.sink.faults self.new.sink.faults result }
    {
        self.sink.write(bytes)
    }
}

impl Link for TcpLink {
    ghost use Rattle.std.specs.Prelude.{refl};

    type Input = TcpInput;

    type Output = StreamSink<TcpStream>;

    ghost read_side = { λ link. link.input };

    ghost write_side = { λ link. link.sink };

    ghost reads = { λ _. tt };

    ghost writes = { λ _ _ _ _. record { each = λ _ none. absurd none } };

    ghost read_faults = { λ _. refl };

    ghost write_faults = { λ _. refl };

    fn part(self) -> (TcpInput, StreamSink<TcpStream>) {
        (self.input, self.sink)
    }

    fn join(input: TcpInput, output: StreamSink<TcpStream>) -> TcpLink {
        TcpLink {
            input,
            sink: output,
        }
    }
}
