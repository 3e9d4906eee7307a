ghost use Rattle.std.specs.Prelude.{◌≡◌, ◌↔◌, ◌<◌, ◌++◌, [], Ok, Some, IfOk, OnErr, IsErr, length, min, take, drop};
ghost use Rattle.book_keeper.specs.Calls.{FailsNext};
ghost use Rattle.book_keeper.specs.Faults.{HasCause};
ghost use Rattle.book_keeper.specs.SinkInMemory.{Refuses, after_write, after_failed_write};
ghost use Rattle.book_keeper.specs.SourceInMemory.{after_read, after_failed_read};

use crate::Link;
use book_keeper::{Failed, MemSink, MemSource, Sink, Source};

/// A link in memory: it gives what a source in memory gives, and a sink in memory takes what it is given.
#[derive(Drop)]
pub struct MemLink {
    source: MemSource,
    sink: MemSink,
}

impl MemLink {
    /// A link that reads from the source and writes to the sink.
    pub fn new(source: MemSource, sink: MemSink) -> MemLink
        ensures { result ≡ record { source = source; sink = sink } }
    {
        MemLink { source, sink }
    }

    /// The bytes that it was given.
    pub fn written(&self) -> &[u8]
        ensures { result.now ≡ self.now.sink.written }
    {
        self.sink.written()
    }
}

impl Source for MemLink {
    ghost left = { λ link. Some link.source.left };

    ghost faults = { λ link. link.source.faults };

    /// Reads as the source does; the sink stays.
    fn read(&mut self, buffer: &mut [u8]) -> Result<usize, Failed>
        ensures fails { IsErr result ↔ FailsNext self.old.source.fail self.old.source.calls }
        ensures count { IfOk result (λ count.
            count ≡ min (min (length self.old.source.left) self.old.source.piece) (length buffer.old)) }
        ensures bytes { IfOk result (λ count. buffer.new ≡ take count self.old.source.left ++ drop count buffer.old) }
        ensures read { IfOk result (λ count. self.new ≡ record self.old { source = after_read self.old.source count }) }
        ensures failed { OnErr result (self.new ≡ record self.old { source = after_failed_read self.old.source }) }
        ensures buffer_kept { OnErr result (buffer.new ≡ buffer.old) }
        ensures end { result ≡ Ok 0 → 0 < length buffer.old → self.new.source.left ≡ [] }
        ensures cause { HasCause self.old.source.faults self.new.source.faults result }
    {
        self.source.read(buffer)
    }
}

impl Sink for MemLink {
    ghost written = { λ link bytes. link.sink.written ≡ bytes };

    ghost faults = { λ link. link.sink.faults };

    /// Writes as the sink does; the source stays.
    fn write(&mut self, bytes: &[u8]) -> Result<usize, Failed>
        ensures fails { IsErr result ↔ Refuses self.old.sink bytes.now }
        ensures count { IfOk result (λ count. count ≡ min (length bytes.now) self.old.sink.room) }
        ensures wrote { IfOk result (λ count.
            self.new ≡ record self.old { sink = after_write self.old.sink bytes.now count }) }
        ensures failed { OnErr result (self.new ≡ record self.old { sink = after_failed_write self.old.sink }) }
        ensures cause { HasCause self.old.sink.faults self.new.sink.faults result }
    {
        self.sink.write(bytes)
    }
}

impl Link for MemLink {
    ghost use Rattle.std.specs.Prelude.{refl};

    type Input = MemSource;

    type Output = MemSink;

    ghost read_side = { λ link. link.source };

    ghost write_side = { λ link. link.sink };

    ghost reads = { λ _. refl };

    ghost writes = { λ _ _ _ wrote. wrote };

    ghost read_faults = { λ _. refl };

    ghost write_faults = { λ _. refl };

    fn part(self) -> (MemSource, MemSink) {
        (self.source, self.sink)
    }

    fn join(input: MemSource, output: MemSink) -> MemLink {
        MemLink::new(input, output)
    }
}
