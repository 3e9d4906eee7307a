ghost use Rattle.std.specs.Prelude.{◌≡◌, ◌<◌, ◌++◌, [], Some, IfOk, IsOk, length, min, take, drop};
ghost use Rattle.book_keeper.specs.Faults.{HasCause};

use book_commodity::{Bytes, Many};
use book_keeper::{Failed, MemSource, Source};
use std::alloc::Global;
use std::marker::Model;

/// A source over bytes in memory, which gives them in pieces and never fails.
#[derive(Drop)]
pub struct NoFailSource {
    source: MemSource,
}

impl Model for NoFailSource {
    ghost use Rattle.std.specs.Prelude.{◌≡◌, []};
    ghost use Rattle.book_complete.specs.NoFail.{BytesLeft};

    ghost Value = { BytesLeft };

    ghost view = { λ s. record { left = s.source.left; piece = s.source.piece } };

    ghost invariant = { λ s. s.source.fail ≡ [] };
}

impl NoFailSource {
    /// A source of these bytes, which gives at most `piece` of them in a call. It takes no memory.
    pub fn new(alloc: Global, bytes: Bytes, piece: usize) -> NoFailSource
        requires { 0 < piece }
        ensures { result ≡ record { left = bytes; piece = piece } }
    {
        NoFailSource {
            source: MemSource::new(bytes, piece, Many::new(alloc)),
        }
    }
}

impl Source for NoFailSource {
    ghost left = { λ source. Some source.left };

    ghost faults = { λ source. 0 };

    /// Gives as many of the bytes left as the piece and the buffer allow.
    fn read(&mut self, buffer: &mut [u8]) -> Result<usize, Failed>
        ensures ok { IsOk result }
        ensures count { IfOk result (λ count.
            count ≡ min (min (length self.old.left) self.old.piece) (length buffer.old)) }
        ensures bytes { IfOk result (λ count. buffer.new ≡ take count self.old.left ++ drop count buffer.old) }
        ensures read { IfOk result (λ count. self.new ≡ record self.old { left = drop count self.old.left }) }
        ensures end { result ≡ Ok 0 → 0 < length buffer.old → self.new.left ≡ [] }
        ensures cause { HasCause 0 0 result }
    {
        self.source.read(buffer)
    }
}
