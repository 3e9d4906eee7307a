ghost use Rattle.std.specs.Prelude.{◌≡◌, ◌↔◌, ◌<◌, ◌≤◌, ◌++◌, [], Some, IfOk, OnErr, IsErr, length, min, take, drop};
ghost use Rattle.book_keeper.specs.Calls.{FailsNext};
ghost use Rattle.book_keeper.specs.Faults.{HasCause};
ghost use Rattle.book_keeper.specs.SourceInMemory.{after_read, after_failed_read};

use crate::calls::Calls;
use crate::{Failed, Source};
use book_commodity::{Bytes, Many};
use std::marker::Model;

/// A source over bytes in memory, which gives them in pieces and fails at chosen calls.
#[derive(Drop)]
pub struct MemSource {
    bytes: Bytes,
    position: usize,
    piece: usize,
    calls: Calls,
    faults: u64,
}

impl Model for MemSource {
    ghost use Rattle.std.specs.Prelude.{◌<◌, ◌≤◌, length, drop};
    ghost use Rattle.book_keeper.specs.SourceInMemory.{SourceInMemory};

    ghost Value = { SourceInMemory };

    ghost view = { λ s. record {
      left = drop s.position s.bytes;
      piece = s.piece;
      fail = s.calls.fail;
      calls = s.calls.made;
      faults = s.faults;
    } };

    ghost invariant = { λ s. (s.position ≤ length s.bytes) × (0 < s.piece) };
}

impl MemSource {
    /// A source of these bytes, which gives at most `piece` of them in a call. The calls whose numbers,
    /// counted from 1, stand in `fail` are to fail, and no others.
    pub fn new(bytes: Bytes, piece: usize, fail: Many<u64>) -> MemSource
        requires { 0 < piece }
        ensures { result ≡ record { left = bytes; piece = piece; fail = fail; calls = 0; faults = 0 } }
    {
        MemSource {
            bytes,
            position: 0,
            piece,
            calls: Calls::new(fail),
            faults: 0,
        }
    }
}

impl Source for MemSource {
    ghost left = { λ source. Some source.left };

    ghost faults = { λ source. source.faults };

    /// Fails exactly at the calls that are to fail; else gives as many of the bytes left as the piece and the
    /// buffer allow.
    fn read(&mut self, buffer: &mut [u8]) -> Result<usize, Failed>
        ensures fails { IsErr result ↔ FailsNext self.old.fail self.old.calls }
        ensures count { IfOk result (λ count.
            count ≡ min (min (length self.old.left) self.old.piece) (length buffer.old)) }
        ensures bytes { IfOk result (λ count. buffer.new ≡ take count self.old.left ++ drop count buffer.old) }
        ensures read { IfOk result (λ count. self.new ≡ after_read self.old count) }
        ensures failed { OnErr result (self.new ≡ after_failed_read self.old) }
        ensures buffer_kept { OnErr result (buffer.new ≡ buffer.old) }
        ensures end { result ≡ Ok 0 → 0 < length buffer.old → self.new.left ≡ [] }
        ensures cause { HasCause self.old.faults self.new.faults result }
    {
        if self.calls.begin() {
            self.faults = self.faults.saturating_add(1);
            return Err(Failed);
        }
        let left = &self.bytes.as_slice()[self.position..];
        let count = left.len().min(self.piece).min(buffer.len());
        fill_front(buffer, &left[..count]);
        self.position += count;
        Ok(count)
    }
}

/// Copies the bytes to the front of the buffer.
fn fill_front(buffer: &mut [u8], bytes: &[u8])
    requires { length bytes.now ≤ length buffer.old }
    ensures { buffer.new ≡ bytes.now ++ drop (length bytes.now) buffer.old }
{
    buffer[..bytes.len()].copy_from_slice(bytes);
}
