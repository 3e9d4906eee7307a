ghost use Rattle.std.specs.Prelude.{◌≡◌, ◌↔◌, [], IfOk, OnErr, IsErr, length, min};
ghost use Rattle.book_keeper.specs.Faults.{HasCause};
ghost use Rattle.book_keeper.specs.SinkInMemory.{Refuses, after_write, after_failed_write};

use crate::calls::Calls;
use crate::{Failed, Sink};
use book_commodity::{Many, OutOfMemory};
use std::alloc::Global;
use std::marker::Model;

/// A sink into memory that was made once, which takes what fits and fails at chosen calls.
#[derive(Drop)]
pub struct MemSink {
    bytes: Vec<u8>,
    room: usize,
    calls: Calls,
    faults: u64,
}

impl Model for MemSink {
    ghost use Rattle.std.specs.Prelude.{◌+◌, ◌≤◌, vec_len, vec_capacity};
    ghost use Rattle.book_keeper.specs.SinkInMemory.{SinkInMemory};

    ghost Value = { SinkInMemory };

    ghost view = { λ s. record {
      written = s.bytes.items;
      room = s.room;
      fail = s.calls.fail;
      calls = s.calls.made;
      faults = s.faults;
    } };

    ghost invariant = { λ s. vec_len s.bytes + s.room ≤ vec_capacity s.bytes };
}

impl MemSink {
    /// A sink with room for so many bytes. The calls whose numbers, counted from 1, stand in `fail` are to
    /// fail; so does one with bytes where no room is left. Only this call takes memory: OutOfMemory where there is
    /// not enough.
    pub fn new(alloc: Global, room: usize, fail: Many<u64>) -> Result<MemSink, OutOfMemory>
        ensures { IfOk result (λ sink.
            sink ≡ record { written = []; room = room; fail = fail; calls = 0; faults = 0 }) }
    {
        let bytes = Vec::with_capacity(alloc, room)?;
        Ok(MemSink {
            bytes,
            room,
            calls: Calls::new(fail),
            faults: 0,
        })
    }

    /// The bytes that it was given.
    pub fn written(&self) -> &[u8]
        ensures { result.now ≡ self.now.written }
    {
        self.bytes.as_slice()
    }
}

impl Sink for MemSink {
    ghost written = { λ sink bytes. sink.written ≡ bytes };

    ghost faults = { λ sink. sink.faults };

    /// Fails exactly at the calls that are to fail and where a piece with bytes meets no room; else takes as
    /// much of the piece as fits.
    fn write(&mut self, bytes: &[u8]) -> Result<usize, Failed>
        ensures fails { IsErr result ↔ Refuses self.old bytes.now }
        ensures count { IfOk result (λ count. count ≡ min (length bytes.now) self.old.room) }
        ensures wrote { IfOk result (λ count. self.new ≡ after_write self.old bytes.now count) }
        ensures failed { OnErr result (self.new ≡ after_failed_write self.old) }
        ensures cause { HasCause self.old.faults self.new.faults result }
    {
        let count = bytes.len().min(self.room);
        if self.calls.begin() || (count == 0 && !bytes.is_empty()) {
            self.faults = self.faults.saturating_add(1);
            return Err(Failed);
        }
        let Ok(()) = self.bytes.extend_from_slice(&bytes[..count]) else {
            unreachable!();
        };
        self.room -= count;
        Ok(count)
    }
}
