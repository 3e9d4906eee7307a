ghost use Rattle.std.specs.Prelude.{◌≡◌, ◌-◌, ◌≤◌, ◌++◌, ◌<◌, [], IfOk, IsOk, OnErr, length, take};
ghost use Rattle.book_keeper.specs.Faults.{HasCause};
ghost use Rattle.book_keeper.specs.Stream.{Wrote};
ghost use Rattle.book_complete.specs.NoFail.{may_be_given};

use book_commodity::OutOfMemory;
use book_keeper::{Failed, Sink};
use std::alloc::Global;
use std::marker::Model;

/// A sink into memory with room for `ROOM` bytes, which never fails: it keeps the first bytes that it is given, as many
/// as it has room for, and drops those behind them.
#[derive(Drop)]
pub struct NoFailSink<const ROOM: usize> {
    bytes: Vec<u8>,
}

impl<const ROOM: usize> Model for NoFailSink<ROOM> {
    ghost use Rattle.std.specs.Prelude.{ℕ, ◌≤◌, List, vec_len, vec_capacity};

    ghost Value = { List ℕ };

    ghost view = { λ s. s.bytes.items };

    ghost invariant = { λ s. (vec_len s.bytes ≤ ROOM) × (ROOM ≤ vec_capacity s.bytes) };
}

impl<const ROOM: usize> NoFailSink<ROOM> {
    /// A sink that was given nothing yet. Only this call takes memory: OutOfMemory where there is not enough.
    pub fn new(alloc: Global) -> Result<NoFailSink<ROOM>, OutOfMemory>
        ensures { IfOk result (λ sink. sink ≡ []) }
    {
        let bytes = Vec::with_capacity(alloc, ROOM)?;
        Ok(NoFailSink { bytes })
    }

    /// The bytes that it has kept.
    pub fn kept(&self) -> &[u8]
        ensures kept { result.now ≡ self.now }
        ensures fits { length self.now ≤ ROOM }
    {
        self.bytes.as_slice()
    }
}

impl<const ROOM: usize> Sink for NoFailSink<ROOM> {
    ghost written = { λ sink bytes. may_be_given ROOM sink bytes };

    ghost faults = { λ sink. 0 };

    /// Takes the whole piece, and keeps as much of it as it has room for.
    fn write(&mut self, bytes: &[u8]) -> Result<usize, Failed>
        ensures ok { IsOk result }
        ensures count { IfOk result (λ count. count ≡ length bytes.now) }
        ensures within { IfOk result (λ count. count ≤ length bytes.now) }
        ensures progress { IfOk result (λ count. 0 < length bytes.now → 0 < count) }
        ensures kept { self.new ≡ self.old ++ take (ROOM - length self.old) bytes.now }
        ensures added { IfOk result (λ count.
            Wrote (may_be_given ROOM self.old) (may_be_given ROOM self.new) (take count bytes.now)) }
        ensures unchanged { OnErr result (Wrote (may_be_given ROOM self.old) (may_be_given ROOM self.new) []) }
        ensures cause { HasCause 0 0 result }
    {
        let count = bytes.len().min(ROOM - self.bytes.len());
        let Ok(()) = self.bytes.extend_from_slice(&bytes[..count]) else {
            unreachable!();
        };
        Ok(bytes.len())
    }
}
