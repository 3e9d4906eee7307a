ghost use Rattle.std.specs.Prelude.{ℕ, ◌<◌, ◌≤◌, List, [], IfOk, OnErr, length, take};
ghost use Rattle.book_keeper.specs.Faults.{HasCause};
ghost use Rattle.book_keeper.specs.Stream.{Wrote};

use crate::Failed;

/// Where bytes go to.
pub trait Sink {
    /// The lists of bytes that the sink may have been given: one list where it reports what it was given, none where
    /// it never does, and all where it no longer can.
    ghost written: { Self → List ℕ → Type 0 };

    /// The count of its faults.
    ghost faults: { Self → ℕ };

    /// Takes bytes from the front of the piece and says how many: at least one of a piece that is not empty.
    /// Failed: it took nothing, as far as it reports, and its count of faults rose. A call that succeeds leaves the
    /// count.
    fn write(&mut self, bytes: &[u8]) -> Result<usize, Failed>
        ensures within { IfOk result (λ count. count ≤ length bytes.now) }
        ensures progress { IfOk result (λ count. 0 < length bytes.now → 0 < count) }
        ensures added { IfOk result (λ count. Wrote (written self.old) (written self.new) (take count bytes.now)) }
        ensures unchanged { OnErr result (Wrote (written self.old) (written self.new) []) }
        ensures cause { HasCause (faults self.old) (faults self.new) result };
}
