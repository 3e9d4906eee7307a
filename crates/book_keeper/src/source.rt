ghost use Rattle.std.specs.Prelude.{◌≡◌, ℕ, ◌<◌, ◌≤◌, List, Ok, Option, IfOk, OnErr, length, take};
ghost use Rattle.std.specs.Io.KnownBytes.{Consumes, IsAtEnd, Keeps};
ghost use Rattle.book_keeper.specs.Faults.{HasCause};

/// A call on an object of the outside failed; its count of faults rose in that call.
#[derive(Clone, Copy, Debug, PartialEq, Eq)]
pub struct Failed;

/// Where bytes come from.
pub trait Source {
    /// The bytes that are still to come, where the source reports them.
    ghost left: { Self → Option (List ℕ) };

    /// The count of its faults.
    ghost faults: { Self → ℕ };

    /// Reads the next bytes into the front of the buffer and says how many. Where the buffer is not empty,
    /// 0 is the end of the input and comes exactly there, where the source reports what is left.
    /// Failed: nothing was taken, and the count of faults rose; a call that succeeds leaves the count.
    fn read(&mut self, buffer: &mut [u8]) -> Result<usize, Failed>
        ensures within { IfOk result (λ count. count ≤ length buffer.old) }
        ensures taken { IfOk result (λ count. Consumes (left self.old) (left self.new) (take count buffer.new)) }
        ensures end { result ≡ Ok 0 → 0 < length buffer.old → IsAtEnd (left self.new) }
        ensures unchanged { OnErr result (Keeps (left self.old) (left self.new)) }
        ensures cause { HasCause (faults self.old) (faults self.new) result };
}
