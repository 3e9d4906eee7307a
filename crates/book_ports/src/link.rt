ghost use Rattle.std.specs.Prelude.{◌≡◌, ℕ, List};
ghost use Rattle.std.specs.Io.KnownBytes.{Keeps};
ghost use Rattle.book_keeper.specs.Stream.{Wrote};

use book_keeper::{Sink, Source};

/// A connection: bytes come from its other end, and bytes go to it. It counts the reads that failed and the writes
/// that failed, each by itself. It can be parted into its two sides, since a read of one leaves the other as it is.
pub trait Link: Source + Sink + Sized {
    type Input: Source;

    type Output: Sink;

    /// The side that is read.
    ghost read_side: { Self → Self.Input };

    /// The side that is written.
    ghost write_side: { Self → Self.Output };

    /// The two sides of the link.
    fn part(self) -> (Self::Input, Self::Output)
        ensures input { result.0 ≡ read_side self }
        ensures output { result.1 ≡ write_side self };

    /// The link of two sides.
    fn join(input: Self::Input, output: Self::Output) -> Self
        ensures input { read_side result ≡ input }
        ensures output { write_side result ≡ output };

    /// What the link reports as still to come, the side that is read reports too.
    ghost reads: { (link : Self) → Keeps (Self.Source.left link) (Self.Input.left (read_side link)) };

    /// What the side that is written was given, the link was given.
    ghost writes: { (old new : Self) (bytes : List ℕ)
        → Wrote (Self.Output.written (write_side old)) (Self.Output.written (write_side new)) bytes
        → Wrote (Self.Sink.written old) (Self.Sink.written new) bytes };

    /// The reads that failed are those of the side that is read.
    ghost read_faults: { (link : Self) → Self.Source.faults link ≡ Self.Input.faults (read_side link) };

    /// The writes that failed are those of the side that is written.
    ghost write_faults: { (link : Self) → Self.Sink.faults link ≡ Self.Output.faults (write_side link) };
}
