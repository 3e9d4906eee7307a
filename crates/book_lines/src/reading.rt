ghost use Rattle.std.specs.Prelude.{◌≡◌, ◌<◌, ◌≤◌, take, Ok, IfOk, OnErr};
ghost use Rattle.book_keeper.specs.Faults.{HasCause};
ghost use Rattle.std.specs.Io.KnownBytes.{Consumes, IsAtEnd, Keeps};

use crate::room::PIECE;
use book_keeper::{Failed, Source};

/// Reads the next bytes of the input into the front of the piece, at most so many, and says how many.
pub fn read_at_most<S: Source>(
    input: &mut S,
    most: u64,
    piece: &mut [u8; PIECE],
) -> Result<usize, Failed>
    requires { 0 < most }
    ensures within { IfOk result (λ count. count ≤ 65536) }
    ensures few { IfOk result (λ count. count ≤ most) }
    ensures read { IfOk result (λ count. Consumes (S.left input.old) (S.left input.new) (take count piece.new)) }
    ensures end { result ≡ Ok 0 → IsAtEnd (S.left input.new) }
    ensures unchanged { OnErr result (Keeps (S.left input.old) (S.left input.new)) }
    ensures cause { HasCause (S.faults input.old) (S.faults input.new) result }
{
    let wanted = most.min(PIECE as u64);
    input.read(&mut piece[..wanted as usize])
}
