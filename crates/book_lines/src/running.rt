ghost use Rattle.std.specs.Prelude.{◌≡◌, ◌∷◌, [], ℕ, List, ◌+◌, ◌^◌, ◌<◌, ◌≤◌, take, Ok, IfOk, OnErr};
ghost use Rattle.book_keeper.specs.Faults.{HasCause};
ghost use Rattle.std.specs.Io.KnownBytes.{Consumes, IsAtEnd, Keeps};
ghost use Rattle.book_lines.specs.EndFaults.{TellsFault};
ghost use Rattle.book_lines.specs.Lines.{rest_line};
ghost use Rattle.book_lines.specs.Room.{seen};
ghost use Rattle.book_lines.specs.RunClause.{at, IsRun};
ghost use Rattle.book_lines.specs.Loop.{HasEnded};

use crate::answer::answer_line;
use crate::line::Line;
use crate::piece::take_piece;
use crate::reading::read_at_most;
use crate::room::PIECE;
use crate::{LineRoom, Machine};
use book_keeper::{Failed, Sink, Source};
use std::alloc::Global;

/// How many bytes a run takes at most: 8 GiB.
const MAX_BYTES: u64 = 8_589_934_592;

/// How a run ended: the input was read to its end and all was written; a byte follows all that may be taken; the input
/// failed; the output failed.
#[derive(Clone, Copy, Debug, PartialEq, Eq)]
pub enum RunEnd {
    Done,
    InputLimit,
    InputFault,
    OutputFault,
}

/// Reads the next bytes behind `taken`: at most as many as the limit allows, or one to see whether a byte follows.
fn read_piece<S: Source>(
    input: &mut S,
    taken: u64,
    piece: &mut [u8; PIECE],
) -> Result<usize, Failed>
    requires { taken ≤ 2 ^ 33 }
    ensures within { IfOk result (λ count. count ≤ 65536) }
    ensures limit { IfOk result (λ count. taken < 2 ^ 33 → taken + count ≤ 2 ^ 33) }
    ensures past { IfOk result (λ count. taken + count ≤ 2 ^ 33 + 1) }
    ensures read { IfOk result (λ count. Consumes (S.left input.old) (S.left input.new) (take count piece.new)) }
    ensures end { result ≡ Ok 0 → IsAtEnd (S.left input.new) }
    ensures unchanged { OnErr result (Keeps (S.left input.old) (S.left input.new)) }
    ensures cause { HasCause (S.faults input.old) (S.faults input.new) result }
{
    read_at_most(input, (MAX_BYTES - taken).max(1), piece)
}

/// Answers a rest without line feed at the end of the input: Done, or OutputFault.
fn end_input<W, K, M: Machine<W, K>, O: Sink>(
    alloc: Global,
    machine: &mut M,
    keeper: &mut K,
    output: &mut O,
    line: &Line,
) -> RunEnd
    requires { M.stands machine.old keeper.old }
    ensures ended { let before = at machine.old (O.written output.old) (M.faults keeper.old) in
        let after = at machine.new (O.written output.new) (M.faults keeper.new) in
        (begun : List ℕ) → line.now ≡ seen begun
        → HasEnded M.answers before (rest_line begun) after result }
    ensures output_faults { TellsFault RunEnd.OutputFault result (O.faults output.old) (O.faults output.new) }
    ensures stands { M.stands machine.new keeper.new }
    ensures follows { M.follows keeper.old keeper.new }
{
    if line.size() == 0 {
        return RunEnd::Done;
    }
    match answer_line(alloc, machine, keeper, output, line) {
        Ok(()) => RunEnd::Done,
        Err(Failed) => RunEnd::OutputFault,
    }
}

/// Answers the lines of the input, a piece at a time.
fn run_pieces<W, K, M: Machine<W, K>, S: Source, O: Sink>(
    alloc: Global,
    machine: &mut M,
    keeper: &mut K,
    input: &mut S,
    output: &mut O,
    line: &mut Line,
    piece: &mut [u8; PIECE],
) -> RunEnd
    requires stands { M.stands machine.old keeper.old }
    requires empty { line.old ≡ seen [] }
    ensures run { let before = at machine.old (O.written output.old) (M.faults keeper.old) in
        let after = at machine.new (O.written output.new) (M.faults keeper.new) in
        IsRun M.answers (S.left input.old) (S.left input.new) before after result }
    ensures input_faults { TellsFault RunEnd.InputFault result (S.faults input.old) (S.faults input.new) }
    ensures output_faults { TellsFault RunEnd.OutputFault result (O.faults output.old) (O.faults output.new) }
    ensures stands { M.stands machine.new keeper.new }
    ensures follows { M.follows keeper.old keeper.new }
{
    let mut taken: u64 = 0;
    let mut count: u64 = 0;
    'pieces: loop {
        let read = match read_piece(input, taken, piece) {
            Ok(read) => read,
            Err(Failed) => return RunEnd::InputFault,
        };
        if read == 0 {
            return end_input(alloc, machine, keeper, output, line);
        }
        if taken == MAX_BYTES {
            return RunEnd::InputLimit;
        }
        if let Err(end) = take_piece(
            alloc,
            machine,
            keeper,
            output,
            line,
            &mut count,
            &piece[..read],
        ) {
            return end;
        }
        taken += read as u64;
    }
}

/// Answers the lines of the input on the output, one answer line for each line that is not blank, and says how it
/// ended. A rest without line feed at the end is a line; one at InputLimit, InputFault or OutputFault is not run.
/// At most one byte past 2^33 is read. A run that ends by Done or InputLimit met no fault of the input or the output,
/// and one that ends by a fault of one met none of the other.
pub fn run<W, K, M: Machine<W, K>, S: Source, O: Sink>(
    alloc: Global,
    machine: &mut M,
    keeper: &mut K,
    input: &mut S,
    output: &mut O,
    room: &mut LineRoom,
) -> RunEnd
    requires { M.stands machine.old keeper.old }
    ensures run { let before = at machine.old (O.written output.old) (M.faults keeper.old) in
        let after = at machine.new (O.written output.new) (M.faults keeper.new) in
        IsRun M.answers (S.left input.old) (S.left input.new) before after result }
    ensures input_faults { TellsFault RunEnd.InputFault result (S.faults input.old) (S.faults input.new) }
    ensures output_faults { TellsFault RunEnd.OutputFault result (O.faults output.old) (O.faults output.new) }
    ensures stands { M.stands machine.new keeper.new }
    ensures follows { M.follows keeper.old keeper.new }
{
    room.line.clear();
    run_pieces(
        alloc,
        machine,
        keeper,
        input,
        output,
        &mut room.line,
        &mut room.piece,
    )
}
