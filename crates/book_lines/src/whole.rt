ghost use Rattle.std.specs.Prelude.{◌≡◌, ℕ, List, [], ◌^◌, ◌≤◌, Err, IfErr, OnOk};
ghost use Rattle.std.specs.Io.KnownBytes.{IsAtEnd};
ghost use Rattle.book_lines.specs.EndFaults.{TellsFault};
ghost use Rattle.book_lines.specs.Room.{seen};
ghost use Rattle.book_lines.specs.RunClause.{at};
ghost use Rattle.book_lines.specs.WholeClause.{HasAsked, HasHalted, HasRead, IsWhole};

use crate::answer::{ask, write_answer};
use crate::line::{Line, MAX_LINE};
use crate::reading::read_at_most;
use crate::room::PIECE;
use crate::{LineRoom, Machine, RunEnd};
use book_keeper::{Failed, Sink, Source};
use std::alloc::Global;

/// Reads the input into the line, which is empty before, to the end of the input.
/// InputLimit: the input has more than 8 MiB, of which one byte more was read. InputFault: the input failed.
fn read_whole<S: Source>(
    input: &mut S,
    line: &mut Line,
    piece: &mut [u8; PIECE],
) -> Result<(), RunEnd>
    requires empty { line.old ≡ seen [] }
    ensures read { HasRead (S.left input.old) (S.left input.new) line.new }
    ensures ended { OnOk result (IsAtEnd (S.left input.new)) }
    ensures short { OnOk result (line.new.size ≤ 2 ^ 23) }
    ensures halted { IfErr result (λ end. HasHalted line.new.size end) }
    ensures input_faults { TellsFault (Err RunEnd.InputFault) result (S.faults input.old) (S.faults input.new) }
{
    let mut taken: u64 = 0;
    'pieces: while taken <= MAX_LINE as u64 {
        let read = match read_at_most(input, MAX_LINE as u64 + 1 - taken, piece) {
            Ok(read) => read,
            Err(Failed) => return Err(RunEnd::InputFault),
        };
        if read == 0 {
            return Ok(());
        }
        line.extend(&piece[..read]);
        taken += read as u64;
    }
    Err(RunEnd::InputLimit)
}

/// Answers what stands in the room, whatever it is, and writes the answer: Done, or OutputFault.
fn answer_whole<W, K, M: Machine<W, K>, O: Sink>(
    alloc: Global,
    machine: &mut M,
    keeper: &mut K,
    output: &mut O,
    line: &Line,
) -> RunEnd
    requires { M.stands machine.old keeper.old }
    ensures asked { let before = at machine.old (O.written output.old) (M.faults keeper.old) in
        let after = at machine.new (O.written output.new) (M.faults keeper.new) in
        (bytes : List ℕ) → line.now ≡ seen bytes → HasAsked M.answers before bytes after result }
    ensures output_faults { TellsFault RunEnd.OutputFault result (O.faults output.old) (O.faults output.new) }
    ensures stands { M.stands machine.new keeper.new }
    ensures follows { M.follows keeper.old keeper.new }
{
    let answered = ask(alloc, machine, keeper, line);
    match write_answer(output, answered) {
        Ok(()) => RunEnd::Done,
        Err(Failed) => RunEnd::OutputFault,
    }
}

/// Reads the whole input, of at most 8 MiB, as one line whatever its bytes are, also where there are none, and answers
/// it by one answer line. It says how it ended: InputLimit where the input has more than 8 MiB, of which one byte more
/// was read; InputFault and OutputFault exactly where the input or the output failed. At InputLimit and InputFault the
/// machine was not asked, and nothing was written.
pub fn run_whole<W, K, M: Machine<W, K>, S: Source, O: Sink>(
    alloc: Global,
    machine: &mut M,
    keeper: &mut K,
    input: &mut S,
    output: &mut O,
    room: &mut LineRoom,
) -> RunEnd
    requires { M.stands machine.old keeper.old }
    ensures whole { let before = at machine.old (O.written output.old) (M.faults keeper.old) in
        let after = at machine.new (O.written output.new) (M.faults keeper.new) in
        IsWhole M.answers (S.left input.old) (S.left input.new) before after result }
    ensures limit { result ≡ RunEnd.InputLimit → keeper.new ≡ keeper.old }
    ensures fault { result ≡ RunEnd.InputFault → keeper.new ≡ keeper.old }
    ensures input_faults { TellsFault RunEnd.InputFault result (S.faults input.old) (S.faults input.new) }
    ensures output_faults { TellsFault RunEnd.OutputFault result (O.faults output.old) (O.faults output.new) }
    ensures stands { M.stands machine.new keeper.new }
    ensures follows { M.follows keeper.old keeper.new }
{
    room.line.clear();
    match read_whole(input, &mut room.line, &mut room.piece) {
        Ok(()) => answer_whole(alloc, machine, keeper, output, &room.line),
        Err(end) => end,
    }
}
