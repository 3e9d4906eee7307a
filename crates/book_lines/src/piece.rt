ghost use Rattle.std.specs.Prelude.{◌≡◌, ◌∷◌, [], ℕ, List, ◌+◌, ◌^◌, ◌<◌, ◌≤◌, length, OnOk, OnErr, IfErr, Err};
ghost use Rattle.book_keeper.specs.Faults.{HasCause};
ghost use Rattle.book_lines.specs.EndFaults.{TellsFault};
ghost use Rattle.book_lines.specs.Lines.{rest_line};
ghost use Rattle.book_lines.specs.Room.{seen};
ghost use Rattle.book_lines.specs.RunClause.{at};
ghost use Rattle.book_lines.specs.Loop.{HasBroken, HasTaken, HasStopped};

use crate::answer::answer_line;
use crate::line::Line;
use crate::{Machine, RunEnd};
use book_keeper::{Failed, Sink};
use memchr::memchr;
use std::alloc::Global;

/// How many lines a run takes at most.
const MAX_LINES: u64 = 1_000_000;

/// Ends the line in the room: answers it, counts it and begins a new one; Failed where the output failed.
fn end_line<W, K, M: Machine<W, K>, O: Sink>(
    alloc: Global,
    machine: &mut M,
    keeper: &mut K,
    output: &mut O,
    line: &mut Line,
    count: &mut u64,
) -> Result<(), Failed>
    requires stands { M.stands machine.old keeper.old }
    requires open { count.old < 1000000 }
    ensures taken { let before = at machine.old (O.written output.old) (M.faults keeper.old) in
        let after = at machine.new (O.written output.new) (M.faults keeper.new) in
        OnOk result ((begun : List ℕ) → line.old ≡ seen begun
        → HasTaken M.answers begun (10 ∷ []) before after line.new count.old count.new) }
    ensures broken { let before = at machine.old (O.written output.old) (M.faults keeper.old) in
        let after = at machine.new (O.written output.new) (M.faults keeper.new) in
        OnErr result ((begun : List ℕ) → line.old ≡ seen begun
        → HasBroken M.answers before (begun ∷ []) after) }
    ensures cause { HasCause (O.faults output.old) (O.faults output.new) result }
    ensures stands { M.stands machine.new keeper.new }
    ensures follows { M.follows keeper.old keeper.new }
    ensures empty { line.new.size ≡ 0 }
{
    *count += 1;
    let answered = answer_line(alloc, machine, keeper, output, line);
    line.clear();
    answered
}

/// Takes a piece of the input, from line feed to line feed. InputLimit where a byte stands behind the last line that
/// may be taken, OutputFault where the output failed.
pub fn take_piece<W, K, M: Machine<W, K>, O: Sink>(
    alloc: Global,
    machine: &mut M,
    keeper: &mut K,
    output: &mut O,
    line: &mut Line,
    count: &mut u64,
    piece: &[u8],
) -> Result<(), RunEnd>
    requires stands { M.stands machine.old keeper.old }
    requires fits { line.old.size + length piece.now < 2 ^ 64 }
    ensures taken { let before = at machine.old (O.written output.old) (M.faults keeper.old) in
        let after = at machine.new (O.written output.new) (M.faults keeper.new) in
        OnOk result ((begun : List ℕ) → line.old ≡ seen begun
        → count.old + length (rest_line begun) ≤ 1000000
        → HasTaken M.answers begun piece.now before after line.new count.old count.new) }
    ensures stopped { let before = at machine.old (O.written output.old) (M.faults keeper.old) in
        let after = at machine.new (O.written output.new) (M.faults keeper.new) in
        IfErr result (λ end. (begun : List ℕ) → line.old ≡ seen begun
        → count.old + length (rest_line begun) ≤ 1000000
        → HasStopped M.answers begun piece.now before after count.old end) }
    ensures output_faults { TellsFault (Err RunEnd.OutputFault) result (O.faults output.old) (O.faults output.new) }
    ensures stands { M.stands machine.new keeper.new }
    ensures follows { M.follows keeper.old keeper.new }
{
    let mut rest = piece;
    'lines: while !rest.is_empty() {
        if *count >= MAX_LINES {
            return Err(RunEnd::InputLimit);
        }
        let Some(end) = memchr(b'\n', rest) else {
            line.extend(rest);
            return Ok(());
        };
        line.extend(&rest[..end]);
        match end_line(alloc, machine, keeper, output, line, count) {
            Ok(()) => rest = &rest[end + 1..],
            Err(Failed) => return Err(RunEnd::OutputFault),
        }
    }
    Ok(())
}
