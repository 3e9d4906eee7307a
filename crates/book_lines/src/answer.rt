ghost use Rattle.std.specs.Prelude.{◌≡◌, ◌∷◌, [], ℕ, List, ◌++◌, OnOk, OnErr};
ghost use Rattle.book_keeper.specs.Faults.{HasCause};
ghost use Rattle.book_keeper.specs.Stream.{Wrote, WrotePart};
ghost use Rattle.book_lines.specs.Room.{seen};
ghost use Rattle.book_lines.specs.RunClause.{at};
ghost use Rattle.book_lines.specs.Loop.{answer_of, GaveAnswer, HasAnswered, HasBroken};

use crate::line::{Line, MAX_LINE};
use crate::{Machine, Unanswered};
use book_commodity::{Bytes, OutOfMemory};
use book_keeper::{Failed, Sink, write_all};
use std::alloc::Global;

/// Has the machine answer the line, by its length alone where it is too long.
pub fn ask<W, K, M: Machine<W, K>>(
    alloc: Global,
    machine: &mut M,
    keeper: &mut K,
    line: &Line,
) -> Result<Bytes, Unanswered>
    requires { M.stands machine.old keeper.old }
    ensures gave { (this : List ℕ) → line.now ≡ seen this
        → GaveAnswer M.answers machine.old this (answer_of result) machine.new
        (M.faults keeper.old) (M.faults keeper.new) }
    ensures stands { M.stands machine.new keeper.new }
    ensures follows { M.follows keeper.old keeper.new }
{
    if line.size() <= MAX_LINE as u64 {
        return machine.answer(alloc, keeper, line.bytes());
    }
    match machine.too_long(alloc, line.size()) {
        Ok(text) => Ok(text),
        Err(OutOfMemory) => Err(Unanswered::Memory),
    }
}

/// Writes a text and a line feed behind it.
fn write_line<O: Sink>(output: &mut O, text: &[u8]) -> Result<(), Failed>
    ensures all { OnOk result (Wrote (O.written output.old) (O.written output.new) (text.now ++ 10 ∷ [])) }
    ensures part { OnErr result (WrotePart (O.written output.old) (O.written output.new) (text.now ++ 10 ∷ [])) }
    ensures cause { HasCause (O.faults output.old) (O.faults output.new) result }
{
    write_all(output, text)?;
    write_all(output, b"\n")
}

/// Writes an answer and a line feed behind it, in one write where there is memory for the line feed.
fn write_text<O: Sink>(output: &mut O, answer: Bytes) -> Result<(), Failed>
    ensures all { OnOk result (Wrote (O.written output.old) (O.written output.new) (answer ++ 10 ∷ [])) }
    ensures part { OnErr result (WrotePart (O.written output.old) (O.written output.new) (answer ++ 10 ∷ [])) }
    ensures cause { HasCause (O.faults output.old) (O.faults output.new) result }
{
    let mut text = answer.into_vec();
    if text.push(b'\n').is_ok() {
        write_all(output, text.as_slice())
    } else {
        write_line(output, text.as_slice())
    }
}

/// Writes the answer to a line, or why there is none.
pub fn write_answer<O: Sink>(
    output: &mut O,
    answered: Result<Bytes, Unanswered>,
) -> Result<(), Failed>
    ensures all { OnOk result (Wrote (O.written output.old) (O.written output.new) (answer_of answered ++ 10 ∷ [])) }
    ensures part { OnErr result
        (WrotePart (O.written output.old) (O.written output.new) (answer_of answered ++ 10 ∷ [])) }
    ensures cause { HasCause (O.faults output.old) (O.faults output.new) result }
{
    match answered {
        Ok(answer) => write_text(output, answer),
        Err(unanswered) => write_line(output, unanswered.text()),
    }
}

/// Answers the line in the room unless it is blank; Failed where the output failed.
pub fn answer_line<W, K, M: Machine<W, K>, O: Sink>(
    alloc: Global,
    machine: &mut M,
    keeper: &mut K,
    output: &mut O,
    line: &Line,
) -> Result<(), Failed>
    requires { M.stands machine.old keeper.old }
    ensures answered { let before = at machine.old (O.written output.old) (M.faults keeper.old) in
        let after = at machine.new (O.written output.new) (M.faults keeper.new) in
        OnOk result ((this : List ℕ) → line.now ≡ seen this
        → HasAnswered M.answers before (this ∷ []) after) }
    ensures broken { let before = at machine.old (O.written output.old) (M.faults keeper.old) in
        let after = at machine.new (O.written output.new) (M.faults keeper.new) in
        OnErr result ((this : List ℕ) → line.now ≡ seen this
        → HasBroken M.answers before (this ∷ []) after) }
    ensures cause { HasCause (O.faults output.old) (O.faults output.new) result }
    ensures stands { M.stands machine.new keeper.new }
    ensures follows { M.follows keeper.old keeper.new }
{
    if line.is_blank() {
        return Ok(());
    }
    let answered = ask(alloc, machine, keeper, line);
    write_answer(output, answered)
}
