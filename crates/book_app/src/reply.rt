ghost use Rattle.std.specs.Prelude.{◌≡◌, ℕ, ◌^◌, ◌<◌, ◌≤◌, Ok, Err, List, length, IfOk, IfErr, OnOk, OnErr, IsTrue};
ghost use Rattle.book_keeper.specs.Faults.{Rose};
ghost use Rattle.book_lines.specs.Marks.{Answered, Memory, Keeper as NotKept, IsAnswer, memory_answer, keeper_answer};
ghost use Rattle.book_engine.specs.Acting.{IsChange, IsUnchanged};
ghost use Rattle.book_engine.specs.Books.{machine_kept};
ghost use Rattle.book_engine.specs.Machine.{step};
ghost use Rattle.book_engine.specs.Planned.{HasRoomFor, IsPlanFor, after, commits};
ghost use Rattle.book_engine.specs.Standing.{Stands};
ghost use Rattle.book_texts.specs.AnswerText.{answer_bytes};
ghost use Rattle.book_app.specs.Machine.{Changes, IsOutcome, Replies};
ghost use Rattle.book_app.specs.Later.{IsLater};

use book_commodity::{Bytes, OutOfMemory, discard};
use book_engine::{Engine, Plan};
use book_keeper::{KeepError, Keeper};
use book_lines::{Machine, Unanswered};
use book_step::{Command, Refusal};
use book_texts::{answer_text, rule_text, too_long_text, wire_text};
use book_wire::{WireError, command_of};
use std::alloc::Global;

/// The way in which this crate joins an engine to the lines and the requests.
#[derive(Clone, Copy, Debug)]
pub struct Answering;

/// A text, if there was memory for it.
fn answered(text: Result<Bytes, OutOfMemory>) -> Result<Bytes, Unanswered>
    ensures text { IfOk result (λ bytes. text ≡ Ok bytes) }
    ensures memory { IfErr result (λ why. why ≡ Unanswered.Memory) }
{
    match text {
        Ok(bytes) => Ok(bytes),
        Err(OutOfMemory) => Err(Unanswered::Memory),
    }
}

/// Finishes a plan, and hands on the bytes that answer it. They are made before that, so that no answered change is
/// lost for memory.
/// Keeper: the plan commits, and the keeper failed.
pub fn keep<K: Keeper>(
    engine: &mut Engine,
    keeper: &mut K,
    plan: Plan,
    bytes: Bytes,
) -> Result<Bytes, Unanswered>
    requires made { IsPlanFor engine.old.state engine.old.saved plan }
    requires room { HasRoomFor engine.old plan }
    ensures bytes { IfOk result (λ given. given ≡ bytes) }
    ensures state { OnOk result (engine.new.state ≡ after engine.old.state plan) }
    ensures kept { OnErr result (IsUnchanged engine.old engine.new) }
    ensures commits { result ≡ Err Unanswered.Keeper → IsTrue (commits plan) }
    ensures failed { result ≡ Err Unanswered.Keeper → Rose (K.faults keeper.old) (K.faults keeper.new) }
    ensures later { K.faults keeper.old ≤ K.faults keeper.new }
    ensures stands { Stands K.Keeper keeper.old engine.old → Stands K.Keeper keeper.new engine.new }
    ensures follows { IsLater K.path_given K.honest K.sure keeper.old keeper.new }
{
    match engine.finish(keeper, plan) {
        Ok(answer) => Ok(discard(answer, bytes)),
        Err(KeepError::Failed) => Err(discard(bytes, Unanswered::Keeper)),
        Err(KeepError::OutOfMemory) => Err(discard(bytes, Unanswered::Memory)),
    }
}

/// The text of the answer of a plan, which is finished.
/// Keeper: the plan commits, and the keeper failed.
fn finished<K: Keeper>(
    alloc: Global,
    engine: &mut Engine,
    keeper: &mut K,
    plan: Plan,
) -> Result<Bytes, Unanswered>
    requires made { IsPlanFor engine.old.state engine.old.saved plan }
    requires room { HasRoomFor engine.old plan }
    ensures text { IfOk result (λ text. text ≡ answer_bytes plan.answer plan.version) }
    ensures state { OnOk result (engine.new.state ≡ after engine.old.state plan) }
    ensures kept { OnErr result (IsUnchanged engine.old engine.new) }
    ensures commits { result ≡ Err Unanswered.Keeper → IsTrue (commits plan) }
    ensures failed { result ≡ Err Unanswered.Keeper → Rose (K.faults keeper.old) (K.faults keeper.new) }
    ensures later { K.faults keeper.old ≤ K.faults keeper.new }
    ensures stands { Stands K.Keeper keeper.old engine.old → Stands K.Keeper keeper.new engine.new }
    ensures follows { IsLater K.path_given K.honest K.sure keeper.old keeper.new }
{
    match answer_text(alloc, plan.answer(), plan.version()) {
        Ok(text) => keep(engine, keeper, plan, text),
        Err(OutOfMemory) => Err(discard(plan, Unanswered::Memory)),
    }
}

/// The text of a command's outcome.
/// Keeper: the command changes the state, and the keeper failed to keep the change.
pub fn reply<K: Keeper>(
    alloc: Global,
    engine: &mut Engine,
    keeper: &mut K,
    command: Command,
) -> Result<Bytes, Unanswered>
    ensures answered { IfOk result (λ text. IsAnswer text
        × IsOutcome (step (machine_kept engine.old) command) (machine_kept engine.old) text (machine_kept engine.new)) }
    ensures kept { OnErr result (machine_kept engine.new ≡ machine_kept engine.old) }
    ensures changes { result ≡ Err Unanswered.Keeper
        → IsChange (machine_kept engine.old) (step (machine_kept engine.old) command) }
    ensures failed { result ≡ Err Unanswered.Keeper → Rose (K.faults keeper.old) (K.faults keeper.new) }
    ensures later { K.faults keeper.old ≤ K.faults keeper.new }
    ensures stands { Stands K.Keeper keeper.old engine.old → Stands K.Keeper keeper.new engine.new }
    ensures follows { IsLater K.path_given K.honest K.sure keeper.old keeper.new }
{
    match engine.prepare(command) {
        Ok(plan) => finished(alloc, engine, keeper, plan),
        Err(Refusal::Broken(rule)) => answered(rule_text(alloc, &rule, engine.version())),
        Err(Refusal::Keeper | Refusal::OutOfMemory) => Err(Unanswered::Memory),
    }
}

/// The answer to a line, whatever its bytes are.
/// Keeper: the line changes the state, and the keeper failed to keep the change.
fn answer_to<K: Keeper>(
    alloc: Global,
    engine: &mut Engine,
    keeper: &mut K,
    line: &[u8],
) -> Result<Bytes, Unanswered>
    ensures answered { IfOk result (λ text. IsAnswer text
        × Replies (machine_kept engine.old) line.now text (machine_kept engine.new)) }
    ensures kept { OnErr result (machine_kept engine.new ≡ machine_kept engine.old) }
    ensures changes { result ≡ Err Unanswered.Keeper → Changes (machine_kept engine.old) line.now }
    ensures failed { result ≡ Err Unanswered.Keeper → Rose (K.faults keeper.old) (K.faults keeper.new) }
    ensures later { K.faults keeper.old ≤ K.faults keeper.new }
    ensures stands { Stands K.Keeper keeper.old engine.old → Stands K.Keeper keeper.new engine.new }
    ensures follows { IsLater K.path_given K.honest K.sure keeper.old keeper.new }
{
    match command_of(alloc, line) {
        Ok(command) => reply(alloc, engine, keeper, command),
        Err(WireError::OutOfMemory) => Err(Unanswered::Memory),
        Err(fault) => answered(wire_text(alloc, &fault)),
    }
}

impl<K: Keeper> Machine<Answering, K> for Engine {
    ghost use Rattle.std.specs.Prelude.{ℕ, refl};
    ghost use Rattle.book_engine.specs.Books.{machine_kept};
    ghost use Rattle.book_engine.specs.Standing.{Stands};
    ghost use Rattle.book_app.specs.Machine.{answers as line_answers};
    ghost use Rattle.book_app.specs.Later.{IsLater, same_later, twice_later};

    ghost answers = { λ old line mark text new. line_answers (machine_kept old) line mark text (machine_kept new) };

    ghost stands = { λ engine keeper. Stands K.Keeper keeper engine };

    ghost follows = { λ old new. IsLater K.path_given K.honest K.sure old new };

    ghost faults = { λ keeper. K.faults keeper };

    ghost follows_itself = { λ keeper. same_later K.path_given K.honest K.sure keeper };

    ghost follows_through = { λ first second third one other.
        twice_later K.path_given K.honest K.sure first second third one other };

    fn answer(&mut self, alloc: Global, keeper: &mut K, line: &[u8]) -> Result<Bytes, Unanswered> {
        answer_to(alloc, self, keeper, line)
    }

    fn too_long(&self, alloc: Global, size: u64) -> Result<Bytes, OutOfMemory> {
        too_long_text(alloc, size)
    }
}
