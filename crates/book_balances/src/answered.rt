ghost use Rattle.std.specs.Prelude.{◌≡◌, IfErr, IfOk};
ghost use Rattle.book_balances.specs.Answered.{IsStepRefusal, IsWholeStep};
ghost use Rattle.book_free.specs.FreeSplits.{free_splits};
ghost use Rattle.book_ledger.specs.Ledger.{Keeps};
ghost use Rattle.book_step.specs.Soundness.{IsSound};
ghost use Rattle.book_step.specs.State.{state_of};
ghost use Rattle.book_step.specs.Step.{outcome};
ghost use Rattle.book_undo.specs.Book.{book_of};

use crate::balances::with_balances;
use book_commodity::OutOfMemory;
use book_ledger::Registers;
use book_match::AmountIndex;
use book_step::{Refusal, Step, Update, step_of};
use book_undo::Plain;
use std::alloc::Global;

/// The step of a change that is asked of a book with this next number and this version, with its whole answer. Refused
/// by the first rule that the change breaks, or out of memory.
pub fn answered_step(
    alloc: Global,
    plain: &Plain,
    next: u64,
    version: u64,
    registers: &Registers,
    index: &AmountIndex,
    update: Update,
) -> Result<Step, Refusal>
    requires sound { IsSound (state_of plain.now next version) }
    requires registers { Keeps registers.now.entries (book_of plain.now) }
    requires index { index.now.entries ≡ free_splits (book_of plain.now) }
    ensures done { IfOk result (IsWholeStep (state_of plain.now next version) update) }
    ensures refused { IfErr result (IsStepRefusal (outcome (state_of plain.now next version) update)) }
{
    let step = match step_of(alloc, plain, next, version, registers, index, update) {
        Ok(step) => step,
        Err(refusal) => return Err(refusal),
    };
    match with_balances(alloc, plain, registers, step) {
        Ok(step) => Ok(step),
        Err(OutOfMemory) => Err(Refusal::OutOfMemory),
    }
}
