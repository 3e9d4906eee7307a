ghost use Rattle.std.specs.Prelude.{◌≡◌, ◌∷◌, ◌+◌, ◌^◌, ◌<◌, ◌≤◌, ◌++◌, true, false, [], IfOk, OnOk, map};
ghost use Rattle.std.specs.List.{AllByRecursion};
ghost use Rattle.book_undo.specs.Book.{book_of};
ghost use Rattle.book_undo.specs.Edit.{depth, edited};
ghost use Rattle.book_opening.specs.Changes.{GoneBack, GoneForth, PutBack, PutForth, StepFits, step_change};
ghost use Rattle.book_opening.specs.State.{state_of};
ghost use Rattle.book_history.specs.Numbers.{numbers_from};
ghost use Rattle.book_turns.specs.Whole.{IsWhole, fresh_state};
ghost use Rattle.book_turns.specs.Turned.{HasNextHead, HaveSpellings, IsTurnFor, changes_to, step_changes, turned};
ghost use Rattle.book_turns.specs.declared.turn.Way.TheVariants.{Change as ToNew};

use crate::fresh::fresh_book;
use crate::turn::{STEPS_LIMIT, Turn, Way};
use book_commodity::{Many, OutOfMemory, Table};
use book_keeper::Change;
use book_opening::{Saved, all_rows, back_gone, back_put, changes_of, forth_gone, forth_put};
use book_undo::{Edit, Plain};
use std::alloc::Global;

/// The changes of rows that a turn comes to: the head, what the edit changes, and what becomes of the steps; or all
/// rows, where a keeper was given none yet.
pub fn row_changes(
    alloc: Global,
    state: &Saved,
    saved: bool,
    turn: &Turn,
) -> Result<Many<Change>, OutOfMemory>
    requires whole { IsWhole (state_of state.now) saved }
    requires after { IsWhole (turned turn.now (state_of state.now)) true }
    requires turn { IsTurnFor (state_of state.now) saved turn.now }
    ensures changes { IfOk result (λ changes. changes ≡ changes_to saved (state_of state.now) turn.now) }
    ensures fit { IfOk result (λ changes. HaveSpellings saved (state_of state.now) turn.now) }
{
    if saved {
        later_changes(alloc, state, turn)
    } else {
        first_changes(alloc, turn)
    }
}

/// The changes of rows of a turn from a state whose rows a keeper was given: the head, what the edit changes, and what
/// becomes of the steps.
fn later_changes(alloc: Global, state: &Saved, turn: &Turn) -> Result<Many<Change>, OutOfMemory>
    requires whole { IsWhole (state_of state.now) true }
    requires after { IsWhole (turned turn.now (state_of state.now)) true }
    requires head { HasNextHead (state_of state.now) turn.now }
    requires back { depth turn.now.inverse ≤ 8 }
    ensures changes { IfOk result (λ changes. changes ≡ changes_to true (state_of state.now) turn.now) }
    ensures fit { IfOk result (λ changes. HaveSpellings true (state_of state.now) turn.now) }
{
    let mut changes = changes_of(alloc, turn.head, &turn.edit)?;
    add_steps(alloc, state, turn, &mut changes)?;
    Ok(changes)
}

/// Adds the changes of the kept steps that a turn comes to.
fn add_steps(
    alloc: Global,
    state: &Saved,
    turn: &Turn,
    changes: &mut Many<Change>,
) -> Result<(), OutOfMemory>
    requires whole { IsWhole (state_of state.now) true }
    requires back { depth turn.now.inverse ≤ 8 }
    ensures added { OnOk result (changes.new
        ≡ changes.old ++ map step_change (step_changes turn.now.way (state_of state.now) turn.now.inverse)) }
    ensures fit { OnOk result
        (AllByRecursion StepFits (step_changes turn.now.way (state_of state.now) turn.now.inverse)) }
{
    match turn.way {
        Way::Change => add_change(alloc, state, &turn.inverse, changes),
        Way::Undo => add_undo(alloc, state.position, &turn.inverse, changes),
        Way::Redo => add_redo(alloc, state.position + 1, &turn.inverse, changes),
    }
}

/// Adds those of a change of the book: the oldest of 256 steps back is deleted, the step that leads back is put, and
/// each step forth is deleted.
fn add_change(
    alloc: Global,
    state: &Saved,
    inverse: &Edit,
    changes: &mut Many<Change>,
) -> Result<(), OutOfMemory>
    requires whole { IsWhole (state_of state.now) true }
    requires back { depth inverse.now ≤ 8 }
    ensures added { OnOk result (changes.new
        ≡ changes.old ++ map step_change (step_changes ToNew (state_of state.now) inverse.now)) }
    ensures fit { OnOk result (AllByRecursion StepFits (step_changes ToNew (state_of state.now) inverse.now)) }
{
    if state.past == STEPS_LIMIT {
        changes.push(back_gone(state.position - (STEPS_LIMIT - 1)))?;
    }
    changes.push(back_put(alloc, state.position + 1, inverse)?)?;
    add_forth_gone(state.position + 1, state.later, changes)
}

/// Adds those of a step back: it is deleted, and the step forth is put under its number.
fn add_undo(
    alloc: Global,
    number: u64,
    inverse: &Edit,
    changes: &mut Many<Change>,
) -> Result<(), OutOfMemory>
    requires { depth inverse.now ≤ 8 }
    ensures added { OnOk result (changes.new ≡ changes.old
        ++ map step_change (GoneBack number ∷ PutForth number inverse.now ∷ [])) }
    ensures fit { OnOk result (StepFits (PutForth number inverse.now)) }
{
    changes.push(back_gone(number))?;
    changes.push(forth_put(alloc, number, inverse)?)
}

/// Adds those of a step forth: the step back is put under its number, and it is deleted.
fn add_redo(
    alloc: Global,
    number: u64,
    inverse: &Edit,
    changes: &mut Many<Change>,
) -> Result<(), OutOfMemory>
    requires { depth inverse.now ≤ 8 }
    ensures added { OnOk result (changes.new ≡ changes.old
        ++ map step_change (PutBack number inverse.now ∷ GoneForth number ∷ [])) }
    ensures fit { OnOk result (StepFits (PutBack number inverse.now)) }
{
    changes.push(back_put(alloc, number, inverse)?)?;
    changes.push(forth_gone(number))
}

/// Adds the changes that delete so many steps forth from a first number on.
fn add_forth_gone(first: u64, count: u64, changes: &mut Many<Change>) -> Result<(), OutOfMemory>
    requires { first + count < 2 ^ 64 }
    ensures { OnOk result (changes.new ≡ changes.old
        ++ map step_change (map (λ number. GoneForth number) (numbers_from first count))) }
{
    for number in first..first + count {
        changes.push(forth_gone(number))?;
    }
    Ok(())
}

/// The changes of rows of a change from the fresh state, before a keeper was given rows: all rows of the state after
/// it.
fn first_changes(alloc: Global, turn: &Turn) -> Result<Many<Change>, OutOfMemory>
    requires after { IsWhole (turned turn.now fresh_state) true }
    requires turn { IsTurnFor fresh_state false turn.now }
    ensures changes { IfOk result (λ changes. changes ≡ changes_to false fresh_state turn.now) }
    ensures fit { IfOk result (λ changes. HaveSpellings false fresh_state turn.now) }
{
    let state = first_state(alloc, turn)?;
    all_rows(alloc, &state)
}

/// The state after a change from the fresh one.
fn first_state(alloc: Global, turn: &Turn) -> Result<Saved, OutOfMemory>
    requires { IsTurnFor fresh_state false turn.now }
    ensures { IfOk result (λ state. state_of state ≡ turned turn.now fresh_state) }
{
    let mut plain = fresh_book(alloc)?;
    apply_copy(alloc, &mut plain, &turn.edit)?;
    let back = first_back(alloc, &turn.inverse)?;
    Ok(Saved {
        plain,
        next: turn.head.next,
        version: turn.head.version,
        position: turn.head.position,
        past: turn.head.past,
        later: turn.head.later,
        back,
        forth: Table::new(alloc),
    })
}

/// The steps back after the first change.
fn first_back(alloc: Global, inverse: &Edit) -> Result<Table<Edit>, OutOfMemory>
    ensures { IfOk result (λ back. back.entries ≡ (1, inverse.now) ∷ []) }
{
    let mut back = Table::new(alloc);
    back.reserve(1)?;
    let copy = inverse.copy(alloc)?;
    drop(back.put(1, copy));
    Ok(back)
}

/// Makes the book that an edit leads to, which stays as it is.
fn apply_copy(alloc: Global, plain: &mut Plain, edit: &Edit) -> Result<(), OutOfMemory>
    requires { depth edit.now ≤ 8 }
    ensures { OnOk result (book_of plain.new ≡ edited edit.now (book_of plain.old)) }
{
    plain.reserve_for(edit)?;
    let copy = edit.copy(alloc)?;
    plain.apply(copy);
    Ok(())
}
