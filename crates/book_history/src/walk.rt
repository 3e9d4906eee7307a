ghost use Rattle.std.specs.Prelude.{◌≡◌, not, true, IsTrue, MatchOption, None, IfOk, OnOk, reverse};
ghost use Rattle.book_sound.specs.Soundness.{AreDrawn, IsSoundBook};
ghost use Rattle.book_undo.specs.Book.{book_of};
ghost use Rattle.book_undo.specs.Edit.{edited};
ghost use Rattle.book_undo.specs.EditRules.{IsAllowed};
ghost use Rattle.book_history.specs.Steps.{AreSound, IsSoundStep, IsStepOn, first_fault, is_broken, is_refused};
ghost use Rattle.book_history.specs.Steps.{is_unsound};

use crate::passing::{go, pass};
use book_check::first_unsound;
use book_commodity::{OutOfMemory, discard};
use book_undo::{Edit, Plain};
use std::alloc::Global;

/// The number of the first step back that is broken, asked from the last one to the first; `None` where all are sound,
/// and then the book is as it was. Where one is broken, or memory runs out, the book is one on the way.
pub fn first_fault_back(
    alloc: Global,
    plain: &mut Plain,
    next: u64,
    steps: &[(u64, Edit)],
) -> Result<Option<u64>, OutOfMemory>
    ensures fault { IfOk result (λ fault. fault ≡ first_fault next (reverse steps.now) (book_of plain.old)) }
    ensures sound { IfOk result (λ fault. fault ≡ None → AreSound next (reverse steps.now) (book_of plain.old)) }
    ensures same { IfOk result (λ fault. fault ≡ None → book_of plain.new ≡ book_of plain.old) }
{
    fault_back(alloc, plain, next, steps, false)
}

/// The number of the first step forth that is broken, asked from the first one to the last; `None` where all are sound,
/// and then the book is as it was. Where one is broken, or memory runs out, the book is one on the way.
pub fn first_fault_forth(
    alloc: Global,
    plain: &mut Plain,
    next: u64,
    steps: &[(u64, Edit)],
) -> Result<Option<u64>, OutOfMemory>
    ensures fault { IfOk result (λ fault. fault ≡ first_fault next steps.now (book_of plain.old)) }
    ensures sound { IfOk result (λ fault. fault ≡ None → AreSound next steps.now (book_of plain.old)) }
    ensures same { IfOk result (λ fault. fault ≡ None → book_of plain.new ≡ book_of plain.old) }
{
    fault_forth(alloc, plain, next, steps, false)
}

/// The same as `first_fault_back`, also from a book that is known to be sound, with its numbers drawn.
#[tactic(auto, using(crate::proofs::WalkLemmas::reversed))]
fn fault_back(
    alloc: Global,
    plain: &mut Plain,
    next: u64,
    steps: &[(u64, Edit)],
    known: bool,
) -> Result<Option<u64>, OutOfMemory>
    requires { IsTrue known → IsSoundBook (book_of plain.old) × AreDrawn (book_of plain.old) next }
    ensures fault { IfOk result (λ fault. fault ≡ first_fault next (reverse steps.now) (book_of plain.old)) }
    ensures sound { IfOk result (λ fault. fault ≡ None → AreSound next (reverse steps.now) (book_of plain.old)) }
    ensures same { IfOk result (λ fault. fault ≡ None → book_of plain.new ≡ book_of plain.old) }
{
    let Some((step, nearer)) = steps.split_last() else {
        return Ok(None);
    };
    let Some(forth) = step_on(alloc, plain, next, &step.1, known)? else {
        return Ok(Some(step.0));
    };
    match fault_back(alloc, plain, next, nearer, true) {
        Ok(fault) => step_back(plain, forth, fault),
        Err(error) => Err(discard(forth, error)),
    }
}

/// The same as `first_fault_forth`, also from a book that is known to be sound, with its numbers drawn.
fn fault_forth(
    alloc: Global,
    plain: &mut Plain,
    next: u64,
    steps: &[(u64, Edit)],
    known: bool,
) -> Result<Option<u64>, OutOfMemory>
    requires { IsTrue known → IsSoundBook (book_of plain.old) × AreDrawn (book_of plain.old) next }
    ensures fault { IfOk result (λ fault. fault ≡ first_fault next steps.now (book_of plain.old)) }
    ensures sound { IfOk result (λ fault. fault ≡ None → AreSound next steps.now (book_of plain.old)) }
    ensures same { IfOk result (λ fault. fault ≡ None → book_of plain.new ≡ book_of plain.old) }
{
    let Some((step, further)) = steps.split_first() else {
        return Ok(None);
    };
    let Some(back) = step_on(alloc, plain, next, &step.1, known)? else {
        return Ok(Some(step.0));
    };
    match fault_forth(alloc, plain, next, further, true) {
        Ok(fault) => step_back(plain, back, fault),
        Err(error) => Err(discard(back, error)),
    }
}

/// Takes one step, where it is sound, and gives the edit that leads back; `None` where it is broken.
fn step_on(
    alloc: Global,
    plain: &mut Plain,
    next: u64,
    edit: &Edit,
    known: bool,
) -> Result<Option<Edit>, OutOfMemory>
    requires { IsTrue known → IsSoundBook (book_of plain.old) × AreDrawn (book_of plain.old) next }
    ensures { IfOk result (λ back. MatchOption back
        (is_broken next (book_of plain.old) edit.now ≡ true)
        (λ inverse. IsStepOn next (book_of plain.old) edit.now inverse (book_of plain.new))) }
{
    if !is_allowed(plain, edit) {
        return Ok(None);
    }
    let inverse = plain.inverse(alloc, edit)?;
    match leads_on(alloc, plain, next, edit, known) {
        Ok(true) => Ok(Some(inverse)),
        Ok(false) => Ok(discard(inverse, None)),
        Err(error) => Err(discard(inverse, error)),
    }
}

/// Makes the book to which the edit leads, and says whether it is sound, with its numbers drawn. It is checked whole,
/// unless it is known to be so.
fn leads_on(
    alloc: Global,
    plain: &mut Plain,
    next: u64,
    edit: &Edit,
    known: bool,
) -> Result<bool, OutOfMemory>
    requires allowed { IsAllowed (book_of plain.old) edit.now }
    requires known { IsTrue known → IsSoundBook (book_of plain.old) × AreDrawn (book_of plain.old) next }
    ensures book { OnOk result (book_of plain.new ≡ edited edit.now (book_of plain.old)) }
    ensures told { IfOk result (λ sound. is_unsound next (edited edit.now (book_of plain.old)) ≡ not sound) }
    ensures sound { IfOk result (λ sound. IsTrue sound → IsSoundStep next (book_of plain.old) edit.now) }
{
    if pass(alloc, plain, next, edit, known)? {
        return Ok(true);
    }
    is_sound(alloc, plain, next)
}

/// Takes the step back by the inverse, where no fault was found further on.
#[tactic(auto, using(book_undo::proofs::InverseLaws::allowed_depth))]
fn step_back(
    plain: &mut Plain,
    inverse: Edit,
    fault: Option<u64>,
) -> Result<Option<u64>, OutOfMemory>
    requires { fault ≡ None → IsAllowed (book_of plain.old) inverse }
    ensures fault { IfOk result (λ found. found ≡ fault) }
    ensures book { OnOk result (fault ≡ None → book_of plain.new ≡ edited inverse (book_of plain.old)) }
{
    match fault {
        Some(number) => Ok(discard(inverse, Some(number))),
        None => {
            go(plain, inverse)?;
            Ok(None)
        }
    }
}

/// Whether the edit may be applied to the book.
fn is_allowed(plain: &Plain, edit: &Edit) -> bool
    ensures told { is_refused (book_of plain.now) edit.now ≡ not result }
    ensures allowed { IsTrue result → IsAllowed (book_of plain.now) edit.now }
{
    plain.check_edit(edit).is_ok()
}

/// Whether the book is sound, and all its numbers are below the next.
fn is_sound(alloc: Global, plain: &Plain, next: u64) -> Result<bool, OutOfMemory>
    ensures told { IfOk result (λ sound. is_unsound next (book_of plain.now) ≡ not sound) }
    ensures sound { IfOk result (λ sound. IsTrue sound → IsSoundBook (book_of plain.now)) }
    ensures drawn { IfOk result (λ sound. IsTrue sound → AreDrawn (book_of plain.now) next) }
{
    Ok(first_unsound(alloc, plain, next)?.is_none())
}
