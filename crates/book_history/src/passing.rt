ghost use Rattle.std.specs.Prelude.{◌≡◌, ◌≤◌, IsTrue, IfOk, OnOk, flat_map, is_none};
ghost use Rattle.book_sound.specs.LineRules.{matched_split};
ghost use Rattle.book_sound.specs.Soundness.{AreDrawn, IsSoundBook};
ghost use Rattle.book_undo.specs.Book.{book_of, IsRising};
ghost use Rattle.book_undo.specs.Edit.{depth, edited, leaves};
ghost use Rattle.book_undo.specs.EditRules.{IsAllowed};
ghost use Rattle.book_history.specs.Passes.{changed, freed, frees_line, is_free_line};

use crate::leaving::leaves_sound;
use crate::placing::fits_there;
use crate::restating::is_free_state;
use book_commodity::{OutOfMemory, discard};
use book_undo::{Edit, Plain, Thing, ThingKind};
use std::alloc::Global;

/// How many changes of a step are asked about by a walk along all transactions. A walk takes a small part of the time
/// of a check of the whole book.
const MOST_WALKS: u32 = 8;

/// What is known on the way through the changes of a step: whether the book is sound, with its numbers drawn. And how
/// many changes more may be asked about by a walk along all transactions.
#[derive(Clone, Copy)]
struct Standing {
    known: bool,
    walks: u32,
}

/// Makes the book to which the edit leads, and says whether it is known to be sound with its numbers drawn: the book
/// before it was known to be, and each single change leaves it so. First lines are freed from their splits or deleted,
/// and then the other changes are made.
pub(crate) fn pass(
    alloc: Global,
    plain: &mut Plain,
    next: u64,
    edit: &Edit,
    known: bool,
) -> Result<bool, OutOfMemory>
    requires allowed { IsAllowed (book_of plain.old) edit.now }
    requires known { IsTrue known → IsSoundBook (book_of plain.old) × AreDrawn (book_of plain.old) next }
    ensures book { OnOk result (book_of plain.new ≡ edited edit.now (book_of plain.old)) }
    ensures known { IfOk result (λ known. IsTrue known
        → IsSoundBook (book_of plain.new) × AreDrawn (book_of plain.new) next) }
{
    rising(plain);
    let start = Standing {
        known,
        walks: MOST_WALKS,
    };
    let standing = free_lines(alloc, plain, next, edit, start)?;
    Ok(change(alloc, plain, next, edit, standing)?.known)
}

/// Makes the changes of the edit that free lines, from the last to the first.
#[cycle(freeing)]
#[tactic(auto, using(book_undo::proofs::PartLaws::leaves_of_all))]
fn free_lines(
    alloc: Global,
    plain: &mut Plain,
    next: u64,
    edit: &Edit,
    standing: Standing,
) -> Result<Standing, OutOfMemory>
    requires { IsTrue standing.known → IsSoundBook (book_of plain.old) × AreDrawn (book_of plain.old) next }
    ensures book { OnOk result (book_of plain.new ≡ freed (leaves edit.now) (book_of plain.old)) }
    ensures known { IfOk result (λ standing. IsTrue standing.known
        → IsSoundBook (book_of plain.new) × AreDrawn (book_of plain.new) next) }
{
    match edit {
        Edit::All(parts) => free_all(alloc, plain, next, parts.as_slice(), standing),
        Edit::Currency(_) | Edit::Put(_, _) | Edit::Gone(_, _) => {
            if frees_line(edit) {
                make(alloc, plain, next, edit, standing)
            } else {
                Ok(standing)
            }
        }
    }
}

/// Makes the changes of the edits that free lines, from the last to the first.
#[cycle(freeing)]
fn free_all(
    alloc: Global,
    plain: &mut Plain,
    next: u64,
    parts: &[Edit],
    standing: Standing,
) -> Result<Standing, OutOfMemory>
    requires { IsTrue standing.known → IsSoundBook (book_of plain.old) × AreDrawn (book_of plain.old) next }
    ensures book { OnOk result (book_of plain.new ≡ freed (flat_map leaves parts.now) (book_of plain.old)) }
    ensures known { IfOk result (λ standing. IsTrue standing.known
        → IsSoundBook (book_of plain.new) × AreDrawn (book_of plain.new) next) }
{
    let mut standing = standing;
    for place in (0..parts.len()).rev() {
        standing = free_lines(alloc, plain, next, &parts[place], standing)?;
    }
    Ok(standing)
}

/// Makes the changes of the edit that free no lines.
#[cycle(changing)]
#[tactic(auto, using(book_undo::proofs::PartLaws::leaves_of_all))]
fn change(
    alloc: Global,
    plain: &mut Plain,
    next: u64,
    edit: &Edit,
    standing: Standing,
) -> Result<Standing, OutOfMemory>
    requires { IsTrue standing.known → IsSoundBook (book_of plain.old) × AreDrawn (book_of plain.old) next }
    ensures book { OnOk result (book_of plain.new ≡ changed (leaves edit.now) (book_of plain.old)) }
    ensures known { IfOk result (λ standing. IsTrue standing.known
        → IsSoundBook (book_of plain.new) × AreDrawn (book_of plain.new) next) }
{
    match edit {
        Edit::All(parts) => change_all(alloc, plain, next, parts.as_slice(), standing),
        Edit::Currency(_) | Edit::Put(_, _) | Edit::Gone(_, _) => {
            if frees_line(edit) {
                Ok(standing)
            } else {
                make(alloc, plain, next, edit, standing)
            }
        }
    }
}

/// Makes the changes of the edits that free no lines.
#[cycle(changing)]
fn change_all(
    alloc: Global,
    plain: &mut Plain,
    next: u64,
    parts: &[Edit],
    standing: Standing,
) -> Result<Standing, OutOfMemory>
    requires { IsTrue standing.known → IsSoundBook (book_of plain.old) × AreDrawn (book_of plain.old) next }
    ensures book { OnOk result (book_of plain.new ≡ changed (flat_map leaves parts.now) (book_of plain.old)) }
    ensures known { IfOk result (λ standing. IsTrue standing.known
        → IsSoundBook (book_of plain.new) × AreDrawn (book_of plain.new) next) }
{
    let mut standing = standing;
    for part in parts {
        standing = change(alloc, plain, next, part, standing)?;
    }
    Ok(standing)
}

/// Makes a single change, and says what is known after it.
fn make(
    alloc: Global,
    plain: &mut Plain,
    next: u64,
    edit: &Edit,
    standing: Standing,
) -> Result<Standing, OutOfMemory>
    requires shallow { depth edit.now ≤ 8 }
    requires known { IsTrue standing.known → IsSoundBook (book_of plain.old) × AreDrawn (book_of plain.old) next }
    ensures book { OnOk result (book_of plain.new ≡ edited edit.now (book_of plain.old)) }
    ensures known { IfOk result (λ standing. IsTrue standing.known
        → IsSoundBook (book_of plain.new) × AreDrawn (book_of plain.new) next) }
{
    let later = known_after(alloc, plain, next, edit, standing)?;
    let copy = edit.copy(alloc)?;
    go(plain, copy)?;
    Ok(later)
}

/// What is known after the change: that the book is sound, where it is before it and the change leaves it so.
fn known_after(
    alloc: Global,
    plain: &Plain,
    next: u64,
    edit: &Edit,
    standing: Standing,
) -> Result<Standing, OutOfMemory>
    requires { IsTrue standing.known → IsSoundBook (book_of plain.now) × AreDrawn (book_of plain.now) next }
    ensures { IfOk result (λ standing. IsTrue standing.known
        → IsSoundBook (edited edit.now (book_of plain.now)) × AreDrawn (edited edit.now (book_of plain.now)) next) }
{
    if !standing.known {
        return Ok(standing);
    }
    if leaves_sound(plain, edit) {
        return Ok(standing);
    }
    let Some(walks) = standing.walks.checked_sub(1) else {
        return Ok(Standing {
            known: false,
            walks: 0,
        });
    };
    let known = fits_there(alloc, plain, next, edit)?;
    Ok(Standing { known, walks })
}

/// Whether the edit only deletes a line, or puts one that is matched with no split.
fn frees_line(edit: &Edit) -> bool
    ensures { result ≡ frees_line edit.now }
{
    match edit {
        Edit::Put(_, thing) => is_free_line(thing),
        Edit::Gone(ThingKind::Line, _) => true,
        Edit::Currency(_) | Edit::Gone(_, _) | Edit::All(_) => false,
    }
}

/// Whether the thing is a line that is matched with no split.
fn is_free_line(thing: &Thing) -> bool
    ensures { result ≡ is_free_line thing.now }
{
    match thing {
        Thing::Line(line) => is_free_state(line.state),
        _ => false,
    }
}

/// The numbers of each table rise.
fn rising(plain: &Plain)
    ensures { IsRising (book_of plain.now) }
{
    let _ = plain.commodities.len();
    let _ = plain.accounts.len();
    let _ = plain.transactions.len();
    let _ = plain.prices.len();
    let _ = plain.schedules.len();
    let _ = plain.statements.len();
    let _ = plain.lines.len();
    let _ = plain.bindings.len();
    let _ = plain.reconciliations.len();
}

/// Takes the memory that the edit needs, and makes the book to which it leads.
pub(crate) fn go(plain: &mut Plain, edit: Edit) -> Result<(), OutOfMemory>
    requires { depth edit ≤ 8 }
    ensures { OnOk result (book_of plain.new ≡ edited edit (book_of plain.old)) }
{
    match plain.reserve_for(&edit) {
        Ok(()) => {
            plain.apply(edit);
            Ok(())
        }
        Err(error) => Err(discard(edit, error)),
    }
}
