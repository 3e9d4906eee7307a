ghost use Rattle.std.specs.Prelude.{◌≡◌, [], IfOk};
ghost use Rattle.std.specs.Option.{option_copied};
ghost use Rattle.book_undo.specs.Edit.{edited, together};
ghost use Rattle.book_undo.specs.declared.edit.Edit.{Gone, Put};
ghost use Rattle.book_undo.specs.declared.thing.Thing.TheVariants as thing;
ghost use Rattle.book_undo.specs.declared.thing.ThingKind.TheVariants as kind;
ghost use Rattle.book_sound.specs.Dismissal.{dismissed, dismissing, is_lost_split, loses_split, stays_as};
ghost use Rattle.book_step.specs.Editing.{book_with, book_without};

use crate::edited_splits::find_split;
use crate::present::Present;
use book_commodity::{Many, OutOfMemory, Table};
use book_splits::{Mark, Split, Txn};
use book_statement::{Line, LineState};
use book_undo::{Edit, Thing, ThingKind};
use std::alloc::Global;

/// The edit that puts the new transaction in the place of the old one, with those that dismiss the lines which lose
/// their splits.
pub(crate) fn putting(
    present: &Present,
    number: u64,
    old: &Txn,
    new: Txn,
) -> Result<Edit, OutOfMemory>
    ensures edit { IfOk result (λ edit. edit ≡ together (Put number (thing.Txn new))
        (dismissing old.now.splits new.splits present.now.book.lines)) }
    ensures leads { IfOk result (λ edit. edited edit present.now.book
        ≡ book_with present.now.book number old.now new) }
{
    let lines = &present.plain.lines;
    let dismissals = dismissing(
        present.alloc,
        lines,
        old.splits.as_slice(),
        new.splits.as_slice(),
    )?;
    together(Edit::Put(number, Thing::Txn(new)), dismissals)
}

/// The edit that deletes the transaction, with those that dismiss the lines which lose their splits.
pub(crate) fn deleting(present: &Present, number: u64, old: &Txn) -> Result<Edit, OutOfMemory>
    ensures edit { IfOk result (λ edit. edit ≡ together (Gone kind.Txn number)
        (dismissing old.now.splits [] present.now.book.lines)) }
    ensures leads { IfOk result (λ edit. edited edit present.now.book
        ≡ book_without present.now.book number old.now) }
{
    let lines = &present.plain.lines;
    let dismissals = dismissing(present.alloc, lines, old.splits.as_slice(), &[])?;
    together(Edit::Gone(ThingKind::Txn, number), dismissals)
}

/// The edits that dismiss the lines which lose their splits, where the new splits stand in the place of the old ones.
fn dismissing(
    alloc: Global,
    lines: &Table<Line>,
    old: &[Split],
    new: &[Split],
) -> Result<Vec<Edit>, OutOfMemory>
    ensures { IfOk result (λ edits. edits.items ≡ dismissing old.now new.now lines.now.entries) }
{
    let mut edits = Vec::new(alloc);
    for place in 0..lines.len() {
        let line = lines.value_at(place);
        if loses_split(old, new, line) {
            edits.push(dismissal(lines.number_at(place), line)?)?;
        }
    }
    Ok(edits)
}

/// The edit that dismisses the line of this number.
fn dismissal(number: u64, line: &Line) -> Result<Edit, OutOfMemory>
    ensures { IfOk result (λ edit. edit ≡ Put number (thing.Line (dismissed line.now))) }
{
    let line = Line {
        state: LineState::Dismissed,
        ..line.copy()?
    };
    Ok(Edit::Put(number, Thing::Line(line)))
}

/// Whether the line is matched with a split that is lost.
fn loses_split(old: &[Split], new: &[Split], line: &Line) -> bool
    ensures { result ≡ loses_split old.now new.now line.now }
{
    match line.state {
        LineState::Matched(number) => is_lost_split(
            find_split(old, number),
            find_split(new, number),
        ),
        LineState::Open | LineState::Dismissed => false,
    }
}

/// Whether there was a split that is gone, whose account or quantity is another, or that is voided.
fn is_lost_split(old: Option<&Split>, new: Option<&Split>) -> bool
    ensures { result ≡ is_lost_split (option_copied old.entry) (option_copied new.entry) }
{
    match old {
        Some(split) => !stays_as(split, new),
        None => false,
    }
}

/// Whether there is a later split, it has the account and the quantity of this one, and it is not voided.
fn stays_as(split: &Split, new: Option<&Split>) -> bool
    ensures { result ≡ stays_as split.now (option_copied new.entry) }
{
    match new {
        Some(later) => {
            later.account == split.account
                && later.quantity == split.quantity
                && later.mark != Mark::Voided
        }
        None => false,
    }
}

/// The edit and others behind it: that alone where there are no others, else the list of all.
fn together(edit: Edit, more: Vec<Edit>) -> Result<Edit, OutOfMemory>
    ensures { IfOk result (λ whole. whole ≡ together edit more.items) }
{
    if more.is_empty() {
        return Ok(edit);
    }
    let mut edits = more;
    edits.insert(0, edit)?;
    Ok(Edit::All(Many::of(edits)))
}
