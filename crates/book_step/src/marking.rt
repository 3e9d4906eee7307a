ghost use Rattle.std.specs.Prelude.{◌≡◌, ◌∷◌, [], IfOk};
ghost use Rattle.book_commodity.specs.Rules.{ReportsFirst};
ghost use Rattle.book_step.specs.Marking.{keeps_mark, mark, mark_asked, marked_among, marked_where, remarked};
ghost use Rattle.book_step.specs.Outcome.{StepsTo};

use crate::edited_splits::is_reconciled;
use crate::present::Present;
use crate::same_transaction::is_mark;
use crate::split_search::known_split;
use crate::voiding::check_holder_not_voided;
use crate::{Answer, Refusal, Rule, Step};
use book_commodity::{Many, OutOfMemory};
use book_splits::{Mark, Split, Txn};
use book_undo::{Edit, Thing};
use std::alloc::Global;

/// The split of this number becomes cleared, or new where it isn't to be cleared, and names no reconciliation then. One
/// that has the mark leaves the book as it is. Broken where the book has no such split, where its transaction is voided,
/// and, without force, where it is reconciled.
pub(crate) fn mark(
    present: &Present,
    number: u64,
    cleared: bool,
    force: bool,
) -> Result<Step, Refusal>
    ensures { StepsTo present.now (mark present.now number cleared force) result }
{
    let mark = mark_asked(cleared);
    let held = known_split(present, number)?;
    check_holder_not_voided(present, number, &held)?;
    check_unreconciled(force, number, held.split)?;
    if is_mark(held.split.mark, mark) {
        return Ok(Step::leaving(present, Answer::Mark));
    }
    let transaction = remarked(present.alloc, held.transaction, number, mark)?;
    let edit = Edit::Put(held.number, Thing::Txn(transaction));
    Step::changing(present, 0, edit, Answer::Mark)
}

/// The mark that is asked for.
fn mark_asked(cleared: bool) -> Mark
    ensures { result ≡ mark_asked cleared }
{
    if cleared { Mark::Cleared } else { Mark::New }
}

/// The split of this number isn't reconciled, or its mark is changed with force.
fn check_unreconciled(force: bool, number: u64, split: &Split) -> Result<(), Rule>
    ensures { ReportsFirst (keeps_mark force number split.now ∷ []) result }
{
    if !force && is_reconciled(split.mark) {
        return Err(Rule::Reconciled { split: number });
    }
    Ok(())
}

/// The transaction, of whose splits the one with the number has the mark and names no reconciliation.
pub(crate) fn remarked(
    alloc: Global,
    transaction: &Txn,
    number: u64,
    mark: Mark,
) -> Result<Txn, OutOfMemory>
    ensures { IfOk result (λ new. new ≡ remarked number mark transaction.now) }
{
    transaction.with_splits(marked_among(alloc, transaction.splits.as_slice(), number, mark)?)
}

/// The splits, of which the one with the number has the mark and names no reconciliation.
fn marked_among(
    alloc: Global,
    splits: &[Split],
    number: u64,
    mark: Mark,
) -> Result<Many<Split>, OutOfMemory>
    ensures { IfOk result (λ marked. marked ≡ marked_among number mark splits.now) }
{
    let mut marked = Many::new(alloc);
    for split in splits {
        marked.push(marked_where(split, number, mark)?)?;
    }
    Ok(marked)
}

/// The split, with the mark and without a reconciliation where it has the number.
fn marked_where(split: &Split, number: u64, mark: Mark) -> Result<Split, OutOfMemory>
    ensures { IfOk result (λ marked. marked ≡ marked_where number mark split.now) }
{
    let copy = split.copy()?;
    if split.id != number {
        return Ok(copy);
    }
    Ok(Split {
        mark,
        recon: None,
        ..copy
    })
}
