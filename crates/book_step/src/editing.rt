ghost use Rattle.std.specs.Prelude.{◌≡◌, ◌≤◌, ◌<◌, ◌^◌, ◌==◌, [], ◌∷◌, Some, IfOk, OnOk, find, length, map};
ghost use Rattle.std.specs.List.{list_any};
ghost use Rattle.book_commodity.specs.Rules.{ReportsFirst};
ghost use Rattle.book_commodity.specs.Table.{value_of};
ghost use Rattle.book_splits.specs.SplitCount.{splits_in};
ghost use Rattle.book_step.specs.Editing.{drawn_by, drop_transaction, edit_of, edit_transaction, edited_transaction};
ghost use Rattle.book_step.specs.Editing.{is_same_part, loses_reconciliation, number_rules, reconciled, too_many_after};
ghost use Rattle.book_step.specs.Editing.{unknown_transaction};
ghost use Rattle.book_step.specs.Outcome.{StepsTo};
ghost use Rattle.book_step.specs.Posting.{broken_by};

use crate::dismissing::{deleting, putting};
use crate::edited_splits::{check_given_numbers, edited_splits, is_reconciled};
use crate::posting::{MAX_SPLITS, check_transaction};
use crate::present::Present;
use crate::same_transaction::is_same;
use crate::voiding::{check_changeable, check_not_voided};
use crate::{Answer, GivenTxn, Refusal, Rule, Step};
use book_commodity::{Counted, Day, Kind, Many, OutOfMemory};
use book_splits::{Split, Txn};
use std::alloc::Global;

/// The transaction of this number is given anew. The answer's balances are left empty.
pub(crate) fn edit(
    present: &Present,
    number: u64,
    force: bool,
    day: Day,
    given: GivenTxn,
) -> Result<Step, Refusal>
    ensures { StepsTo present.now (edit_transaction present.now number force day given) result }
{
    let old = known(present, number)?;
    check_not_voided(number, old)?;
    edit_of(present, number, force, day, given, old)
}

/// The same of a transaction that was found and is not voided.
fn edit_of(
    present: &Present,
    number: u64,
    force: bool,
    day: Day,
    given: GivenTxn,
    old: &Txn,
) -> Result<Step, Refusal>
    requires { value_of number present.now.book.transactions ≡ Some old.now }
    ensures { StepsTo present.now (edit_of present.now number force day given old.now) result }
{
    check_given(old, &given)?;
    let (new, drawn) = edited_transaction(present.alloc, old, present.next, day, given)?;
    check_edit(present, number, force, old, &new)?;
    let answer = edit_answer(present.alloc, number, new.splits.as_slice())?;
    if is_same(&new, old) {
        return Ok(Step::leaving(present, answer));
    }
    let edit = putting(present, number, old, new)?;
    Step::changing(present, drawn, edit, answer)
}

/// The numbers of the given splits are those of splits of the transaction, each once.
fn check_given(old: &Txn, given: &GivenTxn) -> Result<(), Rule>
    ensures { ReportsFirst (number_rules old.now.splits [] given.now.splits) result }
{
    check_given_numbers(old.splits.as_slice(), given.splits.as_slice())
}

/// The transaction after the edit, and how many numbers its splits draw.
fn edited_transaction(
    alloc: Global,
    old: &Txn,
    next: u64,
    day: Day,
    given: GivenTxn,
) -> Result<(Txn, u64), OutOfMemory>
    requires { next < 2 ^ 62 }
    ensures made { IfOk result (λ made. made.0 ≡ edited_transaction old.now next day given) }
    ensures drawn { IfOk result (λ made. made.1 ≡ drawn_by old.now.splits given.splits) }
    ensures few { IfOk result (λ made. made.1 ≤ length made.0.splits) }
{
    let (splits, drawn) = edited_splits(alloc, old.splits.as_slice(), next, given.splits)?;
    let new = Txn {
        currency: given.currency,
        day,
        num: given.num,
        description: given.description,
        splits,
        voided: None,
    };
    Ok((new, drawn))
}

/// The transaction keeps the rules of an edit, but for those of the numbers given.
fn check_edit(present: &Present, number: u64, force: bool, old: &Txn, new: &Txn) -> Result<(), Rule>
    ensures rules { ReportsFirst
        (broken_by present.now.book new.now ∷ reconciled force old.now.splits new.now.splits
        ∷ too_many_after present.now.book number new.now ∷ []) result }
    ensures few { OnOk result (length new.now.splits ≤ 500) }
{
    check_transaction(present.plain, new)?;
    check_reconciled_stay(force, old, new)?;
    check_splits(present, number, new)
}

/// The transaction of this number is deleted.
pub(crate) fn drop(present: &Present, number: u64, force: bool) -> Result<Step, Refusal>
    ensures { StepsTo present.now (drop_transaction present.now number force) result }
{
    let old = known(present, number)?;
    check_changeable(number, force, old)?;
    let edit = deleting(present, number, old)?;
    Step::changing(present, 0, edit, Answer::Drop)
}

/// The transaction of this number, which is one of the book's.
pub(crate) fn known<'a>(present: &Present<'a>, number: u64) -> Result<&'a Txn, Rule>
    ensures there { IfOk result (λ old. value_of number present.now.book.transactions ≡ Some old.now) }
    ensures unknown { ReportsFirst (unknown_transaction present.now.book.transactions number ∷ []) result }
{
    match present.plain.transactions.find(number) {
        Some(transaction) => Ok(transaction),
        None => Err(Rule::Unknown {
            kind: Kind::Transaction,
            id: number,
        }),
    }
}

/// Without force, none of the splits that is reconciled is lost among the later ones.
pub(crate) fn check_reconciled(force: bool, splits: &[Split], later: &[Split]) -> Result<(), Rule>
    ensures { ReportsFirst (reconciled force splits.now later.now ∷ []) result }
{
    if force {
        return Ok(());
    }
    for split in splits {
        if loses_reconciliation(later, split) {
            return Err(Rule::Reconciled { split: split.id });
        }
    }
    Ok(())
}

/// Whether the split is reconciled, and none of the later ones is the same part.
fn loses_reconciliation(later: &[Split], split: &Split) -> bool
    ensures { result ≡ loses_reconciliation later.now split.now }
{
    is_reconciled(split.mark) && !has_part(later, split)
}

/// Whether one of the later splits is the same part as the split.
fn has_part(later: &[Split], split: &Split) -> bool
    ensures { result ≡ list_any (is_same_part split.now) later.now }
{
    for other in later {
        if is_same_part(split, other) {
            return true;
        }
    }
    false
}

/// Whether the other split has the number, the account and the quantity of the split.
fn is_same_part(split: &Split, other: &Split) -> bool
    ensures { result ≡ is_same_part split.now other.now }
{
    other.id == split.id && other.account == split.account && other.quantity == split.quantity
}

/// Without force, no reconciled split of the transaction is lost in the new one.
fn check_reconciled_stay(force: bool, old: &Txn, new: &Txn) -> Result<(), Rule>
    ensures { ReportsFirst (reconciled force old.now.splits new.now.splits ∷ []) result }
{
    check_reconciled(force, old.splits.as_slice(), new.splits.as_slice())
}

/// The book has room for the splits of the new transaction in the place of those under the number.
fn check_splits(present: &Present, number: u64, new: &Txn) -> Result<(), Rule>
    requires few { length new.now.splits ≤ 500 }
    ensures { ReportsFirst (too_many_after present.now.book number new.now ∷ []) result }
{
    let old = count_splits_of(present, number);
    let others = present.plain.transactions.count_splits() - old;
    if others + new.splits.len() as u64 > MAX_SPLITS {
        return Err(Rule::Limit {
            which: Counted::Splits,
            at: MAX_SPLITS,
        });
    }
    Ok(())
}

/// How many splits the transaction of this number has; 0 where there is none.
fn count_splits_of(present: &Present, number: u64) -> u64
    ensures { result ≡ splits_in (value_of number present.now.book.transactions) }
{
    match present.plain.transactions.find(number) {
        Some(transaction) => transaction.splits.len() as u64,
        None => 0,
    }
}

/// The number of the transaction, and the numbers of its splits by place.
fn edit_answer(alloc: Global, number: u64, splits: &[Split]) -> Result<Answer, OutOfMemory>
    ensures { IfOk result (λ answer. answer ≡ Answer.Edit number (map (λ split. split.id) splits.now) []) }
{
    let numbers = splits.iter().map(|split| split.id).collect(alloc)?;
    Ok(Answer::Edit {
        transaction: number,
        splits: Many::of(numbers),
        balances: Many::new(alloc),
    })
}
