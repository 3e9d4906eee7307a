ghost use Rattle.std.specs.Prelude.{◌≡◌, ◌++◌, IfOk};
ghost use Rattle.book_undo.specs.Book.{book_of};
ghost use Rattle.book_command.specs.declared.answer.Answer.TheVariants.{Voided as VoidedAnswer};
ghost use Rattle.book_step.specs.BankLines.{account_asked};
ghost use Rattle.book_step.specs.Schedules.{Finds};
ghost use Rattle.book_step.specs.Voiding.{shown_on, shown_where, voided_of, voided_shown};

use crate::bank_questions::check_account;
use crate::{Answer, Refusal, VoidedShown};
use book_commodity::{Many, OutOfMemory};
use book_splits::{KeptSplit, Split, Txn, Void};
use book_undo::Plain;
use std::alloc::Global;

/// The answer that shows the account's splits of voided transactions, by the transactions' numbers and by place. Broken
/// where the book has no account of this number; out of memory.
pub fn voided_answer(alloc: Global, plain: &Plain, account: u64) -> Result<Answer, Refusal>
    ensures { Finds (account_asked (book_of plain.now) account)
        (λ answer. answer ≡ VoidedAnswer (voided_of account (book_of plain.now).transactions)) result }
{
    check_account(plain, account)?;
    let voided = voided_of(alloc, account, plain.transactions.as_slice())?;
    Ok(Answer::Voided { voided })
}

/// The splits on the account whose transactions are voided, in their order.
fn voided_of(
    alloc: Global,
    account: u64,
    transactions: &[(u64, Txn)],
) -> Result<Many<VoidedShown>, OutOfMemory>
    ensures { IfOk result (λ shown. shown ≡ voided_of account transactions.now) }
{
    let mut shown = Many::new(alloc);
    for (number, transaction) in transactions {
        add_transaction(&mut shown, account, *number, transaction)?;
    }
    Ok(shown)
}

/// Adds the splits on the account where the transaction is voided.
fn add_transaction(
    shown: &mut Many<VoidedShown>,
    account: u64,
    number: u64,
    transaction: &Txn,
) -> Result<(), OutOfMemory>
    ensures { IfOk result (λ _. shown.new
        ≡ shown.old ++ shown_where account number transaction.now.splits transaction.now.voided) }
{
    match &transaction.voided {
        Some(void) => add_splits(shown, account, number, transaction.splits.as_slice(), void),
        None => Ok(()),
    }
}

/// Adds those of the splits that are on the account, with what was kept of them.
fn add_splits(
    shown: &mut Many<VoidedShown>,
    account: u64,
    number: u64,
    splits: &[Split],
    void: &Void,
) -> Result<(), OutOfMemory>
    ensures { IfOk result (λ _. shown.new
        ≡ shown.old ++ shown_on account number void.now.reason splits.now void.now.kept) }
{
    let kept = void.kept.as_slice();
    for (place, split) in splits.iter().enumerate() {
        let Some(had) = kept.get(place) else {
            return Ok(());
        };
        if split.account == account {
            shown.push(voided_shown(number, void, split, had)?)?;
        }
    }
    Ok(())
}

/// The split, with what was kept of it and why its transaction was voided.
fn voided_shown(
    number: u64,
    void: &Void,
    split: &Split,
    kept: &KeptSplit,
) -> Result<VoidedShown, OutOfMemory>
    ensures { IfOk result (λ shown. shown ≡ voided_shown number void.now.reason split.now kept.now) }
{
    Ok(VoidedShown {
        transaction: number,
        split: split.id,
        value: kept.value,
        quantity: kept.quantity,
        reason: void.reason.copy()?,
    })
}
