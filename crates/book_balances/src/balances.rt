ghost use Rattle.std.specs.Prelude.{◌≡◌, ℕ, ◌+ℤ◌, ◌-ℤ◌, IfOk, IfSome, flat_map};
ghost use Rattle.std.specs.Option.{option_copied};
ghost use Rattle.book_undo.specs.Book.{book_of};
ghost use Rattle.book_undo.specs.Edit.{edited, leaves};
ghost use Rattle.book_step.specs.AnswerBalances.{PutsAnswered, PutsUnder, balances_of, with_balances as filled};
ghost use Rattle.book_commodity.specs.Table.{with_entry};
ghost use Rattle.book_splits.specs.Balance.{balances_in, splits_of};
ghost use Rattle.book_limits.specs.Limits.{largest_sum};
ghost use Rattle.book_sound.proofs.SoundFacts.{IsAtMost};
ghost use Rattle.book_splits.specs.Check.{IsSound as IsSoundTxn};
ghost use Rattle.book_balances.specs.Balances.{CanMove, CanSum, given, largest_move, moved, put_at};
ghost use Rattle.book_balances.specs.Answered.{whole_step};

use crate::moves::Moves;
use book_commodity::{Many, OutOfMemory};
use book_ledger::Registers;
use book_splits::Txn;
use book_step::{Answer, Step};
use book_undo::{Edit, Plain, Thing};
use std::alloc::Global;

/// The step with the balances in its answer, which are those of the book that it leads to.
pub(crate) fn with_balances(
    alloc: Global,
    plain: &Plain,
    registers: &Registers,
    step: Step,
) -> Result<Step, OutOfMemory>
    requires { CanSum registers.now.entries (book_of plain.now) step.edit
        (PutsAnswered (book_of plain.now) step.edit step.answer) }
    ensures { IfOk result (λ whole. whole ≡ whole_step (book_of plain.now) step) }
{
    let Step { edit, next, answer } = step;
    let answer = answer_with_balances(alloc, plain, registers, &edit, answer)?;
    Ok(Step { edit, next, answer })
}

/// The answer with the balances of the book after the edit.
fn answer_with_balances(
    alloc: Global,
    plain: &Plain,
    registers: &Registers,
    edit: &Edit,
    answer: Answer,
) -> Result<Answer, OutOfMemory>
    requires { CanSum registers.now.entries (book_of plain.now) edit.now
        (PutsAnswered (book_of plain.now) edit.now answer) }
    ensures { IfOk result (λ whole. whole ≡ filled (edited edit.now (book_of plain.now)) answer) }
{
    match answer {
        Answer::Post {
            transaction,
            splits,
            balances: _,
        } => Ok(Answer::Post {
            transaction,
            splits,
            balances: balances_put(alloc, plain, registers, edit, transaction)?,
        }),
        Answer::Edit {
            transaction,
            splits,
            balances: _,
        } => Ok(Answer::Edit {
            transaction,
            splits,
            balances: balances_put(alloc, plain, registers, edit, transaction)?,
        }),
        answer => Ok(answer),
    }
}

/// For each split of the transaction that the edit puts under the number, by place, the balance of its account after
/// the edit.
fn balances_put(
    alloc: Global,
    plain: &Plain,
    registers: &Registers,
    edit: &Edit,
    number: u64,
) -> Result<Many<i128>, OutOfMemory>
    requires { CanSum registers.now.entries (book_of plain.now) edit.now
        (PutsUnder (book_of plain.now) edit.now number) }
    ensures { IfOk result (λ balances. balances ≡ balances_of (edited edit.now (book_of plain.now)) number) }
{
    let Some(transaction) = put(edit, number).or(plain.transactions.find(number)) else {
        unreachable!()
    };
    balances_after(alloc, plain, registers, number, transaction)
}

/// For each split of the transaction, by place, the balance of its account over all days once the transaction stands
/// under the number, instead of the one that stands there, if one does. A balance is in smallest units of the
/// account's commodity.
fn balances_after(
    alloc: Global,
    plain: &Plain,
    registers: &Registers,
    number: u64,
    transaction: &Txn,
) -> Result<Many<i128>, OutOfMemory>
    requires { CanMove registers.now.entries (book_of plain.now) transaction.now }
    ensures { let later = with_entry number transaction.now (book_of plain.now).transactions in
        IfOk result (λ sums. sums ≡ balances_in (splits_of later) transaction.now.splits) }
{
    let splits = transaction.splits.as_slice();
    let gained = Moves::of(alloc, splits)?;
    let lost = given_by(alloc, plain.transactions.find(number))?;
    let mut balances = Vec::new(alloc);
    for split in splits {
        let account = split.account;
        let balance = registers.balance(account);
        balances.push(moved_balance(balance, lost.to(account), gained.to(account)))?;
    }
    Ok(Many::of(balances))
}

/// The transaction that the edit puts under the number, if it puts one there.
#[cycle(put)]
#[tactic(auto, using(book_undo::proofs::PartLaws::leaves_of_all))]
fn put(edit: &Edit, number: u64) -> Option<&Txn>
    ensures { option_copied result ≡ put_at (leaves edit.now) number }
{
    match edit {
        Edit::Put(other, Thing::Txn(transaction)) => {
            if *other == number {
                Some(transaction)
            } else {
                None
            }
        }
        Edit::All(parts) => put_among(parts.as_slice(), number),
        Edit::Put(_, _) | Edit::Currency(_) | Edit::Gone(_, _) => None,
    }
}

/// The transaction that the first of the edits puts which puts one under the number, if one does.
#[cycle(put)]
fn put_among(parts: &[Edit], number: u64) -> Option<&Txn>
    ensures { option_copied result ≡ put_at (flat_map leaves parts.now) number }
{
    for part in parts {
        let found = put(part, number);
        if found.is_some() {
            return found;
        }
    }
    None
}

/// A balance without what an account lost, and with what it gained.
fn moved_balance(balance: i128, lost: i128, gained: i128) -> i128
    requires balance { IsAtMost largest_sum balance }
    requires lost { IsAtMost largest_move lost }
    requires gained { IsAtMost largest_move gained }
    ensures { result ≡ balance -ℤ lost +ℤ gained }
{
    balance - lost + gained
}

/// What a transaction gives to accounts; nothing where there is none.
fn given_by(alloc: Global, transaction: Option<&Txn>) -> Result<Moves, OutOfMemory>
    requires { IfSome (option_copied transaction) (λ old. IsSoundTxn old.splits) }
    ensures { IfOk result (λ moves. (account : ℕ)
        → moved account moves.sums.entries ≡ given account (option_copied transaction.entry)) }
{
    match transaction {
        Some(transaction) => Moves::of(alloc, transaction.splits.as_slice()),
        None => Ok(Moves::none(alloc)),
    }
}
