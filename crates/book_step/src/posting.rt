ghost use Rattle.std.specs.Prelude.{◌≡◌, ◌+◌, ◌<◌, ◌≤◌, ◌^◌, [], ◌∷◌, IfOk, OnOk, length, map};
ghost use Rattle.book_commodity.specs.Rules.{ReportsFirst};
ghost use Rattle.book_undo.specs.Book.{book_of};
ghost use Rattle.book_step.specs.Outcome.{StepsTo};
ghost use Rattle.book_step.specs.Posting.{broken_by, new_split, new_splits, new_transaction, post, post_rules};
ghost use Rattle.book_step.specs.Posting.{too_many_splits, too_many_transactions};

use crate::present::Present;
use crate::{Answer, GivenSplit, GivenTxn, Refusal, Rule, Step};
use book_commodity::{Counted, Day, Many, OutOfMemory};
use book_splits::{Mark, Split, Txn, check_txn};
use book_undo::{Edit, Plain, Thing};
use std::alloc::Global;

const MAX_TRANSACTIONS: usize = 200_000;

pub(crate) const MAX_SPLITS: u64 = 1_000_000;

/// A new transaction stands in the book, under the next number, its splits under those that follow. The answer's
/// balances are left empty.
pub(crate) fn post(present: &Present, day: Day, given: GivenTxn) -> Result<Step, Refusal>
    ensures { StepsTo present.now (post present.now day given) result }
{
    let number = present.next;
    let transaction = new_transaction(present.alloc, number, day, given)?;
    check_post(present, &transaction)?;
    let answer = post_answer(present.alloc, number, transaction.splits.as_slice())?;
    let drawn = 1 + transaction.splits.len() as u64;
    let edit = Edit::Put(number, Thing::Txn(transaction));
    Step::changing(present, drawn, edit, answer)
}

/// The transaction of a post that draws its number, the next for its first split, and so on.
fn new_transaction(
    alloc: Global,
    number: u64,
    day: Day,
    given: GivenTxn,
) -> Result<Txn, OutOfMemory>
    requires { number < 2 ^ 62 }
    ensures { IfOk result (λ transaction. transaction ≡ new_transaction number day given) }
{
    Ok(Txn {
        currency: given.currency,
        day,
        num: given.num,
        description: given.description,
        splits: new_splits(alloc, number + 1, given.splits)?,
        voided: None,
    })
}

/// The splits of a post, of which the first gets the number.
fn new_splits(
    alloc: Global,
    number: u64,
    given: Many<GivenSplit>,
) -> Result<Many<Split>, OutOfMemory>
    requires { number ≤ 2 ^ 62 }
    ensures { IfOk result (λ splits. splits ≡ new_splits number given) }
{
    let mut splits = Vec::new(alloc);
    for split in given.into_vec() {
        splits.push(new_split(number + splits.len() as u64, split))?;
    }
    Ok(Many::of(splits))
}

/// A split as it stands in the book after a post.
pub(crate) fn new_split(number: u64, given: GivenSplit) -> Split
    ensures { result ≡ new_split number given }
{
    Split {
        id: number,
        account: given.account,
        memo: given.memo,
        action: given.action,
        mark: Mark::New,
        recon: None,
        value: given.value,
        quantity: given.quantity,
    }
}

/// A post of the transaction keeps its rules.
pub(crate) fn check_post(present: &Present, transaction: &Txn) -> Result<(), Rule>
    ensures rules { ReportsFirst (post_rules present.now.book transaction.now) result }
    ensures few { OnOk result (length transaction.now.splits ≤ 500) }
{
    check_transaction(present.plain, transaction)?;
    check_transactions(present.plain)?;
    check_splits(present, transaction)
}

/// The transaction breaks no rule of transactions among the commodities and the accounts of the book.
pub(crate) fn check_transaction(plain: &Plain, transaction: &Txn) -> Result<(), Rule>
    ensures rules { ReportsFirst (broken_by (book_of plain.now) transaction.now ∷ []) result }
    ensures few { OnOk result (length transaction.now.splits ≤ 500) }
{
    check_txn(&plain.commodities, &plain.accounts, transaction)?;
    Ok(())
}

/// The book has room for one transaction more.
fn check_transactions(plain: &Plain) -> Result<(), Rule>
    ensures { ReportsFirst (too_many_transactions (book_of plain.now) ∷ []) result }
{
    if plain.transactions.len() >= MAX_TRANSACTIONS {
        return Err(Rule::Limit {
            which: Counted::Transactions,
            at: MAX_TRANSACTIONS as u64,
        });
    }
    Ok(())
}

/// The book has room for the splits of the transaction.
fn check_splits(present: &Present, transaction: &Txn) -> Result<(), Rule>
    ensures { ReportsFirst (too_many_splits present.now.book transaction.now ∷ []) result }
{
    let room = MAX_SPLITS - present.plain.transactions.count_splits();
    if transaction.splits.len() as u64 > room {
        return Err(Rule::Limit {
            which: Counted::Splits,
            at: MAX_SPLITS,
        });
    }
    Ok(())
}

/// The numbers that a post drew, its transaction's and those of its splits by place.
fn post_answer(alloc: Global, number: u64, splits: &[Split]) -> Result<Answer, OutOfMemory>
    ensures { IfOk result (λ answer. answer ≡ Answer.Post number (map (λ split. split.id) splits.now) []) }
{
    let numbers = splits.iter().map(|split| split.id).collect(alloc)?;
    Ok(Answer::Post {
        transaction: number,
        splits: Many::of(numbers),
        balances: Many::new(alloc),
    })
}
