ghost use Rattle.std.specs.Prelude.{◌≡◌, ℕ, ◌++◌, ◌∷◌, [], IfOk, IfSome, map};
ghost use Rattle.std.specs.BTreeSet.{contains};
ghost use Rattle.std.specs.List.Sorted.{IsStrictlyIncreasing};
ghost use Rattle.std.specs.Option.{option_copied};
ghost use Rattle.std.specs.Ordering.{nat_cmp};
ghost use Rattle.book_step.specs.AutoMatching.{becomes_cleared, clearing, clearing_one, clears, has_pair, split_paired};
ghost use Rattle.book_step.specs.Remarking.{HasTouched, has_touched, remarked, remarking};
ghost use Rattle.book_step.specs.UnderNumbers.{made_of, made_under};

use crate::present::Present;
use crate::reconciling::transaction_of;
use crate::split_search::held_nearby;
use book_commodity::{Many, OutOfMemory};
use book_finish::sort_once;
use book_match::Matched;
use book_splits::{Mark, Split, Txn};
use book_undo::{Edit, Thing};
use std::alloc::Global;
use std::collections::BTreeSet;

/// The edits that clear the new splits of the pairs: one for each transaction that has such a split. All transactions
/// are gone through where one of the splits isn't found nearby.
pub(crate) fn clearing_paired(
    present: &Present,
    pairs: &[Matched],
) -> Result<Vec<Edit>, OutOfMemory>
    ensures { IfOk result (λ edits. edits.items ≡ remarking (clears (has_pair pairs.now))
        (clearing (has_pair pairs.now)) present.now.book.transactions) }
{
    let taken = paired_splits(present.alloc, pairs)?;
    let Some(numbers) = numbers_nearby(present, pairs)? else {
        return clearing_all(present.alloc, present.plain.transactions.as_slice(), &taken);
    };
    clearing_under(present, numbers.as_slice(), &taken)
}

/// The numbers of the splits of the pairs.
fn paired_splits(alloc: Global, pairs: &[Matched]) -> Result<BTreeSet<u64>, OutOfMemory>
    ensures { IfOk result (λ taken. (number : ℕ) → contains nat_cmp taken number ≡ has_pair pairs.now number) }
{
    let mut taken = BTreeSet::new(alloc);
    for pair in pairs {
        taken.insert(pair.split)?;
    }
    Ok(taken)
}

/// The numbers of the transactions that have the splits of the pairs, rising, each once; `None` where one of the splits
/// isn't found nearby.
fn numbers_nearby(present: &Present, pairs: &[Matched]) -> Result<Option<Vec<u64>>, OutOfMemory>
    ensures rises { IfOk result (λ found. IfSome found (λ numbers. IsStrictlyIncreasing numbers.items)) }
    ensures has { IfOk result (λ found. IfSome found (λ numbers.
        HasTouched (clears (has_pair pairs.now)) present.now.book.transactions numbers.items)) }
{
    let mut numbers = Vec::new(present.alloc);
    for pair in pairs {
        let Some(held) = held_nearby(present, pair.split) else {
            return Ok(None);
        };
        numbers.push(held.number)?;
    }
    sort_once(&mut numbers);
    Ok(Some(numbers))
}

/// The edits that clear the new splits among those that are taken, in the transactions under these numbers.
fn clearing_under(
    present: &Present,
    numbers: &[u64],
    taken: &BTreeSet<u64>,
) -> Result<Vec<Edit>, OutOfMemory>
    ensures { IfOk result (λ edits. edits.items
        ≡ made_under (clearing_one (contains nat_cmp taken.now)) present.now.book.transactions numbers.now) }
{
    let mut edits = Vec::new(present.alloc);
    for number in numbers {
        let found = transaction_of(present, *number);
        add_clearing_of(&mut edits, present.alloc, *number, found, taken)?;
    }
    Ok(edits)
}

/// Adds the edit that clears the transaction's new splits among those that are taken, if there is a transaction and it
/// has one.
fn add_clearing_of(
    edits: &mut Vec<Edit>,
    alloc: Global,
    number: u64,
    transaction: Option<&Txn>,
    taken: &BTreeSet<u64>,
) -> Result<(), OutOfMemory>
    ensures { IfOk result (λ _. edits.new.items ≡ edits.old.items
        ++ made_of (clearing_one (contains nat_cmp taken.now)) number (option_copied transaction.entry)) }
{
    match transaction {
        Some(transaction) => add_clearing(edits, alloc, number, transaction, taken),
        None => Ok(()),
    }
}

/// The edits that clear the new splits among those that are taken: one for each transaction that has such a split. It
/// goes through all transactions.
fn clearing_all(
    alloc: Global,
    transactions: &[(u64, Txn)],
    taken: &BTreeSet<u64>,
) -> Result<Vec<Edit>, OutOfMemory>
    ensures { IfOk result (λ edits. edits.items ≡ remarking (clears (contains nat_cmp taken.now))
        (clearing (contains nat_cmp taken.now)) transactions.now) }
{
    let mut edits = Vec::new(alloc);
    for (number, transaction) in transactions {
        add_clearing(&mut edits, alloc, *number, transaction, taken)?;
    }
    Ok(edits)
}

/// Adds the edit that clears the transaction's new splits among those that are taken, where it has one.
fn add_clearing(
    edits: &mut Vec<Edit>,
    alloc: Global,
    number: u64,
    transaction: &Txn,
    taken: &BTreeSet<u64>,
) -> Result<(), OutOfMemory>
    ensures { IfOk result (λ _. edits.new.items ≡ edits.old.items ++ remarking
        (clears (contains nat_cmp taken.now)) (clearing (contains nat_cmp taken.now))
        ((number, transaction.now) ∷ [])) }
{
    if has_cleared(transaction, taken) {
        let transaction = cleared(alloc, transaction, taken)?;
        edits.push(Edit::Put(number, Thing::Txn(transaction)))?;
    }
    Ok(())
}

/// Whether one of the transaction's splits is new and taken.
fn has_cleared(transaction: &Txn, taken: &BTreeSet<u64>) -> bool
    ensures { result ≡ has_touched (clears (contains nat_cmp taken.now)) transaction.now }
{
    for split in transaction.splits.as_slice() {
        if becomes_cleared(split, taken) {
            return true;
        }
    }
    false
}

/// Whether the split is new and taken.
fn becomes_cleared(split: &Split, taken: &BTreeSet<u64>) -> bool
    ensures { result ≡ becomes_cleared (contains nat_cmp taken.now) split.now }
{
    match split.mark {
        Mark::New => taken.contains(&split.id),
        Mark::Cleared | Mark::Reconciled | Mark::Voided => false,
    }
}

/// The transaction, of whose splits those that are new and taken are cleared.
fn cleared(alloc: Global, transaction: &Txn, taken: &BTreeSet<u64>) -> Result<Txn, OutOfMemory>
    ensures { IfOk result (λ new. new ≡ remarked (clearing (contains nat_cmp taken.now)) transaction.now) }
{
    transaction.with_splits(splits_paired(alloc, transaction.splits.as_slice(), taken)?)
}

/// The splits, of which those that are new and taken are cleared.
fn splits_paired(
    alloc: Global,
    splits: &[Split],
    taken: &BTreeSet<u64>,
) -> Result<Many<Split>, OutOfMemory>
    ensures { IfOk result (λ new. new ≡ map (split_paired (contains nat_cmp taken.now)) splits.now) }
{
    let mut paired = Many::new(alloc);
    for split in splits {
        paired.push(split_paired(split, taken)?)?;
    }
    Ok(paired)
}

/// The split, cleared where it is new and taken.
fn split_paired(split: &Split, taken: &BTreeSet<u64>) -> Result<Split, OutOfMemory>
    ensures { IfOk result (λ new. new ≡ split_paired (contains nat_cmp taken.now) split.now) }
{
    let copy = split.copy()?;
    if becomes_cleared(split, taken) {
        return Ok(Split {
            mark: Mark::Cleared,
            ..copy
        });
    }
    Ok(copy)
}
