ghost use Rattle.std.specs.Prelude.{◌≡◌, ◌+◌, ◌≤◌, IfOk, nat_lt, not, ◌&&◌};
ghost use Rattle.std.specs.Bool.{OnTrue};
ghost use Rattle.book_splits.specs.TransactionRules.{numbers_of};
ghost use Rattle.book_void.specs.Voiding.{keeps_as_many, restored};
ghost use Rattle.book_sound.specs.MarkedTransactionRules.{are_rightly_marked, marked_transaction_rules};
ghost use Rattle.book_sound.specs.Tests.{passes_check};
ghost use Rattle.book_check.specs.FirstUnsound.{first_in, splits_in};
ghost use Rattle.book_check.specs.Marks.{HasMarks};
ghost use Rattle.book_check.specs.Numbers.{AddsAll, are_new};

use crate::marks::{MarkKey, are_rightly_marked, marks_of};
use crate::numbers::Numbers;
use crate::seen::Seen;
use book_accounts::Tree;
use book_commodity::{Commodities, OutOfMemory, Table};
use book_splits::{Recon, Split, Txn, Txns};
use book_void::{keeps_as_many, passes_restored};
use std::alloc::Global;

/// How many transactions a book has at most.
const MOST: usize = 200_000;

/// How many splits the transactions of a book have at most.
const MOST_SPLITS: usize = 1_000_000;

/// The first number at which a transaction breaks a rule of its kind, or is one too many, or has a split too many.
pub(crate) fn first_transaction(
    alloc: Global,
    commodities: &Commodities,
    accounts: &Tree,
    reconciliations: &Table<Recon>,
    transactions: &Txns,
) -> Result<Option<u64>, OutOfMemory>
    ensures { IfOk result (λ found. found ≡ first_in
        (marked_transaction_rules commodities.now.entries accounts.now.entries reconciliations.now.entries
        transactions.now.entries)
        200000 splits_in 1000000 0 0 transactions.now.entries) }
{
    let marks = marks_of(alloc, reconciliations)?;
    let mut seen = Numbers::new(alloc);
    let mut sum = 0;
    for place in 0..transactions.len() {
        let number = transactions.number_at(place);
        let transaction = transactions.value_at(place);
        let count = transaction.splits.len();
        if is_past(place, sum, count) {
            return Ok(Some(number));
        }
        let kept = keeps_rules(
            alloc,
            commodities,
            accounts,
            reconciliations,
            &marks,
            transaction,
        )?;
        if !kept {
            return Ok(Some(number));
        }
        if !add_new(&mut seen, transaction.splits.as_slice())? {
            return Ok(Some(number));
        }
        sum += count;
    }
    Ok(None)
}

/// Whether a transaction at the place, with so many splits, goes past a limit; those before it have this sum of splits.
fn is_past(place: usize, sum: usize, count: usize) -> bool
    requires { sum ≤ 1000000 }
    ensures { result ≡ not (nat_lt place 200000 && not (nat_lt 1000000 (sum + count))) }
{
    place >= MOST || count > MOST_SPLITS - sum
}

/// Whether the transaction, as it is brought back where it is voided, passes the check of transactions, its splits are
/// as its state says, and where it is voided the amounts of each are kept.
fn keeps_rules(
    alloc: Global,
    commodities: &Commodities,
    accounts: &Tree,
    reconciliations: &Table<Recon>,
    marks: &Seen<MarkKey>,
    transaction: &Txn,
) -> Result<bool, OutOfMemory>
    requires { HasMarks marks.now reconciliations.now.entries }
    ensures { IfOk result (λ kept. kept ≡
        (passes_check commodities.now.entries accounts.now.entries (restored transaction.now)
        && (are_rightly_marked reconciliations.now.entries transaction.now.voided transaction.now.splits
        && keeps_as_many transaction.now.voided transaction.now.splits))) }
{
    if !keeps_as_many(transaction) {
        return Ok(false);
    }
    if !are_rightly_marked(reconciliations, marks, transaction) {
        return Ok(false);
    }
    passes_restored(alloc, commodities, accounts, transaction)
}

/// Adds the numbers of the splits, and says whether each is new.
fn add_new(seen: &mut Numbers, splits: &[Split]) -> Result<bool, OutOfMemory>
    ensures new { IfOk result (λ new. new ≡ are_new seen.old (numbers_of splits.now)) }
    ensures adds { IfOk result (λ new. OnTrue new (AddsAll seen.old (numbers_of splits.now) seen.new)) }
{
    for split in splits {
        if seen.insert(split.id)? {
            return Ok(false);
        }
    }
    Ok(true)
}
