ghost use Rattle.std.specs.Prelude.{◌≡◌, ◌≢◌, ◌++◌, ◌≤◌, pos, ◌+ℤ◌, length, IfErr, IfOk, OnOk, map};
ghost use Rattle.std.specs.List.{flat_map};
ghost use Rattle.book_splits.specs.Balance.{IsWithin, splits_of, total};
ghost use Rattle.book_reconcile.specs.Reconciliation.{FinishesBy, by_day, dated_splits, difference, finish, until};
ghost use Rattle.book_reconcile.specs.Reconciliation.{opening as opening_of, splits_to_mark};
ghost use Rattle.book_reconcile.specs.declared.finish.FinishError.TheVariants.{Difference};

use crate::sums::{cleared_balance, has_mark, reconciled_balance};
use book_commodity::{Day, Many, OutOfMemory};
use book_splits::{Mark, MarkedSplit, Recon, Txn, Txns};
use std::alloc::Global;

/// Why a reconciliation isn't finished.
#[derive(Clone, Copy, Debug, PartialEq, Eq)]
pub enum FinishError {
    /// The closing balance is so much above what is reconciled and, on or before the day, cleared, in smallest units
    /// of the account's commodity; below it for a negative number.
    Difference { by: i128 },
    OutOfMemory,
}

/// How much the closing balance is above the sum of the account's reconciled splits and of those that are cleared on
/// or before the day, in smallest units of the account's commodity. It takes no memory.
pub fn difference(txns: &Txns, account: u64, day: Day, closing: i64) -> i128
    requires few { length (splits_of txns.now.entries) ≤ 1_000_000 }
    ensures { result ≡ difference account day closing txns.now.entries }
{
    let opening = reconciled_balance(txns, account);
    difference_from(txns, account, day, closing, opening)
}

/// The same, where the sum of the account's reconciled splits is known.
fn difference_from(txns: &Txns, account: u64, day: Day, closing: i64, opening: i128) -> i128
    requires few { length (splits_of txns.now.entries) ≤ 1_000_000 }
    requires opening { opening ≡ opening_of account txns.now.entries }
    requires within { IsWithin 1_000_000 opening }
    ensures { result ≡ difference account day closing txns.now.entries }
{
    i128::from(closing) - opening - cleared_balance(txns, account, day)
}

/// The record of a reconciliation of the account at the day with the closing balance, in smallest units: its opening
/// balance is the sum of the reconciled splits, and it marks the cleared splits on or before the day, in the order of
/// the register. `Difference` exactly where the difference isn't 0.
pub fn plan_finish(
    alloc: Global,
    txns: &Txns,
    account: u64,
    day: Day,
    closing: i64,
) -> Result<Recon, FinishError>
    requires few { length (splits_of txns.now.entries) ≤ 1_000_000 }
    ensures exact { FinishesBy account day closing txns.now.entries result }
    ensures closes { IfOk result (λ recon.
        recon.opening +ℤ total (map (λ split. split.quantity) recon.marked) ≡ recon.closing) }
{
    let opening = reconciled_balance(txns, account);
    check_difference(txns, account, day, closing, opening)?;
    let Ok(marked) = marked_splits(alloc, txns, account, day) else {
        return Err(FinishError::OutOfMemory);
    };
    Ok(Recon {
        account,
        day,
        opening,
        closing,
        marked,
    })
}

/// There is no difference, where the sum of the account's reconciled splits is known.
fn check_difference(
    txns: &Txns,
    account: u64,
    day: Day,
    closing: i64,
    opening: i128,
) -> Result<(), FinishError>
    requires few { length (splits_of txns.now.entries) ≤ 1_000_000 }
    requires opening { opening ≡ opening_of account txns.now.entries }
    requires within { IsWithin 1_000_000 opening }
    ensures none { OnOk result (difference account day closing txns.now.entries ≡ pos 0) }
    ensures by { IfErr result (λ error. (error ≡ Difference (difference account day closing txns.now.entries))
        × (difference account day closing txns.now.entries ≢ pos 0)) }
{
    let by = difference_from(txns, account, day, closing, opening);
    if by != 0 {
        return Err(FinishError::Difference { by });
    }
    Ok(())
}

/// The cleared splits of the account on or before the day, in the order of its register.
fn marked_splits(
    alloc: Global,
    txns: &Txns,
    account: u64,
    day: Day,
) -> Result<Many<MarkedSplit>, OutOfMemory>
    ensures { IfOk result (λ marked. marked ≡ splits_to_mark account day txns.now.entries) }
{
    let mut rows = cleared_rows(alloc, txns, account, day)?;
    sort_by_day(&mut rows)?;
    let mut marked = Many::new(alloc);
    for (_, split) in rows.as_slice() {
        marked.push(*split)?;
    }
    Ok(marked)
}

/// Sorts dated splits by day; those of one day stay in their order.
fn sort_by_day(rows: &mut Vec<(i32, MarkedSplit)>) -> Result<(), OutOfMemory>
    ensures { OnOk result (rows.new.items ≡ by_day rows.old.items) }
{
    rows.sort_by_key(|row| row.0)?;
    Ok(())
}

/// The cleared splits of the account on or before the day, each behind its day as a number, by transaction and place.
fn cleared_rows(
    alloc: Global,
    txns: &Txns,
    account: u64,
    day: Day,
) -> Result<Vec<(i32, MarkedSplit)>, OutOfMemory>
    ensures { IfOk result (λ rows. rows.items
        ≡ flat_map (λ entry. dated_splits account entry.1) (until day txns.now.entries)) }
{
    let mut rows = Vec::new(alloc);
    for (_, transaction) in txns.as_slice() {
        if transaction.day <= day {
            push_cleared(&mut rows, transaction, account)?;
        }
    }
    Ok(rows)
}

/// Adds the transaction's cleared splits on the account.
fn push_cleared(
    rows: &mut Vec<(i32, MarkedSplit)>,
    transaction: &Txn,
    account: u64,
) -> Result<(), OutOfMemory>
    ensures { OnOk result (rows.new.items ≡ rows.old.items ++ dated_splits account transaction.now) }
{
    let day = transaction.day.number();
    for split in transaction.splits.as_slice() {
        if has_mark(split, Mark::Cleared, account) {
            let marked = MarkedSplit {
                split: split.id,
                quantity: split.quantity,
            };
            rows.push((day, marked))?;
        }
    }
    Ok(())
}
