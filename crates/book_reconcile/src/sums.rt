ghost use Rattle.std.specs.Prelude.{◌≡◌, ◌≤◌, [], ◌∷◌, length};
ghost use Rattle.book_splits.specs.Balance.{IsWithin, splits_of};
ghost use Rattle.book_splits.specs.declared.split.Mark.TheVariants.{Cleared, Reconciled};
ghost use Rattle.book_reconcile.specs.Reconciliation.{balance_with, has_mark as is_marked, is_mark, until};

use book_commodity::Day;
use book_splits::{Mark, Split, Txns};

/// Whether two marks are the same.
fn is_same(one: Mark, other: Mark) -> bool
    ensures { result ≡ is_mark one other }
{
    one == other
}

/// Whether the split stands on the account and has the mark.
pub(crate) fn has_mark(split: &Split, mark: Mark, account: u64) -> bool
    ensures { result ≡ is_marked mark account split.now }
{
    split.account == account && is_same(split.mark, mark)
}

/// The sum of the quantities of the splits on the account that have the mark.
fn balance_of(splits: &[Split], mark: Mark, account: u64) -> i128
    ensures sum { result ≡ balance_with mark account splits.now }
    ensures within { IsWithin (length splits.now) result }
{
    let mut sum = 0i128;
    for split in splits {
        sum += i128::from(quantity_of(split, mark, account));
    }
    sum
}

/// The quantity of the split, where it stands on the account and has the mark; else 0.
fn quantity_of(split: &Split, mark: Mark, account: u64) -> i64
    ensures { result ≡ balance_with mark account (split.now ∷ []) }
{
    if has_mark(split, mark, account) {
        split.quantity
    } else {
        0
    }
}

/// The sum of the quantities of the account's reconciled splits, over all days.
pub(crate) fn reconciled_balance(txns: &Txns, account: u64) -> i128
    requires { length (splits_of txns.now.entries) ≤ 1_000_000 }
    ensures sum { result ≡ balance_with Reconciled account (splits_of txns.now.entries) }
    ensures within { IsWithin 1_000_000 result }
{
    let mut sum = 0i128;
    for (_, transaction) in txns.as_slice() {
        sum += balance_of(transaction.splits.as_slice(), Mark::Reconciled, account);
    }
    sum
}

/// The sum of the quantities of the account's cleared splits on or before the day.
pub(crate) fn cleared_balance(txns: &Txns, account: u64, day: Day) -> i128
    requires { length (splits_of txns.now.entries) ≤ 1_000_000 }
    ensures sum { result ≡ balance_with Cleared account (splits_of (until day txns.now.entries)) }
    ensures within { IsWithin 1_000_000 result }
{
    let mut sum = 0i128;
    for (_, transaction) in txns.as_slice() {
        if transaction.day > day {
            continue;
        }
        sum += balance_of(transaction.splits.as_slice(), Mark::Cleared, account);
    }
    sum
}
