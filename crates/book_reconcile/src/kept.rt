ghost use Rattle.std.specs.Prelude.{◌≡◌, ◌==◌, Contains, IfSome, true};
ghost use Rattle.std.specs.List.{list_any};
ghost use Rattle.book_splits.specs.Balance.{splits_of};
ghost use Rattle.book_splits.specs.TransactionRules.{are_once, numbers_of};
ghost use Rattle.book_reconcile.specs.Reconciliation.{is_intact, is_kept, is_kept_by};

use crate::sums::has_mark;
use book_splits::{Mark, MarkedSplit, Recon, Split, Txns};

/// Whether the record of the reconciliation with this number is intact: each split of its list stands in its account,
/// is reconciled under the number and has the quantity kept. It takes no memory.
pub fn intact(txns: &Txns, number: u64, recon: &Recon) -> bool
    requires once { are_once (numbers_of (splits_of txns.now.entries)) ≡ true }
    ensures { result ≡ is_intact number recon.now txns.now.entries }
{
    for marked in recon.marked.as_slice() {
        if !is_kept(txns, number, recon.account, *marked) {
            return false;
        }
    }
    true
}

/// Whether a split of the transactions is the marked one, as the reconciliation of the account kept it.
fn is_kept(txns: &Txns, number: u64, account: u64, marked: MarkedSplit) -> bool
    requires { are_once (numbers_of (splits_of txns.now.entries)) ≡ true }
    ensures { result ≡ is_kept number account txns.now.entries marked }
{
    if let Some(split) = split_nearby(txns, marked.split) {
        return is_kept_by(split, number, account, marked);
    }
    for (_, transaction) in txns.as_slice() {
        if is_any_kept(transaction.splits.as_slice(), number, account, marked) {
            return true;
        }
    }
    false
}

/// The split with a number, where the last transaction with a smaller number has it, as it does unless the split was
/// added to a transaction later: a transaction's number is drawn before those of its splits.
fn split_nearby(txns: &Txns, number: u64) -> Option<&Split>
    ensures { IfSome result (λ split. (split.now.id ≡ number) × Contains (splits_of txns.now.entries) split.now) }
{
    let entries = txns.as_slice();
    let place = entries.partition_point(|entry| entry.0 < number);
    if place == 0 {
        return None;
    }
    split_with(entries[place - 1].1.splits.as_slice(), number)
}

/// The first of the splits that has the number; `None` where none of them has it.
fn split_with(splits: &[Split], number: u64) -> Option<&Split>
    ensures { IfSome result (λ split. (split.now.id ≡ number) × Contains splits.now split.now) }
{
    for split in splits {
        if split.id == number {
            return Some(split);
        }
    }
    None
}

/// Whether one of the splits is the marked one, as the reconciliation of the account kept it.
fn is_any_kept(splits: &[Split], number: u64, account: u64, marked: MarkedSplit) -> bool
    ensures { result ≡ list_any (is_kept_by number account marked) splits.now }
{
    for split in splits {
        if is_kept_by(split, number, account, marked) {
            return true;
        }
    }
    false
}

/// Whether the split is the marked one: it stands on the account, is reconciled under the number, and has the quantity.
fn is_kept_by(split: &Split, number: u64, account: u64, marked: MarkedSplit) -> bool
    ensures { result ≡ is_kept_by number account marked split.now }
{
    split.id == marked.split
        && has_mark(split, Mark::Reconciled, account)
        && split.recon == Some(number)
        && split.quantity == marked.quantity
}
