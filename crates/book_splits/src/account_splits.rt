ghost use Rattle.std.specs.Prelude.{◌≡◌, ◌==◌};
ghost use Rattle.std.specs.List.{list_any};
ghost use Rattle.book_splits.specs.Balance.{has_splits as stands_on};

use crate::{Split, Txns};

/// Whether the account has a split of the transactions.
pub fn has_splits(transactions: &Txns, account: u64) -> bool
    ensures { result ≡ stands_on transactions.now.entries account }
{
    for (_, transaction) in transactions.as_slice() {
        if stand_on(transaction.splits.as_slice(), account) {
            return true;
        }
    }
    false
}

/// Whether the account has one of the splits.
fn stand_on(splits: &[Split], account: u64) -> bool
    ensures { result ≡ list_any (λ split. split.account == account) splits.now }
{
    for split in splits {
        if split.account == account {
            return true;
        }
    }
    false
}
