ghost use Rattle.std.specs.Prelude.{◌≡◌};
ghost use Rattle.book_sound.specs.Tests.{passes_check};

use book_accounts::Tree;
use book_commodity::Commodities;
use book_splits::{Txn, check_txn};

/// Whether the transaction breaks no rule of transactions among these commodities and accounts.
pub(crate) fn passes_check(commodities: &Commodities, accounts: &Tree, transaction: &Txn) -> bool
    ensures { result ≡ passes_check commodities.now.entries accounts.now.entries transaction.now }
{
    check_txn(commodities, accounts, transaction).is_ok()
}
