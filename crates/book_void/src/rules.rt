ghost use Rattle.std.specs.Prelude.{◌≡◌, IfOk, is_none, true};
ghost use Rattle.std.specs.List.{list_all};
ghost use Rattle.book_commodity.specs.Rules.{first_broken};
ghost use Rattle.book_splits.specs.Check.{txn_rules};
ghost use Rattle.book_void.specs.Voiding.{is_rightly_voided, keeps_as_many, restored};

use crate::restoring::restored;
use book_accounts::Tree;
use book_commodity::{Commodities, OutOfMemory};
use book_splits::{Mark, Split, Txn, check_txn};
use std::alloc::Global;

/// Whether as many amounts are kept as there are splits, where the transaction is voided.
pub fn keeps_as_many(transaction: &Txn) -> bool
    ensures { result ≡ keeps_as_many transaction.now.voided transaction.now.splits }
{
    match &transaction.voided {
        Some(void) => void.kept.len() == transaction.splits.len(),
        None => true,
    }
}

/// Whether each split is voided, names no reconciliation, and has amounts of zero.
pub fn are_rightly_voided(splits: &[Split]) -> bool
    ensures { result ≡ list_all is_rightly_voided splits.now }
{
    splits.iter().all(is_rightly_voided)
}

/// Whether the split is voided, names no reconciliation, and has amounts of zero.
fn is_rightly_voided(split: &Split) -> bool
    ensures { result ≡ is_rightly_voided split.now }
{
    split.mark == Mark::Voided && split.recon.is_none() && split.value == 0 && split.quantity == 0
}

/// Whether the transaction, as it is brought back where it is voided, breaks no rule of transactions among these
/// commodities and accounts. Where it is voided, as many amounts are kept as it has splits. The error is out of
/// memory.
pub fn passes_restored(
    alloc: Global,
    commodities: &Commodities,
    accounts: &Tree,
    transaction: &Txn,
) -> Result<bool, OutOfMemory>
    requires { keeps_as_many transaction.now.voided transaction.now.splits ≡ true }
    ensures { IfOk result (λ passes. passes ≡ is_none
        (first_broken (txn_rules commodities.now.entries accounts.now.entries (restored transaction.now)))) }
{
    if transaction.voided.is_none() {
        return Ok(check_txn(commodities, accounts, transaction).is_ok());
    }
    let restored = restored(alloc, transaction)?;
    Ok(check_txn(commodities, accounts, &restored).is_ok())
}
