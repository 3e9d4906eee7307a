ghost use Rattle.std.specs.Prelude.{◌≡◌};
ghost use Rattle.book_commodity.specs.Table.{Rises};
ghost use Rattle.book_finish.specs.Kept.{AreWithinLimits};
ghost use Rattle.book_ledger.specs.Ledger.{register_of};
ghost use Rattle.book_reconcile.specs.Reconciliation.{FinishesBy};

use crate::balances::{difference_from, opening_balance};
use crate::marked::marked_splits;
use book_commodity::Day;
use book_reconcile::FinishError;
use book_register::Register;
use book_splits::Recon;
use std::alloc::Global;

/// The record of a reconciliation of the account at the day with the closing balance, in smallest units, from the
/// account's register: its opening balance is the sum of the reconciled splits, and it marks the cleared splits on or
/// before the day, in the order of the register. `Difference` exactly where the difference isn't 0. It reads the sums
/// of the register's chunks, then each row once, chunk by chunk, and no transaction.
pub fn plan_finish_kept(
    alloc: Global,
    register: &Register,
    account: u64,
    day: Day,
    closing: i64,
) -> Result<Recon, FinishError>
    requires { AreWithinLimits register.now.rows }
    ensures { (transactions : _) → Rises transactions → register.now.rows ≡ register_of account transactions
        → FinishesBy account day closing transactions result }
{
    let opening = opening_balance(register);
    let by = difference_from(register, day, closing, opening);
    if by != 0 {
        return Err(FinishError::Difference { by });
    }
    let Ok(marked) = marked_splits(alloc, register, day) else {
        return Err(FinishError::OutOfMemory);
    };
    Ok(Recon {
        account,
        day,
        opening,
        closing,
        marked,
    })
}
