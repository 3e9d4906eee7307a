ghost use Rattle.std.specs.Prelude.{◌≡◌, IfOk};
ghost use Rattle.book_export.specs.Export.{AreByDay, dated};

use book_commodity::OutOfMemory;
use book_splits::{Txn, Txns};
use std::alloc::Global;

/// The transactions by day: the day of each, and its number.
pub(crate) fn by_day(alloc: Global, transactions: &Txns) -> Result<Vec<(i32, u64)>, OutOfMemory>
    ensures { IfOk result (λ order. AreByDay (dated transactions.now.entries) order.items) }
{
    sorted(dated(alloc, transactions.as_slice())?)
}

/// Transactions by day, each given by its day and its number.
fn sorted(all: Vec<(i32, u64)>) -> Result<Vec<(i32, u64)>, OutOfMemory>
    ensures { IfOk result (λ order. AreByDay all.items order.items) }
{
    let mut order = all;
    order.sort_by_key(|dated| dated.0)?;
    Ok(order)
}

/// The transactions by number: the day of each, and its number.
fn dated(alloc: Global, transactions: &[(u64, Txn)]) -> Result<Vec<(i32, u64)>, OutOfMemory>
    ensures { IfOk result (λ all. all.items ≡ dated transactions.now) }
{
    let mut all = Vec::new(alloc);
    for (number, transaction) in transactions {
        all.push((transaction.day.number(), *number))?;
    }
    Ok(all)
}
