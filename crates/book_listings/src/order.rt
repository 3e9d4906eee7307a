ghost use Rattle.std.specs.Prelude.{◌≡◌, IfOk};
ghost use Rattle.book_listings.specs.Journal.{AreByDay, dated};

use crate::Days;
use crate::days::is_within;
use book_commodity::OutOfMemory;
use book_splits::Txn;
use std::alloc::Global;

/// The transactions on these days, by day: the day of each, and its number.
pub(crate) fn by_day(
    alloc: Global,
    transactions: &[(u64, Txn)],
    days: &Option<Days>,
) -> Result<Vec<(i32, u64)>, OutOfMemory>
    ensures { IfOk result (λ order. AreByDay (dated days.now transactions.now) order.items) }
{
    sorted(dated(alloc, transactions, days)?)
}

/// Transactions by day, each given by its day and its number.
pub(crate) fn sorted(all: Vec<(i32, u64)>) -> Result<Vec<(i32, u64)>, OutOfMemory>
    ensures { IfOk result (λ order. AreByDay all.items order.items) }
{
    let mut order = all;
    order.sort_by_key(|dated| dated.0)?;
    Ok(order)
}

/// The transactions on these days, by number: the day of each, and its number.
fn dated(
    alloc: Global,
    transactions: &[(u64, Txn)],
    days: &Option<Days>,
) -> Result<Vec<(i32, u64)>, OutOfMemory>
    ensures { IfOk result (λ all. all.items ≡ dated days.now transactions.now) }
{
    let mut all = Vec::new(alloc);
    for (number, transaction) in transactions {
        if is_within(days, transaction.day) {
            all.push((transaction.day.number(), *number))?;
        }
    }
    Ok(all)
}
