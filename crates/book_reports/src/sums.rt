ghost use Rattle.std.specs.Prelude.{◌≡◌, ◌≤◌, All, IfOk, IsSome, OnOk, map, unsigned_abs};
ghost use Rattle.book_commodity.specs.Table.{value_of};
ghost use Rattle.book_limits.specs.Limits.{largest_sum};
ghost use Rattle.book_reports.specs.Measure.{CanBeSummed, rows_in};
ghost use Rattle.book_reports.specs.Sheet.{until};
ghost use Rattle.book_reports.specs.Sums.{AreSums, IsAdded, IsSummed, sum_at};

use crate::View;
use crate::period::Period;
use book_commodity::{Day, Many, OutOfMemory, Steps, Table};
use book_register::Register;
use std::alloc::Global;

/// The number of an account, and the sums of the values of its rows by the currencies of their transactions.
#[derive(Drop)]
pub(crate) struct AccountSums {
    pub(crate) account: u64,
    by_currency: Table<i128>,
}

impl AccountSums {
    /// The sums of the accounts up to a day, in the order that is given. Each row is read once.
    pub(crate) fn of_all(
        alloc: Global,
        view: &View,
        order: &[u64],
        day: Day,
    ) -> Result<Many<AccountSums>, OutOfMemory>
        requires { All (λ account. IsSome (value_of account view.now.accounts)) order.now }
        ensures accounts { IfOk result (λ all. map (λ sums. sums.account) all ≡ order.now) }
        ensures summed { IfOk result (All (λ sums. IsSummed view.now (until day) sums)) }
    {
        let mut all = Many::new(alloc);
        for account in order {
            all.push(AccountSums::of(alloc, view, *account, day)?)?;
        }
        Ok(all)
    }

    /// The sums of an account up to a day.
    fn of(alloc: Global, view: &View, account: u64, day: Day) -> Result<AccountSums, OutOfMemory>
        requires { IsSome (value_of account view.now.accounts) }
        ensures account { IfOk result (λ sums. sums.account ≡ account) }
        ensures summed { IfOk result (λ sums. IsSummed view.now (until day) sums) }
    {
        let by_currency = sums_of(alloc, view.register(account), &Period::until(day))?;
        Ok(AccountSums {
            account,
            by_currency,
        })
    }

    /// The sum in a currency.
    pub(crate) fn in_currency(&self, currency: u64) -> i128
        ensures { result ≡ sum_at currency self.now.by_currency.entries }
    {
        sum_at(&self.by_currency, currency)
    }
}

/// The sums of the values of the rows in a period, by currency.
fn sums_of(alloc: Global, register: &Register, period: &Period) -> Result<Table<i128>, OutOfMemory>
    requires { CanBeSummed register.now.rows }
    ensures { IfOk result (λ sums. AreSums (rows_in period.now register.now.rows) sums.entries) }
{
    let mut sums = Table::new(alloc);
    let mut steps = Steps::new();
    for place in 0..register.len() {
        let row = register.row(place, &mut steps);
        add(&mut sums, row.currency, period.value_of(&row))?;
    }
    Ok(sums)
}

/// Adds a value to the sum in its currency.
fn add(sums: &mut Table<i128>, currency: u64, value: i64) -> Result<(), OutOfMemory>
    requires { unsigned_abs (sum_at currency sums.old.entries) ≤ largest_sum }
    ensures { OnOk result (IsAdded currency value sums.old.entries sums.new.entries) }
{
    let sum = sum_at(sums, currency) + i128::from(value);
    sums.reserve(1)?;
    let _ = sums.put(currency, sum);
    Ok(())
}

/// The sum that is kept for a currency; zero where there is none.
fn sum_at(sums: &Table<i128>, currency: u64) -> i128
    ensures { result ≡ sum_at currency sums.now.entries }
{
    match sums.find(currency) {
        Some(sum) => *sum,
        None => 0,
    }
}
