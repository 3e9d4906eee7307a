ghost use Rattle.std.specs.Prelude.{◌≡◌, ◌++◌, ℕ, Contains, IfOk, filter};
ghost use Rattle.std.specs.List.Sorted.{IsStrictlyIncreasing};
ghost use Rattle.book_commodity.specs.Table.{Rises};
ghost use Rattle.book_finish.specs.Kept.{is_cleared_alone, is_row_to_mark, marked_in, numbers_in, numbers_to_mark};
ghost use Rattle.book_finish.specs.Kept.{row_marked};
ghost use Rattle.book_ledger.specs.Ledger.{register_of};

use book_commodity::{Day, Many, OutOfMemory};
use book_register::{Entry, Mark2, Register};
use book_splits::MarkedSplit;
use std::alloc::Global;

/// The numbers of the transactions that have a cleared split on the register's account on or before the day, rising,
/// each once.
pub fn marked_transactions(
    alloc: Global,
    register: &Register,
    day: Day,
) -> Result<Many<u64>, OutOfMemory>
    ensures { IfOk result (λ numbers. (account : _) (transactions : _) → Rises transactions
        → register.now.rows ≡ register_of account transactions
        → numbers ≡ numbers_to_mark account day transactions) }
{
    let mut numbers = marked_numbers(alloc, register, day)?;
    sort_once(&mut numbers);
    Ok(Many::of(numbers))
}

/// The cleared rows on or before the day, in the order of the register, each as a reconciliation marks it.
pub(crate) fn marked_splits(
    alloc: Global,
    register: &Register,
    day: Day,
) -> Result<Many<MarkedSplit>, OutOfMemory>
    ensures { IfOk result (λ marked. marked ≡ marked_in day register.now.rows) }
{
    let rows = rows_to_mark(alloc, register, day)?;
    let mut marked = Many::new(alloc);
    for row in rows.as_slice() {
        marked.push(marked_split(row))?;
    }
    Ok(marked)
}

/// The row as a reconciliation marks it.
fn marked_split(row: &Entry) -> MarkedSplit
    ensures { result ≡ row_marked row.now }
{
    MarkedSplit {
        split: row.split,
        quantity: row.quantity,
    }
}

/// The numbers of the transactions of these rows, in their order.
fn marked_numbers(alloc: Global, register: &Register, day: Day) -> Result<Vec<u64>, OutOfMemory>
    ensures { IfOk result (λ numbers. numbers.items ≡ numbers_in day register.now.rows) }
{
    let rows = rows_to_mark(alloc, register, day)?;
    let numbers = rows.iter().map(|row| row.txn).collect(alloc)?;
    Ok(numbers)
}

/// The cleared rows on or before the day, in the order of the register. It passes over the rows chunk by chunk.
fn rows_to_mark(alloc: Global, register: &Register, day: Day) -> Result<Vec<Entry>, OutOfMemory>
    ensures { IfOk result (λ rows. rows.items ≡ filter (is_row_to_mark day) register.now.rows) }
{
    let mut rows = Vec::new(alloc);
    let mut place = 0;
    while place < register.len() {
        let part = register.part(place);
        add_to_mark(&mut rows, part, day)?;
        place += part.len();
    }
    Ok(rows)
}

/// Adds those of the rows that are cleared and on or before the day.
fn add_to_mark(rows: &mut Vec<Entry>, part: &[Entry], day: Day) -> Result<(), OutOfMemory>
    ensures { IfOk result (λ _. rows.new.items ≡ rows.old.items ++ filter (is_row_to_mark day) part.now) }
{
    for row in part {
        if is_row_to_mark(row, day) {
            rows.push(*row)?;
        }
    }
    Ok(())
}

/// Sorts numbers, so that each stands there once.
pub fn sort_once(numbers: &mut Vec<u64>)
    ensures rises { IsStrictlyIncreasing numbers.new.items }
    ensures keeps { (number : ℕ) → Contains numbers.old.items number → Contains numbers.new.items number }
    ensures adds_none { (number : ℕ) → Contains numbers.new.items number → Contains numbers.old.items number }
{
    numbers.sort_unstable();
    numbers.dedup();
}

/// Whether a reconciliation up to the day marks the row.
fn is_row_to_mark(row: &Entry, day: Day) -> bool
    ensures { result ≡ is_row_to_mark day row.now }
{
    is_cleared_alone(row.mark) && row.day <= day
}

/// Whether the mark is that of a row which is cleared and not reconciled.
fn is_cleared_alone(mark: Mark2) -> bool
    ensures { result ≡ is_cleared_alone mark }
{
    match mark {
        Mark2::Cleared => true,
        Mark2::Plain | Mark2::Reconciled => false,
    }
}
