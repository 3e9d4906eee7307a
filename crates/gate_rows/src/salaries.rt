use crate::rows::{no_rows, put_all};
use book_keeper::MemKeeper;
use std::alloc::Global;
use std::io;

/// The rows of a book in euros: the euro, the root, a bank and an income.
const FRONT: [&str; 4] = [
    "2 1 02000000000000000843555252454e4359000000000000000345555200000000000000000000000000000064",
    "3 2 020000000000000004526f6f740100000000000000010000000000000000000000000000000000000100",
    "3 3 02000000000000000442616e6b03000000000000000101000000000000000200000000000000000000000000000000000000",
    "3 4 02000000000000000653616c6172790b000000000000000101000000000000000200000000000000000000000000000000000000",
];

/// The body of a transaction before its first split: the euro, a day, no number, a description, two splits.
const PAY: &str =
    "0200000000000000010000000000004d0f000000000000000000000000000000035061790000000000000002";

/// What stands between the account of a split and its value: no memo, no action, the mark new, no reconciliation.
const UNMARKED: &str = "000000000000000000000000000000000100";

/// What a transaction ends with: what is kept of a voided one is absent.
const NOT_VOIDED: &str = "00";

/// Puts the head of a book whose next number this is, and to which so many changes were made.
fn put_head(alloc: Global, keeper: &mut MemKeeper, next: u64, changes: u64) -> io::Result<()> {
    let numbers = format!(in alloc; "{next:016x}{changes:016x}{changes:016x}")?;
    let line = format!(in alloc; "1 0 02{numbers}{:016x}{:016x}{:016x}", 0u64, 0u64, 1u64)?;
    put_all(alloc, keeper, line.as_str())
}

/// Puts a transaction with this number, whose splits have the two numbers behind it: the account 3 gets a salary from
/// the account 4.
fn put_salary(alloc: Global, keeper: &mut MemKeeper, number: u64) -> io::Result<()> {
    let first = number.saturating_add(1);
    let second = number.saturating_add(2);
    let gets = format!(in alloc;
        "{first:016x}{:016x}{UNMARKED}000000000003d090000000000003d090",
        3u64
    )?;
    let gives = format!(in alloc;
        "{second:016x}{:016x}{UNMARKED}fffffffffffc2f70fffffffffffc2f70",
        4u64
    )?;
    let line = format!(in alloc; "4 {number} {PAY}{gets}{gives}{NOT_VOIDED}")?;
    put_all(alloc, keeper, line.as_str())
}

/// A keeper of the rows of a book with so many transactions.
pub fn keeper_of(alloc: Global, count: u64) -> io::Result<MemKeeper> {
    let mut keeper = no_rows(alloc);
    let next = count.saturating_mul(3).saturating_add(5);
    put_head(alloc, &mut keeper, next, count.saturating_add(2))?;
    for line in FRONT {
        put_all(alloc, &mut keeper, line)?;
    }
    for place in 0..count {
        put_salary(
            alloc,
            &mut keeper,
            place.saturating_mul(3).saturating_add(5),
        )?;
    }
    Ok(keeper)
}
