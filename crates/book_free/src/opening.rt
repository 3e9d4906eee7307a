ghost use Rattle.std.specs.Prelude.{◌≡◌, ℕ, ◌++◌, ◌∷◌, [], filter, map, IfOk, OnOk, Some};
ghost use Rattle.book_commodity.specs.Table.{value_of};
ghost use Rattle.book_sound.specs.Soundness.{IsSoundBook};
ghost use Rattle.book_undo.specs.Book.{book_of};
ghost use Rattle.book_free.specs.FreeSplits.{free_among, free_of, free_split, is_free as is_free_split, line_of};
ghost use Rattle.book_free.specs.Kept.{Keeps};
ghost use Rattle.book_free.specs.Opening.{AreMatchedOnce, in_order, line_pairs};
ghost use Rattle.book_free.specs.Seen.{is_taken, line_entries, noted};

use crate::FreeSplits;
use book_commodity::{Day, OutOfMemory, Table};
use book_match::{AmountIndex, Free};
use book_splits::{Mark, Split, Txn};
use book_statement::{Line, LineState};
use book_undo::Plain;
use std::alloc::Global;

impl FreeSplits {
    /// What is kept of the free splits of a book: one pass over its lines and one over its transactions, and a sort.
    pub fn of(alloc: Global, plain: &Plain) -> Result<FreeSplits, OutOfMemory>
        requires { IsSoundBook (book_of plain.now) }
        ensures kept { IfOk result (λ kept. Keeps kept (book_of plain.now)) }
        ensures changes { IfOk result (λ kept. kept.index.changes ≡ 0) }
    {
        let matched = matched_lines(alloc, plain.lines.as_slice())?;
        let free = free_among(alloc, plain.transactions.as_slice(), &matched)?;
        let index = AmountIndex::of_all(free)?;
        Ok(FreeSplits { index, matched })
    }
}

/// The numbers of the lines that splits are matched with, by those of the splits.
fn matched_lines(alloc: Global, lines: &[(u64, Line)]) -> Result<Table<u64>, OutOfMemory>
    requires { AreMatchedOnce lines.now }
    ensures { IfOk result (λ table. (number : ℕ) → value_of number table.entries ≡ line_of number lines.now) }
{
    let mut pairs = matched_pairs(alloc, lines)?;
    sort(&mut pairs)?;
    table_of(alloc, pairs.as_slice())
}

/// The numbers of the matched splits, each with that of the line that is matched with it, in the order of the lines.
fn matched_pairs(alloc: Global, lines: &[(u64, Line)]) -> Result<Vec<(u64, u64)>, OutOfMemory>
    ensures { IfOk result (λ pairs. pairs.items ≡ line_pairs lines.now) }
{
    let mut pairs = Vec::new(alloc);
    for (number, line) in lines {
        add_pair(&mut pairs, *number, line)?;
    }
    Ok(pairs)
}

/// Adds that of a line, if it is matched.
fn add_pair(pairs: &mut Vec<(u64, u64)>, number: u64, line: &Line) -> Result<(), OutOfMemory>
    ensures { OnOk result (pairs.new.items ≡ pairs.old.items ++ line_entries number (Some line.now)) }
{
    if let LineState::Matched(split) = line.state {
        pairs.push((split, number))?;
    }
    Ok(())
}

/// Sorts them by the numbers of the splits, so that each can be put behind the others.
fn sort(pairs: &mut Vec<(u64, u64)>) -> Result<(), OutOfMemory>
    ensures { OnOk result (pairs.new.items ≡ in_order pairs.old.items) }
{
    pairs.sort_by_key(|pair| pair.0)?;
    Ok(())
}

/// The table of them.
fn table_of(alloc: Global, pairs: &[(u64, u64)]) -> Result<Table<u64>, OutOfMemory>
    ensures { IfOk result (λ table. table.entries ≡ noted pairs.now []) }
{
    let mut table = Table::new(alloc);
    table.reserve(pairs.len())?;
    for (split, line) in pairs {
        drop(table.put(*split, *line));
    }
    Ok(table)
}

/// The splits of the transactions that may be matched, where lines are matched with those of the table.
fn free_among(
    alloc: Global,
    transactions: &[(u64, Txn)],
    matched: &Table<u64>,
) -> Result<Vec<Free>, OutOfMemory>
    ensures { IfOk result (λ free. free.items ≡ free_among (is_taken matched.now.entries) transactions.now) }
{
    let mut free = Vec::new(alloc);
    for (_, transaction) in transactions {
        add_free(&mut free, transaction, matched)?;
    }
    Ok(free)
}

/// Adds the splits of a transaction that may be matched.
fn add_free(
    free: &mut Vec<Free>,
    transaction: &Txn,
    matched: &Table<u64>,
) -> Result<(), OutOfMemory>
    ensures { OnOk result (free.new.items
        ≡ free.old.items ++ free_of (is_taken matched.now.entries) transaction.now) }
{
    for split in transaction.splits.as_slice() {
        add_split(free, transaction.day, split, matched)?;
    }
    Ok(())
}

/// Adds the split of a transaction of this day, if it may be matched.
fn add_split(
    free: &mut Vec<Free>,
    day: Day,
    split: &Split,
    matched: &Table<u64>,
) -> Result<(), OutOfMemory>
    ensures { OnOk result (free.new.items ≡ free.old.items
        ++ map (free_split day) (filter (is_free_split (is_taken matched.now.entries)) (split.now ∷ []))) }
{
    if is_free(split, matched) {
        free.push(free_split(day, split))?;
    }
    Ok(())
}

/// Whether the split is new or cleared, and no line is matched with it.
fn is_free(split: &Split, matched: &Table<u64>) -> bool
    ensures { result ≡ is_free_split (is_taken matched.now.entries) split.now }
{
    match split.mark {
        Mark::New | Mark::Cleared => matched.find(split.id).is_none(),
        Mark::Reconciled | Mark::Voided => false,
    }
}

/// The split with the day of its transaction, as the index has it.
pub(crate) fn free_split(day: Day, split: &Split) -> Free
    ensures { result ≡ free_split day split.now }
{
    Free {
        account: split.account,
        amount: split.quantity,
        day,
        split: split.id,
    }
}
