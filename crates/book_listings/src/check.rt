ghost use Rattle.std.specs.Prelude.{◌≡◌, ◌∷◌, ◌++◌, IfOk, OnOk};
ghost use Rattle.book_listings.specs.Check.{bank_rows, check_text, count_columns, count_row, count_rows, counts_text};
ghost use Rattle.book_listings.specs.Check.{entered_rows};

use crate::PresentBook;
use book_commodity::{Many, OutOfMemory, Text};
use book_reports::Form;
use book_table::{Cells, Side, row_of, table_text};
use std::alloc::Global;

/// The names of the columns.
const COLUMNS: [&str; 2] = ["count", "of"];

/// Where the texts of each column stand.
const SIDES: [Side; 2] = [Side::Right, Side::Free];

/// What a check says of a book that opens: that it is sound, its version, and how much of each kind it has.
#[tactic(auto, unfolding(crate::specs::Check::check_text))]
pub fn check_text(alloc: Global, book: &PresentBook, version: u64) -> Result<Text, OutOfMemory>
    ensures { IfOk result (λ text. text ≡ check_text book.now version) }
{
    let counts = counts_text(alloc, book)?;
    Ok(Text::of(format!(in alloc;
        "The book is sound: each row could be read, and no rule is broken. It is at version {version}.\n\n{}",
        counts.as_str()
    )?))
}

/// How much of each kind a book has.
#[tactic(auto, unfolding(crate::specs::Check::counts_text))]
fn counts_text(alloc: Global, book: &PresentBook) -> Result<Text, OutOfMemory>
    ensures { IfOk result (λ text. text ≡ counts_text book.now) }
{
    let rows = count_rows(alloc, book)?;
    table_text(alloc, Form::Plain, &SIDES, rows.as_slice())
}

/// The rows of all kinds, behind the names of the columns.
fn count_rows(alloc: Global, book: &PresentBook) -> Result<Many<Many<Text>>, OutOfMemory>
    ensures { IfOk result (λ rows. rows ≡ count_columns ∷ count_rows book.now) }
{
    let mut rows = Many::new(alloc);
    rows.push(row_of(alloc, &COLUMNS)?)?;
    add_entered(alloc, &mut rows, book)?;
    add_of_bank(alloc, &mut rows, book)?;
    Ok(rows)
}

/// Adds the rows of what is entered.
fn add_entered(
    alloc: Global,
    rows: &mut Many<Many<Text>>,
    book: &PresentBook,
) -> Result<(), OutOfMemory>
    ensures { OnOk result (rows.new ≡ rows.old ++ entered_rows book.now) }
{
    let plain = book.plain();
    let splits = book.split_count();
    rows.push(count_row(alloc, plain.accounts.len() as u64, "accounts")?)?;
    rows.push(count_row(alloc, plain.commodities.len() as u64, "commodities")?)?;
    rows.push(count_row(alloc, plain.transactions.len() as u64, "transactions")?)?;
    rows.push(count_row(alloc, splits, "splits")?)?;
    rows.push(count_row(alloc, plain.prices.len() as u64, "prices")?)?;
    rows.push(count_row(alloc, plain.schedules.len() as u64, "schedules")?)?;
    Ok(())
}

/// Adds the rows of what came from a bank, or says how the book agrees with it.
fn add_of_bank(
    alloc: Global,
    rows: &mut Many<Many<Text>>,
    book: &PresentBook,
) -> Result<(), OutOfMemory>
    ensures { OnOk result (rows.new ≡ rows.old ++ bank_rows book.now) }
{
    let plain = book.plain();
    rows.push(count_row(alloc, plain.statements.len() as u64, "statements")?)?;
    rows.push(count_row(alloc, plain.lines.len() as u64, "lines of statements")?)?;
    rows.push(count_row(alloc, plain.bindings.len() as u64, "bindings")?)?;
    rows.push(count_row(alloc, plain.reconciliations.len() as u64, "reconciliations")?)?;
    Ok(())
}

/// A count, and what is counted.
fn count_row(alloc: Global, count: u64, what: &str) -> Result<Many<Text>, OutOfMemory>
    ensures { IfOk result (λ row. row ≡ count_row count what.now) }
{
    let mut cells = Cells::new(alloc);
    cells.number(count)?;
    cells.text(what)?;
    Ok(cells.row())
}
