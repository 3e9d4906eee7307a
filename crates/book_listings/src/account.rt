ghost use Rattle.std.specs.Prelude.{◌≡◌, ◌∷◌, ◌++◌, [], IfOk, IsSome, OnOk, decimal, ℕ};
ghost use Rattle.std.specs.Option.{option_map_or, option_or};
ghost use Rattle.book_commodity.specs.Table.{value_of};
ghost use Rattle.book_ledger.specs.Ledger.{register_of};
ghost use Rattle.book_reports.specs.Measure.{commodity_of, fraction_of};
ghost use Rattle.book_reports.specs.RegisterText.{description_in, mark_letter, number_in};
ghost use Rattle.book_listings.specs.Account.{account_text, line_of, matched_in, matched_of, memo_at, memo_in};
ghost use Rattle.book_listings.specs.Account.{other_side, other_side_in, others_than, register_columns};
ghost use Rattle.book_listings.specs.Account.{register_row, register_rows, register_text, rows_after, side_of};

use crate::PresentBook;
use crate::accounts::name_in;
use book_commodity::{Many, OutOfMemory, Steps, Table, Text};
use book_register::{Entry, Mark2};
use book_reports::Form;
use book_splits::{Split, Txn};
use book_statement::{Line, LineState};
use book_table::{Cells, Side, row_of, table_text};
use std::alloc::Global;

/// The names of the columns.
const COLUMNS: [&str; 11] = [
    "day",
    "number",
    "split",
    "mark",
    "quantity",
    "balance",
    "other side",
    "line",
    "num",
    "description",
    "memo",
];

/// Where the texts of each column stand.
const SIDES: [Side; 11] = [
    Side::Left,
    Side::Right,
    Side::Right,
    Side::Left,
    Side::Right,
    Side::Right,
    Side::Left,
    Side::Right,
    Side::Left,
    Side::Left,
    Side::Free,
];

/// The register of the account with a number, each row with the numbers of its transaction and its split and with the
/// other side; None exactly where the book has no such account.
pub fn account_text(
    alloc: Global,
    book: &PresentBook,
    account: u64,
    form: Form,
) -> Result<Option<Text>, OutOfMemory>
    ensures { IfOk result (λ found. found ≡ account_text book.now account form) }
{
    match book.plain().accounts.find(account) {
        Some(_) => Ok(Some(register_text(alloc, book, account, form)?)),
        None => Ok(None),
    }
}

/// The register of an account of the book.
#[tactic(auto, unfolding(crate::specs::Account::register_text))]
fn register_text(
    alloc: Global,
    book: &PresentBook,
    account: u64,
    form: Form,
) -> Result<Text, OutOfMemory>
    requires { IsSome (value_of account book.now.accounts) }
    ensures { IfOk result (λ text. text ≡ register_text book.now account form) }
{
    let rows = register_rows(alloc, book, account)?;
    table_text(alloc, form, &SIDES, rows.as_slice())
}

/// The rows of the register, behind the names of the columns.
fn register_rows(
    alloc: Global,
    book: &PresentBook,
    account: u64,
) -> Result<Many<Many<Text>>, OutOfMemory>
    requires { IsSome (value_of account book.now.accounts) }
    ensures { IfOk result (λ rows. rows ≡ register_columns ∷ register_rows book.now account) }
{
    let mut rows = Many::new(alloc);
    rows.push(row_of(alloc, &COLUMNS)?)?;
    add_rows(alloc, &mut rows, book, account)?;
    Ok(rows)
}

/// Adds the rows of the register.
fn add_rows(
    alloc: Global,
    rows: &mut Many<Many<Text>>,
    book: &PresentBook,
    account: u64,
) -> Result<(), OutOfMemory>
    requires { IsSome (value_of account book.now.accounts) }
    ensures { OnOk result (rows.new ≡ rows.old
        ++ rows_after book.now (matched_of account book.now.lines)
        (fraction_of book.now.commodities (commodity_of book.now account)) []
        (register_of account book.now.transactions)) }
{
    let register = book.register(account);
    let lines = matched_of(alloc, account, book.plain().lines.as_slice())?;
    let by_split = by_split(alloc, lines.as_slice())?;
    let fraction = book.fraction(book.commodity_of(account));
    let mut steps = Steps::new();
    let mut balance = 0i128;
    for place in 0..register.len() {
        let row = register.row(place, &mut steps);
        balance += i128::from(row.quantity);
        let line = line_of(row.split, &by_split);
        rows.push(register_row(alloc, book, line, fraction, &row, balance)?)?;
    }
    Ok(())
}

/// A row with the balance after it.
fn register_row(
    alloc: Global,
    book: &PresentBook,
    line: Option<u64>,
    fraction: u64,
    row: &Entry,
    after: i128,
) -> Result<Many<Text>, OutOfMemory>
    ensures { IfOk result (λ cells. cells ≡ register_row book.now line fraction row.now after) }
{
    let other = other_side_in(alloc, book, row)?;
    let mut cells = Cells::new(alloc);
    cells.day(row.day)?;
    cells.number(row.txn)?;
    cells.number(row.split)?;
    cells.text(mark_letter(row.mark))?;
    cells.amount(i128::from(row.quantity), fraction)?;
    cells.amount(after, fraction)?;
    cells.text(other.as_str())?;
    add_line(&mut cells, line)?;
    cells.text(number_in(book, row.txn))?;
    cells.text(description_in(book, row.txn))?;
    cells.text(memo_in(book, row))?;
    Ok(cells.row())
}

/// Adds the number of a line; an empty text where there is none.
fn add_line(cells: &mut Cells, line: Option<u64>) -> Result<(), OutOfMemory>
    ensures { OnOk result (cells.new ≡ cells.old ++ option_map_or decimal line [] ∷ []) }
{
    match line {
        Some(number) => cells.number(number),
        None => cells.text(""),
    }
}

/// The number of the line with which a split is matched.
fn line_of(split: u64, lines: &Table<u64>) -> Option<u64>
    ensures { result ≡ line_of split lines.now.entries }
{
    match lines.find(split) {
        Some(number) => Some(*number),
        None => None,
    }
}

/// The numbers of the lines by those of the splits, so that each is found by a binary search.
fn by_split(alloc: Global, lines: &[(u64, u64)]) -> Result<Table<u64>, OutOfMemory>
    ensures { IfOk result (λ table. (split : ℕ) → line_of split table.entries ≡ line_of split lines.now) }
{
    let mut table = Table::new(alloc);
    for entry in lines {
        let (split, number) = *entry;
        add_first(&mut table, split, number)?;
    }
    Ok(table)
}

/// Puts the number of a line under that of its split, unless one stands there.
fn add_first(table: &mut Table<u64>, split: u64, number: u64) -> Result<(), OutOfMemory>
    ensures { OnOk result ((sought : ℕ) → line_of sought table.new.entries
        ≡ option_or (line_of sought table.old.entries) (line_of sought ((split, number) ∷ []))) }
{
    match line_of(split, table) {
        Some(_) => Ok(()),
        None => {
            table.reserve(1)?;
            let _ = table.put(split, number);
            Ok(())
        }
    }
}

/// The lines of an account that are matched: the number of the split of each, and its own.
fn matched_of(
    alloc: Global,
    account: u64,
    lines: &[(u64, Line)],
) -> Result<Vec<(u64, u64)>, OutOfMemory>
    ensures { IfOk result (λ matched. matched.items ≡ matched_of account lines.now) }
{
    let mut matched = Vec::new(alloc);
    for entry in lines {
        add_matched(&mut matched, account, entry)?;
    }
    Ok(matched)
}

/// Adds a line, where it is one of the account and matched.
fn add_matched(
    matched: &mut Vec<(u64, u64)>,
    account: u64,
    entry: &(u64, Line),
) -> Result<(), OutOfMemory>
    ensures { OnOk result (matched.new.items ≡ matched.old.items ++ matched_in account entry.now) }
{
    let (number, line) = entry;
    if line.account != account {
        return Ok(());
    }
    match line.state {
        LineState::Matched(split) => {
            matched.push((split, *number))?;
            Ok(())
        }
        LineState::Open | LineState::Dismissed => Ok(()),
    }
}

/// The other side of the split of a row: the account of the other split, or that there are several.
fn other_side_in(alloc: Global, book: &PresentBook, row: &Entry) -> Result<Text, OutOfMemory>
    ensures { IfOk result (λ text. text ≡ other_side_in book.now row.now) }
{
    match book.plain().transactions.find(row.txn) {
        Some(transaction) => other_side(alloc, book, row.split, transaction),
        None => Ok(Text::new(alloc)),
    }
}

/// The other side of a split in its transaction.
fn other_side(
    alloc: Global,
    book: &PresentBook,
    split: u64,
    transaction: &Txn,
) -> Result<Text, OutOfMemory>
    ensures { IfOk result (λ text. text ≡ other_side book.now split transaction.now) }
{
    let others = others(alloc, split, transaction.splits.as_slice())?;
    side_of(alloc, book, others.as_slice())
}

/// The accounts of the splits but for the one with a number.
fn others(alloc: Global, split: u64, splits: &[Split]) -> Result<Vec<u64>, OutOfMemory>
    ensures { IfOk result (λ others. others.items ≡ others_than split splits.now) }
{
    let mut others = Vec::new(alloc);
    for other in splits {
        if other.id != split {
            others.push(other.account)?;
        }
    }
    Ok(others)
}

/// The account that these are, where it is one; several where there are more.
fn side_of(alloc: Global, book: &PresentBook, others: &[u64]) -> Result<Text, OutOfMemory>
    ensures { IfOk result (λ text. text ≡ side_of book.now others.now) }
{
    match others {
        [] => Ok(Text::new(alloc)),
        [account] => name_in(alloc, book, *account),
        _ => Ok(Text::of(String::from_str(alloc, "several")?)),
    }
}

/// The number that a person gave a transaction.
fn number_in(book: &PresentBook, transaction: u64) -> &str
    ensures { result.now ≡ number_in book.now.transactions transaction }
{
    match book.plain().transactions.find(transaction) {
        Some(transaction) => transaction.num.as_str(),
        None => "",
    }
}

/// The description of a transaction.
fn description_in(book: &PresentBook, transaction: u64) -> &str
    ensures { result.now ≡ description_in book.now.transactions transaction }
{
    match book.plain().transactions.find(transaction) {
        Some(transaction) => transaction.description.as_str(),
        None => "",
    }
}

/// The memo of the split of a row.
fn memo_in<'a>(book: &'a PresentBook, row: &Entry) -> &'a str
    ensures { result.now ≡ memo_in book.now row.now }
{
    match book.plain().transactions.find(row.txn) {
        Some(transaction) => memo_at(transaction, row.place),
        None => "",
    }
}

/// The memo of the split at a place of a transaction.
fn memo_at(transaction: &Txn, place: u32) -> &str
    ensures { result.now ≡ memo_at place transaction.now }
{
    match transaction.splits.as_slice().get(place as usize) {
        Some(split) => split.memo.as_str(),
        None => "",
    }
}

/// The letter of a mark.
fn mark_letter(mark: Mark2) -> &'static str
    ensures { result.now ≡ mark_letter mark }
{
    match mark {
        Mark2::Plain => "n",
        Mark2::Cleared => "c",
        Mark2::Reconciled => "y",
    }
}
