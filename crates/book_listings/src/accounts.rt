ghost use Rattle.std.specs.Prelude.{◌≡◌, ◌∷◌, ◌++◌, All, IfOk, IsSome, OnOk, map};
ghost use Rattle.book_commodity.specs.Table.{value_of};
ghost use Rattle.book_listings.specs.Accounts.{account_columns, account_marks, account_name, account_row, account_rows};
ghost use Rattle.book_listings.specs.Accounts.{accounts_text, kind_word, name_in, row_at};

use crate::PresentBook;
use book_accounts::{Account, AccountKind};
use book_commodity::{Many, OutOfMemory, Text};
use book_reports::Form;
use book_table::{Cells, Side, row_of, table_text};
use std::alloc::Global;

/// The names of the columns.
const COLUMNS: [&str; 6] = ["number", "balance", "commodity", "kind", "marks", "account"];

/// Where the texts of each column stand.
const SIDES: [Side; 6] = [
    Side::Right,
    Side::Right,
    Side::Left,
    Side::Left,
    Side::Left,
    Side::Free,
];

/// The accounts of a book, each with its number and its balance over all days, in the order of their tree.
#[tactic(auto, unfolding(crate::specs::Accounts::accounts_text))]
pub fn accounts_text(alloc: Global, book: &PresentBook, form: Form) -> Result<Text, OutOfMemory>
    ensures { IfOk result (λ text. text ≡ accounts_text book.now form) }
{
    let rows = account_rows(alloc, book)?;
    table_text(alloc, form, &SIDES, rows.as_slice())
}

/// The rows of all accounts, behind the names of the columns.
fn account_rows(alloc: Global, book: &PresentBook) -> Result<Many<Many<Text>>, OutOfMemory>
    ensures { IfOk result (λ rows. rows ≡ account_rows book.now) }
{
    let order = book.order()?;
    let mut rows = Many::new(alloc);
    rows.push(row_of(alloc, &COLUMNS)?)?;
    add_rows(alloc, &mut rows, book, order.as_slice())?;
    Ok(rows)
}

/// Adds the rows of these accounts of the book.
fn add_rows(
    alloc: Global,
    rows: &mut Many<Many<Text>>,
    book: &PresentBook,
    order: &[u64],
) -> Result<(), OutOfMemory>
    requires { All (λ account. IsSome (value_of account book.now.accounts)) order.now }
    ensures { OnOk result (rows.new ≡ rows.old ++ map (row_at book.now) order.now) }
{
    for number in order {
        rows.push(row_at(alloc, book, *number)?)?;
    }
    Ok(())
}

/// The row of the account with a number.
fn row_at(alloc: Global, book: &PresentBook, number: u64) -> Result<Many<Text>, OutOfMemory>
    requires { IsSome (value_of number book.now.accounts) }
    ensures { IfOk result (λ row. row ≡ row_at book.now number) }
{
    match book.plain().accounts.find(number) {
        Some(account) => account_row(alloc, book, number, account),
        None => Ok(Many::new(alloc)),
    }
}

/// The row of an account.
fn account_row(
    alloc: Global,
    book: &PresentBook,
    number: u64,
    account: &Account,
) -> Result<Many<Text>, OutOfMemory>
    requires { IsSome (value_of number book.now.accounts) }
    ensures { IfOk result (λ row. row ≡ account_row book.now number account.now) }
{
    let name = account_name(book, number, account)?;
    let mut cells = Cells::new(alloc);
    cells.number(number)?;
    cells.amount(book.balance(number), book.fraction(account.commodity))?;
    cells.text(book.name(account.commodity))?;
    cells.text(kind_word(account.kind))?;
    cells.text(account_marks(account.placeholder, account.hidden))?;
    cells.text(name.as_str())?;
    Ok(cells.row())
}

/// What an account is called: its path, and the root, which has none, by its name.
fn account_name(book: &PresentBook, number: u64, account: &Account) -> Result<Text, OutOfMemory>
    requires { IsSome (value_of number book.now.accounts) }
    ensures { IfOk result (λ name. name ≡ account_name book.now number account.now) }
{
    match account.parent {
        Some(_) => book.path(number),
        None => account.name.copy(),
    }
}

/// What the account with a number is called; empty, where there is no such account.
pub(crate) fn name_in(alloc: Global, book: &PresentBook, number: u64) -> Result<Text, OutOfMemory>
    ensures { IfOk result (λ name. name ≡ name_in book.now number) }
{
    match book.plain().accounts.find(number) {
        Some(account) => account_name(book, number, account),
        None => Ok(Text::new(alloc)),
    }
}

/// The word of a kind of accounts, as commands write it.
#[tactic(auto, unfolding(crate::specs::Accounts::kind_word))]
fn kind_word(kind: AccountKind) -> &'static str
    ensures { result.now ≡ kind_word kind }
{
    match kind {
        AccountKind::Root => "ROOT",
        AccountKind::Asset => "ASSET",
        AccountKind::Bank => "BANK",
        AccountKind::Cash => "CASH",
        AccountKind::Credit => "CREDIT",
        AccountKind::Liability => "LIABILITY",
        AccountKind::Stock => "STOCK",
        AccountKind::Mutual => "MUTUAL",
        AccountKind::Receivable => "RECEIVABLE",
        AccountKind::Payable => "PAYABLE",
        AccountKind::Income => "INCOME",
        AccountKind::Expense => "EXPENSE",
        AccountKind::Equity => "EQUITY",
    }
}

/// The marks of an account: p for a placeholder, h where it is hidden.
fn account_marks(placeholder: bool, hidden: bool) -> &'static str
    ensures { result.now ≡ account_marks placeholder hidden }
{
    match (placeholder, hidden) {
        (true, true) => "ph",
        (true, false) => "p",
        (false, true) => "h",
        (false, false) => "",
    }
}
