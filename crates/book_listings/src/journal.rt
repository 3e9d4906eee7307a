ghost use Rattle.std.specs.Prelude.{◌≡◌, ◌∷◌, ◌++◌, IfOk, OnOk, map};
ghost use Rattle.std.specs.List.{flat_map};
ghost use Rattle.book_listings.specs.Journal.{IsJournal, columns, head_row, listed, mark_letter, other_quantity};
ghost use Rattle.book_listings.specs.Journal.{plain_rows, record_row, rows_at, rows_of, split_row, void_note, void_reason};

use crate::accounts::name_in;
use crate::order::by_day;
use crate::{Days, PresentBook};
use book_commodity::{Many, OutOfMemory, Text, amount_text};
use book_reports::Form;
use book_splits::{Mark, Split, Txn, Void};
use book_table::{Cells, Side, row_of, table_text};
use std::alloc::Global;

/// The names of the columns for a person: the row of a transaction has its num and description where those of its
/// splits have an action and the path of an account.
const PLAIN: [&str; 9] = [
    "day",
    "number",
    "mark",
    "value",
    "quantity",
    "num, action",
    "account",
    "description, path",
    "memo",
];

/// The names of the columns for a program.
const CSV: [&str; 15] = [
    "transaction",
    "day",
    "num",
    "description",
    "currency",
    "split",
    "mark",
    "account",
    "path",
    "value",
    "quantity",
    "commodity",
    "action",
    "memo",
    "voided",
];

/// Where the texts of each column stand.
const SIDES: [Side; 9] = [
    Side::Left,
    Side::Right,
    Side::Left,
    Side::Right,
    Side::Right,
    Side::Left,
    Side::Right,
    Side::Left,
    Side::Free,
];

/// The journal of a book: its transactions on these days, by day and on one day by number, with all their splits.
pub fn journal_text(
    alloc: Global,
    book: &PresentBook,
    days: &Option<Days>,
    form: Form,
) -> Result<Text, OutOfMemory>
    ensures { IfOk result (λ text. IsJournal book.now days.now form text) }
{
    let order = by_day(alloc, book.plain().transactions.as_slice(), days)?;
    listed_text(alloc, book, order.as_slice(), form)
}

/// The text of transactions in an order, each given by its number behind its day.
#[tactic(auto, unfolding(crate::specs::Journal::listed))]
pub(crate) fn listed_text(
    alloc: Global,
    book: &PresentBook,
    order: &[(i32, u64)],
    form: Form,
) -> Result<Text, OutOfMemory>
    ensures { IfOk result (λ text. text ≡ listed form book.now order.now) }
{
    let mut rows = Many::new(alloc);
    rows.push(columns(alloc, form)?)?;
    add_transactions(alloc, &mut rows, book, order, form)?;
    table_text(alloc, form, &SIDES, rows.as_slice())
}

/// The names of the columns.
fn columns(alloc: Global, form: Form) -> Result<Many<Text>, OutOfMemory>
    ensures { IfOk result (λ row. row ≡ columns form) }
{
    match form {
        Form::Plain => row_of(alloc, &PLAIN),
        Form::Csv => row_of(alloc, &CSV),
    }
}

/// Adds the rows of these transactions.
fn add_transactions(
    alloc: Global,
    rows: &mut Many<Many<Text>>,
    book: &PresentBook,
    order: &[(i32, u64)],
    form: Form,
) -> Result<(), OutOfMemory>
    ensures { OnOk result (rows.new ≡ rows.old ++ flat_map (λ e. rows_at form book.now e.1) order.now) }
{
    for (_, number) in order {
        add_at(alloc, rows, book, *number, form)?;
    }
    Ok(())
}

/// Adds the rows of the transaction with a number.
fn add_at(
    alloc: Global,
    rows: &mut Many<Many<Text>>,
    book: &PresentBook,
    number: u64,
    form: Form,
) -> Result<(), OutOfMemory>
    ensures { OnOk result (rows.new ≡ rows.old ++ rows_at form book.now number) }
{
    match book.plain().transactions.find(number) {
        Some(transaction) => add_transaction(alloc, rows, book, number, transaction, form),
        None => Ok(()),
    }
}

/// Adds the rows of a transaction.
fn add_transaction(
    alloc: Global,
    rows: &mut Many<Many<Text>>,
    book: &PresentBook,
    number: u64,
    transaction: &Txn,
    form: Form,
) -> Result<(), OutOfMemory>
    ensures { OnOk result (rows.new ≡ rows.old ++ rows_of form book.now number transaction.now) }
{
    match form {
        Form::Plain => add_plain(alloc, rows, book, number, transaction),
        Form::Csv => add_records(alloc, rows, book, number, transaction),
    }
}

/// Adds the rows of a transaction for a person.
fn add_plain(
    alloc: Global,
    rows: &mut Many<Many<Text>>,
    book: &PresentBook,
    number: u64,
    transaction: &Txn,
) -> Result<(), OutOfMemory>
    ensures { OnOk result (rows.new ≡ rows.old ++ plain_rows book.now number transaction.now) }
{
    rows.push(head_row(alloc, book, number, transaction)?)?;
    for split in transaction.splits.as_slice() {
        rows.push(split_row(alloc, book, transaction, split)?)?;
    }
    Ok(())
}

/// Adds the rows of a transaction for a program.
fn add_records(
    alloc: Global,
    rows: &mut Many<Many<Text>>,
    book: &PresentBook,
    number: u64,
    transaction: &Txn,
) -> Result<(), OutOfMemory>
    ensures { OnOk result
        (rows.new ≡ rows.old ++ map (record_row book.now number transaction.now) transaction.now.splits) }
{
    for split in transaction.splits.as_slice() {
        rows.push(record_row(alloc, book, number, transaction, split)?)?;
    }
    Ok(())
}

/// The row of a transaction itself.
fn head_row(
    alloc: Global,
    book: &PresentBook,
    number: u64,
    transaction: &Txn,
) -> Result<Many<Text>, OutOfMemory>
    ensures { IfOk result (λ row. row ≡ head_row book.now number transaction.now) }
{
    let note = void_note(alloc, &transaction.voided)?;
    let mut cells = Cells::new(alloc);
    cells.day(transaction.day)?;
    cells.number(number)?;
    cells.text("")?;
    cells.text(book.name(transaction.currency))?;
    cells.text("")?;
    cells.text(transaction.num.as_str())?;
    cells.text("")?;
    cells.text(transaction.description.as_str())?;
    cells.text(note.as_str())?;
    Ok(cells.row())
}

/// That a transaction is voided, and why; nothing of one that isn't.
fn void_note(alloc: Global, voided: &Option<Void>) -> Result<Text, OutOfMemory>
    ensures { IfOk result (λ text. text ≡ void_note voided.now) }
{
    let Some(void) = voided else {
        return Ok(Text::new(alloc));
    };
    let mut text = String::from_str(alloc, "voided: ")?;
    text.push_str(void.reason.as_str())?;
    Ok(Text::of(text))
}

/// The row of a split below it.
fn split_row(
    alloc: Global,
    book: &PresentBook,
    transaction: &Txn,
    split: &Split,
) -> Result<Many<Text>, OutOfMemory>
    ensures { IfOk result (λ row. row ≡ split_row book.now transaction.now split.now) }
{
    let name = name_in(alloc, book, split.account)?;
    let quantity = other_quantity(alloc, book, transaction, split)?;
    let mut cells = Cells::new(alloc);
    cells.text("")?;
    cells.number(split.id)?;
    cells.text(mark_letter(split.mark))?;
    cells.amount(i128::from(split.value), book.fraction(transaction.currency))?;
    cells.text(quantity.as_str())?;
    cells.text(split.action.as_str())?;
    cells.number(split.account)?;
    cells.text(name.as_str())?;
    cells.text(split.memo.as_str())?;
    Ok(cells.row())
}

/// The row of a split with what its transaction has.
fn record_row(
    alloc: Global,
    book: &PresentBook,
    number: u64,
    transaction: &Txn,
    split: &Split,
) -> Result<Many<Text>, OutOfMemory>
    ensures { IfOk result (λ row. row ≡ record_row book.now number transaction.now split.now) }
{
    let name = name_in(alloc, book, split.account)?;
    let commodity = book.commodity_of(split.account);
    let mut cells = Cells::new(alloc);
    cells.number(number)?;
    cells.day(transaction.day)?;
    cells.text(transaction.num.as_str())?;
    cells.text(transaction.description.as_str())?;
    cells.text(book.name(transaction.currency))?;
    cells.number(split.id)?;
    cells.text(mark_letter(split.mark))?;
    cells.number(split.account)?;
    cells.text(name.as_str())?;
    cells.amount(i128::from(split.value), book.fraction(transaction.currency))?;
    cells.amount(i128::from(split.quantity), book.fraction(commodity))?;
    cells.text(book.name(commodity))?;
    cells.text(split.action.as_str())?;
    cells.text(split.memo.as_str())?;
    cells.text(void_reason(&transaction.voided))?;
    Ok(cells.row())
}

/// Why a transaction is voided; nothing of one that isn't.
fn void_reason(voided: &Option<Void>) -> &str
    ensures { result.now ≡ void_reason voided.now }
{
    match voided {
        Some(void) => void.reason.as_str(),
        None => "",
    }
}

/// The quantity of a split with its commodity; empty, where the account holds the currency of the transaction.
pub(crate) fn other_quantity(
    alloc: Global,
    book: &PresentBook,
    transaction: &Txn,
    split: &Split,
) -> Result<Text, OutOfMemory>
    ensures { IfOk result (λ text. text ≡ other_quantity book.now transaction.now split.now) }
{
    let commodity = book.commodity_of(split.account);
    if commodity == transaction.currency {
        return Ok(Text::new(alloc));
    }
    let quantity = amount_text(alloc, i128::from(split.quantity), book.fraction(commodity))?;
    let mut text = quantity.into_string();
    text.push(' ')?;
    text.push_str(book.name(commodity))?;
    Ok(Text::of(text))
}

/// The letter of a mark.
pub(crate) fn mark_letter(mark: Mark) -> &'static str
    ensures { result.now ≡ mark_letter mark }
{
    match mark {
        Mark::New => "n",
        Mark::Cleared => "c",
        Mark::Reconciled => "y",
        Mark::Voided => "v",
    }
}
