ghost use Rattle.std.specs.Prelude.{◌≡◌, ◌++◌, All, IfOk, List, OnOk, Option, map, ℕ, ℤ};
ghost use Rattle.std.specs.Int.{IsInRange};
ghost use Rattle.book_listings.specs.Schedules.{AreRows, AreSchedules, AreTimed, columns, end_text, head_row};
ghost use Rattle.book_listings.specs.Schedules.{next_text};
ghost use Rattle.book_listings.specs.Schedules.{plain_rows, record_row, rows_of, split_row};
ghost use Rattle.book_next_day.specs.Ahead.{IsNextDay};

use crate::PresentBook;
use crate::accounts::name_in;
use crate::journal::other_quantity;
use book_commodity::{Day, Many, OutOfMemory, Text};
use book_next_day::next_day;
use book_reports::Form;
use book_schedule::{End, Timing};
use book_splits::{Split, Txn};
use book_table::{Cells, Side, day_cell, row_of, table_text};
use book_undo::Schedule;
use std::alloc::Global;

/// The names of the columns for a person.
const PLAIN: [&str; 8] = [
    "number",
    "next",
    "end",
    "value",
    "quantity",
    "account",
    "name",
    "description",
];

/// The names of the columns for a program.
const CSV: [&str; 12] = [
    "schedule",
    "name",
    "next",
    "end",
    "description",
    "currency",
    "account",
    "path",
    "value",
    "quantity",
    "commodity",
    "memo",
];

/// Where the texts of each column stand.
const SIDES: [Side; 8] = [
    Side::Right,
    Side::Left,
    Side::Left,
    Side::Right,
    Side::Right,
    Side::Right,
    Side::Left,
    Side::Free,
];

/// The schedules of a book, by number, each with the next day for which it posts, its end, and what it posts.
pub fn schedules_text(alloc: Global, book: &PresentBook, form: Form) -> Result<Text, OutOfMemory>
    ensures { IfOk result (λ text. AreSchedules book.now form text) }
{
    let mut rows = Many::new(alloc);
    rows.push(columns(alloc, form)?)?;
    add_schedules(alloc, &mut rows, book, book.schedules(), form)?;
    table_text(alloc, form, &SIDES, rows.as_slice())
}

/// The names of the columns.
fn columns(alloc: Global, form: Form) -> Result<Many<Text>, OutOfMemory>
    ensures { IfOk result (λ row. row ≡ columns form) }
{
    match form {
        Form::Plain => row_of(alloc, &PLAIN),
        Form::Csv => row_of(alloc, &CSV),
    }
}

/// Adds the rows of these schedules.
fn add_schedules(
    alloc: Global,
    rows: &mut Many<Many<Text>>,
    book: &PresentBook,
    schedules: &[(u64, Schedule)],
    form: Form,
) -> Result<(), OutOfMemory>
    requires { AreTimed schedules.now }
    ensures { OnOk result ((added : List (List (List ℕ))) × (rows.new ≡ rows.old ++ added)
        × AreRows form book.now schedules.now added) }
{
    for entry in schedules {
        add_entry(alloc, rows, book, entry, form)?;
    }
    Ok(())
}

/// Adds the rows of a schedule.
fn add_entry(
    alloc: Global,
    rows: &mut Many<Many<Text>>,
    book: &PresentBook,
    entry: &(u64, Schedule),
    form: Form,
) -> Result<(), OutOfMemory>
    requires { All (λ r. IsInRange 1 10_000 r.every) entry.now.1.timing.recurrences }
    ensures { OnOk result ((next : Option ℤ) × IsNextDay entry.now.1.timing next
        × (rows.new ≡ rows.old ++ rows_of form book.now entry.now.0 entry.now.1 next)) }
{
    let (number, schedule) = entry;
    let next = next_day(alloc, &schedule.timing)?;
    add_schedule(alloc, rows, book, *number, schedule, &next, form)
}

/// Adds the rows of a schedule with its next day.
fn add_schedule(
    alloc: Global,
    rows: &mut Many<Many<Text>>,
    book: &PresentBook,
    number: u64,
    schedule: &Schedule,
    next: &Option<Day>,
    form: Form,
) -> Result<(), OutOfMemory>
    ensures { OnOk result (rows.new ≡ rows.old ++ rows_of form book.now number schedule.now next.now) }
{
    match form {
        Form::Plain => add_plain(alloc, rows, book, number, schedule, next),
        Form::Csv => add_records(alloc, rows, book, number, schedule, next),
    }
}

/// Adds the rows of a schedule for a person.
fn add_plain(
    alloc: Global,
    rows: &mut Many<Many<Text>>,
    book: &PresentBook,
    number: u64,
    schedule: &Schedule,
    next: &Option<Day>,
) -> Result<(), OutOfMemory>
    ensures { OnOk result (rows.new ≡ rows.old ++ plain_rows book.now number schedule.now next.now) }
{
    rows.push(head_row(alloc, book, number, schedule, next)?)?;
    for split in schedule.template.splits.as_slice() {
        rows.push(split_row(alloc, book, &schedule.template, split)?)?;
    }
    Ok(())
}

/// Adds the rows of a schedule for a program.
fn add_records(
    alloc: Global,
    rows: &mut Many<Many<Text>>,
    book: &PresentBook,
    number: u64,
    schedule: &Schedule,
    next: &Option<Day>,
) -> Result<(), OutOfMemory>
    ensures { OnOk result (rows.new
        ≡ rows.old ++ map (record_row book.now number schedule.now next.now) schedule.now.template.splits) }
{
    for split in schedule.template.splits.as_slice() {
        rows.push(record_row(alloc, book, number, schedule, next, split)?)?;
    }
    Ok(())
}

/// The row of a schedule itself.
fn head_row(
    alloc: Global,
    book: &PresentBook,
    number: u64,
    schedule: &Schedule,
    next: &Option<Day>,
) -> Result<Many<Text>, OutOfMemory>
    ensures { IfOk result (λ row. row ≡ head_row book.now number schedule.now next.now) }
{
    let next = next_text(alloc, next)?;
    let end = end_text(alloc, &schedule.timing)?;
    let mut cells = Cells::new(alloc);
    cells.number(number)?;
    cells.text(next.as_str())?;
    cells.text(end.as_str())?;
    cells.text(book.name(schedule.template.currency))?;
    cells.text("")?;
    cells.text("")?;
    cells.text(schedule.name.as_str())?;
    cells.text(schedule.template.description.as_str())?;
    Ok(cells.row())
}

/// The row of a split that a schedule posts.
fn split_row(
    alloc: Global,
    book: &PresentBook,
    template: &Txn,
    split: &Split,
) -> Result<Many<Text>, OutOfMemory>
    ensures { IfOk result (λ row. row ≡ split_row book.now template.now split.now) }
{
    let name = name_in(alloc, book, split.account)?;
    let quantity = other_quantity(alloc, book, template, split)?;
    let mut cells = Cells::new(alloc);
    cells.text("")?;
    cells.text("")?;
    cells.text("")?;
    cells.amount(i128::from(split.value), book.fraction(template.currency))?;
    cells.text(quantity.as_str())?;
    cells.number(split.account)?;
    cells.text(name.as_str())?;
    cells.text(split.memo.as_str())?;
    Ok(cells.row())
}

/// The row of a split with what its schedule has.
fn record_row(
    alloc: Global,
    book: &PresentBook,
    number: u64,
    schedule: &Schedule,
    next: &Option<Day>,
    split: &Split,
) -> Result<Many<Text>, OutOfMemory>
    ensures { IfOk result (λ row. row ≡ record_row book.now number schedule.now next.now split.now) }
{
    let next = next_text(alloc, next)?;
    let end = end_text(alloc, &schedule.timing)?;
    let name = name_in(alloc, book, split.account)?;
    let commodity = book.commodity_of(split.account);
    let mut cells = Cells::new(alloc);
    cells.number(number)?;
    cells.text(schedule.name.as_str())?;
    cells.text(next.as_str())?;
    cells.text(end.as_str())?;
    cells.text(schedule.template.description.as_str())?;
    cells.text(book.name(schedule.template.currency))?;
    cells.number(split.account)?;
    cells.text(name.as_str())?;
    cells.amount(
        i128::from(split.value),
        book.fraction(schedule.template.currency),
    )?;
    cells.amount(i128::from(split.quantity), book.fraction(commodity))?;
    cells.text(book.name(commodity))?;
    cells.text(split.memo.as_str())?;
    Ok(cells.row())
}

/// The next day of a schedule; empty, where it has ended.
fn next_text(alloc: Global, next: &Option<Day>) -> Result<Text, OutOfMemory>
    ensures { IfOk result (λ text. text ≡ next_text next.now) }
{
    match next {
        Some(day) => day_cell(alloc, *day),
        None => Ok(Text::new(alloc)),
    }
}

/// The end of a schedule.
fn end_text(alloc: Global, timing: &Timing) -> Result<Text, OutOfMemory>
    ensures { IfOk result (λ text. text ≡ end_text timing.now.end timing.now.made) }
{
    match timing.end {
        End::Never => Ok(Text::new(alloc)),
        End::Until(last) => day_cell(alloc, last),
        End::After(count) => Ok(Text::of(format!(in alloc; "{} of {count}", timing.made)?)),
    }
}
