ghost use Rattle.std.specs.Prelude.{◌≡◌, [], ◌∷◌, ◌++◌, ◌==◌, IfOk, OnOk, codes, if◌then◌else◌, map};
ghost use Rattle.book_listings.specs.Commodities.{commodities_text, commodity_row, price_columns, price_row};
ghost use Rattle.book_listings.specs.Commodities.{prices_text};

use crate::PresentBook;
use book_commodity::{Commodity, Many, OutOfMemory, Text};
use book_prices::{Price, Prices};
use book_reports::Form;
use book_table::{Cells, Side, row_of, table_text};
use std::alloc::Global;

/// The names of the columns of commodities.
const COMMODITIES: [&str; 6] = ["number", "fraction", "marks", "space", "name", "full name"];

/// Where the texts of each column of commodities stand.
const COMMODITY_SIDES: [Side; 6] = [
    Side::Right,
    Side::Right,
    Side::Left,
    Side::Left,
    Side::Left,
    Side::Free,
];

/// The names of the columns of prices.
const PRICES: [&str; 6] = ["number", "day", "commodity", "currency", "num", "denom"];

/// Where the texts of each column of prices stand.
const PRICE_SIDES: [Side; 6] = [
    Side::Right,
    Side::Left,
    Side::Left,
    Side::Left,
    Side::Right,
    Side::Right,
];

/// The commodities of a book, by number.
#[tactic(auto, unfolding(crate::specs::Commodities::commodities_text))]
pub fn commodities_text(alloc: Global, book: &PresentBook, form: Form) -> Result<Text, OutOfMemory>
    ensures { IfOk result (λ text. text ≡ commodities_text book.now form) }
{
    let mut rows = Many::new(alloc);
    rows.push(row_of(alloc, &COMMODITIES)?)?;
    add_commodities(alloc, &mut rows, book, book.plain().commodities.as_slice())?;
    table_text(alloc, form, &COMMODITY_SIDES, rows.as_slice())
}

/// Adds the rows of these commodities.
fn add_commodities(
    alloc: Global,
    rows: &mut Many<Many<Text>>,
    book: &PresentBook,
    commodities: &[(u64, Commodity)],
) -> Result<(), OutOfMemory>
    ensures { OnOk result (rows.new ≡ rows.old ++ map (commodity_row book.now) commodities.now) }
{
    for entry in commodities {
        rows.push(commodity_row(alloc, book, entry)?)?;
    }
    Ok(())
}

/// The row of a commodity.
fn commodity_row(
    alloc: Global,
    book: &PresentBook,
    entry: &(u64, Commodity),
) -> Result<Many<Text>, OutOfMemory>
    ensures { IfOk result (λ row. row ≡ commodity_row book.now entry.now) }
{
    let (number, commodity) = entry;
    let mut cells = Cells::new(alloc);
    cells.number(*number)?;
    cells.number(commodity.fraction)?;
    cells.text(currency_mark(*number, book.plain().currency))?;
    cells.text(commodity.space.as_str())?;
    cells.text(commodity.name.as_str())?;
    cells.text(commodity.full_name.as_str())?;
    Ok(cells.row())
}

/// The mark of a commodity: c for the currency of the book.
fn currency_mark(number: u64, currency: u64) -> &'static str
    ensures { result.now ≡ (if number == currency then codes "c" else []) }
{
    if number == currency { "c" } else { "" }
}

/// The prices of a book, by number.
#[tactic(auto, unfolding(crate::specs::Commodities::prices_text))]
pub fn prices_text(alloc: Global, book: &PresentBook, form: Form) -> Result<Text, OutOfMemory>
    ensures { IfOk result (λ text. text ≡ prices_text book.now form) }
{
    let rows = price_rows(alloc, book)?;
    table_text(alloc, form, &PRICE_SIDES, rows.as_slice())
}

/// The rows of all prices, behind the names of the columns.
fn price_rows(alloc: Global, book: &PresentBook) -> Result<Many<Many<Text>>, OutOfMemory>
    ensures { IfOk result (λ rows. rows ≡ price_columns ∷ map (price_row book.now) book.now.prices) }
{
    let mut rows = Many::new(alloc);
    rows.push(row_of(alloc, &PRICES)?)?;
    add_prices(alloc, &mut rows, book, book.prices())?;
    Ok(rows)
}

/// Adds the rows of these prices.
fn add_prices(
    alloc: Global,
    rows: &mut Many<Many<Text>>,
    book: &PresentBook,
    prices: &Prices,
) -> Result<(), OutOfMemory>
    ensures { OnOk result (rows.new ≡ rows.old ++ map (price_row book.now) prices.now.entries) }
{
    for place in 0..prices.len() {
        let number = prices.number_at(place);
        rows.push(price_row(alloc, book, number, prices.value_at(place))?)?;
    }
    Ok(())
}

/// The row of a price.
fn price_row(
    alloc: Global,
    book: &PresentBook,
    number: u64,
    price: &Price,
) -> Result<Many<Text>, OutOfMemory>
    ensures { IfOk result (λ row. row ≡ price_row book.now (number, price.now)) }
{
    let mut cells = Cells::new(alloc);
    cells.number(number)?;
    cells.day(price.day)?;
    cells.text(book.name(price.commodity))?;
    cells.text(book.name(price.currency))?;
    cells.number(price.num)?;
    cells.number(price.denom)?;
    Ok(cells.row())
}
