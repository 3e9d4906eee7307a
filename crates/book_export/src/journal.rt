ghost use Rattle.std.specs.Prelude.{◌≡◌, ◌++◌, IfOk, All};
ghost use Rattle.book_accounts.specs.Tree.{IsRooted};
ghost use Rattle.book_accounts.specs.declared.account.Account.{Account};
ghost use Rattle.book_prices.specs.Rate.{IsSound};
ghost use Rattle.book_sound.specs.Soundness.{IsSoundBook};
ghost use Rattle.book_undo.specs.Book.{book_of};
ghost use Rattle.book_export.specs.Export.{HasExported, HasFault, HasWritten, account_line, accounts_text};
ghost use Rattle.book_export.specs.Export.{commodities_text, export_text, prices_text, text_from_accounts};
ghost use Rattle.book_export.specs.Export.{text_from_prices};
ghost use Rattle.book_export.specs.Export.{transactions_text};
ghost use Rattle.book_export.specs.Symbols.{AreInRange};

use crate::ExportError;
use crate::order::by_day;
use crate::path::path_of;
use crate::prices::price_line;
use crate::symbols::commodity_lines;
use crate::transactions::lines_at;
use crate::writing::write_piece;
use book_accounts::{Account, Tree};
use book_commodity::OutOfMemory;
use book_keeper::Sink;
use book_undo::Plain;
use std::alloc::Global;

/// Writes a book as a journal to the output, piece by piece; no more of it is in memory than the lines of one thing.
/// Memory: the program is out of memory; what was written is the front of the journal. Output: the output failed; a
/// part was written, and not all.
pub fn export<O: Sink>(alloc: Global, book: &Plain, output: &mut O) -> Result<(), ExportError>
    requires { IsSoundBook (book_of book.now) }
    ensures written { HasExported (O.written output.old) (O.written output.new) (book_of book.now) result }
    ensures faults { HasFault (O.faults output.old) (O.faults output.new) result }
{
    match by_day(alloc, &book.transactions) {
        Ok(order) => write_book(alloc, book, order.as_slice(), output),
        Err(_) => Err(ExportError::Memory),
    }
}

/// Writes the journal with the transactions in an order, each given by its number behind its day.
#[tactic(auto, unfolding(crate::specs::Export::export_text))]
fn write_book<O: Sink>(
    alloc: Global,
    book: &Plain,
    order: &[(i32, u64)],
    output: &mut O,
) -> Result<(), ExportError>
    requires rooted { IsRooted book.now.accounts.entries }
    requires fractions { AreInRange book.now.commodities.entries }
    requires sound { All (λ e. IsSound e.1) book.now.prices.entries }
    ensures written { HasWritten (O.written output.old) (O.written output.new)
        (export_text (book_of book.now) order.now) result }
    ensures faults { HasFault (O.faults output.old) (O.faults output.new) result }
{
    write_commodities(alloc, book, output)?;
    write_from_accounts(alloc, book, order, output)
}

/// Writes the journal from the accounts on.
fn write_from_accounts<O: Sink>(
    alloc: Global,
    book: &Plain,
    order: &[(i32, u64)],
    output: &mut O,
) -> Result<(), ExportError>
    requires rooted { IsRooted book.now.accounts.entries }
    requires fractions { AreInRange book.now.commodities.entries }
    requires sound { All (λ e. IsSound e.1) book.now.prices.entries }
    ensures written { HasWritten (O.written output.old) (O.written output.new)
        (text_from_accounts (book_of book.now) order.now) result }
    ensures faults { HasFault (O.faults output.old) (O.faults output.new) result }
{
    write_accounts(alloc, book, output)?;
    write_from_prices(alloc, book, order, output)
}

/// Writes the journal from the prices on.
fn write_from_prices<O: Sink>(
    alloc: Global,
    book: &Plain,
    order: &[(i32, u64)],
    output: &mut O,
) -> Result<(), ExportError>
    requires rooted { IsRooted book.now.accounts.entries }
    requires fractions { AreInRange book.now.commodities.entries }
    requires sound { All (λ e. IsSound e.1) book.now.prices.entries }
    ensures written { HasWritten (O.written output.old) (O.written output.new)
        (text_from_prices (book_of book.now) order.now) result }
    ensures faults { HasFault (O.faults output.old) (O.faults output.new) result }
{
    write_prices(alloc, book, output)?;
    write_transactions(alloc, book, order, output)
}

/// Writes the commodities.
fn write_commodities<O: Sink>(
    alloc: Global,
    book: &Plain,
    output: &mut O,
) -> Result<(), ExportError>
    ensures written { HasWritten (O.written output.old) (O.written output.new)
        (commodities_text (book_of book.now)) result }
    ensures faults { HasFault (O.faults output.old) (O.faults output.new) result }
{
    for (_, commodity) in book.commodities.as_slice() {
        write_piece(output, commodity_lines(alloc, commodity))?;
    }
    Ok(())
}

/// Writes the accounts.
fn write_accounts<O: Sink>(alloc: Global, book: &Plain, output: &mut O) -> Result<(), ExportError>
    requires { IsRooted book.now.accounts.entries }
    ensures written { HasWritten (O.written output.old) (O.written output.new)
        (accounts_text (book_of book.now)) result }
    ensures faults { HasFault (O.faults output.old) (O.faults output.new) result }
{
    for place in 0..book.accounts.len() {
        let number = book.accounts.number_at(place);
        let account = book.accounts.value_at(place);
        write_piece(output, account_line(alloc, &book.accounts, number, account))?;
    }
    Ok(())
}

/// The directive of an account; nothing for the root.
fn account_line(
    alloc: Global,
    accounts: &Tree,
    number: u64,
    account: &Account,
) -> Result<Vec<u8>, OutOfMemory>
    requires { IsRooted accounts.now.entries }
    ensures { IfOk result (λ line. line.items ≡ account_line accounts.now.entries (number, account.now)) }
{
    let mut line = Vec::new(alloc);
    if account.parent.is_none() {
        return Ok(line);
    }
    let path = path_of(alloc, accounts, number)?;
    line.extend_from_slice(b"account ")?;
    line.extend_from_slice(path.as_slice())?;
    line.push(b'\n')?;
    Ok(line)
}

/// Writes the prices.
fn write_prices<O: Sink>(alloc: Global, book: &Plain, output: &mut O) -> Result<(), ExportError>
    requires fractions { AreInRange book.now.commodities.entries }
    requires sound { All (λ e. IsSound e.1) book.now.prices.entries }
    ensures written { HasWritten (O.written output.old) (O.written output.new) (prices_text (book_of book.now)) result }
    ensures faults { HasFault (O.faults output.old) (O.faults output.new) result }
{
    for place in 0..book.prices.len() {
        let price = book.prices.value_at(place);
        write_piece(output, price_line(alloc, &book.commodities, price))?;
    }
    Ok(())
}

/// Writes the transactions in an order.
fn write_transactions<O: Sink>(
    alloc: Global,
    book: &Plain,
    order: &[(i32, u64)],
    output: &mut O,
) -> Result<(), ExportError>
    requires { IsRooted book.now.accounts.entries }
    ensures written { HasWritten (O.written output.old) (O.written output.new)
        (transactions_text (book_of book.now) order.now) result }
    ensures faults { HasFault (O.faults output.old) (O.faults output.new) result }
{
    for (_, number) in order {
        write_piece(output, lines_at(alloc, book, *number))?;
    }
    Ok(())
}
