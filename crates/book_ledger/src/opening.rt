ghost use Rattle.std.specs.Prelude.{◌≡◌, ℕ, ◌≤◌, ◌^◌, [], length, Some, None, OnOk, IfOk, true};
ghost use Rattle.book_commodity.specs.Table.{value_of};
ghost use Rattle.book_ledger.specs.Change.{AllPut, is_there};
ghost use Rattle.book_ledger.specs.Counts.{AreFree, CountsFrom};
ghost use Rattle.book_ledger.specs.Ledger.{HasPlaces, Keeps};
ghost use Rattle.book_ledger.specs.Opening.{AreAdded, AreNew, AreOnce, HasAll, HaveNoRows, NamesAll};
ghost use Rattle.book_ledger.specs.Room.{Extends, HasRoomForRow};
ghost use Rattle.book_undo.specs.Book.{book_of};

use crate::Registers;
use crate::row::left;
use book_accounts::Tree;
use book_commodity::OutOfMemory;
use book_register::Entry;
use book_splits::{Txn, Txns};
use book_undo::Plain;
use std::alloc::Global;

impl Registers {
    /// The registers of a book, each changed once for each of its rows, and with no lot reckoned. The transactions are
    /// sorted once, so that each row is put behind those before it.
    pub fn of(alloc: Global, plain: &Plain) -> Result<Registers, OutOfMemory>
        requires { HasPlaces plain.now.transactions.entries }
        ensures kept { IfOk result (λ registers. Keeps registers.entries (book_of plain.now)) }
        ensures new { IfOk result (λ registers. AreNew registers.entries) }
    {
        let _ = plain.transactions.len();
        let mut registers = Registers::new(alloc);
        registers.begin_all(&plain.accounts)?;
        let order = by_day(alloc, &plain.transactions)?;
        registers.add_all(&plain.transactions, order.as_slice())?;
        registers.in_order();
        Ok(registers)
    }

    /// Has a register kept for each account, an empty one where there was none.
    fn begin_all(&mut self, accounts: &Tree) -> Result<(), OutOfMemory>
        ensures there { OnOk result (HasAll self.new.entries accounts.now.entries) }
        ensures extends { Extends self.old.entries self.new.entries }
    {
        for place in 0..accounts.len() {
            self.begin(accounts.number_at(place))?;
        }
        Ok(())
    }

    /// Puts in the rows of the transactions with these numbers, each beside a day.
    fn add_all(&mut self, transactions: &Txns, order: &[(i32, u64)]) -> Result<(), OutOfMemory>
        requires { HasPlaces transactions.now.entries }
        ensures rows { OnOk result (AreAdded transactions.now.entries order.now self.old.entries self.new.entries) }
        ensures counts { OnOk result (AreOnce order.now → HaveNoRows self.old.entries
            → CountsFrom [] self.old.entries → CountsFrom [] self.new.entries) }
        ensures kept { (account : ℕ)
            → is_there account self.old.entries ≡ true → is_there account self.new.entries ≡ true }
    {
        for (_, number) in order {
            self.add(transactions, *number)?;
        }
        Ok(())
    }

    /// Puts in the rows of the transaction with a number, if there is one.
    fn add(&mut self, transactions: &Txns, number: u64) -> Result<(), OutOfMemory>
        requires { HasPlaces transactions.now.entries }
        ensures rows { OnOk result
            (AllPut number (value_of number transactions.now.entries) None self.old.entries self.new.entries) }
        ensures counts { OnOk result
            (AreFree number (value_of number transactions.now.entries) None self.old.entries
            → CountsFrom [] self.old.entries → CountsFrom [] self.new.entries) }
        ensures kept { (account : ℕ)
            → is_there account self.old.entries ≡ true → is_there account self.new.entries ≡ true }
    {
        match transactions.find(number) {
            Some(transaction) => self.add_rows(number, transaction),
            None => Ok(()),
        }
    }

    /// Puts in the rows of a transaction.
    fn add_rows(&mut self, number: u64, transaction: &Txn) -> Result<(), OutOfMemory>
        requires { length transaction.now.splits ≤ 2 ^ 32 }
        ensures rows { OnOk result
            (AllPut number (Some transaction.now) None self.old.entries self.new.entries) }
        ensures counts { OnOk result (AreFree number (Some transaction.now) None self.old.entries
            → CountsFrom [] self.old.entries → CountsFrom [] self.new.entries) }
        ensures kept { (account : ℕ)
            → is_there account self.old.entries ≡ true → is_there account self.new.entries ≡ true }
    {
        for place in 0..transaction.splits.len() {
            let row = left(number, transaction, None, place);
            self.make_room_for(&row)?;
            self.put(row);
        }
        Ok(())
    }

    /// Makes room for a row, if one is given.
    fn make_room_for(&mut self, row: &Option<(u64, Entry)>) -> Result<(), OutOfMemory>
        ensures room { OnOk result (HasRoomForRow row.now self.new.entries) }
        ensures extends { Extends self.old.entries self.new.entries }
    {
        match row {
            Some((account, _)) => self.make_room(*account, 1),
            None => Ok(()),
        }
    }
}

/// The numbers of the transactions, each beside its day, in the order of days and on one day of numbers.
fn by_day(alloc: Global, transactions: &Txns) -> Result<Vec<(i32, u64)>, OutOfMemory>
    ensures { IfOk result (λ order. NamesAll order.items transactions.now.entries) }
{
    let mut order = Vec::new(alloc);
    let entries = transactions.as_slice();
    order.reserve(entries.len())?;
    for (number, transaction) in entries {
        order.push((transaction.day.number(), *number))?;
    }
    order.sort_unstable();
    Ok(order)
}
