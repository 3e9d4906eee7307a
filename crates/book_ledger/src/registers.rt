ghost use Rattle.std.specs.Prelude.{◌≡◌, ℕ, ◌+◌, ◌≤◌, [], All, Some, None, OnOk, is_ok, length, true};
ghost use Rattle.std.specs.Option.{option_copied, option_map};
ghost use Rattle.book_commodity.specs.Table.{value_of};
ghost use Rattle.book_ledger.specs.Change.{AllPut, AllTaken, IsBeside, IsChanged, IsPut, IsReplaced, IsTaken, is_there};
ghost use Rattle.book_ledger.specs.Changes.{AreBounded};
ghost use Rattle.book_ledger.specs.Counts.{AreFree, CountsFrom, HasRow, HasRowsOf, IsFree, LacksRow};
ghost use Rattle.book_ledger.specs.Ledger.{Keeps, live_register, rows_at};
ghost use Rattle.book_ledger.specs.Lots.{IsBroughtUp};
ghost use Rattle.book_ledger.specs.Page.{lots_on, register_on};
ghost use Rattle.book_ledger.specs.Room.{AreSorted, Extends, FitsPlaces, HasRoomForRow, one_on, room_of, txn_splits_on};
ghost use Rattle.book_lots.specs.Lots.{IsSmall};
ghost use Rattle.book_register.specs.Register.{balance as sum_of};
ghost use Rattle.book_splits.specs.Balance.{balance};

use crate::page::Page;
use crate::row::left;
use book_accounts::Tree;
use book_commodity::{OutOfMemory, Steps, Table};
use book_lots::Lots;
use book_register::{Entry, Register};
use book_splits::Txn;
use std::alloc::Global;
use std::marker::Model;

/// The registers of the accounts of a book, by the numbers of the accounts, each with the lots that are reckoned from
/// its first rows. Contracts see the list of its entries, each an account's number with its page, and for how many more
/// there is room.
#[derive(Drop)]
pub struct Registers {
    registers: Table<Page>,
    pub(crate) alloc: Global,
}

impl Model for Registers {
    ghost use Rattle.book_commodity.specs.Table.{Entries};
    ghost use Rattle.book_ledger.specs.Page.{Page};
    ghost use Rattle.book_ledger.specs.Changes.{AreBounded};
    ghost use Rattle.book_ledger.specs.Room.{AreSorted};

    ghost Value = { Entries Page };

    ghost view = { λ r. r.registers };

    ghost invariant = { λ r. AreSorted r.registers.entries × AreBounded r.registers.entries };
}

impl Registers {
    /// No registers; it takes no memory.
    pub(crate) fn new(alloc: Global) -> Registers
        ensures { result.entries ≡ [] }
    {
        Registers {
            registers: Table::new(alloc),
            alloc,
        }
    }

    /// The register of an account; `None` exactly where it isn't one of the accounts.
    pub fn register(&self, accounts: &Tree, account: u64) -> Option<&Register>
        ensures { (book : _) → Keeps self.now.entries book → accounts.now.entries ≡ book.accounts
            → option_map (λ register. register.rows) (option_copied result) ≡ live_register book account }
    {
        if accounts.find(account).is_none() {
            return None;
        }
        self.kept(account)
    }

    /// The register that is kept for an account, if there is one, also where the book has no such account.
    pub fn kept(&self, account: u64) -> Option<&Register>
        ensures { option_copied result ≡ option_map register_on (value_of account self.now.entries) }
    {
        match self.registers.find(account) {
            Some(page) => Some(page.register()),
            None => None,
        }
    }

    /// The lots that are reckoned from the register of an account, if one is kept.
    pub fn lots(&self, account: u64) -> Option<&Lots>
        ensures { option_copied result ≡ option_map lots_on (value_of account self.now.entries) }
    {
        match self.registers.find(account) {
            Some(page) => Some(page.lots()),
            None => None,
        }
    }

    /// Brings the lots of an account up to its register. Registers stay, and so do lots where it is out of memory.
    pub fn reckon(&mut self, account: u64) -> Result<(), OutOfMemory>
        requires few { length (rows_at account self.old.entries) ≤ 1_000_000 }
        requires small { All IsSmall (rows_at account self.old.entries) }
        ensures { IsBroughtUp account (is_ok result) self.old.entries self.new.entries }
    {
        let Some(mut page) = self.lend(account) else {
            return Ok(());
        };
        let done = page.reckon();
        self.give_back(account, page);
        done
    }

    /// The balance of an account over all days, in smallest units of its commodity.
    pub fn balance(&self, account: u64) -> i128
        ensures { (book : _) → Keeps self.now.entries book → result ≡ balance book.transactions account }
    {
        self.sum(account)
    }

    /// The sum of the quantities of the rows that are kept for an account.
    fn sum(&self, account: u64) -> i128
        ensures { result ≡ sum_of (rows_at account self.now.entries) }
    {
        let Some(register) = self.kept(account) else {
            return 0;
        };
        let count = register.len();
        if count == 0 {
            return 0;
        }
        register.balance_after(count - 1, &mut Steps::new())
    }

    /// The rows of each register stand in order, and its count of changes is a number of 64 bits.
    pub(crate) fn in_order(&self)
        ensures sorted { AreSorted self.now.entries }
        ensures bounded { AreBounded self.now.entries }
    {
        let _ = self.registers.len();
    }

    /// Takes the page of an account, if one is kept, and leaves an empty one in its place.
    fn lend(&mut self, account: u64) -> Option<Page>
        ensures page { result ≡ value_of account self.old.entries }
        ensures beside { IsBeside account self.old.entries self.new.entries }
        ensures unchanged { result ≡ None → self.new.entries ≡ self.old.entries }
    {
        if self.registers.find(account).is_none() {
            return None;
        }
        self.registers.put(account, Page::new(self.alloc))
    }

    /// Puts the page of an account back.
    fn give_back(&mut self, account: u64, page: Page)
        requires there { is_there account self.old.entries ≡ true }
        ensures { IsReplaced account page self.old.entries self.new.entries }
    {
        page.in_order();
        drop(self.registers.put(account, page));
    }

    /// Has a register kept for an account, an empty one where there was none.
    pub(crate) fn begin(&mut self, account: u64) -> Result<(), OutOfMemory>
        ensures there { OnOk result (is_there account self.new.entries ≡ true) }
        ensures extends { Extends self.old.entries self.new.entries }
    {
        if self.registers.find(account).is_some() {
            return Ok(());
        }
        self.registers.reserve(1)?;
        drop(self.registers.put(account, Page::new(self.alloc)));
        Ok(())
    }

    /// Makes room for so many more rows of an account, and has a register kept for it.
    pub(crate) fn make_room(&mut self, account: u64, extra: usize) -> Result<(), OutOfMemory>
        ensures there { OnOk result (is_there account self.new.entries ≡ true) }
        ensures room { OnOk result (extra ≤ room_of account self.new.entries) }
        ensures extends { Extends self.old.entries self.new.entries }
    {
        self.begin(account)?;
        let Some(mut page) = self.lend(account) else {
            unreachable!()
        };
        let made = page.reserve(extra);
        self.give_back(account, page);
        made
    }

    /// Takes a row out of the register of its account, if one is given.
    fn take(&mut self, row: Option<(u64, Entry)>)
        ensures rows { IsTaken row self.old.entries self.new.entries }
        ensures changes { (first : _) → HasRow row first → HasRow row self.old.entries
            → CountsFrom first self.old.entries → CountsFrom first self.new.entries }
        ensures there { (account : ℕ) → is_there account self.new.entries ≡ is_there account self.old.entries }
        ensures room { (account : ℕ) → room_of account self.old.entries ≤ room_of account self.new.entries }
    {
        let Some((account, row)) = row else {
            return;
        };
        let Some(mut page) = self.lend(account) else {
            return;
        };
        page.take(&row);
        self.give_back(account, page);
    }

    /// Puts a row into the register of its account, if one is given, instead of one at its key.
    pub(crate) fn put(&mut self, row: Option<(u64, Entry)>)
        requires { HasRoomForRow row self.old.entries }
        ensures rows { IsPut row self.old.entries self.new.entries }
        ensures changes { (first : _) → LacksRow row first → IsFree row self.old.entries
            → CountsFrom first self.old.entries → CountsFrom first self.new.entries }
        ensures there { (account : ℕ) → is_there account self.new.entries ≡ is_there account self.old.entries }
        ensures room { (account : ℕ)
            → room_of account self.old.entries ≤ room_of account self.new.entries + one_on account row }
    {
        let Some((account, row)) = row else {
            return;
        };
        let Some(mut page) = self.lend(account) else {
            unreachable!()
        };
        page.put(row);
        self.give_back(account, page);
    }

    /// Takes out the rows that a transaction has and the one in its place hasn't.
    fn take_out(&mut self, number: u64, old: Option<&Txn>, new: Option<&Txn>)
        requires old { FitsPlaces (option_copied old) }
        requires new { FitsPlaces (option_copied new) }
        ensures rows { AllTaken number (option_copied old.entry) (option_copied new.entry) self.old.entries
            self.new.entries }
        ensures changes { (first : _) → HasRowsOf number (option_copied old.entry) first
            → HasRowsOf number (option_copied old.entry) self.old.entries
            → CountsFrom first self.old.entries → CountsFrom first self.new.entries }
        ensures there { (account : ℕ) → is_there account self.new.entries ≡ is_there account self.old.entries }
        ensures room { (account : ℕ) → room_of account self.old.entries ≤ room_of account self.new.entries }
    {
        let Some(transaction) = old else {
            return;
        };
        for place in 0..transaction.splits.len() {
            self.take(left(number, transaction, new, place));
        }
    }

    /// Puts in the rows that a transaction has and the one in whose place it comes hasn't.
    fn put_in(&mut self, number: u64, new: Option<&Txn>, old: Option<&Txn>)
        requires new { FitsPlaces (option_copied new) }
        requires old { FitsPlaces (option_copied old) }
        requires room { (account : ℕ) → txn_splits_on account (option_copied new) ≤ room_of account self.old.entries }
        ensures rows { AllPut number (option_copied new.entry) (option_copied old.entry) self.old.entries
            self.new.entries }
        ensures changes { (first : _) → HasRowsOf number (option_copied old.entry) first
            → AreFree number (option_copied new.entry) (option_copied old.entry) self.old.entries
            → CountsFrom first self.old.entries → CountsFrom first self.new.entries }
        ensures there { (account : ℕ) → is_there account self.new.entries ≡ is_there account self.old.entries }
        ensures room { (account : ℕ) → room_of account self.old.entries
            ≤ room_of account self.new.entries + txn_splits_on account (option_copied new.entry) }
    {
        let Some(transaction) = new else {
            return;
        };
        for place in 0..transaction.splits.len() {
            self.put(left(number, transaction, old, place));
        }
    }

    /// Has the rows of a transaction stand in the place of those of another under its number. Rows that both have stay.
    pub(crate) fn change(&mut self, number: u64, old: Option<&Txn>, new: Option<&Txn>)
        requires old { FitsPlaces (option_copied old) }
        requires new { FitsPlaces (option_copied new) }
        requires room { (account : ℕ) → txn_splits_on account (option_copied new) ≤ room_of account self.old.entries }
        ensures rows { IsChanged number (option_copied old.entry) (option_copied new.entry) self.old.entries
            self.new.entries }
        ensures changes { (first : _) → HasRowsOf number (option_copied old.entry) first
            → HasRowsOf number (option_copied old.entry) self.old.entries
            → CountsFrom first self.old.entries → CountsFrom first self.new.entries }
        ensures there { (account : ℕ) → is_there account self.new.entries ≡ is_there account self.old.entries }
        ensures room { (account : ℕ) → room_of account self.old.entries
            ≤ room_of account self.new.entries + txn_splits_on account (option_copied new.entry) }
    {
        self.take_out(number, old, new);
        self.put_in(number, new, old);
    }
}
