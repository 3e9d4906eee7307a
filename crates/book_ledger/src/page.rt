ghost use Rattle.std.specs.Prelude.{◌≡◌, ◌+◌, ◌-◌, ◌^◌, ◌<◌, ◌≤◌, [], All, OnOk, if◌then◌else◌, is_ok, is_some, false};
ghost use Rattle.std.specs.Prelude.{None, Some, find, length, min, position};
ghost use Rattle.book_ledger.specs.Changes.{differing, has_row};
ghost use Rattle.book_ledger.specs.Lots.{AreLeft};
ghost use Rattle.book_ledger.specs.Page.{brought_up, lots_on, register_on};
ghost use Rattle.book_lots.specs.Lots.{IsSmall};
ghost use Rattle.book_register.specs.Register.{IsSorted, has_key, key_of, rows_without};

use crate::row::{insert_row, take_row};
use book_commodity::OutOfMemory;
use book_lots::Lots;
use book_register::{Entry, Register};
use std::alloc::Global;
use std::marker::Model;

/// An account's page of the ledger: its register, and the lots that are reckoned from the register's first rows.
#[derive(Drop)]
pub(crate) struct Page {
    register: Register,
    lots: Lots,
}

impl Model for Page {
    ghost use Rattle.std.specs.Prelude.{◌≡◌, length, take};
    ghost use Rattle.book_ledger.specs.Page.{Page};

    ghost Value = { Page };

    ghost view = { λ p. record {
      rows = p.register.rows;
      spare = p.register.spare;
      changes = p.register.changes;
      reckoned = length p.lots.entries;
      work = p.lots.work;
    } };

    ghost invariant = { λ p. p.lots.entries ≡ take (length p.lots.entries) p.register.rows };
}

impl Page {
    /// The page of an account without rows; it takes no memory.
    pub(crate) fn new(alloc: Global) -> Page
        ensures rows { result.rows ≡ [] }
        ensures changes { result.changes ≡ 0 }
        ensures reckoned { result.reckoned ≡ 0 }
        ensures work { result.work ≡ 0 }
    {
        Page {
            register: Register::new(alloc),
            lots: Lots::new(alloc),
        }
    }

    /// The register.
    pub(crate) fn register(&self) -> &Register
        ensures { result.now ≡ register_on self.now }
    {
        let _ = self.lots.reckoned();
        &self.register
    }

    /// The lots of the rows that are reckoned.
    pub(crate) fn lots(&self) -> &Lots
        ensures { result.now ≡ lots_on self.now }
    {
        &self.lots
    }

    /// The rows stand in order, and the count of changes is a number of 64 bits.
    pub(crate) fn in_order(&self)
        ensures sorted { IsSorted self.now.rows }
        ensures bounded { self.now.changes < 2 ^ 64 }
    {
        let _ = (self.register.len(), self.register.changes());
    }

    /// Makes room for so many more rows; all else stays.
    pub(crate) fn reserve(&mut self, extra: usize) -> Result<(), OutOfMemory>
        ensures room { OnOk result (extra ≤ self.new.spare) }
        ensures rows { self.new.rows ≡ self.old.rows }
        ensures changes { self.new.changes ≡ self.old.changes }
        ensures spare { self.old.spare ≤ self.new.spare }
        ensures reckoned { self.new.reckoned ≡ self.old.reckoned }
        ensures work { self.new.work ≡ self.old.work }
    {
        self.register.reserve(extra)
    }

    /// Takes a row out, where one stands at its key, and forgets the lots from its place on.
    pub(crate) fn take(&mut self, row: &Entry)
        ensures found { (key : _) → find (has_key key) self.new.rows
            ≡ (if has_key key row.now then None else find (has_key key) self.old.rows) }
        ensures rows { self.new.rows ≡ rows_without (position (has_key (key_of row.now)) self.old.rows) self.old.rows }
        ensures none { find (has_key (key_of row.now)) self.old.rows ≡ None → self.new.reckoned ≡ self.old.reckoned }
        ensures differing { (first : _) → IsSorted first → find (has_key (key_of row.now)) first ≡ Some row.now
            → find (has_key (key_of row.now)) self.old.rows ≡ Some row.now
            → differing first self.new.rows ≡ differing first self.old.rows + 1 }
        ensures left { (first : _) → IsSorted first → find (has_key (key_of row.now)) first ≡ Some row.now
            → find (has_key (key_of row.now)) self.old.rows ≡ Some row.now
            → (most : _) → AreLeft first most self.old.rows self.old.reckoned
            → AreLeft first most self.new.rows self.new.reckoned }
        ensures changes { self.new.changes ≡ (if is_some (find (has_key (key_of row.now)) self.old.rows)
            then min (self.old.changes + 1) (2 ^ 64 - 1) else self.old.changes) }
        ensures work { self.new.work ≡ self.old.work }
        ensures sorted { IsSorted self.new.rows }
        ensures spare { self.old.spare ≤ self.new.spare }
    {
        if let Some(place) = take_row(&mut self.register, row) {
            self.lots.touch(place);
        }
    }

    /// Puts a row in, instead of one at its key, and forgets the lots from its place on.
    pub(crate) fn put(&mut self, row: Entry)
        requires { 1 ≤ self.old.spare }
        ensures found { (key : _) → find (has_key key) self.new.rows
            ≡ (if has_key key row then Some row else find (has_key key) self.old.rows) }
        ensures differing { (first : _) → has_row row first ≡ false
            → find (has_key (key_of row)) self.old.rows ≡ None
            → differing first self.new.rows ≡ differing first self.old.rows + 1 }
        ensures left { (first : _) → has_row row first ≡ false
            → find (has_key (key_of row)) self.old.rows ≡ None
            → (most : _) → AreLeft first most self.old.rows self.old.reckoned
            → AreLeft first most self.new.rows self.new.reckoned }
        ensures changes { find (has_key (key_of row)) self.old.rows ≡ None
            → self.new.changes ≡ min (self.old.changes + 1) (2 ^ 64 - 1) }
        ensures work { self.new.work ≡ self.old.work }
        ensures sorted { IsSorted self.new.rows }
        ensures spare { self.old.spare ≤ self.new.spare + 1 }
    {
        self.take(&row);
        self.put_new(row);
    }

    /// Puts a row in, at whose key none stands, and forgets the lots from its place on.
    fn put_new(&mut self, row: Entry)
        requires room { 1 ≤ self.old.spare }
        requires absent { find (has_key (key_of row)) self.old.rows ≡ None }
        ensures found { (key : _) → find (has_key key) self.new.rows
            ≡ (if has_key key row then Some row else find (has_key key) self.old.rows) }
        ensures differing { (first : _) → has_row row first ≡ false
            → differing first self.new.rows ≡ differing first self.old.rows + 1 }
        ensures left { (first : _) → has_row row first ≡ false
            → (most : _) → AreLeft first most self.old.rows self.old.reckoned
            → AreLeft first most self.new.rows self.new.reckoned }
        ensures changes { self.new.changes ≡ min (self.old.changes + 1) (2 ^ 64 - 1) }
        ensures work { self.new.work ≡ self.old.work }
        ensures sorted { IsSorted self.new.rows }
        ensures spare { self.old.spare ≤ self.new.spare + 1 }
    {
        let place = insert_row(&mut self.register, row);
        self.lots.touch(place);
    }

    /// Brings the lots up to the register. Nothing changes where it is out of memory.
    pub(crate) fn reckon(&mut self) -> Result<(), OutOfMemory>
        requires few { length self.old.rows ≤ 1_000_000 }
        requires small { All IsSmall self.old.rows }
        ensures { self.new ≡ (if is_ok result then brought_up self.old else self.old) }
    {
        self.lots.extend(&self.register)
    }
}
