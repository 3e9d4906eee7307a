ghost use Rattle.std.specs.Prelude.{◌≡◌, ◌+◌, ◌-◌, ◌/◌, ◌^◌, ◌<◌, ◌≤◌, [], None, OnOk, OnErr, Some, min, is_some};
ghost use Rattle.std.specs.Prelude.{drop, length};
ghost use Rattle.std.specs.Prelude.{if◌then◌else◌, insert, position, slice_get, take};
ghost use Rattle.book_register.specs.Register.{IsSorted, balance, balances, has_key as is_at, key_of as entry_key};
ghost use Rattle.book_register.specs.Register.{key_at as spelled_key, rows_until, rows_without};

use crate::key::{count_before, key_at, key_of, key_past, place_of};
use crate::{Balances, Entry};
use book_commodity::{Day, OutOfMemory, Steps};
use book_seq::Seq;
use std::alloc::Global;
use std::marker::Model;

/// The register of an account, which contracts see as its rows in the order of their keys, its room and the number of
/// its changes. A step is what it is in `Seq`: to read one row, or the sums of one chunk.
#[derive(Drop)]
pub struct Register {
    rows: Seq<Entry>,
    changes: u64,
}

impl Model for Register {
    ghost use Rattle.book_register.specs.Register.{IsSorted, Rows};

    ghost Value = { Rows };

    ghost view = { λ r. record { rows = r.rows.list; spare = r.rows.spare; changes = r.changes } };

    ghost invariant = { λ r. IsSorted r.rows.list };
}

impl Register {
    /// The register with no rows; it takes no memory.
    pub fn new(alloc: Global) -> Register
        ensures rows { result.rows ≡ [] }
        ensures spare { result.spare ≡ 0 }
        ensures changes { result.changes ≡ 0 }
    {
        Register {
            rows: Seq::new(alloc),
            changes: 0,
        }
    }

    /// How many rows there are.
    pub fn len(&self) -> usize
        ensures len { result ≡ length self.now.rows }
        ensures sorted { IsSorted self.now.rows }
    {
        self.rows.len()
    }

    /// How many rows were put in and taken out so far; at 2^64 - 1 it stays.
    pub fn changes(&self) -> u64
        ensures { result ≡ self.now.changes }
    {
        self.changes
    }

    /// Makes room for so many more rows. The rows stay, and no room is lost where it is out of memory.
    pub fn reserve(&mut self, extra: usize) -> Result<(), OutOfMemory>
        ensures room { OnOk result (extra ≤ self.new.spare) }
        ensures full { OnErr result (self.old.spare < extra) }
        ensures rows { self.new.rows ≡ self.old.rows }
        ensures changes { self.new.changes ≡ self.old.changes }
        ensures spare { self.old.spare ≤ self.new.spare }
    {
        self.rows.reserve(extra)
    }

    /// The row at a place: one step.
    pub fn row<L>(&self, place: usize, steps: &mut Steps<L>) -> Entry
        requires { place < length self.now.rows }
        ensures row { slice_get self.now.rows place ≡ Some result }
        ensures steps { steps.new ≡ steps.old + 1 }
    {
        *self.rows.get(place, steps)
    }

    /// The rows from a place on up to the end of the chunk where the place is: at least one. It takes no step.
    pub fn part(&self, place: usize) -> &[Entry]
        requires { place < length self.now.rows }
        ensures part { result.now ≡ take (length result.now) (drop place self.now.rows) }
        ensures some { 1 ≤ length result.now }
    {
        self.rows.part(place)
    }

    /// The balance after the row at a place: the sum of the quantities of the rows up to it.
    pub fn balance_after<L>(&self, place: usize, steps: &mut Steps<L>) -> i128
        requires { place < length self.now.rows }
        ensures balance { result ≡ balance (take (place + 1) self.now.rows) }
        ensures steps { steps.new ≤ steps.old + (length self.now.rows / 256 + 600) }
    {
        let _len = self.rows.len();
        self.rows.sum_before(place + 1, steps)[0]
    }

    /// The balances over the rows on or before a day.
    pub fn balances_at<L>(&self, day: Day, steps: &mut Steps<L>) -> Balances
        ensures balances { result ≡ balances (rows_until day self.now.rows) }
        ensures steps { steps.new ≤ steps.old + (length self.now.rows / 256 + 600) }
    {
        let count = count_before(&self.rows, key_past(day), steps);
        let _len = self.rows.len();
        let sums = self.rows.sum_before(count, steps);
        Balances {
            all: sums[0],
            cleared: sums[1],
            reconciled: sums[2],
        }
    }

    /// Puts a row in, whose key isn't there, and tells its place. It takes no memory.
    pub fn insert<L>(&mut self, entry: Entry, steps: &mut Steps<L>) -> usize
        requires room { 1 ≤ self.old.spare }
        requires absent { position (is_at (entry_key entry)) self.old.rows ≡ None }
        ensures place { slice_get self.new.rows result ≡ Some entry }
        ensures rows { self.new.rows ≡ insert self.old.rows result entry }
        ensures sorted { IsSorted self.new.rows }
        ensures changes { self.new.changes ≡ min (self.old.changes + 1) (2 ^ 64 - 1) }
        ensures spare { self.old.spare ≤ self.new.spare + 1 }
        ensures steps { steps.new ≤ steps.old + (length self.old.rows / 256 + 1200) }
    {
        let place = count_before(&self.rows, key_of(&entry), steps);
        let _len = self.rows.len();
        self.rows.insert(place, entry, steps);
        self.changes = self.changes.saturating_add(1);
        place
    }

    /// Takes the row at a key out, and tells the place where it was; `None` exactly where no row stands at the key.
    pub fn remove<L>(
        &mut self,
        day: Day,
        txn: u64,
        place: u32,
        steps: &mut Steps<L>,
    ) -> Option<usize>
        ensures place { result ≡ position (is_at (spelled_key day txn place)) self.old.rows }
        ensures rows { self.new.rows ≡ rows_without result self.old.rows }
        ensures changes { self.new.changes ≡ (if is_some result then min (self.old.changes + 1) (2 ^ 64 - 1)
            else self.old.changes) }
        ensures spare { self.old.spare ≤ self.new.spare }
        ensures steps { steps.new ≤ steps.old + (length self.old.rows / 256 + 600) }
    {
        match place_of(&self.rows, key_at(day, txn, place), steps) {
            Some(found) => {
                let _len = self.rows.len();
                let _row = self.rows.remove(found, steps);
                self.changes = self.changes.saturating_add(1);
                Some(found)
            }
            None => None,
        }
    }
}
