ghost use Rattle.std.specs.Prelude.{◌≡◌, ◌+◌, ◌≤◌, ◌<◌, ◌^◌, IfOk, IfErr, OnOk, length, slice_get};
ghost use Rattle.std.specs.Option.{option_copied};
ghost use Rattle.book_keeper.specs.Rows.{Rises, rank, after_change, after_changes, with_row};
ghost use Rattle.book_keeper.specs.Rows.{without_row, first_after, IsAt, IsGapFor};

use crate::{Change, Row, RowKey};
use book_commodity::{Many, OutOfMemory};
use std::alloc::Global;
use std::marker::Model;

/// Rows in memory, in rising order of their keys, and how many more they have room for.
#[derive(Drop)]
pub struct MemRows {
    rows: Vec<Row>,
}

impl Model for MemRows {
    ghost use Rattle.std.specs.Prelude.{◌-◌, vec_capacity, vec_len};
    ghost use Rattle.book_keeper.specs.Rows.{KeptRows, Rises};

    ghost Value = { KeptRows };

    ghost view = { λ r. record { rows = r.rows.items; spare = vec_capacity r.rows - vec_len r.rows } };

    ghost invariant = { λ r. Rises r.rows.items };
}

impl MemRows {
    /// These rows.
    pub fn of(rows: Many<Row>) -> MemRows
        requires { Rises rows }
        ensures { result.rows ≡ rows }
    {
        MemRows {
            rows: rows.into_vec(),
        }
    }

    /// The allocator of the rows.
    pub(crate) fn allocator(&self) -> Global {
        *self.rows.allocator()
    }

    /// The rows, borrowed.
    pub fn as_slice(&self) -> &[Row]
        ensures rows { result.now ≡ self.now.rows }
        ensures rises { Rises self.now.rows }
    {
        self.rows.as_slice()
    }

    /// Makes room for so many more rows; the rows stay.
    pub fn reserve(&mut self, extra: usize) -> Result<(), OutOfMemory>
        ensures room { OnOk result (extra ≤ self.new.spare) }
        ensures rows { self.new.rows ≡ self.old.rows }
    {
        self.rows.reserve(extra)?;
        Ok(())
    }

    /// The first row behind the key, or the first of all.
    #[tactic(auto, using(crate::proofs::RowLemmas::places))]
    pub fn after(&self, key: Option<RowKey>) -> Option<&Row>
        ensures { option_copied result ≡ first_after key self.now.rows }
    {
        let Some(key) = key else {
            return self.row_at(0);
        };
        match self.search(key) {
            Ok(place) => self.row_at(place + 1),
            Err(place) => self.row_at(place),
        }
    }

    /// The row at a place, where there is one.
    #[tactic(auto, using(std::proofs::lemmas::Grind::common_steps, std::proofs::lemmas::Option::gets))]
    fn row_at(&self, place: usize) -> Option<&Row>
        ensures row { option_copied result ≡ slice_get self.now.rows place }
        ensures rises { Rises self.now.rows }
    {
        self.rows.get(place)
    }

    /// Makes the changes, in order. It takes no memory.
    pub fn make_all(&mut self, changes: Many<Change>)
        requires { length changes ≤ self.old.spare }
        ensures { self.new.rows ≡ after_changes changes self.old.rows }
    {
        for change in changes.into_vec() {
            self.make(change);
        }
    }

    /// Makes the change. It takes no memory.
    fn make(&mut self, change: Change)
        requires { 1 ≤ self.old.spare }
        ensures rows { self.new.rows ≡ after_change change self.old.rows }
        ensures spare { self.old.spare ≤ self.new.spare + 1 }
    {
        match change {
            Change::Put(row) => self.put(row),
            Change::Gone(key) => self.take(key),
        }
    }

    /// Puts the row in place of the one with its key, or else in the order of keys.
    #[tactic(auto, using(crate::proofs::RowLemmas::places))]
    fn put(&mut self, row: Row)
        requires { 1 ≤ self.old.spare }
        ensures rows { self.new.rows ≡ with_row row self.old.rows }
        ensures spare { self.old.spare ≤ self.new.spare + 1 }
    {
        match self.search(row.key) {
            Ok(place) => self.rows[place] = row,
            Err(place) => {
                let Ok(()) = self.rows.insert(place, row) else {
                    unreachable!()
                };
            }
        }
    }

    /// Takes out the row with the key, where there is one.
    #[tactic(auto, using(crate::proofs::RowLemmas::places))]
    fn take(&mut self, key: RowKey)
        ensures rows { self.new.rows ≡ without_row key self.old.rows }
        ensures spare { self.old.spare ≤ self.new.spare }
    {
        if let Ok(place) = self.search(key) {
            drop(self.rows.remove(place));
        }
    }

    /// The place of the row with this key, or the one where it would go.
    fn search(&self, key: RowKey) -> Result<usize, usize>
        ensures found { IfOk result (IsAt (rank key) self.now.rows) }
        ensures absent { IfErr result (IsGapFor (rank key) self.now.rows) }
        ensures fits { IfOk result (λ place. place + 1 < 2 ^ 64) }
    {
        self.rows
            .binary_search_by_key(&key.rank(), |row| row.key.rank())
    }
}
