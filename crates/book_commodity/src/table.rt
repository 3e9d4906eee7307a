ghost use Rattle.std.specs.Prelude.{◌≡◌, ◌+◌, ◌-◌, ◌<◌, ◌≤◌, [], length, if◌then◌else◌, is_none, is_some, IsNone};
ghost use Rattle.std.specs.Prelude.{Some, OnOk, OnErr, IfOk, IfErr, slice_get};
ghost use Rattle.std.specs.Option.{option_copied, option_map};
ghost use Rattle.book_commodity.specs.Table.{Rises, value_of, with_entry, without_entry, IsAt, IsGapFor};

use crate::OutOfMemory;
use std::alloc::Global;
use std::marker::Model;
use std::mem;

/// Values under numbers, in rising order of the numbers. Contracts see the list of its entries, each a number with its
/// value, and how many more entries it has room for.
#[derive(Drop)]
pub struct Table<T> {
    rows: Vec<(u64, T)>,
}

impl<T> Model for Table<T> {
    ghost use Rattle.std.specs.Prelude.{◌-◌, vec_capacity, vec_len};
    ghost use Rattle.book_commodity.specs.Table.{Entries, Rises};

    ghost Value = { Entries T };

    ghost view = { λ t. record { entries = t.rows.items; spare = vec_capacity t.rows - vec_len t.rows } };

    ghost invariant = { λ t. Rises t.rows.items };
}

impl<T> Table<T> {
    /// The table with no entries; it takes no memory.
    pub fn new(alloc: Global) -> Table<T>
        ensures { result.entries ≡ [] }
    {
        Table {
            rows: Vec::new(alloc),
        }
    }

    /// How many entries there are.
    pub fn len(&self) -> usize
        ensures len { result ≡ length self.now.entries }
        ensures rises { Rises self.now.entries }
    {
        self.rows.len()
    }

    /// The value under this number; `None` where there is none.
    #[tactic(auto, using(crate::proofs::TableLemmas::places))]
    pub fn find(&self, number: u64) -> Option<&T>
        ensures { option_copied result ≡ value_of number self.now.entries }
    {
        match self.search(number) {
            Ok(place) => Some(&self.rows[place].1),
            Err(_) => None,
        }
    }

    /// The entries, borrowed.
    pub fn as_slice(&self) -> &[(u64, T)]
        ensures { result.now ≡ self.now.entries }
    {
        self.rows.as_slice()
    }

    /// The number of the entry at a place.
    pub fn number_at(&self, place: usize) -> u64
        requires { place < length self.now.entries }
        ensures { option_map (λ entry. entry.0) (slice_get self.now.entries place) ≡ Some result }
    {
        self.rows[place].0
    }

    /// The value of the entry at a place.
    pub fn value_at(&self, place: usize) -> &T
        requires { place < length self.now.entries }
        ensures { option_map (λ entry. entry.1) (slice_get self.now.entries place) ≡ Some result.now }
    {
        &self.rows[place].1
    }

    /// Makes room for so many more entries; the entries stay, and no room is lost when out of memory.
    pub fn reserve(&mut self, extra: usize) -> Result<(), OutOfMemory>
        ensures room { OnOk result (extra ≤ self.new.spare) }
        ensures full { OnErr result (self.old.spare < extra) }
        ensures entries { self.new.entries ≡ self.old.entries }
        ensures spare { self.old.spare ≤ self.new.spare }
    {
        self.rows.reserve(extra)?;
        Ok(())
    }

    /// Takes the value under the number out of the table; `None` where there is none. It takes no memory.
    #[tactic(auto, using(crate::proofs::TableLemmas::places))]
    pub fn take(&mut self, number: u64) -> Option<T>
        ensures entries { self.new.entries ≡ without_entry number self.old.entries }
        ensures old { result ≡ value_of number self.old.entries }
        ensures spare { self.new.spare ≡ self.old.spare + (if is_some result then 1 else 0) }
    {
        match self.search(number) {
            Ok(place) => {
                let (_, value) = self.rows.remove(place);
                Some(value)
            }
            Err(_) => None,
        }
    }

    /// The place of the entry with this number, or the one where it would go.
    fn search(&self, number: u64) -> Result<usize, usize>
        ensures found { IfOk result (IsAt number self.now.entries) }
        ensures absent { IfErr result (IsGapFor number self.now.entries) }
    {
        self.rows
            .binary_search_by_key(&number, |(number, _)| *number)
    }
}

impl<T: Drop> Table<T> {
    /// Puts the value under the number, and hands back the one that stood there. It takes no memory.
    #[tactic(auto, using(crate::proofs::TableLemmas::places))]
    pub fn put(&mut self, number: u64, value: T) -> Option<T>
        requires { IsNone (value_of number self.old.entries) → 1 ≤ self.old.spare }
        ensures rises { Rises self.old.entries }
        ensures entries { self.new.entries ≡ with_entry number value self.old.entries }
        ensures old { result ≡ value_of number self.old.entries }
        ensures spare { self.old.spare ≡ self.new.spare + (if is_none result then 1 else 0) }
    {
        match self.search(number) {
            Ok(place) => Some(mem::replace(&mut self.rows[place].1, value)),
            Err(place) => {
                let Ok(()) = self.rows.insert(place, (number, value)) else {
                    unreachable!()
                };
                None
            }
        }
    }
}
