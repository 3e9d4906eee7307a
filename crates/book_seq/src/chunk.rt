ghost use Rattle.std.specs.Prelude.{◌≡◌, ◌+◌, ◌-◌, ◌<◌, ◌≤◌, [], ◌++◌, IfOk, OnOk, Some, length, slice_get, take, drop};
ghost use Rattle.std.specs.Prelude.{insert, remove, vec_capacity, vec_len};
ghost use Rattle.book_seq.specs.Cuts.{IsCut, IsParted, last_passes};
ghost use Rattle.book_seq.specs.Sums.{AreWithin, sums_of};

use crate::sums::Sums;
use crate::{Test, Weigh};
use book_commodity::{OutOfMemory, Steps};
use std::alloc::Global;
use std::marker::Model;

/// A chunk of a list: some entries in order and the sums of their weights. Contracts see the entries, and how many its
/// memory can hold.
#[derive(Drop)]
pub(crate) struct Chunk<E: Weigh> {
    entries: Vec<E>,
    sums: Sums,
}

impl<E: Weigh> Model for Chunk<E> {
    ghost use Rattle.std.specs.Prelude.{vec_capacity};
    ghost use Rattle.book_seq.specs.Chunks.{Piece};
    ghost use Rattle.book_seq.specs.Sums.{AreKept};

    ghost Value = { Piece E };

    ghost view = { λ c. record { entries = c.entries.items; room = vec_capacity c.entries } };

    ghost invariant = { λ c. AreKept E.weights c.entries.items c.sums };
}

impl<E: Weigh> Chunk<E> {
    /// The chunk with no entries; it takes no memory.
    pub(crate) fn new(alloc: Global) -> Chunk<E>
        ensures { result.entries ≡ [] }
    {
        Chunk {
            entries: Vec::new(alloc),
            sums: Sums::none(),
        }
    }

    /// A chunk with no entries and memory for so many.
    pub(crate) fn with_room(alloc: Global, room: usize) -> Result<Chunk<E>, OutOfMemory>
        ensures entries { IfOk result (λ c. c.entries ≡ []) }
        ensures room { IfOk result (λ c. room ≤ c.room) }
    {
        Ok(Chunk {
            entries: Vec::with_capacity(alloc, room)?,
            sums: Sums::none(),
        })
    }

    /// How many entries there are.
    pub(crate) fn len(&self) -> usize
        ensures { result ≡ length self.now.entries }
    {
        self.entries.len()
    }

    /// How many entries its memory can hold.
    pub(crate) fn room(&self) -> usize
        ensures { result ≡ self.now.room }
    {
        self.entries.capacity()
    }

    /// The entries from a place on.
    pub(crate) fn from(&self, place: usize) -> &[E]
        requires { place ≤ length self.now.entries }
        ensures { result.now ≡ drop place self.now.entries }
    {
        &self.entries[place..]
    }

    /// Whether there is a last entry and it passes the test: one step.
    pub(crate) fn is_passed<T: Test<E>, L>(&self, test: &T, steps: &mut Steps<L>) -> bool
        ensures passed { result ≡ last_passes (T.is_passed test.now) self.now.entries }
        ensures steps { steps.new ≡ steps.old + 1 }
    {
        steps.tick();
        match self.entries.last() {
            Some(entry) => test.passes(entry),
            None => false,
        }
    }

    /// How many first entries pass the test, found by halving them.
    pub(crate) fn cut<T: Test<E>, L>(&self, test: &T, steps: &mut Steps<L>) -> usize
        requires few { length self.now.entries ≤ 512 }
        requires parted { IsParted (T.is_passed test.now) self.now.entries }
        ensures cut { IsCut (T.is_passed test.now) self.now.entries result }
        ensures within { result ≤ length self.now.entries }
        ensures steps { steps.new ≤ steps.old + 10 }
    {
        let mut low = 0;
        let mut high = self.entries.len();
        for _round in 0..10usize {
            if low == high {
                return low;
            }
            let middle = low + (high - low) / 2;
            if test.passes(self.entry(middle, steps)) {
                low = middle + 1;
            } else {
                high = middle;
            }
        }
        low
    }

    /// Makes room for so many more entries.
    pub(crate) fn reserve(&mut self, extra: usize) -> Result<(), OutOfMemory>
        ensures room { OnOk result (length self.old.entries + extra ≤ self.new.room) }
        ensures entries { self.new.entries ≡ self.old.entries }
        ensures kept { self.old.room ≤ self.new.room }
    {
        self.entries.reserve(extra)?;
        Ok(())
    }

    /// Reads the entry at a place: one step.
    pub(crate) fn entry<L>(&self, place: usize, steps: &mut Steps<L>) -> &E
        requires { place < length self.now.entries }
        ensures entry { slice_get self.now.entries place ≡ Some result.now }
        ensures steps { steps.new ≡ steps.old + 1 }
    {
        steps.tick();
        &self.entries[place]
    }

    /// Reads the sums of all entries: one step.
    pub(crate) fn sums<L>(&self, steps: &mut Steps<L>) -> Sums
        requires few { length self.now.entries ≤ 512 }
        ensures sums { result ≡ sums_of E.weights self.now.entries }
        ensures within { AreWithin (length self.now.entries) result }
        ensures steps { steps.new ≡ steps.old + 1 }
    {
        steps.tick();
        self.sums
    }

    /// The sums of the entries before a place, read one by one.
    pub(crate) fn sums_before<L>(&self, place: usize, steps: &mut Steps<L>) -> Sums
        requires { place ≤ length self.now.entries }
        ensures sums { result ≡ sums_of E.weights (take place self.now.entries) }
        ensures within { AreWithin place result }
        ensures steps { steps.new ≡ steps.old + place }
    {
        let mut sums = Sums::none();
        for before in 0..place {
            sums = sums.plus(Sums::of(self.entry(before, steps)));
        }
        sums
    }
}

impl<E: Weigh + Drop> Chunk<E> {
    /// Puts an entry in at a place: one step. It takes no memory.
    pub(crate) fn insert<L>(&mut self, place: usize, entry: E, steps: &mut Steps<L>)
        requires place { place ≤ length self.old.entries }
        requires few { length self.old.entries < 512 }
        requires room { length self.old.entries < self.old.room }
        ensures entries { self.new.entries ≡ insert self.old.entries place entry }
        ensures room { self.old.room ≤ self.new.room }
        ensures steps { steps.new ≡ steps.old + 1 }
    {
        steps.tick();
        let sums = self.sums.plus(Sums::of(&entry));
        let Ok(()) = self.entries.insert(place, entry) else {
            unreachable!()
        };
        self.sums = sums;
    }

    /// Takes the entry at a place out: one step.
    pub(crate) fn remove<L>(&mut self, place: usize, steps: &mut Steps<L>) -> E
        requires place { place < length self.old.entries }
        requires few { length self.old.entries ≤ 512 }
        ensures entry { slice_get self.old.entries place ≡ Some result }
        ensures entries { self.new.entries ≡ remove self.old.entries place }
        ensures room { self.new.room ≡ self.old.room }
        ensures steps { steps.new ≡ steps.old + 1 }
    {
        steps.tick();
        let entry = self.entries.remove(place);
        self.sums = self.sums.minus(Sums::of(&entry));
        entry
    }

    /// Moves the entries from a place on into another chunk, which has none: one step for each. It takes no memory.
    pub(crate) fn split<L>(&mut self, place: usize, other: &mut Chunk<E>, steps: &mut Steps<L>)
        requires place { place ≤ length self.old.entries }
        requires few { length self.old.entries ≤ 512 }
        requires empty { other.old.entries ≡ [] }
        requires room { length self.old.entries - place ≤ other.old.room }
        ensures lower { self.new.entries ≡ take place self.old.entries }
        ensures upper { other.new.entries ≡ drop place self.old.entries }
        ensures room { self.new.room ≡ self.old.room }
        ensures other_room { other.old.room ≤ other.new.room }
        ensures steps { steps.new ≡ steps.old + (length self.old.entries - place) }
    {
        let moved = move_upper(&mut self.entries, place, &mut other.entries, steps);
        self.sums = self.sums.minus(moved);
        other.sums = moved;
    }

    /// Moves all entries of another chunk behind those of this one, as a block: its sums are read, one step. It takes
    /// no memory.
    pub(crate) fn append<L>(&mut self, other: &mut Chunk<E>, steps: &mut Steps<L>)
        requires few { length self.old.entries + length other.old.entries ≤ 512 }
        requires room { 512 ≤ self.old.room }
        ensures entries { self.new.entries ≡ self.old.entries ++ other.old.entries }
        ensures other { other.new.entries ≡ [] }
        ensures room { self.old.room ≤ self.new.room }
        ensures other_room { other.new.room ≡ other.old.room }
        ensures steps { steps.new ≡ steps.old + 1 }
    {
        let sums = self.sums.plus(other.sums(steps));
        let Ok(()) = self.entries.append(&mut other.entries) else {
            unreachable!()
        };
        self.sums = sums;
        other.sums = Sums::none();
    }
}

/// Moves the entries from a place on into a vector that has none, and adds them up: one step for each.
fn move_upper<E: Weigh + Drop, L>(
    entries: &mut Vec<E>,
    place: usize,
    upper: &mut Vec<E>,
    steps: &mut Steps<L>,
) -> Sums
    requires place { place ≤ vec_len entries.old }
    requires few { vec_len entries.old ≤ 512 }
    requires empty { upper.old.items ≡ [] }
    requires room { vec_len entries.old - place ≤ vec_capacity upper.old }
    ensures lower { entries.new.items ≡ take place entries.old.items }
    ensures upper { upper.new.items ≡ drop place entries.old.items }
    ensures sums { result ≡ sums_of E.weights (drop place entries.old.items) }
    ensures room { vec_capacity entries.new ≡ vec_capacity entries.old }
    ensures upper_room { vec_capacity upper.old ≤ vec_capacity upper.new }
    ensures steps { steps.new ≡ steps.old + (vec_len entries.old - place) }
{
    let mut sums = Sums::none();
    while entries.len() > place {
        let Some(entry) = entries.pop() else {
            unreachable!()
        };
        steps.tick();
        sums = Sums::of(&entry).plus(sums);
        let Ok(()) = upper.push(entry) else {
            unreachable!()
        };
    }
    upper.reverse();
    sums
}
