ghost use Rattle.std.specs.Prelude.{◌≡◌, ◌+◌, ◌/◌, ◌<◌, ◌≤◌, [], OnOk, OnErr, Some, drop, length, slice_get, take};
ghost use Rattle.std.specs.Prelude.{insert, remove};
ghost use Rattle.book_seq.specs.Cuts.{IsCut, IsParted};
ghost use Rattle.book_seq.specs.Sums.{listed, sums_of};

mod memory;
mod moves;
mod search;
mod sum_before;

use crate::chunk::Chunk;
use crate::spot::spot_of;
use crate::{Test, Weigh};
use book_commodity::{OutOfMemory, Steps};
use std::alloc::Global;
use std::marker::Model;

/// A list in chunks of at most 512 entries, with the sums of the weights kept for each chunk. Contracts see the list,
/// the number of chunks, which is at most a 256th of the entries and one more, and how many entries may be put in
/// before memory is asked for again. A step is to read one entry or the sums of one chunk. An entry that is put in or
/// taken out is read for its weights, and so is each entry that a split moves. To pass over a chunk by its length is no
/// step, nor that entries move in memory as a block.
#[derive(Drop)]
pub struct Seq<E: Weigh> {
    chunks: Vec<Chunk<E>>,
    free: Vec<Chunk<E>>,
    len: usize,
}

impl<E: Weigh> Model for Seq<E> {
    ghost use Rattle.std.specs.Prelude.{◌+◌, ◌≤◌, length, vec_capacity};
    ghost use Rattle.book_seq.specs.Chunks.{AreSound, Listed, first_room, list_of, spare_of};

    ghost Value = { Listed E };

    ghost view = { λ s. record {
      list = list_of s.chunks.items;
      chunks = length s.chunks.items;
      spare = spare_of (length s.chunks.items) (length s.free.items) (first_room s.chunks.items) s.len;
    } };

    ghost invariant = { λ s. AreSound s.chunks.items s.free.items s.len
        × ((length s.chunks.items + length s.free.items ≤ vec_capacity s.chunks)
        × (length s.chunks.items + length s.free.items ≤ vec_capacity s.free + 1)) };
}

impl<E: Weigh> Seq<E> {
    /// The list with no entries; it takes no memory.
    pub fn new(alloc: Global) -> Seq<E>
        ensures list { result.list ≡ [] }
        ensures chunks { result.chunks ≡ 0 }
        ensures spare { result.spare ≡ 0 }
    {
        Seq {
            chunks: Vec::new(alloc),
            free: Vec::new(alloc),
            len: 0,
        }
    }

    /// How many entries there are. It takes no step.
    pub fn len(&self) -> usize
        ensures len { result ≡ length self.now.list }
        ensures few { self.now.chunks ≤ length self.now.list / 256 + 1 }
    {
        self.len
    }

    /// The entry at a place: one step.
    pub fn get<L>(&self, place: usize, steps: &mut Steps<L>) -> &E
        requires { place < length self.now.list }
        ensures entry { slice_get self.now.list place ≡ Some result.now }
        ensures steps { steps.new ≡ steps.old + 1 }
    {
        let spot = spot_of(self.chunks.as_slice(), place, self.len);
        self.chunks[spot.chunk].entry(spot.offset, steps)
    }

    /// The entries from a place on up to the end of the chunk where the place is: at least one.
    pub fn part(&self, place: usize) -> &[E]
        requires { place < length self.now.list }
        ensures part { result.now ≡ take (length result.now) (drop place self.now.list) }
        ensures some { 1 ≤ length result.now }
    {
        let spot = spot_of(self.chunks.as_slice(), place, self.len);
        self.chunks[spot.chunk].from(spot.offset)
    }

    /// How many first entries pass the test, where behind one that doesn't none does. It halves the chunks by their
    /// last entries and then the entries of one chunk, and passes over the chunks before by their lengths: at most 65
    /// steps.
    pub fn cut<T: Test<E>, L>(&self, test: &T, steps: &mut Steps<L>) -> usize
        requires { IsParted (T.is_passed test.now) self.now.list }
        ensures cut { IsCut (T.is_passed test.now) self.now.list result }
        ensures within { result ≤ length self.now.list }
        ensures steps { steps.new ≤ steps.old + 65 }
    {
        let count = search::chunk_of(self.chunks.as_slice(), test, steps);
        let before = search::len_before(self.chunks.as_slice(), count);
        if count == self.chunks.len() {
            return before;
        }
        before + self.chunks[count].cut(test, steps)
    }

    /// The sums of the weights of so many first entries: the sums of the chunks before the place, and the weights of
    /// the entries before it in its own chunk.
    pub fn sum_before<L>(&self, place: usize, steps: &mut Steps<L>) -> [i128; 3]
        requires { place ≤ length self.now.list }
        ensures sums { result ≡ listed (sums_of E.weights (take place self.now.list)) }
        ensures steps { steps.new ≤ steps.old + (self.now.chunks + 512) }
    {
        sum_before::sums_before(self.chunks.as_slice(), place, steps).to_array()
    }
}

impl<E: Weigh + Drop> Seq<E> {
    /// Makes room for so many more entries, with all chunks that they can need. The list stays, and no room is lost
    /// where it is out of memory.
    pub fn reserve(&mut self, extra: usize) -> Result<(), OutOfMemory>
        ensures room { OnOk result (extra ≤ self.new.spare) }
        ensures full { OnErr result (self.old.spare < extra) }
        ensures list { self.new.list ≡ self.old.list }
        ensures spare { self.old.spare ≤ self.new.spare }
    {
        if memory::spare(self.chunks.as_slice(), self.free.len(), self.len) >= extra {
            return Ok(());
        }
        if extra > 1 << 62 {
            return Err(OutOfMemory);
        }
        memory::widen(&mut self.chunks, self.free.as_slice(), self.len, extra)?;
        if memory::spare(self.chunks.as_slice(), self.free.len(), self.len) >= extra {
            return Ok(());
        }
        let more = memory::missing(self.chunks.len(), self.free.len(), self.len, extra);
        memory::add(&mut self.chunks, &mut self.free, more)
    }

    /// Puts an entry in at a place. It takes no memory.
    pub fn insert<L>(&mut self, place: usize, entry: E, steps: &mut Steps<L>)
        requires place { place ≤ length self.old.list }
        requires room { 1 ≤ self.old.spare }
        ensures list { self.new.list ≡ insert self.old.list place entry }
        ensures spare { self.old.spare ≤ self.new.spare + 1 }
        ensures steps { steps.new ≤ steps.old + (self.old.chunks + 1024) }
    {
        let spot = spot_of(self.chunks.as_slice(), place, self.len);
        self.len += 1;
        if self.chunks[spot.chunk].len() < 512 {
            self.chunks[spot.chunk].insert(spot.offset, entry, steps);
            return;
        }
        let Some(mut fresh) = self.free.pop() else {
            unreachable!()
        };
        let last = spot.chunk + 1 == self.chunks.len();
        moves::put(
            &mut self.chunks[spot.chunk],
            &mut fresh,
            last,
            spot.offset,
            entry,
            steps,
        );
        let Ok(()) = self.chunks.insert(spot.chunk + 1, fresh) else {
            unreachable!()
        };
    }

    /// Takes the entry at a place out.
    pub fn remove<L>(&mut self, place: usize, steps: &mut Steps<L>) -> E
        requires { place < length self.old.list }
        ensures entry { slice_get self.old.list place ≡ Some result }
        ensures list { self.new.list ≡ remove self.old.list place }
        ensures spare { self.old.spare ≤ self.new.spare }
        ensures steps { steps.new ≤ steps.old + (self.old.chunks + 512) }
    {
        let spot = spot_of(self.chunks.as_slice(), place, self.len);
        let entry = self.chunks[spot.chunk].remove(spot.offset, steps);
        self.len -= 1;
        if spot.chunk + 1 < self.chunks.len() && self.chunks[spot.chunk].len() < 256 {
            moves::refill(&mut self.chunks, &mut self.free, spot.chunk, steps);
        }
        entry
    }
}
