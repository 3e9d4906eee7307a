ghost use Rattle.std.specs.Prelude.{◌≡◌, ◌+◌, ◌≤◌, [], ◌∷◌, ◌++◌, MatchOption, length, slice_get, slice_set, take};
ghost use Rattle.std.specs.Prelude.{if◌then◌else◌, is_ok, unsigned_abs};
ghost use Rattle.std.specs.List.{All};
ghost use Rattle.std.specs.Option.{ForSome};
ghost use Rattle.book_limits.specs.Limits.{largest_sum};
ghost use Rattle.book_lots.specs.Lots.{IsSmall, end_of, lot_past, lots_past, open_past, stretch_at, units_of};
ghost use Rattle.book_lots.specs.Sides.{IsBounded, IsFrontTo, IsSound, mark_of_side};

use crate::OpenLot;
use crate::mark::SideMark;
use crate::stretch::Stretch;
use book_commodity::OutOfMemory;
use book_register::Entry;
use std::alloc::Global;
use std::marker::Model;

/// The splits of one sign with their units numbered, of which the first so many are paired. The open splits are a queue:
/// they begin at `head`. There is a lot for each split: for the first open one its units that aren't paired, and for
/// every other all its units, so that nothing has to be made anew where the queue moves on or is put back.
#[derive(Drop)]
pub(crate) struct Side {
    stretches: Vec<Stretch>,
    lots: Vec<OpenLot>,
    head: usize,
    units: u64,
    paired: u64,
}

impl Model for Side {
    ghost use Rattle.book_lots.specs.Sides.{IsKept, Paired};

    ghost Value = { Paired };

    ghost view = { λ s. record { stretches = s.stretches.items; paired = s.paired } };

    ghost invariant = { λ s. IsKept s.stretches.items s.lots.items s.head s.units s.paired };
}

impl Side {
    /// No splits; it takes no memory.
    pub(crate) fn new(alloc: Global) -> Side
        ensures { result ≡ record { stretches = []; paired = 0 } }
    {
        Side {
            stretches: Vec::new(alloc),
            lots: Vec::new(alloc),
            head: 0,
            units: 0,
            paired: 0,
        }
    }

    /// Puts a split in behind all others.
    pub(crate) fn push(&mut self, place: usize, entry: &Entry) -> Result<(), OutOfMemory>
        requires small { IsSmall entry.now }
        requires some { 1 ≤ unsigned_abs entry.now.quantity }
        requires few { units_of self.old.stretches ≤ largest_sum }
        ensures stretches { self.new.stretches ≡ (if is_ok result
            then self.old.stretches ++ stretch_at place (units_of self.old.stretches) entry.now ∷ []
            else self.old.stretches) }
        ensures paired { self.new.paired ≡ self.old.paired }
    {
        self.stretches.reserve(1)?;
        self.lots.reserve(1)?;
        let stretch = Stretch::of(place, self.units, entry);
        let Ok(()) = self.lots.push(stretch.rest(0)) else {
            unreachable!()
        };
        let Ok(()) = self.stretches.push(stretch) else {
            unreachable!()
        };
        self.units = stretch.end();
        Ok(())
    }

    /// The first split that has units that aren't paired.
    pub(crate) fn front(&self) -> Option<Stretch>
        ensures front { result ≡ slice_get (open_past self.now.paired self.now.stretches) 0 }
        ensures sound { IsSound self.now }
    {
        if self.head == self.stretches.len() {
            return None;
        }
        Some(self.stretches[self.head])
    }

    /// Pairs the units of the first open split up to a number.
    pub(crate) fn pair_to(&mut self, number: u64)
        requires { IsFrontTo self.old number }
        ensures { self.new ≡ record self.old { paired = number } }
    {
        let front = self.stretches[self.head];
        self.paired = number;
        if number < front.end() {
            self.lots[self.head] = front.rest(number);
            return;
        }
        self.lots[self.head] = front.rest(0);
        self.head += 1;
    }

    /// The units that aren't paired, as open lots in the order of the register.
    pub(crate) fn open(&self) -> &[OpenLot]
        ensures { result.now ≡ lots_past self.now.paired self.now.stretches }
    {
        &self.lots[self.head..]
    }

    /// How far the splits are known and paired.
    pub(crate) fn mark(&self) -> SideMark
        ensures mark { result ≡ mark_of_side self.now }
        ensures sound { IsSound self.now }
    {
        SideMark {
            len: self.stretches.len(),
            head: self.head,
            units: self.units,
            paired: self.paired,
        }
    }

    /// Forgets all splits and pairs since the mark. It takes no memory.
    pub(crate) fn back_to(&mut self, mark: SideMark)
        requires known { mark.len ≤ length self.old.stretches }
        requires is { mark ≡ mark_of_side (record { stretches = take mark.len self.old.stretches; paired = mark.paired }) }
        requires within { mark.paired ≤ units_of (take mark.len self.old.stretches) }
        ensures { self.new ≡ record { stretches = take mark.len self.old.stretches; paired = mark.paired } }
    {
        write_rest(&self.stretches, &mut self.lots, self.head, 0);
        self.stretches.truncate(mark.len);
        self.lots.truncate(mark.len);
        write_rest(&self.stretches, &mut self.lots, mark.head, mark.paired);
        self.head = mark.head;
        self.units = mark.units;
        self.paired = mark.paired;
    }
}

/// Writes the lot of the split at a place, if there is one: its units from a number on.
fn write_rest(stretches: &[Stretch], lots: &mut Vec<OpenLot>, place: usize, number: u64)
    requires same { length lots.old.items ≡ length stretches.now }
    requires bounded { All IsBounded stretches.now }
    requires most { ForSome (slice_get stretches.now place) (λ s. number ≤ end_of s) }
    ensures { MatchOption (slice_get stretches.now place) (lots.new.items ≡ lots.old.items)
        (λ s. lots.new.items ≡ slice_set lots.old.items place (lot_past number s)) }
{
    if place < stretches.len() {
        lots[place] = stretches[place].rest(number);
    }
}
