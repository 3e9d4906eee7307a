ghost use Rattle.std.specs.Prelude.{◌≡◌, ◌+◌, ◌-◌, ◌^◌, ◌≤◌, ◌+ℤ◌, ◌-ℤ◌, [], OnErr, OnOk, if◌then◌else◌, is_ok, length};
ghost use Rattle.std.specs.Prelude.{Some, ◌∷◌, filter, min, slice_get, take};
ghost use Rattle.std.specs.List.{All};
ghost use Rattle.book_lots.specs.Lots.{IsSmall, adjustments_of, all_gains, cost_of, gains_within, left_before, lots_of};
ghost use Rattle.book_lots.specs.Lots.{gain_of, is_within, pairs_of, value_of};
ghost use Rattle.book_lots.specs.Sides.{AreCheckpoints, Begins, mark_of, with_checkpoint};

use crate::mark::Mark;
use crate::reckoning::Reckoning;
use crate::{OpenLot, Pair};
use book_commodity::{Day, OutOfMemory, Steps};
use book_register::Register;
use std::alloc::Global;
use std::marker::Model;

/// How many entries lie between two checkpoints.
const BETWEEN: usize = 256;

/// The lots of a security account, brought up to the account's register by `extend`. Contracts see the entries that
/// were reckoned, from which all that the lots tell follows, and the work.
#[derive(Drop)]
pub struct Lots {
    reckoning: Reckoning,
    checkpoints: Vec<Mark>,
    work: u64,
}

impl Model for Lots {
    ghost use Rattle.book_lots.specs.Lots.{Reckoned};
    ghost use Rattle.book_lots.specs.Sides.{AreCheckpoints};

    ghost Value = { Reckoned };

    ghost view = { λ l. record { entries = l.reckoning; work = l.work } };

    ghost invariant = { λ l. AreCheckpoints l.reckoning l.checkpoints.items };
}

impl Lots {
    /// The lots of no entries; it takes no memory.
    pub fn new(alloc: Global) -> Lots
        ensures entries { result.entries ≡ [] }
        ensures work { result.work ≡ 0 }
    {
        Lots {
            reckoning: Reckoning::new(alloc),
            checkpoints: Vec::new(alloc),
            work: 0,
        }
    }

    /// How many entries of the register were reckoned.
    pub fn reckoned(&self) -> usize
        ensures { result ≡ length self.now.entries }
    {
        self.reckoning.len()
    }

    /// How many entries `extend` reckoned so far, those that it reckoned again included; at 2^64 - 1 it stays.
    pub fn work(&self) -> u64
        ensures { result ≡ self.now.work }
    {
        self.work
    }

    /// Forgets what was reckoned from a place of the register on, and before it back to the last multiple of 256.
    /// Nothing is forgotten where so many entries weren't reckoned. It takes no memory.
    pub fn touch(&mut self, place: usize)
        ensures entries { self.new.entries ≡ take (left_before place (length self.old.entries)) self.old.entries }
        ensures work { self.new.work ≡ self.old.work }
    {
        if place >= self.reckoning.len() {
            return;
        }
        let count = place / BETWEEN;
        let mark = checkpoint(self.checkpoints.as_slice(), count);
        self.reckoning.back_to(mark);
        self.checkpoints.truncate(count);
    }

    /// Brings the lots up to the register, whose first entries are those that were reckoned. Nothing changes where it
    /// is out of memory.
    pub fn extend(&mut self, register: &Register) -> Result<(), OutOfMemory>
        requires known { self.old.entries ≡ take (length self.old.entries) register.now.rows }
        requires few { length register.now.rows ≤ 1_000_000 }
        requires small { All IsSmall register.now.rows }
        ensures entries { self.new.entries ≡ (if is_ok result then register.now.rows else self.old.entries) }
        ensures work { self.new.work ≡ (if is_ok result
            then min (self.old.work + (length register.now.rows - length self.old.entries)) (2 ^ 64 - 1)
            else self.old.work) }
    {
        let start = self.reckoning.mark();
        let kept = self.checkpoints.len();
        let done = reckon_rows(&mut self.reckoning, &mut self.checkpoints, register);
        match done {
            Ok(()) => {
                let more = register.len() - start.entries;
                self.work = self.work.saturating_add(more as u64);
            }
            Err(_) => {
                self.reckoning.back_to(start);
                self.checkpoints.truncate(kept);
            }
        }
        done
    }

    /// The pairs in order of their units.
    pub fn pairs(&self) -> &[Pair]
        ensures { result.now ≡ pairs_of self.now.entries }
    {
        self.reckoning.pairs()
    }

    /// The open lots in the order of the register.
    pub fn lots(&self) -> &[OpenLot]
        ensures { result.now ≡ lots_of self.now.entries }
    {
        self.reckoning.lots()
    }

    /// The sum of the gains on the days from one to another, both included.
    pub fn gains(&self, from: Day, to: Day) -> i128
        ensures { result ≡ gains_within from to self.now.entries }
    {
        let mut sum = 0;
        for pair in self.reckoning.pairs() {
            sum += gain_on(pair, from, to);
        }
        sum
    }

    /// The sum of the costs of the open lots.
    pub fn open_cost(&self) -> i128
        ensures cost { result ≡ cost_of (lots_of self.now.entries) }
        ensures law { value_of self.now.entries
            ≡ (result -ℤ all_gains self.now.entries) +ℤ adjustments_of self.now.entries }
    {
        let mut sum = 0;
        for lot in self.reckoning.lots() {
            sum += lot.cost;
        }
        sum
    }

    /// The sum of the values of the entries of quantity 0.
    pub fn adjustments(&self) -> i128
        ensures { result ≡ adjustments_of self.now.entries }
    {
        self.reckoning.adjustments()
    }
}

/// The checkpoint of so many times 256 entries.
fn checkpoint(checkpoints: &[Mark], count: usize) -> Mark
    requires { count ≤ length checkpoints.now }
    ensures none { count ≡ 0 → result ≡ mark_of [] }
    ensures some { 1 ≤ count → slice_get checkpoints.now (count - 1) ≡ Some result }
{
    if count == 0 {
        return Mark::none();
    }
    checkpoints[count - 1]
}

/// Reckons the rows of the register that weren't reckoned, and keeps a checkpoint at each multiple of 256. Where it is
/// out of memory, some of them may have been reckoned.
fn reckon_rows(
    reckoning: &mut Reckoning,
    checkpoints: &mut Vec<Mark>,
    register: &Register,
) -> Result<(), OutOfMemory>
    requires known { reckoning.old ≡ take (length reckoning.old) register.now.rows }
    requires few { length register.now.rows ≤ 1_000_000 }
    requires small { All IsSmall register.now.rows }
    requires marks { AreCheckpoints reckoning.old checkpoints.old.items }
    ensures rows { OnOk result (reckoning.new ≡ register.now.rows) }
    ensures marks { OnOk result (AreCheckpoints reckoning.new checkpoints.new.items) }
    ensures begun { Begins reckoning.old reckoning.new }
    ensures marks_begun { Begins checkpoints.old.items checkpoints.new.items }
{
    let mut steps = Steps::new();
    for place in reckoning.len()..register.len() {
        reckoning.reckon(register.row(place, &mut steps))?;
        keep_checkpoint(reckoning, checkpoints)?;
    }
    Ok(())
}

/// Keeps a checkpoint where the number of entries is a multiple of 256.
fn keep_checkpoint(reckoning: &Reckoning, checkpoints: &mut Vec<Mark>) -> Result<(), OutOfMemory>
    ensures kept { OnOk result (checkpoints.new.items ≡ with_checkpoint reckoning.now checkpoints.old.items) }
    ensures err { OnErr result (checkpoints.new.items ≡ checkpoints.old.items) }
{
    if reckoning.len() % BETWEEN != 0 {
        return Ok(());
    }
    checkpoints.push(reckoning.mark())?;
    Ok(())
}

/// The gain of a pair whose day lies in the period, and nothing for every other.
fn gain_on(pair: &Pair, from: Day, to: Day) -> i128
    ensures { result ≡ gain_of (filter (is_within from to) (pair.now ∷ [])) }
{
    if from.number() > pair.day.number() {
        return 0;
    }
    if pair.day.number() > to.number() {
        return 0;
    }
    pair.gain
}
