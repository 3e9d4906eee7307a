ghost use Rattle.std.specs.Prelude.{◌≡◌, ◌+◌, ◌^◌, ◌<◌, ◌≤◌, [], ◌∷◌, ◌++◌, OnErr, OnOk, if◌then◌else◌, is_ok, length};
ghost use Rattle.std.specs.Prelude.{min, take};
ghost use Rattle.std.specs.List.{All};
ghost use Rattle.book_lots.specs.Lots.{IsSmall, adjustments_of, lots_of, open_past, pairs_between, pairs_of, units_of};
ghost use Rattle.book_lots.specs.Sides.{AreSides, Begins, bought_side, mark_of, sold_side};

use crate::mark::Mark;
use crate::side::Side;
use crate::stretch::pair_of;
use crate::{OpenLot, Pair};
use book_commodity::OutOfMemory;
use book_register::Entry;
use std::alloc::Global;
use std::marker::Model;

/// The entries that were reckoned, and what follows from them: the splits that buy and those that sell with their units
/// numbered, the pairs, and the sum of the values of the splits without units.
#[derive(Drop)]
pub(crate) struct Reckoning {
    entries: Vec<Entry>,
    bought: Side,
    sold: Side,
    pairs: Vec<Pair>,
    adjustments: i128,
}

impl Model for Reckoning {
    ghost use Rattle.std.specs.Prelude.{List};
    ghost use Rattle.book_register.specs.declared.entry.Entry.{Entry};
    ghost use Rattle.book_lots.specs.Sides.{IsReckoned};

    ghost Value = { List Entry };

    ghost view = { λ r. r.entries.items };

    ghost invariant = { λ r. IsReckoned r.entries.items r.bought r.sold r.pairs.items r.adjustments };
}

impl Reckoning {
    /// No entries; it takes no memory.
    pub(crate) fn new(alloc: Global) -> Reckoning
        ensures { result ≡ [] }
    {
        Reckoning {
            entries: Vec::new(alloc),
            bought: Side::new(alloc),
            sold: Side::new(alloc),
            pairs: Vec::new(alloc),
            adjustments: 0,
        }
    }

    /// How many entries were reckoned.
    pub(crate) fn len(&self) -> usize
        ensures { result ≡ length self.now }
    {
        self.entries.len()
    }

    /// The pairs in order of their units.
    pub(crate) fn pairs(&self) -> &[Pair]
        ensures pairs { result.now ≡ pairs_of self.now }
        ensures small { All IsSmall self.now }
        ensures few { length self.now ≤ 1_000_000 }
    {
        self.pairs.as_slice()
    }

    /// The open lots in the order of the register.
    pub(crate) fn lots(&self) -> &[OpenLot]
        ensures lots { result.now ≡ lots_of self.now }
        ensures small { All IsSmall self.now }
        ensures few { length self.now ≤ 1_000_000 }
    {
        let open = self.bought.open();
        if open.is_empty() {
            self.sold.open()
        } else {
            open
        }
    }

    /// The sum of the values of the entries of quantity 0.
    pub(crate) fn adjustments(&self) -> i128
        ensures { result ≡ adjustments_of self.now }
    {
        self.adjustments
    }

    /// Reckons one more entry. Nothing changes where it is out of memory.
    pub(crate) fn reckon(&mut self, entry: Entry) -> Result<(), OutOfMemory>
        requires few { length self.old < 1_000_000 }
        requires small { IsSmall entry }
        ensures { self.new ≡ (if is_ok result then self.old ++ entry ∷ [] else self.old) }
    {
        self.entries.reserve(1)?;
        add(
            &mut self.bought,
            &mut self.sold,
            &mut self.pairs,
            self.entries.as_slice(),
            &entry,
        )?;
        self.adjustments += adjustment(&entry);
        let Ok(()) = self.entries.push(entry) else {
            unreachable!()
        };
        Ok(())
    }

    /// What has to be known to come back here.
    pub(crate) fn mark(&self) -> Mark
        ensures mark { result ≡ mark_of self.now }
        ensures few { length self.now ≤ 1_000_000 }
    {
        Mark {
            entries: self.entries.len(),
            bought: self.bought.mark(),
            sold: self.sold.mark(),
            pairs: self.pairs.len(),
            adjustments: self.adjustments,
        }
    }

    /// Forgets all entries since the mark. It takes no memory.
    pub(crate) fn back_to(&mut self, mark: Mark)
        requires known { mark.entries ≤ length self.old }
        requires is { mark ≡ mark_of (take mark.entries self.old) }
        ensures { self.new ≡ take mark.entries self.old }
    {
        self.entries.truncate(mark.entries);
        self.bought.back_to(mark.bought);
        self.sold.back_to(mark.sold);
        self.pairs.truncate(mark.pairs);
        self.adjustments = mark.adjustments;
    }
}

/// The value of an entry of quantity 0, and nothing for every other.
fn adjustment(entry: &Entry) -> i128
    ensures { result ≡ adjustments_of (entry.now ∷ []) }
{
    if entry.quantity == 0 {
        return i128::from(entry.value);
    }
    0
}

/// Puts an entry in behind the reckoned ones and pairs its units. Nothing changes where it is out of memory.
fn add(
    bought: &mut Side,
    sold: &mut Side,
    pairs: &mut Vec<Pair>,
    entries: &[Entry],
    entry: &Entry,
) -> Result<(), OutOfMemory>
    requires sides { AreSides entries.now bought.old sold.old pairs.old.items }
    requires few { length entries.now < 1_000_000 }
    requires small { IsSmall entry.now }
    ensures sides { OnOk result (AreSides (entries.now ++ entry.now ∷ []) bought.new sold.new pairs.new.items) }
    ensures kept { OnErr result (AreSides entries.now bought.new sold.new pairs.new.items) }
{
    let bought_mark = bought.mark();
    let sold_mark = sold.mark();
    let count = pairs.len();
    match try_add(bought, sold, pairs, entries, entry) {
        Ok(()) => Ok(()),
        Err(error) => {
            bought.back_to(bought_mark);
            sold.back_to(sold_mark);
            pairs.truncate(count);
            Err(error)
        }
    }
}

/// Puts an entry in behind the reckoned ones and pairs its units. Where it is out of memory, it may have begun.
fn try_add(
    bought: &mut Side,
    sold: &mut Side,
    pairs: &mut Vec<Pair>,
    entries: &[Entry],
    entry: &Entry,
) -> Result<(), OutOfMemory>
    requires sides { AreSides entries.now bought.old sold.old pairs.old.items }
    requires few { length entries.now < 1_000_000 }
    requires small { IsSmall entry.now }
    ensures sides { OnOk result (AreSides (entries.now ++ entry.now ∷ []) bought.new sold.new pairs.new.items) }
    ensures begun { OnErr result (Begins bought.old.stretches bought.new.stretches) }
    ensures begun_too { OnErr result (Begins sold.old.stretches sold.new.stretches) }
    ensures pairs { OnErr result (Begins pairs.old.items pairs.new.items) }
{
    if entry.quantity > 0 {
        bought.push(entries.len(), entry)?;
        return pair_up(bought, sold, pairs);
    }
    if entry.quantity < 0 {
        sold.push(entries.len(), entry)?;
        return pair_up(bought, sold, pairs);
    }
    Ok(())
}

/// Pairs the units that aren't paired, first in first out, until one side has none left.
fn pair_up(bought: &mut Side, sold: &mut Side, pairs: &mut Vec<Pair>) -> Result<(), OutOfMemory>
    requires { bought.old.paired ≡ sold.old.paired }
    ensures bought { bought.new.stretches ≡ bought.old.stretches }
    ensures sold { sold.new.stretches ≡ sold.old.stretches }
    ensures pairs { OnOk result (pairs.new.items ≡ pairs.old.items
        ++ pairs_between (open_past bought.old.paired bought.old.stretches)
        (open_past sold.old.paired sold.old.stretches)) }
    ensures paired { OnOk result (bought.new.paired
        ≡ min (units_of bought.old.stretches) (units_of sold.old.stretches)) }
    ensures same { OnOk result (sold.new.paired ≡ bought.new.paired) }
    ensures begun { OnErr result (Begins pairs.old.items pairs.new.items) }
{
    loop {
        let sold_front = sold.front();
        let Some(plus) = bought.front() else {
            return Ok(());
        };
        let Some(minus) = sold_front else {
            return Ok(());
        };
        pairs.push(pair_of(&plus, &minus))?;
        let end = plus.end().min(minus.end());
        bought.pair_to(end);
        sold.pair_to(end);
    }
}
