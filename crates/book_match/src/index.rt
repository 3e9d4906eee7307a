ghost use Rattle.std.specs.Prelude.{◌≡◌, ◌+◌, ◌-◌, ◌^◌, ◌<◌, ◌≤◌, [], ◌∷◌, ◌++◌, false, filter, length, min, take};
ghost use Rattle.std.specs.Prelude.{OnOk, OnErr, IfOk, if◌then◌else◌};
ghost use Rattle.std.specs.List.{slice_range};
ghost use Rattle.book_seq.specs.Cuts.{IsCut};
ghost use Rattle.book_match.specs.AmountIndex.{Rises, is_there, of_amount, precedes as stands_before, with_free};
ghost use Rattle.book_match.specs.AmountIndex.{AreAbsent, AreApart, AreThere, ordered, with_all, without_all};
ghost use Rattle.book_match.specs.AmountIndex.{without_free};
ghost use Rattle.book_match.specs.Bounds.{is_near};

use crate::Free;
use crate::bounds::{AmountEnd, AmountStart, Before, DaysEnd, DaysStart};
use book_commodity::{Day, OutOfMemory, Steps};
use book_seq::Seq;
use std::alloc::Global;
use std::marker::Model;

/// The splits that may be matched, by account, amount, day and number, so that those of one amount stand together.
/// They are kept in chunks, so that one is put in or taken out by moving a few hundred others. Contracts see the list
/// of them, for how many more there is room, and how often it was changed.
#[derive(Drop)]
pub struct AmountIndex {
    entries: Seq<Free>,
    changes: u64,
}

impl Model for AmountIndex {
    ghost use Rattle.book_match.specs.AmountIndex.{Index, Rises};

    ghost Value = { Index };

    ghost view = { λ i. record {
      entries = i.entries.list;
      spare = i.entries.spare;
      changes = i.changes;
    } };

    ghost invariant = { λ i. Rises i.entries.list };
}

impl AmountIndex {
    /// The index without splits; it takes no memory.
    pub fn new(alloc: Global) -> AmountIndex
        ensures entries { result.entries ≡ [] }
        ensures changes { result.changes ≡ 0 }
    {
        AmountIndex {
            entries: Seq::new(alloc),
            changes: 0,
        }
    }

    /// The index of all these splits, none of which is there twice. They are sorted once.
    pub fn of_all(entries: Vec<Free>) -> Result<AmountIndex, OutOfMemory>
        requires apart { AreApart entries.items }
        ensures entries { IfOk result (λ index. index.entries ≡ ordered entries.items) }
        ensures changes { IfOk result (λ index. index.changes ≡ 0) }
    {
        let mut entries = entries;
        sort(&mut entries)?;
        Ok(AmountIndex {
            entries: in_chunks(*entries.allocator(), entries.as_slice())?,
            changes: 0,
        })
    }

    /// How many splits were put in and taken out so far; at 2^64 - 1 it stays.
    pub fn changes(&self) -> u64
        ensures { result ≡ self.now.changes }
    {
        self.changes
    }

    /// Makes room for so many more splits. The splits stay, and no room is lost where it is out of memory.
    pub fn reserve(&mut self, extra: usize) -> Result<(), OutOfMemory>
        ensures room { OnOk result (extra ≤ self.new.spare) }
        ensures full { OnErr result (self.old.spare < extra) }
        ensures entries { self.new.entries ≡ self.old.entries }
        ensures changes { self.new.changes ≡ self.old.changes }
        ensures spare { self.old.spare ≤ self.new.spare }
    {
        self.entries.reserve(extra)
    }

    /// Puts a split in, which isn't there. It takes no memory.
    pub fn put(&mut self, free: Free)
        requires room { 1 ≤ self.old.spare }
        requires absent { is_there free self.old.entries ≡ false }
        ensures entries { self.new.entries ≡ with_free free self.old.entries }
        ensures changes { self.new.changes ≡ min (self.old.changes + 1) (2 ^ 64 - 1) }
        ensures spare { self.old.spare ≤ self.new.spare + 1 }
    {
        let place = place_of(&self.entries, &free);
        self.entries.insert(place, free, &mut Steps::new());
        self.changes = self.changes.saturating_add(1);
    }

    /// Takes a split out, and tells whether it was there. It takes no memory.
    pub fn take(&mut self, free: Free) -> bool
        ensures taken { result ≡ is_there free self.old.entries }
        ensures entries { self.new.entries ≡ without_free free self.old.entries }
        ensures changes { self.new.changes
            ≡ (if result then min (self.old.changes + 1) (2 ^ 64 - 1) else self.old.changes) }
        ensures spare { self.old.spare ≤ self.new.spare }
    {
        let place = place_of(&self.entries, &free);
        if place == self.entries.len() {
            return false;
        }
        let mut steps = Steps::new();
        if !free.is_same(self.entries.get(place, &mut steps)) {
            return false;
        }
        let _ = self.entries.remove(place, &mut steps);
        self.changes = self.changes.saturating_add(1);
        true
    }

    /// Puts splits in of which none is there. They are given in the order of the index. It takes no memory.
    pub fn put_all(&mut self, come: &[Free])
        requires room { length come.now ≤ self.old.spare }
        requires rises { Rises come.now }
        requires absent { AreAbsent come.now self.old.entries }
        ensures entries { self.new.entries ≡ with_all come.now self.old.entries }
        ensures changes { self.new.changes ≡ min (self.old.changes + length come.now) (2 ^ 64 - 1) }
        ensures spare { self.old.spare ≤ self.new.spare + length come.now }
    {
        self.in_order();
        for free in come {
            self.put(*free);
        }
    }

    /// Takes splits out that are all there. They are given in the order of the index. It takes no memory.
    pub fn take_all(&mut self, gone: &[Free])
        requires rises { Rises gone.now }
        requires there { AreThere gone.now self.old.entries }
        ensures entries { self.new.entries ≡ without_all gone.now self.old.entries }
        ensures changes { self.new.changes ≡ min (self.old.changes + length gone.now) (2 ^ 64 - 1) }
        ensures spare { self.old.spare ≤ self.new.spare }
    {
        self.in_order();
        for free in gone {
            let _ = self.take(*free);
        }
    }

    /// The splits rise, and the count of changes is one of 64 bits.
    fn in_order(&self)
        ensures rises { Rises self.now.entries }
        ensures counted { self.now.changes ≤ 2 ^ 64 - 1 }
    {
        let _ = self.entries.len();
        let _ = self.changes();
    }

    /// The splits of the account with this amount, by day and number.
    pub fn of(&self, alloc: Global, account: u64, amount: i64) -> Result<Vec<Free>, OutOfMemory>
        ensures { IfOk result (λ splits. splits.items ≡ of_amount account amount self.now.entries) }
    {
        let mut steps = Steps::new();
        let start = self
            .entries
            .cut(&AmountStart { account, amount }, &mut steps);
        let end = self.entries.cut(&AmountEnd { account, amount }, &mut steps);
        copied(alloc, &self.entries, start, end)
    }

    /// Those of them that are at most so many days away from the day.
    pub(crate) fn near(
        &self,
        alloc: Global,
        account: u64,
        amount: i64,
        day: Day,
        window: u32,
    ) -> Result<Vec<Free>, OutOfMemory>
        ensures { IfOk result (λ splits. splits.items ≡ filter (is_near account amount day window) self.now.entries) }
    {
        let mut steps = Steps::new();
        let first = DaysStart {
            account,
            amount,
            day,
            window,
        };
        let start = self.entries.cut(&first, &mut steps);
        let last = DaysEnd {
            account,
            amount,
            day,
            window,
        };
        let end = self.entries.cut(&last, &mut steps);
        copied(alloc, &self.entries, start, end)
    }
}

/// Sorts splits by account, amount, day and number, as the index has them.
pub fn sort(entries: &mut Vec<Free>) -> Result<(), OutOfMemory>
    ensures { OnOk result (entries.new.items ≡ ordered entries.old.items) }
{
    entries.sort_by_key(|entry| {
        (entry.account, entry.amount, entry.day.number(), entry.split)
    })?;
    Ok(())
}

/// How many of the splits come before this one.
fn place_of(entries: &Seq<Free>, free: &Free) -> usize
    requires { Rises entries.now.list }
    ensures cut { IsCut (λ entry. stands_before entry free.now) entries.now.list result }
    ensures within { result ≤ length entries.now.list }
{
    entries.cut(&Before { free: *free }, &mut Steps::new())
}

/// These splits in chunks.
fn in_chunks(alloc: Global, entries: &[Free]) -> Result<Seq<Free>, OutOfMemory>
    ensures { IfOk result (λ seq. seq.list ≡ entries.now) }
{
    let mut seq = Seq::new(alloc);
    for entry in entries {
        push(&mut seq, *entry)?;
    }
    Ok(seq)
}

/// Puts a split behind the others.
fn push(entries: &mut Seq<Free>, entry: Free) -> Result<(), OutOfMemory>
    ensures { OnOk result (entries.new.list ≡ entries.old.list ++ entry ∷ []) }
{
    entries.reserve(1)?;
    entries.insert(entries.len(), entry, &mut Steps::new());
    Ok(())
}

/// The splits from one place up to another.
fn copied(
    alloc: Global,
    entries: &Seq<Free>,
    start: usize,
    end: usize,
) -> Result<Vec<Free>, OutOfMemory>
    requires order { start ≤ end }
    requires within { end ≤ length entries.now.list }
    ensures { IfOk result (λ splits. splits.items ≡ slice_range entries.now.list start end) }
{
    let mut splits = Vec::new(alloc);
    let mut place = start;
    while place < end {
        let part = entries.part(place);
        let count = part.len().min(end - place);
        splits.extend_from_slice(&part[..count])?;
        place += count;
    }
    Ok(splits)
}
