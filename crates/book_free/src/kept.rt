ghost use Rattle.std.specs.Prelude.{◌≡◌, ◌≤◌, ◌+◌, length, OnOk};
ghost use Rattle.book_commodity.specs.Table.{Rises};
ghost use Rattle.book_free.specs.Following.{CanFollow, HasFollowed, SomeFollow, with_line, with_lines};
ghost use Rattle.book_free.specs.Kept.{HasRoomFor, IsSameKept};

use crate::{Move, Moves};
use book_commodity::{OutOfMemory, Table};
use book_match::AmountIndex;
use std::marker::Model;

/// The free splits of a book by account and amount, and the lines that splits are matched with. Contracts see the
/// index, and the entries of the lines' numbers by those of the splits.
#[derive(Drop)]
pub struct FreeSplits {
    pub(crate) index: AmountIndex,
    pub(crate) matched: Table<u64>,
}

impl Model for FreeSplits {
    ghost use Rattle.book_free.specs.Kept.{Kept};

    ghost Value = { Kept };

    ghost view = { λ f. record { index = f.index; matched = f.matched } };
}

impl FreeSplits {
    /// The free splits by account and amount.
    pub fn index(&self) -> &AmountIndex
        ensures { result.now ≡ self.now.index }
    {
        let _ = self.matched.len();
        &self.index
    }

    /// Makes room for what becomes of some splits. What is kept stays.
    pub fn reserve_for(&mut self, moves: &Moves) -> Result<(), OutOfMemory>
        ensures room { OnOk result (HasRoomFor self.new moves.now) }
        ensures same { IsSameKept self.old self.new }
    {
        let count = moves.len();
        self.matched.reserve(count)?;
        self.index.reserve(count)
    }

    /// Makes what is kept of a book what is kept of another, where the moves say what becomes of the splits from the
    /// one to the other. It can't fail and takes no memory. A split that leaves the index or comes into it moves a few
    /// hundred others, however many there are. The index's changes rise by the number of splits that leave it or come
    /// into it; one that stays as it was does neither.
    pub fn follow(&mut self, moves: &Moves)
        requires room { HasRoomFor self.old moves.now }
        requires ready { SomeFollow self.old moves.now }
        ensures { (old new : _) → CanFollow self.old moves.now old new → HasFollowed self.old self.new old new }
    {
        self.in_order();
        self.index.take_all(moves.gone.as_slice());
        self.index.put_all(moves.come.as_slice());
        self.set_lines(moves.splits.as_slice());
    }

    /// The splits are matched with the lines that the moves say from now on.
    fn set_lines(&mut self, moves: &[(u64, Move)])
        requires { length moves.now ≤ self.old.matched.spare }
        ensures matched { self.new.matched.entries ≡ with_lines moves.now self.old.matched.entries }
        ensures index { self.new.index ≡ self.old.index }
    {
        for (split, change) in moves {
            self.set_line(*split, change.line);
        }
    }

    /// The split is matched with this line from now on, or with none.
    fn set_line(&mut self, split: u64, line: Option<u64>)
        requires { 1 ≤ self.old.matched.spare }
        ensures matched { self.new.matched.entries ≡ with_line split line self.old.matched.entries }
        ensures spare { self.old.matched.spare ≤ self.new.matched.spare + 1 }
        ensures index { self.new.index ≡ self.old.index }
    {
        match line {
            Some(line) => drop(self.matched.put(split, line)),
            None => drop(self.matched.take(split)),
        }
    }

    /// The numbers of the splits rise.
    fn in_order(&self)
        ensures { Rises self.now.matched.entries }
    {
        let _ = self.matched.len();
    }
}
