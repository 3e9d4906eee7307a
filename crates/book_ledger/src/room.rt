ghost use Rattle.std.specs.Prelude.{◌≡◌, ◌∷◌, [], OnOk, flat_map};
ghost use Rattle.book_ledger.specs.Room.{AreCounted, AreMade, Extends, IsAdded, IsCounted, IsReady, counted};
ghost use Rattle.book_undo.specs.Edit.{OfPut, leaves};

use crate::Registers;
use book_commodity::{OutOfMemory, Table};
use book_splits::Split;
use book_undo::{Edit, Thing};
use std::alloc::Global;

/// How many rows are to be put into the registers, by the numbers of their accounts.
#[derive(Drop)]
struct Wants {
    counts: Table<usize>,
}

impl Wants {
    /// Nothing is counted; it takes no memory.
    fn none(alloc: Global) -> Wants
        ensures { result.counts.entries ≡ [] }
    {
        Wants {
            counts: Table::new(alloc),
        }
    }

    /// How many rows are counted for an account.
    fn count_of(&self, account: u64) -> usize
        ensures { result ≡ counted account self.now.counts.entries }
    {
        match self.counts.find(account) {
            Some(count) => *count,
            None => 0,
        }
    }

    /// Counts so many more rows of an account.
    fn add(&mut self, account: u64, extra: usize) -> Result<(), OutOfMemory>
        ensures { OnOk result (IsAdded account extra self.old.counts.entries self.new.counts.entries) }
    {
        let Some(count) = self.count_of(account).checked_add(extra) else {
            return Err(OutOfMemory);
        };
        self.counts.reserve(1)?;
        let _ = self.counts.put(account, count);
        Ok(())
    }

    /// Counts the rows of splits.
    fn add_splits(&mut self, splits: &[Split]) -> Result<(), OutOfMemory>
        ensures { OnOk result (AreCounted splits.now self.old.counts.entries self.new.counts.entries) }
    {
        for split in splits {
            self.add(split.account, 1)?;
        }
        Ok(())
    }

    /// Counts the rows of a thing that is put under a number, and begins the count of an account.
    fn add_put(&mut self, number: u64, thing: &Thing) -> Result<(), OutOfMemory>
        ensures { OnOk result
            (IsCounted (OfPut number thing.now ∷ []) self.old.counts.entries self.new.counts.entries) }
    {
        match thing {
            Thing::Account(_) => self.add(number, 0),
            Thing::Txn(transaction) => self.add_splits(transaction.splits.as_slice()),
            _ => Ok(()),
        }
    }

    /// Counts the rows that an edit puts.
    #[cycle(count)]
    #[tactic(auto, using(book_undo::proofs::PartLaws::leaves_of_all))]
    fn count(&mut self, edit: &Edit) -> Result<(), OutOfMemory>
        ensures { OnOk result (IsCounted (leaves edit.now) self.old.counts.entries self.new.counts.entries) }
    {
        match edit {
            Edit::Put(number, thing) => self.add_put(*number, thing),
            Edit::All(parts) => self.count_all(parts.as_slice()),
            Edit::Currency(_) | Edit::Gone(_, _) => Ok(()),
        }
    }

    /// Counts the rows that edits put.
    #[cycle(count)]
    fn count_all(&mut self, parts: &[Edit]) -> Result<(), OutOfMemory>
        ensures { OnOk result
            (IsCounted (flat_map leaves parts.now) self.old.counts.entries self.new.counts.entries) }
    {
        for part in parts {
            self.count(part)?;
        }
        Ok(())
    }
}

impl Registers {
    /// Takes the memory that the registers need to follow an edit. Their rows and their counts of changes stay.
    pub fn reserve_for(&mut self, edit: &Edit) -> Result<(), OutOfMemory>
        ensures ready { OnOk result (IsReady self.new.entries (leaves edit.now)) }
        ensures extends { Extends self.old.entries self.new.entries }
    {
        let mut wants = Wants::none(self.alloc);
        wants.count(edit)?;
        self.make_all(wants.counts.as_slice())
    }

    /// Makes room for so many more rows of each of these accounts.
    fn make_all(&mut self, counts: &[(u64, usize)]) -> Result<(), OutOfMemory>
        ensures made { OnOk result (AreMade self.new.entries counts.now) }
        ensures extends { Extends self.old.entries self.new.entries }
    {
        for (account, count) in counts {
            self.make_room(*account, *count)?;
        }
        Ok(())
    }
}
