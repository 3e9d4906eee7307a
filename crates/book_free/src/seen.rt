ghost use Rattle.std.specs.Prelude.{◌≡◌, ◌∷◌, [], IfOk, OnOk, flat_map};
ghost use Rattle.std.specs.Option.{option_copied};
ghost use Rattle.book_undo.specs.Book.{book_of};
ghost use Rattle.book_undo.specs.Edit.{OfGone, OfPut, leaves};
ghost use Rattle.book_free.specs.FreeSplits.{open_split};
ghost use Rattle.book_free.specs.Seen.{line_entries, noted, seen_after, seen_none, split_entries};

use crate::opening::free_split;
use book_commodity::{Day, OutOfMemory, Table, discard};
use book_match::Free;
use book_splits::{Mark, Split, Txn};
use book_statement::{Line, LineState};
use book_undo::{Edit, Plain, Thing, ThingKind};
use std::alloc::Global;
use std::marker::Model;

/// What an edit says of splits: what those of changed transactions were and what they are, as the index has them unless
/// they are reconciled or voided; and the changed lines that were matched with splits, and those that are now.
#[derive(Drop)]
pub(crate) struct Seen {
    pub(crate) before: Table<Option<Free>>,
    pub(crate) after: Table<Option<Free>>,
    pub(crate) lost: Table<u64>,
    pub(crate) gained: Table<u64>,
}

impl Model for Seen {
    ghost use Rattle.book_free.specs.Seen.{Seen};

    ghost Value = { Seen };

    ghost view = { λ s. record {
      before = s.before.entries;
      after = s.after.entries;
      lost = s.lost.entries;
      gained = s.gained.entries;
    } };
}

impl Seen {
    /// What the edit of a book says.
    pub(crate) fn of(alloc: Global, plain: &Plain, edit: &Edit) -> Result<Seen, OutOfMemory>
        ensures { IfOk result (λ seen. seen ≡ seen_after (book_of plain.now) (leaves edit.now) seen_none) }
    {
        let mut seen = Seen::none(alloc);
        match seen.add(plain, edit) {
            Ok(()) => Ok(seen),
            Err(error) => Err(discard(seen, error)),
        }
    }

    /// Nothing was seen; it takes no memory.
    fn none(alloc: Global) -> Seen
        ensures { result ≡ seen_none }
    {
        Seen {
            before: Table::new(alloc),
            after: Table::new(alloc),
            lost: Table::new(alloc),
            gained: Table::new(alloc),
        }
    }

    /// Adds what an edit of the book says.
    #[cycle(add)]
    #[tactic(auto, using(book_undo::proofs::PartLaws::leaves_of_all))]
    fn add(&mut self, plain: &Plain, edit: &Edit) -> Result<(), OutOfMemory>
        ensures { OnOk result (self.new ≡ seen_after (book_of plain.now) (leaves edit.now) self.old) }
    {
        match edit {
            Edit::Put(number, thing) => self.add_put(plain, *number, thing),
            Edit::Gone(kind, number) => self.add_gone(plain, *kind, *number),
            Edit::All(parts) => self.add_all(plain, parts.as_slice()),
            Edit::Currency(_) => Ok(()),
        }
    }

    /// Adds what edits of the book say.
    #[cycle(add)]
    fn add_all(&mut self, plain: &Plain, parts: &[Edit]) -> Result<(), OutOfMemory>
        ensures { OnOk result (self.new ≡ seen_after (book_of plain.now) (flat_map leaves parts.now) self.old) }
    {
        for part in parts {
            self.add(plain, part)?;
        }
        Ok(())
    }

    /// Adds what a thing says that is put under a number.
    fn add_put(&mut self, plain: &Plain, number: u64, thing: &Thing) -> Result<(), OutOfMemory>
        ensures { OnOk result
            (self.new ≡ seen_after (book_of plain.now) (OfPut number thing.now ∷ []) self.old) }
    {
        match thing {
            Thing::Txn(transaction) => {
                note_splits(&mut self.before, plain.transactions.find(number))?;
                note_splits(&mut self.after, Some(transaction))
            }
            Thing::Line(line) => {
                note_line(&mut self.lost, number, plain.lines.find(number))?;
                note_line(&mut self.gained, number, Some(line))
            }
            _ => Ok(()),
        }
    }

    /// Adds what the book has under a number of a kind that is deleted.
    fn add_gone(&mut self, plain: &Plain, kind: ThingKind, number: u64) -> Result<(), OutOfMemory>
        ensures { OnOk result
            (self.new ≡ seen_after (book_of plain.now) (OfGone kind number ∷ []) self.old) }
    {
        match kind {
            ThingKind::Txn => note_splits(&mut self.before, plain.transactions.find(number)),
            ThingKind::Line => note_line(&mut self.lost, number, plain.lines.find(number)),
            _ => Ok(()),
        }
    }
}

/// Notes the splits of a transaction, if there is one.
fn note_splits(
    table: &mut Table<Option<Free>>,
    transaction: Option<&Txn>,
) -> Result<(), OutOfMemory>
    ensures { OnOk result
        (table.new.entries ≡ noted (split_entries (option_copied transaction.entry)) table.old.entries) }
{
    let Some(transaction) = transaction else {
        return Ok(());
    };
    for split in transaction.splits.as_slice() {
        table.reserve(1)?;
        drop(table.put(split.id, open_split(transaction.day, split)));
    }
    Ok(())
}

/// Notes the number of a line, if there is one and it is matched with a split.
fn note_line(table: &mut Table<u64>, number: u64, line: Option<&Line>) -> Result<(), OutOfMemory>
    ensures { OnOk result
        (table.new.entries ≡ noted (line_entries number (option_copied line.entry)) table.old.entries) }
{
    let Some(line) = line else {
        return Ok(());
    };
    let LineState::Matched(split) = line.state else {
        return Ok(());
    };
    table.reserve(1)?;
    drop(table.put(split, number));
    Ok(())
}

/// A split of a transaction of this day as the index has it, unless it is reconciled or voided.
pub(crate) fn open_split(day: Day, split: &Split) -> Option<Free>
    ensures { result ≡ open_split day split.now }
{
    match split.mark {
        Mark::New | Mark::Cleared => Some(free_split(day, split)),
        Mark::Reconciled | Mark::Voided => None,
    }
}
