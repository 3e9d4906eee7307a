ghost use Rattle.std.specs.Prelude.{◌≡◌, OnOk};
ghost use Rattle.book_commodity.specs.Table.{with_entry};
ghost use Rattle.book_undo.specs.Book.{book_of, with_thing};
ghost use Rattle.book_opening.specs.Reading.{with_record};
ghost use Rattle.book_opening.specs.State.{state_of};

use book_commodity::{OutOfMemory, Table, discard};
use book_rows::Record;
use book_undo::{Edit, Plain, Thing};

/// A state of the machine as it is saved: its book, the number that the next thing gets, the count of the changes so
/// far, how many steps lead from the fresh book to the present one, how many steps are kept back and forth, and these.
/// The step back under a number leads from the book that so many steps lead to, to the one before it; the step forth
/// under a number leads to the book that so many steps lead to, from the one before it.
#[derive(Drop)]
pub struct Saved {
    pub plain: Plain,
    pub next: u64,
    pub version: u64,
    pub position: u64,
    pub past: u64,
    pub later: u64,
    pub back: Table<Edit>,
    pub forth: Table<Edit>,
}

impl Saved {
    /// Puts what a row behind the head stands for under the number, with memory for it. A head is not put.
    pub(crate) fn put(&mut self, number: u64, it: Record) -> Result<(), OutOfMemory>
        ensures { OnOk result (state_of self.new ≡ with_record number it (state_of self.old)) }
    {
        match it {
            Record::Head(_) => Ok(()),
            Record::Thing(thing) => put_thing(&mut self.plain, number, thing),
            Record::Back(edit) => put_step(&mut self.back, number, edit),
            Record::Forth(edit) => put_step(&mut self.forth, number, edit),
        }
    }
}

/// Puts the thing under the number, with memory for it.
fn put_thing(plain: &mut Plain, number: u64, thing: Thing) -> Result<(), OutOfMemory>
    ensures { OnOk result (book_of plain.new ≡ with_thing number thing (book_of plain.old)) }
{
    let edit = Edit::Put(number, thing);
    match plain.reserve_for(&edit) {
        Ok(()) => {
            plain.apply(edit);
            Ok(())
        }
        Err(error) => Err(discard(edit, error)),
    }
}

/// Puts the step under the number, with memory for it.
fn put_step(steps: &mut Table<Edit>, number: u64, edit: Edit) -> Result<(), OutOfMemory>
    ensures { OnOk result (steps.new.entries ≡ with_entry number edit steps.old.entries) }
{
    match steps.reserve(1) {
        Ok(()) => {
            drop(steps.put(number, edit));
            Ok(())
        }
        Err(error) => Err(discard(edit, error)),
    }
}
