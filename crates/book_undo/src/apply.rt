ghost use Rattle.std.specs.Prelude.{◌≡◌, ◌+◌, ◌*◌, ◌≤◌, OnOk, OnErr, flat_map};
ghost use Rattle.book_undo.specs.Book.{book_of};
ghost use Rattle.book_undo.specs.Edit.{edited, edited_all, leaves, depth, deepest};
ghost use Rattle.book_undo.specs.Room.{HasRoom, HasRoomFor, IsFullFor, puts, spare_of};

use crate::needs::Needs;
use crate::{Edit, Plain};
use book_commodity::{Many, OutOfMemory};

/// How many lists of an edit may stand in one another.
pub(crate) const MAX_DEPTH: u32 = 8;

impl Plain {
    /// Takes the memory that the edit needs; the book stays as it is, and no table has less room than before. Out of
    /// memory only where a table is full into which the edit puts things.
    pub fn reserve_for(&mut self, edit: &Edit) -> Result<(), OutOfMemory>
        ensures room { OnOk result (HasRoom self.new edit.now) }
        ensures full { OnErr result (IsFullFor self.old edit.now) }
        ensures book { book_of self.new ≡ book_of self.old }
        ensures spare { (kind : _) → spare_of kind self.old ≤ spare_of kind self.new }
    {
        let mut needs = Needs::none();
        needs.count(edit)?;
        self.commodities.reserve(needs.commodities)?;
        self.accounts.reserve(needs.accounts)?;
        self.transactions.reserve(needs.transactions)?;
        self.prices.reserve(needs.prices)?;
        self.schedules.reserve(needs.schedules)?;
        self.statements.reserve(needs.statements)?;
        self.lines.reserve(needs.lines)?;
        self.bindings.reserve(needs.bindings)?;
        self.reconciliations.reserve(needs.reconciliations)?;
        Ok(())
    }

    /// Makes the book that the edit leads to. It can't fail and takes no memory.
    pub fn apply(&mut self, edit: Edit)
        requires shallow { depth edit ≤ 8 }
        requires room { HasRoom self.old edit }
        ensures { book_of self.new ≡ edited edit (book_of self.old) }
    {
        self.apply_within(edit, MAX_DEPTH);
    }

    /// Makes the book that the edit leads to; at most so many of its lists stand in one another.
    #[cycle(apply)]
    #[tactic(auto, using(crate::proofs::PartLaws::parts_of_all))]
    fn apply_within(&mut self, edit: Edit, most: u32)
        requires shallow { depth edit ≤ most }
        requires room { HasRoom self.old edit }
        ensures book { book_of self.new ≡ edited edit (book_of self.old) }
        ensures spare { (kind : _) → spare_of kind self.old ≤ spare_of kind self.new + puts kind (leaves edit) }
    {
        match edit {
            Edit::Currency(currency) => self.currency = currency,
            Edit::Put(number, thing) => self.put(number, thing),
            Edit::Gone(kind, number) => self.take(kind, number),
            Edit::All(parts) => {
                if let Some(less) = most.checked_sub(1) {
                    self.apply_all(parts, less);
                }
            }
        }
    }

    /// Makes the book that the edits lead to, one after another.
    #[cycle(apply)]
    fn apply_all(&mut self, parts: Many<Edit>, most: u32)
        requires shallow { deepest parts ≤ most }
        requires room { HasRoomFor self.old (flat_map leaves parts) }
        ensures book { book_of self.new ≡ edited_all parts (book_of self.old) }
        ensures spare { (kind : _)
            → spare_of kind self.old ≤ spare_of kind self.new + puts kind (flat_map leaves parts) }
    {
        for part in parts.into_vec() {
            self.apply_within(part, most);
        }
    }
}
