ghost use Rattle.std.specs.Prelude.{◌≡◌, IfOk, map, flat_map, ◌∷◌, []};
ghost use Rattle.book_undo.specs.Book.{book_of, thing_at};
ghost use Rattle.book_undo.specs.Edit.{leaves, depth, deepest, outline, At, key_at};
ghost use Rattle.book_undo.specs.Inverse.{LeadsBack, leaf_back, leaf_restoring};
ghost use Rattle.book_undo.specs.EditRules.{IsAllowed};
ghost use Rattle.book_undo.specs.Thing.{row_kind};

use crate::{Edit, Plain, Thing, ThingKind};
use book_commodity::{Many, OutOfMemory};
use std::alloc::Global;

impl Plain {
    /// The edit that leads back: it has the form of the edit, is allowed in the book to which the edit leads, and
    /// leads from there to exactly this book.
    pub fn inverse(&self, alloc: Global, edit: &Edit) -> Result<Edit, OutOfMemory>
        requires { IsAllowed (book_of self.now) edit.now }
        ensures back { IfOk result (λ inverse. LeadsBack (book_of self.now) edit.now inverse) }
        ensures form { IfOk result (λ inverse. outline inverse ≡ outline edit.now) }
    {
        self.rising();
        self.back(alloc, edit)
    }

    /// The edit of the same form whose leaves restore what the book has at the edit's keys.
    #[cycle(back)]
    #[tactic(auto, using(crate::proofs::PartLaws::parts_of_all))]
    fn back(&self, alloc: Global, edit: &Edit) -> Result<Edit, OutOfMemory>
        ensures leaves { IfOk result (λ back. leaves back ≡ map (leaf_back (book_of self.now)) (leaves edit.now)) }
        ensures depth { IfOk result (λ back. depth back ≡ depth edit.now) }
        ensures form { IfOk result (λ back. outline back ≡ outline edit.now) }
    {
        match edit {
            Edit::Currency(_) => Ok(Edit::Currency(self.currency)),
            Edit::Put(number, thing) => self.restoring(alloc, thing.kind(), *number),
            Edit::Gone(kind, number) => self.restoring(alloc, *kind, *number),
            Edit::All(parts) => Ok(Edit::All(self.back_all(alloc, parts.as_slice())?)),
        }
    }

    /// The edits of the same forms, in the same order.
    #[cycle(back)]
    fn back_all(&self, alloc: Global, parts: &[Edit]) -> Result<Many<Edit>, OutOfMemory>
        ensures leaves { IfOk result (λ back. flat_map leaves back
            ≡ map (leaf_back (book_of self.now)) (flat_map leaves parts.now)) }
        ensures depth { IfOk result (λ back. deepest back ≡ deepest parts.now) }
        ensures form { IfOk result (λ back. flat_map outline back ≡ flat_map outline parts.now) }
    {
        let mut back = Many::new(alloc);
        for part in parts {
            back.push(self.back(alloc, part)?)?;
        }
        Ok(back)
    }

    /// The leaf that restores what stands under the number: the thing is put, or deleted where none stands there.
    fn restoring(&self, alloc: Global, kind: ThingKind, number: u64) -> Result<Edit, OutOfMemory>
        ensures leaves { IfOk result (λ edit. leaves edit
            ≡ leaf_restoring kind number (thing_at kind number (book_of self.now)) ∷ []) }
        ensures depth { IfOk result (λ edit. depth edit ≡ 0) }
        ensures form { IfOk result (λ edit. outline edit ≡ At (key_at (row_kind kind) number) ∷ []) }
    {
        match self.thing(alloc, kind, number)? {
            Some(thing) => Ok(Edit::Put(number, thing)),
            None => Ok(Edit::Gone(kind, number)),
        }
    }
}
