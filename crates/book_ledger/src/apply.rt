ghost use Rattle.std.specs.Prelude.{◌≡◌, ℕ, ◌+◌, ◌≤◌, [], ◌∷◌, flat_map};
ghost use Rattle.book_commodity.specs.Table.{Rises};
ghost use Rattle.book_ledger.specs.Change.{Holds, is_there};
ghost use Rattle.book_ledger.specs.Changes.{RisesBy, changes_of, differing};
ghost use Rattle.book_ledger.specs.Counts.{CountsOn};
ghost use Rattle.book_ledger.specs.Ledger.{HasPlaces, Keeps, register_of};
ghost use Rattle.book_ledger.specs.Lots.{AreLeft, reckoned_of, work_of};
ghost use Rattle.book_ledger.specs.Room.{CanFollow, ChangeOnce, IsReady, puts_on, room_of};
ghost use Rattle.book_undo.proofs.EditLaws.{after_leaves};
ghost use Rattle.book_undo.specs.Book.{book_of};
ghost use Rattle.book_undo.specs.Edit.{OfGone, OfPut, edited, leaves};
ghost use Rattle.book_undo.specs.EditRules.{IsAllowed};

use crate::Registers;
use book_splits::Txns;
use book_undo::{Edit, Plain, Thing, ThingKind};

impl Registers {
    /// Changes the registers of a book to those of the book that the edit leads to. It can't fail and takes no memory.
    /// Rows that stay are not touched: the changes of each register rise by the rows that one of the two books'
    /// registers has and the other hasn't. Lots stay at least up to the last checkpoint before
    /// the first row that differs.
    pub fn apply(&mut self, plain: &Plain, edit: &Edit)
        requires kept { Keeps self.old.entries (book_of plain.now) }
        requires ready { IsReady self.old.entries (leaves edit.now) }
        requires allowed { IsAllowed (book_of plain.now) edit.now }
        requires places { HasPlaces plain.now.transactions.entries }
        requires new_places { HasPlaces (edited edit.now (book_of plain.now)).transactions }
        ensures kept { Keeps self.new.entries (edited edit.now (book_of plain.now)) }
        ensures changes { (account : ℕ)
            → RisesBy (differing (register_of account (book_of plain.now).transactions)
            (register_of account (edited edit.now (book_of plain.now)).transactions))
            (changes_of account self.old.entries) (changes_of account self.new.entries) }
        ensures left { (account : ℕ)
            → AreLeft (register_of account (book_of plain.now).transactions) (reckoned_of account self.old.entries)
            (register_of account (edited edit.now (book_of plain.now)).transactions)
            (reckoned_of account self.new.entries) }
        ensures work { (account : ℕ) → work_of account self.new.entries ≡ work_of account self.old.entries }
    {
        let _ = plain.accounts.len();
        let _ = plain.transactions.len();
        self.in_order();
        self.follow(&plain.transactions, edit);
        self.in_order();
    }

    /// Changes the registers by the leaves of an edit, each of which finds the transaction that it changes as it stands
    /// among these.
    #[cycle(follow)]
    #[tactic(auto, using(book_undo::proofs::PartLaws::leaves_of_all))]
    fn follow(&mut self, transactions: &Txns, edit: &Edit)
        requires { CanFollow transactions.now.entries self.old.entries (leaves edit.now) }
        ensures rows { (now : _) → Rises now.transactions → ChangeOnce transactions.now.entries (leaves edit.now) now
            → Holds self.old.entries now.transactions
            → Holds self.new.entries (after_leaves (leaves edit.now) now).transactions }
        ensures changes { CountsOn transactions.now.entries (leaves edit.now) self.old.entries self.new.entries }
        ensures there { (account : ℕ) → is_there account self.new.entries ≡ is_there account self.old.entries }
        ensures room { (account : ℕ) → room_of account self.old.entries
            ≤ room_of account self.new.entries + puts_on account (leaves edit.now) }
    {
        match edit {
            Edit::Put(number, thing) => self.follow_put(transactions, *number, thing),
            Edit::Gone(kind, number) => self.follow_gone(transactions, *kind, *number),
            Edit::All(parts) => self.follow_all(transactions, parts.as_slice()),
            Edit::Currency(_) => {}
        }
    }

    /// Changes the registers by the leaves of edits, one after another.
    #[cycle(follow)]
    fn follow_all(&mut self, transactions: &Txns, parts: &[Edit])
        requires { CanFollow transactions.now.entries self.old.entries (flat_map leaves parts.now) }
        ensures rows { (now : _) → Rises now.transactions
            → ChangeOnce transactions.now.entries (flat_map leaves parts.now) now
            → Holds self.old.entries now.transactions
            → Holds self.new.entries (after_leaves (flat_map leaves parts.now) now).transactions }
        ensures changes { CountsOn transactions.now.entries (flat_map leaves parts.now) self.old.entries
            self.new.entries }
        ensures there { (account : ℕ) → is_there account self.new.entries ≡ is_there account self.old.entries }
        ensures room { (account : ℕ) → room_of account self.old.entries
            ≤ room_of account self.new.entries + puts_on account (flat_map leaves parts.now) }
    {
        for part in parts {
            self.follow(transactions, part);
        }
    }

    /// Changes the registers by a thing that is put under a number.
    fn follow_put(&mut self, transactions: &Txns, number: u64, thing: &Thing)
        requires { CanFollow transactions.now.entries self.old.entries (OfPut number thing.now ∷ []) }
        ensures rows { (now : _) → Rises now.transactions
            → ChangeOnce transactions.now.entries (OfPut number thing.now ∷ []) now
            → Holds self.old.entries now.transactions
            → Holds self.new.entries (after_leaves (OfPut number thing.now ∷ []) now).transactions }
        ensures changes { CountsOn transactions.now.entries (OfPut number thing.now ∷ []) self.old.entries
            self.new.entries }
        ensures there { (account : ℕ) → is_there account self.new.entries ≡ is_there account self.old.entries }
        ensures room { (account : ℕ) → room_of account self.old.entries
            ≤ room_of account self.new.entries + puts_on account (OfPut number thing.now ∷ []) }
    {
        if let Thing::Txn(new) = thing {
            self.change(number, transactions.find(number), Some(new));
        }
    }

    /// Changes the registers by a thing of a kind that is deleted.
    fn follow_gone(&mut self, transactions: &Txns, kind: ThingKind, number: u64)
        requires { HasPlaces transactions.now.entries }
        ensures rows { (now : _) → Rises now.transactions
            → ChangeOnce transactions.now.entries (OfGone kind number ∷ []) now
            → Holds self.old.entries now.transactions
            → Holds self.new.entries (after_leaves (OfGone kind number ∷ []) now).transactions }
        ensures changes { CountsOn transactions.now.entries (OfGone kind number ∷ []) self.old.entries
            self.new.entries }
        ensures there { (account : ℕ) → is_there account self.new.entries ≡ is_there account self.old.entries }
        ensures room { (account : ℕ) → room_of account self.old.entries ≤ room_of account self.new.entries }
    {
        if let ThingKind::Txn = kind {
            self.change(number, transactions.find(number), None);
        }
    }
}
