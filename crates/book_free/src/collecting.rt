ghost use Rattle.std.specs.Prelude.{◌≡◌, ◌++◌, Some, IfOk, IfSome, OnOk, is_some, map, true};
ghost use Rattle.std.specs.Option.{option_copied};
ghost use Rattle.book_commodity.specs.Table.{value_of};
ghost use Rattle.book_match.specs.Kept.{has_split as has_number};
ghost use Rattle.book_splits.specs.Balance.{splits_of};
ghost use Rattle.book_splits.specs.TransactionRules.{are_once, numbers_of};
ghost use Rattle.book_sound.specs.LineRules.{split_among};
ghost use Rattle.book_sound.specs.Soundness.{IsSoundBook};
ghost use Rattle.book_undo.specs.Book.{book_of};
ghost use Rattle.book_undo.specs.Edit.{edited};
ghost use Rattle.book_undo.specs.EditRules.{IsAllowed};
ghost use Rattle.book_free.specs.FreeSplits.{open_at, open_in};
ghost use Rattle.book_free.specs.Kept.{Keeps};
ghost use Rattle.book_free.specs.Moves.{AreMoves};
ghost use Rattle.book_free.specs.Seen.{all_moves, line_now, move_seen, moves_seen, noted, side_of, unless_taken};

use crate::moves::add;
use crate::seen::{Seen, open_split};
use crate::{FreeSplits, Move, Moves};
use book_commodity::{OutOfMemory, Table, discard};
use book_match::Free;
use book_splits::{Split, Txn, Txns};
use book_undo::{Edit, Plain};
use std::alloc::Global;

impl FreeSplits {
    /// What becomes of the splits of a book by an edit: of those of the transactions that it changes, and of those that
    /// the lines are matched with that it changes.
    pub fn moves(&self, alloc: Global, plain: &Plain, edit: &Edit) -> Result<Moves, OutOfMemory>
        requires kept { Keeps self.now (book_of plain.now) }
        requires sound { IsSoundBook (book_of plain.now) }
        requires allowed { IsAllowed (book_of plain.now) edit.now }
        requires later_sound { IsSoundBook (edited edit.now (book_of plain.now)) }
        ensures { IfOk result (λ moves. AreMoves (book_of plain.now) (edited edit.now (book_of plain.now)) moves) }
    {
        let seen = Seen::of(alloc, plain, edit)?;
        match self.moves_of(alloc, &plain.transactions, &seen) {
            Ok(moves) => Ok(discard(seen, moves)),
            Err(error) => Err(discard(seen, error)),
        }
    }

    /// What becomes of all splits that were seen.
    fn moves_of(
        &self,
        alloc: Global,
        transactions: &Txns,
        seen: &Seen,
    ) -> Result<Moves, OutOfMemory>
        requires { are_once (numbers_of (splits_of transactions.now.entries)) ≡ true }
        ensures { IfOk result (λ moves. moves ≡ all_moves (λ number. move_seen seen.now
            self.now.matched.entries (open_at number transactions.now.entries) number) seen.now) }
    {
        let mut splits = Table::new(alloc);
        self.add_all(&mut splits, transactions, seen, seen.before.as_slice())?;
        self.add_all(&mut splits, transactions, seen, seen.after.as_slice())?;
        self.add_all(&mut splits, transactions, seen, seen.lost.as_slice())?;
        self.add_all(&mut splits, transactions, seen, seen.gained.as_slice())?;
        Moves::of(alloc, splits)
    }

    /// Adds what becomes of the splits of these numbers.
    fn add_all<T>(
        &self,
        splits: &mut Table<Move>,
        transactions: &Txns,
        seen: &Seen,
        entries: &[(u64, T)],
    ) -> Result<(), OutOfMemory>
        requires { are_once (numbers_of (splits_of transactions.now.entries)) ≡ true }
        ensures { OnOk result (splits.new.entries ≡ noted (moves_seen
            (λ number. move_seen seen.now self.now.matched.entries (open_at number transactions.now.entries) number)
            entries.now) splits.old.entries) }
    {
        for (split, _) in entries {
            add(splits, *split, &self.move_of(transactions, seen, *split))?;
        }
        Ok(())
    }

    /// What becomes of the split of a number.
    fn move_of(&self, transactions: &Txns, seen: &Seen, split: u64) -> Move
        requires { are_once (numbers_of (splits_of transactions.now.entries)) ≡ true }
        ensures { result ≡ move_seen seen.now self.now.matched.entries
            (open_at split transactions.now.entries) split }
    {
        let line = self.line_after(seen, split);
        Move {
            before: unless(
                self.matched.find(split).is_some(),
                before(transactions, seen, split),
            ),
            after: unless(line.is_some(), after(transactions, seen, split)),
            line,
        }
    }

    /// The line that is matched with the split after the edit.
    fn line_after(&self, seen: &Seen, split: u64) -> Option<u64>
        ensures { result ≡ line_now (value_of split seen.now.gained) (is_some (value_of split seen.now.lost))
            (value_of split self.now.matched.entries) }
    {
        if let Some(line) = seen.gained.find(split) {
            return Some(*line);
        }
        if seen.lost.find(split).is_some() {
            return None;
        }
        self.matched.find(split).copied()
    }
}

/// The split, unless it is taken.
fn unless(taken: bool, split: Option<Free>) -> Option<Free>
    ensures { result ≡ unless_taken taken split }
{
    if taken { None } else { split }
}

/// The split of a number before the edit, as the index has it, unless it is reconciled or voided, or isn't there.
fn before(transactions: &Txns, seen: &Seen, split: u64) -> Option<Free>
    requires { are_once (numbers_of (splits_of transactions.now.entries)) ≡ true }
    ensures { result ≡ side_of (value_of split seen.now.before) (is_some (value_of split seen.now.after))
        (open_at split transactions.now.entries) }
{
    if let Some(here) = seen.before.find(split) {
        return *here;
    }
    if seen.after.find(split).is_some() {
        return None;
    }
    find_open(transactions, split)
}

/// The same after the edit.
fn after(transactions: &Txns, seen: &Seen, split: u64) -> Option<Free>
    requires { are_once (numbers_of (splits_of transactions.now.entries)) ≡ true }
    ensures { result ≡ side_of (value_of split seen.now.after) (is_some (value_of split seen.now.before))
        (open_at split transactions.now.entries) }
{
    if let Some(here) = seen.after.find(split) {
        return *here;
    }
    if seen.before.find(split).is_some() {
        return None;
    }
    find_open(transactions, split)
}

/// The split of a number as the index has it, unless it is reconciled or voided, or isn't there.
fn find_open(transactions: &Txns, number: u64) -> Option<Free>
    requires { are_once (numbers_of (splits_of transactions.now.entries)) ≡ true }
    ensures { result ≡ open_at number transactions.now.entries }
{
    let entries = transactions.as_slice();
    let place = entries.partition_point(|entry| entry.0 < number);
    // A transaction's number is drawn before those of its splits, so it mostly is the last one with a smaller number;
    // not if the split was added later.
    if place > 0 {
        let transaction = &entries[place - 1].1;
        if let Some(split) = find_split(transaction.splits.as_slice(), number) {
            return open_split(transaction.day, split);
        }
    }
    search_open(entries, number)
}

/// The same, by a search through all transactions.
fn search_open(entries: &[(u64, Txn)], number: u64) -> Option<Free>
    ensures { result ≡ open_at number entries.now }
{
    for (_, transaction) in entries {
        if let Some(split) = find_split(transaction.splits.as_slice(), number) {
            return open_split(transaction.day, split);
        }
    }
    None
}

/// The split of this number, if it is one of these.
fn find_split(splits: &[Split], number: u64) -> Option<&Split>
    ensures { option_copied result ≡ split_among number splits.now }
{
    splits.iter().find(|split| split.id == number)
}
