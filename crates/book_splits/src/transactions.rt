ghost use Rattle.std.specs.Prelude.{◌≡◌, ◌+◌, ◌<◌, ◌≤◌, ◌^◌, [], length, if◌then◌else◌, is_none, is_some, IsNone};
ghost use Rattle.std.specs.Prelude.{◌==◌, Some, IfSome, OnOk, OnErr, not, position, slice_get, option_map};
ghost use Rattle.std.specs.Option.{option_copied};
ghost use Rattle.book_commodity.specs.Table.{Rises, value_of, with_entry, without_entry};
ghost use Rattle.book_splits.specs.Balance.{splits_of};
ghost use Rattle.book_splits.specs.Owner.{owner, split_at};
ghost use Rattle.book_splits.specs.SplitCount.{splits_in};
ghost use Rattle.book_splits.specs.TransactionRules.{is_among, numbers_of};

use crate::{Split, Txn};
use book_commodity::{OutOfMemory, Table};
use std::alloc::Global;
use std::marker::Model;

/// The transactions of a book by their numbers, and the count of all their splits. Contracts see the list of its
/// entries, each a number with its transaction, and how many more transactions it has room for.
#[derive(Drop)]
pub struct Txns {
    transactions: Table<Txn>,
    splits: u64,
}

impl Model for Txns {
    ghost use Rattle.book_commodity.specs.Table.{Entries};
    ghost use Rattle.book_splits.specs.declared.transaction.Txn.{Txn};

    ghost Value = { Entries Txn };

    ghost use Rattle.book_splits.specs.Counted.{CountsSplits};

    ghost view = { λ t. t.transactions };

    ghost invariant = { CountsSplits };
}

impl Txns {
    /// The table without transactions; it takes no memory.
    pub fn new(alloc: Global) -> Txns
        ensures { result.entries ≡ [] }
    {
        Txns {
            transactions: Table::new(alloc),
            splits: 0,
        }
    }

    /// How many transactions there are.
    pub fn len(&self) -> usize
        ensures len { result ≡ length self.now.entries }
        ensures rises { Rises self.now.entries }
    {
        self.transactions.len()
    }

    /// How many splits all the transactions have together.
    pub fn count_splits(&self) -> u64
        requires { length (splits_of self.now.entries) < 2 ^ 64 }
        ensures { result ≡ length (splits_of self.now.entries) }
    {
        self.splits
    }

    /// The transaction with this number; `None` where there is none.
    pub fn find(&self, number: u64) -> Option<&Txn>
        ensures { option_copied result ≡ value_of number self.now.entries }
    {
        self.transactions.find(number)
    }

    /// The number of the transaction that has the split with this number, and the split's place in it: the first of
    /// them, if there are several. None exactly where no transaction has it.
    pub fn owner(&self, split: u64) -> Option<(u64, usize)>
        ensures owner { result ≡ owner split self.now.entries }
        ensures there { IfSome result (λ at. option_map (λ one. one.id) (split_at at self.now.entries) ≡ Some split) }
        ensures none { is_none result ≡ not (is_among (numbers_of (splits_of self.now.entries)) split) }
    {
        for (number, transaction) in self.as_slice() {
            if let Some(place) = place_of(transaction.splits.as_slice(), split) {
                return Some((*number, place));
            }
        }
        None
    }

    /// The entries, borrowed.
    pub fn as_slice(&self) -> &[(u64, Txn)]
        ensures entries { result.now ≡ self.now.entries }
        ensures rises { Rises self.now.entries }
    {
        let _ = self.transactions.len();
        self.transactions.as_slice()
    }

    /// The number of the transaction at a place.
    pub fn number_at(&self, place: usize) -> u64
        requires { place < length self.now.entries }
        ensures { option_map (λ entry. entry.0) (slice_get self.now.entries place) ≡ Some result }
    {
        self.transactions.number_at(place)
    }

    /// The transaction at a place.
    pub fn value_at(&self, place: usize) -> &Txn
        requires { place < length self.now.entries }
        ensures { option_map (λ entry. entry.1) (slice_get self.now.entries place) ≡ Some result.now }
    {
        self.transactions.value_at(place)
    }

    /// Makes room for so many more transactions; the transactions stay, and no room is lost when out of memory.
    pub fn reserve(&mut self, extra: usize) -> Result<(), OutOfMemory>
        ensures room { OnOk result (extra ≤ self.new.spare) }
        ensures full { OnErr result (self.old.spare < extra) }
        ensures entries { self.new.entries ≡ self.old.entries }
        ensures spare { self.old.spare ≤ self.new.spare }
    {
        self.transactions.reserve(extra)
    }

    /// Puts the transaction under the number, and hands back the one that stood there. It takes no memory.
    pub fn put(&mut self, number: u64, transaction: Txn) -> Option<Txn>
        requires { IsNone (value_of number self.old.entries) → 1 ≤ self.old.spare }
        ensures entries { self.new.entries ≡ with_entry number transaction self.old.entries }
        ensures old { result ≡ value_of number self.old.entries }
        ensures spare { self.old.spare ≡ self.new.spare + (if is_none result then 1 else 0) }
    {
        let added = transaction.splits.len() as u64;
        let old = self.transactions.put(number, transaction);
        let removed = count_in(&old);
        self.splits = self.splits.wrapping_add(added).wrapping_sub(removed);
        old
    }

    /// Takes the transaction with the number out of the table; `None` where there is none. It takes no memory.
    pub fn take(&mut self, number: u64) -> Option<Txn>
        ensures entries { self.new.entries ≡ without_entry number self.old.entries }
        ensures old { result ≡ value_of number self.old.entries }
        ensures spare { self.new.spare ≡ self.old.spare + (if is_some result then 1 else 0) }
    {
        let old = self.transactions.take(number);
        let removed = count_in(&old);
        self.splits = self.splits.wrapping_sub(removed);
        old
    }
}

/// How many splits the transaction has; none, where there is no transaction.
fn count_in(transaction: &Option<Txn>) -> u64
    ensures { result ≡ splits_in transaction.now }
{
    match transaction {
        Some(transaction) => transaction.splits.len() as u64,
        None => 0,
    }
}

/// The place of the first split with this number; `None` where there is none.
fn place_of(splits: &[Split], number: u64) -> Option<usize>
    ensures { result ≡ position (λ split. split.id == number) splits.now }
{
    splits.iter().position(|split| split.id == number)
}
