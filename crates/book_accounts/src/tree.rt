ghost use Rattle.std.specs.Prelude.{◌≡◌, ◌+◌, ◌<◌, ◌≤◌, [], length, if◌then◌else◌, is_none, is_some, IsNone, Some};
ghost use Rattle.std.specs.Prelude.{OnOk, OnErr, slice_get, option_map};
ghost use Rattle.std.specs.Option.{option_copied};
ghost use Rattle.book_accounts.specs.Tree.{parent_of};
ghost use Rattle.book_commodity.specs.Table.{Rises, value_of, with_entry, without_entry};

use crate::Account;
use book_commodity::{OutOfMemory, Table};
use std::alloc::Global;
use std::marker::Model;

/// The accounts of a book by their numbers, each with its parent. Contracts see the list of its entries, each a number
/// with its account, and how many more accounts it has room for.
#[derive(Drop)]
pub struct Tree {
    pub(crate) accounts: Table<Account>,
    pub(crate) alloc: Global,
}

impl Model for Tree {
    ghost use Rattle.book_commodity.specs.Table.{Entries, Rises};
    ghost use Rattle.book_accounts.specs.declared.account.Account.{Account};

    ghost Value = { Entries Account };

    ghost view = { λ t. t.accounts };

    ghost invariant = { λ t. Rises t.accounts.entries };
}

impl Tree {
    /// The tree without accounts; it takes no memory.
    pub fn new(alloc: Global) -> Tree
        ensures { result.entries ≡ [] }
    {
        Tree {
            accounts: Table::new(alloc),
            alloc,
        }
    }

    /// How many accounts there are.
    pub fn len(&self) -> usize
        ensures len { result ≡ length self.now.entries }
        ensures rises { Rises self.now.entries }
    {
        self.accounts.len()
    }

    /// The account with this number; `None` where there is none.
    pub fn find(&self, number: u64) -> Option<&Account>
        ensures { option_copied result ≡ value_of number self.now.entries }
    {
        self.accounts.find(number)
    }

    /// The parent of the account with this number; `None` where it has none, or isn't there.
    pub(crate) fn parent_of(&self, number: u64) -> Option<u64>
        ensures parent { result ≡ parent_of self.now.entries number }
        ensures rises { Rises self.now.entries }
    {
        match self.accounts.find(number) {
            Some(account) => account.parent,
            None => None,
        }
    }

    /// The number of the account at a place.
    pub fn number_at(&self, place: usize) -> u64
        requires { place < length self.now.entries }
        ensures { option_map (λ entry. entry.0) (slice_get self.now.entries place) ≡ Some result }
    {
        self.accounts.number_at(place)
    }

    /// The account at a place.
    pub fn value_at(&self, place: usize) -> &Account
        requires { place < length self.now.entries }
        ensures { option_map (λ entry. entry.1) (slice_get self.now.entries place) ≡ Some result.now }
    {
        self.accounts.value_at(place)
    }

    /// Makes room for so many more accounts; the accounts stay, and no room is lost when out of memory.
    pub fn reserve(&mut self, extra: usize) -> Result<(), OutOfMemory>
        ensures room { OnOk result (extra ≤ self.new.spare) }
        ensures full { OnErr result (self.old.spare < extra) }
        ensures entries { self.new.entries ≡ self.old.entries }
        ensures spare { self.old.spare ≤ self.new.spare }
    {
        self.accounts.reserve(extra)
    }

    /// Puts the account under the number, and hands back the one that stood there. It takes no memory.
    #[tactic(auto, using(crate::proofs::TreeLemmas::rises_with))]
    pub fn put(&mut self, number: u64, account: Account) -> Option<Account>
        requires { IsNone (value_of number self.old.entries) → 1 ≤ self.old.spare }
        ensures entries { self.new.entries ≡ with_entry number account self.old.entries }
        ensures old { result ≡ value_of number self.old.entries }
        ensures spare { self.old.spare ≡ self.new.spare + (if is_none result then 1 else 0) }
    {
        self.accounts.put(number, account)
    }

    /// Takes the account with the number out of the tree; `None` where there is none. It takes no memory.
    #[tactic(auto, using(crate::proofs::TreeLemmas::rises_without))]
    pub fn take(&mut self, number: u64) -> Option<Account>
        ensures entries { self.new.entries ≡ without_entry number self.old.entries }
        ensures old { result ≡ value_of number self.old.entries }
        ensures spare { self.new.spare ≡ self.old.spare + (if is_some result then 1 else 0) }
    {
        self.accounts.take(number)
    }
}
