ghost use Rattle.std.specs.Prelude.{◌≡◌, ℕ, [], Some, IfOk, OnOk};
ghost use Rattle.book_commodity.specs.Table.{Rises};
ghost use Rattle.book_accounts.specs.declared.children.Children.{Children};

use crate::Tree;
use book_commodity::{Many, OutOfMemory};
use std::alloc::Global;
use std::collections::BTreeMap;

/// The children of each account, and the accounts at the top, from the greatest number to the least.
#[derive(Drop)]
pub(crate) struct Children {
    alloc: Global,
    pub(crate) top: Many<u64>,
    under: BTreeMap<u64, Many<u64>>,
}

impl Children {
    ghost use Rattle.book_accounts.specs.Children.{Adds, IsIndexOf, listed};

    /// The index of the tree's accounts.
    pub(crate) fn of_tree(tree: &Tree) -> Result<Children, OutOfMemory>
        ensures index { IfOk result (IsIndexOf tree.now.entries) }
        ensures rises { Rises tree.now.entries }
    {
        let mut children = Children {
            alloc: tree.alloc,
            top: Many::new(tree.alloc),
            under: BTreeMap::new(tree.alloc),
        };
        for place in (0..tree.len()).rev() {
            children.add(tree.value_at(place).parent, tree.number_at(place))?;
        }
        Ok(children)
    }

    /// The children of the account with this number.
    pub(crate) fn of(&self, number: u64) -> &[u64]
        ensures { result.now ≡ listed self.now (Some number) }
    {
        match self.under.get(&number) {
            Some(children) => children.as_slice(),
            None => &[],
        }
    }

    /// Adds a child to those of its parent.
    fn add(&mut self, parent: Option<u64>, child: u64) -> Result<(), OutOfMemory>
        ensures { OnOk result (Adds self.old self.new parent child) }
    {
        match parent {
            None => self.top.push(child),
            Some(parent) => self.add_under(parent, child),
        }
    }

    /// Adds a child to those of an account.
    fn add_under(&mut self, parent: u64, child: u64) -> Result<(), OutOfMemory>
        ensures { OnOk result (Adds self.old self.new (Some parent) child) }
    {
        let mut children = match self.under.remove(&parent) {
            Some(children) => children,
            None => Many::new(self.alloc),
        };
        children.push(child)?;
        self.under.insert(parent, children)?;
        Ok(())
    }
}
