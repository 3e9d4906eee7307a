ghost use Rattle.std.specs.Prelude.{◌≡◌, IfOk};
ghost use Rattle.book_commodity.specs.Table.{value_of};
ghost use Rattle.book_sound.specs.BindingRules.{binding_rules, takes_splits};
ghost use Rattle.book_check.specs.FirstUnsound.{first_of_table};

use crate::seen::Seen;
use crate::walk::{Checked, first_broken};
use book_accounts::Tree;
use book_commodity::{OutOfMemory, Table};
use book_statement::Binding;
use std::alloc::Global;

/// How many bindings a book has at most.
const MOST: usize = 10_000;

/// A walk over bindings, and the texts of those that were asked.
#[derive(Drop)]
struct BindingWalk<'a> {
    accounts: &'a Tree,
    bindings: &'a Table<Binding>,
    texts: Seen<&'a str>,
}

impl<'a> Checked for BindingWalk<'a> {
    ghost use Rattle.std.specs.Prelude.{take};
    ghost use Rattle.book_check.specs.Keys.{binding_keys};
    ghost use Rattle.book_check.specs.Walk.{HasKeys};

    type Thing = Binding;

    ghost entries = { λ w. w.bindings.now.entries };

    ghost rules = { λ w. binding_rules w.accounts.now.entries w.bindings.now.entries };

    ghost knows = { λ w place. HasKeys binding_keys w.texts (take place w.bindings.now.entries) };

    fn count(&self) -> usize {
        self.bindings.len()
    }

    fn number_at(&self, place: usize) -> u64 {
        self.bindings.number_at(place)
    }

    fn keeps(&mut self, place: usize) -> Result<bool, OutOfMemory> {
        let binding = self.bindings.value_at(place);
        if !takes_splits(self.accounts, binding.account) {
            return Ok(false);
        }
        let is_taken = self.texts.insert(binding.text.as_str())?;
        Ok(!is_taken)
    }
}

/// The first number at which a binding breaks a rule of its kind, or is one too many.
pub(crate) fn first_binding(
    alloc: Global,
    accounts: &Tree,
    bindings: &Table<Binding>,
) -> Result<Option<u64>, OutOfMemory>
    ensures { IfOk result (λ found. found ≡ first_of_table
        (binding_rules accounts.now.entries bindings.now.entries) 10000 bindings.now.entries) }
{
    let texts = Seen::new(alloc);
    let walk = BindingWalk {
        accounts,
        bindings,
        texts,
    };
    first_broken(walk, MOST)
}

/// Whether the account is there, and takes splits.
fn takes_splits(accounts: &Tree, account: u64) -> bool
    ensures { result ≡ takes_splits (value_of account accounts.now.entries) }
{
    match accounts.find(account) {
        Some(account) => !account.placeholder,
        None => false,
    }
}
