ghost use Rattle.std.specs.Prelude.{◌≡◌, IfOk};
ghost use Rattle.book_splits.specs.TransactionRules.{are_once};
ghost use Rattle.book_sound.specs.ReconciliationRules.{is_closed, marked_numbers, marked_sum};
ghost use Rattle.book_sound.specs.ReconciliationRules.{reconciliation_rules};
ghost use Rattle.book_check.specs.FirstUnsound.{all_hold, first_of_table};

use crate::seen::Seen;
use crate::walk::{Checked, first_broken};
use book_accounts::Tree;
use book_commodity::{OutOfMemory, Table};
use book_splits::{MarkedSplit, Recon};
use std::alloc::Global;

/// How many reconciliations a book has at most.
const MOST: usize = 100_000;

/// A walk over reconciliations; what each has marked is looked up in a set of its own.
#[derive(Drop)]
struct ReconciliationWalk<'a> {
    alloc: Global,
    accounts: &'a Tree,
    reconciliations: &'a Table<Recon>,
}

impl<'a> Checked for ReconciliationWalk<'a> {
    ghost use Rattle.std.specs.Prelude.{⊤};

    type Thing = Recon;

    ghost entries = { λ w. w.reconciliations.now.entries };

    ghost rules = { λ w. reconciliation_rules w.accounts.now.entries };

    ghost knows = { λ _ _. ⊤ };

    fn count(&self) -> usize {
        self.reconciliations.len()
    }

    fn number_at(&self, place: usize) -> u64 {
        self.reconciliations.number_at(place)
    }

    fn keeps(&mut self, place: usize) -> Result<bool, OutOfMemory> {
        let reconciliation = self.reconciliations.value_at(place);
        keeps_rules(self.alloc, self.accounts, reconciliation)
    }
}

/// The first number at which a reconciliation breaks a rule of its kind, or is one too many.
pub(crate) fn first_reconciliation(
    alloc: Global,
    accounts: &Tree,
    reconciliations: &Table<Recon>,
) -> Result<Option<u64>, OutOfMemory>
    ensures { IfOk result (λ found. found ≡ first_of_table (reconciliation_rules accounts.now.entries)
        100000 reconciliations.now.entries) }
{
    let walk = ReconciliationWalk {
        alloc,
        accounts,
        reconciliations,
    };
    first_broken(walk, MOST)
}

/// Whether the reconciliation keeps its rules, whatever its number.
fn keeps_rules(alloc: Global, accounts: &Tree, reconciliation: &Recon) -> Result<bool, OutOfMemory>
    ensures { IfOk result (λ kept. (number : _)
        → kept ≡ all_hold (reconciliation_rules accounts.now.entries number reconciliation.now)) }
{
    if accounts.find(reconciliation.account).is_none() {
        return Ok(false);
    }
    if !are_once(alloc, reconciliation.marked.as_slice())? {
        return Ok(false);
    }
    Ok(is_closed(reconciliation))
}

/// Whether each split stands once in the list.
fn are_once(alloc: Global, marked: &[MarkedSplit]) -> Result<bool, OutOfMemory>
    ensures { IfOk result (λ once. once ≡ are_once (marked_numbers marked.now)) }
{
    let mut seen = Seen::new(alloc);
    for split in marked {
        if seen.insert(split.split)? {
            return Ok(false);
        }
    }
    Ok(true)
}

/// Whether the opening balance and the marked splits sum to the closing balance.
fn is_closed(reconciliation: &Recon) -> bool
    ensures { result ≡ is_closed reconciliation.now }
{
    let closing = i128::from(reconciliation.closing);
    let sum = marked_sum(reconciliation.marked.as_slice());
    match reconciliation.opening.checked_add(sum) {
        Some(balance) => balance == closing,
        None => false,
    }
}

/// The sum of the quantities that the marked splits had.
fn marked_sum(marked: &[MarkedSplit]) -> i128
    ensures { result ≡ marked_sum marked.now }
{
    let mut sum = 0i128;
    for split in marked {
        sum += i128::from(quantity_of(split));
    }
    sum
}

/// The quantity that the marked split had.
fn quantity_of(marked: &MarkedSplit) -> i64
    ensures { result ≡ marked.now.quantity }
{
    marked.quantity
}
