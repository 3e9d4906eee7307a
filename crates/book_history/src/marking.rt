ghost use Rattle.std.specs.Prelude.{◌≡◌};
ghost use Rattle.std.specs.List.{list_all, list_any};
ghost use Rattle.std.specs.Option.{option_copied};
ghost use Rattle.book_commodity.specs.Table.{value_of};
ghost use Rattle.book_sound.specs.MarkedTransactionRules.{are_rightly_marked, has_marked, is_marked_as};
ghost use Rattle.book_sound.specs.MarkedTransactionRules.{is_named_rightly, is_rightly_marked};
ghost use Rattle.book_history.specs.Leaving.{are_remarked, is_remarked, only_marks};

use book_commodity::Table;
use book_splits::{Mark, MarkedSplit, Recon, Split, Txn};
use book_void::are_rightly_voided;

/// Whether there is a transaction that has the currency of the new one, and its splits but for their marks and texts,
/// neither is voided, and the splits of the new one are rightly marked.
pub(crate) fn only_marks(reconciliations: &Table<Recon>, new: &Txn, found: Option<&Txn>) -> bool
    ensures { result ≡ only_marks reconciliations.now.entries new.now (option_copied found.entry) }
{
    match found {
        Some(old) => {
            let splits = new.splits.as_slice();
            new.currency == old.currency
                && are_remarked(old.splits.as_slice(), splits)
                && are_marked(reconciliations, splits)
                && old.voided.is_none()
                && new.voided.is_none()
        }
        None => false,
    }
}

/// Whether each split differs from the one in its place at most in its mark, its reconciliation and its texts.
fn are_remarked(old: &[Split], new: &[Split]) -> bool
    ensures { result ≡ are_remarked old.now new.now }
{
    if old.len() != new.len() {
        return false;
    }
    for place in 0..old.len() {
        if !is_remarked(&old[place], &new[place]) {
            return false;
        }
    }
    true
}

/// Whether the split differs from the other at most in its mark, its reconciliation and its texts.
fn is_remarked(old: &Split, new: &Split) -> bool
    ensures { result ≡ is_remarked old.now new.now }
{
    new.id == old.id
        && new.account == old.account
        && new.value == old.value
        && new.quantity == old.quantity
}

/// Whether the splits of the transaction are as its state says: where it is voided each is rightly voided, and else
/// each is rightly marked.
pub(crate) fn are_rightly_marked(reconciliations: &Table<Recon>, transaction: &Txn) -> bool
    ensures { result ≡ are_rightly_marked reconciliations.now.entries transaction.now.voided transaction.now.splits }
{
    let splits = transaction.splits.as_slice();
    match transaction.voided {
        Some(_) => are_rightly_voided(splits),
        None => are_marked(reconciliations, splits),
    }
}

/// Whether each split is reconciled exactly where it names a reconciliation that has marked it, and none is voided.
fn are_marked(reconciliations: &Table<Recon>, splits: &[Split]) -> bool
    ensures { result ≡ list_all (is_rightly_marked reconciliations.now.entries) splits.now }
{
    splits
        .iter()
        .all(|split| is_rightly_marked(reconciliations, split))
}

/// Whether the split is reconciled exactly where it names a reconciliation that has marked it, and is not voided.
fn is_rightly_marked(reconciliations: &Table<Recon>, split: &Split) -> bool
    ensures { result ≡ is_rightly_marked reconciliations.now.entries split.now }
{
    match split.mark {
        Mark::New | Mark::Cleared => split.recon.is_none(),
        Mark::Reconciled => is_named_rightly(reconciliations, split),
        Mark::Voided => false,
    }
}

/// Whether the split names a reconciliation that has marked it.
fn is_named_rightly(reconciliations: &Table<Recon>, split: &Split) -> bool
    ensures { result ≡ is_named_rightly reconciliations.now.entries split.now split.now.recon }
{
    match split.recon {
        Some(number) => has_marked(split, reconciliations.find(number)),
        None => false,
    }
}

/// Whether there is a reconciliation, it is one of the split's account, and it has marked the split.
fn has_marked(split: &Split, found: Option<&Recon>) -> bool
    ensures { result ≡ has_marked split.now (option_copied found.entry) }
{
    match found {
        Some(reconciliation) => {
            reconciliation.account == split.account
                && is_listed(split, reconciliation.marked.as_slice())
        }
        None => false,
    }
}

/// Whether the split is one of those marked, with its present quantity.
fn is_listed(split: &Split, marked: &[MarkedSplit]) -> bool
    ensures { result ≡ list_any (is_marked_as split.now) marked.now }
{
    marked.iter().any(|item| item.split == split.id && item.quantity == split.quantity)
}
