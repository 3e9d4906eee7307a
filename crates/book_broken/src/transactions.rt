ghost use Rattle.std.specs.Prelude.{◌≡◌, ◌+◌, ◌<◌, ◌==◌, IfOk, Some, [], ◌∷◌, drop, length, not, option_map};
ghost use Rattle.std.specs.Prelude.{slice_get, true};
ghost use Rattle.std.specs.List.{list_all, list_any};
ghost use Rattle.book_commodity.specs.Rules.{stands_before};
ghost use Rattle.book_commodity.specs.Table.{value_of};
ghost use Rattle.book_splits.specs.TransactionRules.{are_once, numbers_of, share_numbers};
ghost use Rattle.book_sound.specs.MarkedTransactionRules.{has_marked, is_marked_as, is_named_rightly};
ghost use Rattle.book_sound.specs.MarkedTransactionRules.{are_rightly_marked, is_rightly_marked};
ghost use Rattle.book_splits.specs.Check.{txn_rules};
ghost use Rattle.book_commodity.specs.Rules.{first_broken};
ghost use Rattle.book_void.specs.Voiding.{keeps_as_many, restored};
ghost use Rattle.book_broken.specs.Broken.{broken_in, first_failing};
ghost use Rattle.book_broken.specs.Names.{name_of_restored, told_rules, transaction_names};
ghost use Rattle.book_broken.specs.declared.rule.BrokenRule.TheVariants as rule;

use crate::BrokenRule;
use book_accounts::Tree;
use book_commodity::{Commodities, OutOfMemory, Table};
use book_splits::{Mark, MarkedSplit, Recon, Split, Txn, TxnRule, Txns, check_txn};
use book_void::{are_rightly_voided, keeps_as_many, restored};
use std::alloc::Global;

/// The rule that the transaction under the number breaks, if a transaction is there.
pub(crate) fn in_transactions(
    alloc: Global,
    commodities: &Commodities,
    accounts: &Tree,
    reconciliations: &Table<Recon>,
    transactions: &Txns,
    number: u64,
) -> Result<Option<BrokenRule>, OutOfMemory>
    ensures { IfOk result (λ found. found ≡ broken_in
        (told_rules commodities.now.entries accounts.now.entries reconciliations.now.entries
        transactions.now.entries)
        (transaction_names commodities.now.entries accounts.now.entries) number transactions.now.entries) }
{
    let Some(transaction) = transactions.find(number) else {
        return Ok(None);
    };
    if !keeps_as_many(transaction) {
        return Ok(Some(BrokenRule::Kept));
    }
    if let Some(rule) = broken_check(alloc, commodities, accounts, transaction)? {
        return Ok(Some(named(transaction, rule)));
    }
    Ok(Some(in_splits(
        reconciliations,
        transactions.as_slice(),
        number,
        transaction,
    )))
}

/// The name of the rule of transactions that the transaction breaks, as it would be brought back where it is voided.
fn named(transaction: &Txn, rule: TxnRule) -> BrokenRule
    ensures { result ≡ name_of_restored transaction.now.voided (Some rule) }
{
    match transaction.voided {
        Some(_) => BrokenRule::Restored(rule),
        None => BrokenRule::Transaction(rule),
    }
}

/// The first rule of transactions that the transaction breaks, as it would be brought back where it is voided. Where it is
/// voided, something is kept of each split.
fn broken_check(
    alloc: Global,
    commodities: &Commodities,
    accounts: &Tree,
    transaction: &Txn,
) -> Result<Option<TxnRule>, OutOfMemory>
    requires { keeps_as_many transaction.now.voided transaction.now.splits ≡ true }
    ensures { IfOk result (λ found. found
        ≡ first_broken (txn_rules commodities.now.entries accounts.now.entries (restored transaction.now))) }
{
    if transaction.voided.is_none() {
        return Ok(check_txn(commodities, accounts, transaction).err());
    }
    let restored = restored(alloc, transaction)?;
    Ok(check_txn(commodities, accounts, &restored).err())
}

/// The rule that the splits of the transaction break, by the names that come behind that of the check.
fn in_splits(
    reconciliations: &Table<Recon>,
    transactions: &[(u64, Txn)],
    number: u64,
    transaction: &Txn,
) -> BrokenRule
    ensures { result ≡ first_failing
        (are_once (numbers_of transaction.now.splits)
        ∷ not (stands_before (share_numbers transaction.now) number transactions.now)
        ∷ are_rightly_marked reconciliations.now.entries transaction.now.voided transaction.now.splits ∷ [])
        (rule.SplitTwice ∷ rule.SplitElsewhere ∷ rule.Mark ∷ []) }
{
    if !are_once(transaction.splits.as_slice()) {
        return BrokenRule::SplitTwice;
    }
    if shares_before(transactions, number, transaction) {
        return BrokenRule::SplitElsewhere;
    }
    if !are_rightly_marked(reconciliations, transaction) {
        return BrokenRule::Mark;
    }
    BrokenRule::TooMany
}

/// Whether each of the splits has a number that no other of them has.
fn are_once(splits: &[Split]) -> bool
    ensures { result ≡ are_once (numbers_of splits.now) }
{
    for place in 0..splits.len() {
        if is_again(splits, place) {
            return false;
        }
    }
    true
}

/// Whether a split behind the place has the number of the one there.
fn is_again(splits: &[Split], place: usize) -> bool
    requires { place < length splits.now }
    ensures { option_map (λ split. list_any (λ other. other.id == split.id) (drop (place + 1) splits.now))
        (slice_get splits.now place) ≡ Some result }
{
    has_number(&splits[place + 1..], splits[place].id)
}

/// Whether one of the splits has the number.
fn has_number(splits: &[Split], number: u64) -> bool
    ensures { result ≡ list_any (λ split. split.id == number) splits.now }
{
    splits.iter().any(|split| split.id == number)
}

/// Whether a transaction with a smaller number has a split with the number of one of this one's splits.
fn shares_before(transactions: &[(u64, Txn)], number: u64, transaction: &Txn) -> bool
    ensures { result ≡ stands_before (share_numbers transaction.now) number transactions.now }
{
    let mut entries = transactions.iter();
    entries.any(|(other, thing)| *other < number && share_numbers(transaction, thing))
}

/// Whether a split of one transaction has the number of a split of the other.
fn share_numbers(transaction: &Txn, other: &Txn) -> bool
    ensures { result ≡ share_numbers transaction.now other.now }
{
    share_one(transaction, other)
}

/// Whether one split of one transaction has the number of one of the other.
fn share_one(transaction: &Txn, other: &Txn) -> bool
    ensures { result ≡ list_any (λ split. list_any (λ one. one.id == split.id) other.now.splits)
        transaction.now.splits }
{
    let mut splits = transaction.splits.as_slice().iter();
    splits.any(|split| has_number(other.splits.as_slice(), split.id))
}

/// Whether the splits of the transaction are as its state says: where it is voided each is rightly voided, and else
/// each is rightly marked.
fn are_rightly_marked(reconciliations: &Table<Recon>, transaction: &Txn) -> bool
    ensures { result ≡ are_rightly_marked reconciliations.now.entries transaction.now.voided transaction.now.splits }
{
    let splits = transaction.splits.as_slice();
    match transaction.voided {
        Some(_) => are_rightly_voided(splits),
        None => are_marked(reconciliations, splits),
    }
}

/// Whether each split is reconciled exactly where it names a reconciliation that has marked it, and none is voided.
fn are_marked(reconciliations: &Table<Recon>, splits: &[Split]) -> bool
    ensures { result ≡ list_all (is_rightly_marked reconciliations.now.entries) splits.now }
{
    splits
        .iter()
        .all(|split| is_rightly_marked(reconciliations, split))
}

/// Whether the split is reconciled exactly where it names a reconciliation that has marked it, and is not voided.
fn is_rightly_marked(reconciliations: &Table<Recon>, split: &Split) -> bool
    ensures { result ≡ is_rightly_marked reconciliations.now.entries split.now }
{
    match split.mark {
        Mark::New | Mark::Cleared => split.recon.is_none(),
        Mark::Reconciled => is_named_rightly(reconciliations, split),
        Mark::Voided => false,
    }
}

/// Whether the split names a reconciliation that has marked it.
fn is_named_rightly(reconciliations: &Table<Recon>, split: &Split) -> bool
    ensures { result ≡ is_named_rightly reconciliations.now.entries split.now split.now.recon }
{
    match split.recon {
        Some(number) => has_marked(reconciliations, number, split),
        None => false,
    }
}

/// Whether the reconciliation with the number is there, is one of the split's account, and has marked it.
fn has_marked(reconciliations: &Table<Recon>, number: u64, split: &Split) -> bool
    ensures { result ≡ has_marked split.now (value_of number reconciliations.now.entries) }
{
    match reconciliations.find(number) {
        Some(reconciliation) => {
            reconciliation.account == split.account
                && is_listed(reconciliation.marked.as_slice(), split)
        }
        None => false,
    }
}

/// Whether the list has the split with its present quantity.
fn is_listed(marked: &[MarkedSplit], split: &Split) -> bool
    ensures { result ≡ list_any (is_marked_as split.now) marked.now }
{
    marked.iter().any(|item| item.split == split.id && item.quantity == split.quantity)
}
