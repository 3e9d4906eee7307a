ghost use Rattle.std.specs.Prelude.{◌≡◌, ◌==◌, ◌≤◌, ◌&&◌, IfOk, length};
ghost use Rattle.std.specs.List.{list_any};
ghost use Rattle.std.specs.Option.{option_copied};
ghost use Rattle.book_splits.specs.Balance.{splits_of};
ghost use Rattle.book_splits.specs.TransactionRules.{are_once, is_among, numbers_of, share_numbers};
ghost use Rattle.book_sound.specs.MarkedTransactionRules.{are_rightly_marked};
ghost use Rattle.book_undo.specs.Book.{book_of};
ghost use Rattle.book_history.specs.Placing.{are_drawn, fits_there, fits_under, has_place, has_room, is_apart};
ghost use Rattle.book_history.specs.Placing.{keeps_own_rules, splits_found, thing_fits};

use crate::losing::none_loses;
use crate::marking::are_rightly_marked;
use crate::restating::{is_same_line, may_be};
use book_commodity::OutOfMemory;
use book_splits::{Split, Txn, Txns};
use book_undo::{Edit, Plain, Thing};
use book_void::{keeps_as_many, passes_restored};
use std::alloc::Global;

/// How many transactions a book has at most.
const MOST: usize = 200_000;

/// How many splits the transactions of a book have at most.
const MOST_SPLITS: u64 = 1_000_000;

/// Whether the edit only puts a thing that fits under its number: a transaction that keeps all rules there, or a line
/// in the place of one with its key and its statement, which may be in its state. The transactions of the book are
/// walked along once, and its lines.
pub(crate) fn fits_there(
    alloc: Global,
    plain: &Plain,
    next: u64,
    edit: &Edit,
) -> Result<bool, OutOfMemory>
    requires { length (splits_of (book_of plain.now).transactions) ≤ 1000000 }
    ensures { IfOk result (λ fits. fits ≡ fits_there next (book_of plain.now) edit.now) }
{
    match edit {
        Edit::Put(number, thing) => thing_fits(alloc, plain, next, *number, thing),
        Edit::Currency(_) | Edit::Gone(_, _) | Edit::All(_) => Ok(false),
    }
}

/// Whether the thing fits under the number.
fn thing_fits(
    alloc: Global,
    plain: &Plain,
    next: u64,
    number: u64,
    thing: &Thing,
) -> Result<bool, OutOfMemory>
    requires { length (splits_of (book_of plain.now).transactions) ≤ 1000000 }
    ensures { IfOk result (λ fits. fits ≡ thing_fits next (book_of plain.now) number thing.now) }
{
    match thing {
        Thing::Txn(new) => fits_under(alloc, plain, next, number, new),
        Thing::Line(new) => {
            Ok(is_same_line(new, plain.lines.find(number)) && may_be(plain, number, new))
        }
        _ => Ok(false),
    }
}

/// Whether the transaction fits under the number: that and the numbers of its splits are below the next, it keeps its
/// rules, there is room for it, and no line loses the split that it is matched with.
fn fits_under(
    alloc: Global,
    plain: &Plain,
    next: u64,
    number: u64,
    new: &Txn,
) -> Result<bool, OutOfMemory>
    requires { length (splits_of (book_of plain.now).transactions) ≤ 1000000 }
    ensures { IfOk result (λ fits. fits ≡ fits_under next (book_of plain.now) number new.now) }
{
    if !has_place(plain, next, number, new) {
        return Ok(false);
    }
    keeps_own_rules(alloc, plain, new)
}

/// Whether the number and those of the splits are below the next, there is room for the transaction under its number,
/// and no line loses the split that it is matched with.
fn has_place(plain: &Plain, next: u64, number: u64, new: &Txn) -> bool
    requires { length (splits_of (book_of plain.now).transactions) ≤ 1000000 }
    ensures { result ≡ has_place next (book_of plain.now) number new.now }
{
    let splits = new.splits.as_slice();
    number < next
        && are_drawn(splits, next)
        && has_room(&plain.transactions, splits.len())
        && is_apart(&plain.transactions, number, new)
        && none_loses(
            &plain.lines,
            splits_found(plain.transactions.find(number)),
            splits,
        )
}

/// Whether the number of each split is below the next.
fn are_drawn(splits: &[Split], next: u64) -> bool
    ensures { result ≡ are_drawn next splits.now }
{
    splits.iter().all(|split| split.id < next)
}

/// Whether the transaction keeps the rules that ask for no other: as it is brought back where it is voided, it passes
/// the check of transactions; its splits have numbers of their own and are as its state says; and where it is voided the
/// amounts of each are kept.
fn keeps_own_rules(alloc: Global, plain: &Plain, transaction: &Txn) -> Result<bool, OutOfMemory>
    ensures { IfOk result (λ keeps. keeps ≡ keeps_own_rules (book_of plain.now) transaction.now) }
{
    if !keeps_as_many(transaction) {
        return Ok(false);
    }
    if !has_right_splits(plain, transaction) {
        return Ok(false);
    }
    passes_restored(alloc, &plain.commodities, &plain.accounts, transaction)
}

/// Whether each split has a number that no other of them has, and they are as the transaction's state says.
fn has_right_splits(plain: &Plain, transaction: &Txn) -> bool
    ensures { result ≡ (are_once (numbers_of transaction.now.splits)
        && are_rightly_marked plain.now.reconciliations.entries transaction.now.voided transaction.now.splits) }
{
    are_once(transaction.splits.as_slice())
        && are_rightly_marked(&plain.reconciliations, transaction)
}

/// Whether each split has a number that no other of them has.
fn are_once(splits: &[Split]) -> bool
    ensures { result ≡ are_once (numbers_of splits.now) }
{
    for place in 0..splits.len() {
        if has_number(&splits[place + 1..], splits[place].id) {
            return false;
        }
    }
    true
}

/// Whether the number is one of those that the splits have.
#[tactic(auto, using(crate::proofs::NumberWalks::any_number))]
fn has_number(splits: &[Split], number: u64) -> bool
    ensures { result ≡ is_among (numbers_of splits.now) number }
{
    is_numbered(splits, number)
}

/// Whether one of the splits has the number.
fn is_numbered(splits: &[Split], number: u64) -> bool
    ensures { result ≡ list_any (λ split. split.id == number) splits.now }
{
    splits.iter().any(|split| split.id == number)
}

/// Whether there is room for a transaction more with so many splits.
fn has_room(transactions: &Txns, count: usize) -> bool
    requires { length (splits_of transactions.now.entries) ≤ 1000000 }
    ensures { result ≡ has_room transactions.now.entries count }
{
    transactions.len() < MOST && count as u64 <= MOST_SPLITS - transactions.count_splits()
}

/// Whether no transaction but that under the number has a split with the number of a split of the new one.
fn is_apart(transactions: &Txns, number: u64, new: &Txn) -> bool
    ensures { result ≡ is_apart number new.now transactions.now.entries }
{
    let mut entries = transactions.as_slice().iter();
    entries.all(|(own, transaction)| *own == number || !share_numbers(new, transaction))
}

/// Whether a split of the one transaction has the number of a split of the other.
#[tactic(auto, using(crate::proofs::NumberWalks::any_number))]
fn share_numbers(transaction: &Txn, other: &Txn) -> bool
    ensures { result ≡ share_numbers transaction.now other.now }
{
    has_any_number(transaction.splits.as_slice(), other.splits.as_slice())
}

/// Whether one of the splits has the number of one of the others.
fn has_any_number(splits: &[Split], others: &[Split]) -> bool
    ensures { result ≡ list_any (λ split. is_among (numbers_of others.now) split.id) splits.now }
{
    splits.iter().any(|split| has_number(others, split.id))
}

/// The splits of the transaction, if there is one.
fn splits_found(found: Option<&Txn>) -> &[Split]
    ensures { result.now ≡ splits_found (option_copied found.entry) }
{
    match found {
        Some(transaction) => transaction.splits.as_slice(),
        None => &[],
    }
}
