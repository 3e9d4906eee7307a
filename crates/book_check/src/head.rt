ghost use Rattle.std.specs.Prelude.{◌≡◌, nat_lt};
ghost use Rattle.std.specs.List.{list_all};
ghost use Rattle.book_splits.specs.Balance.{splits_of};
ghost use Rattle.book_undo.specs.Book.{book_of};
ghost use Rattle.book_check.specs.FirstUnsound.{all_hold, are_below, head_rules};

use crate::accounts::root_of;
use crate::commodities::is_currency;
use book_accounts::Tree;
use book_commodity::Table;
use book_prices::Prices;
use book_splits::{MarkedSplit, Recon, Split, Txn, Txns};
use book_undo::{Plain, Schedule};

/// Whether the head keeps its rules: the currency of the book is one, there is a root, and every number is below the
/// next.
pub(crate) fn keeps_head(plain: &Plain, next: u64) -> bool
    ensures { result ≡ all_hold (head_rules (book_of plain.now) next) }
{
    is_currency(&plain.commodities, plain.currency)
        && root_of(&plain.accounts).is_some()
        && are_below(&plain.commodities, next)
        && are_accounts_below(&plain.accounts, next)
        && are_transactions_below(&plain.transactions, next)
        && are_prices_below(&plain.prices, next)
        && are_below(&plain.schedules, next)
        && are_below(&plain.statements, next)
        && are_below(&plain.lines, next)
        && are_below(&plain.bindings, next)
        && are_below(&plain.reconciliations, next)
        && are_splits_below(&plain.transactions, next)
        && are_marked_below(&plain.reconciliations, next)
        && are_made_below(&plain.schedules, next)
}

/// Whether the number of each account is below the next: that of the last is the greatest.
#[tactic(auto, using(crate::proofs::HeadLemmas::below_last, crate::proofs::HeadLemmas::below_none))]
fn are_accounts_below(accounts: &Tree, next: u64) -> bool
    ensures { result ≡ are_below next accounts.now.entries }
{
    let count = accounts.len();
    count == 0 || accounts.number_at(count - 1) < next
}

/// Whether the number of each transaction is below the next.
#[tactic(auto, using(crate::proofs::HeadLemmas::below_last, crate::proofs::HeadLemmas::below_none))]
fn are_transactions_below(transactions: &Txns, next: u64) -> bool
    ensures { result ≡ are_below next transactions.now.entries }
{
    let count = transactions.len();
    count == 0 || transactions.number_at(count - 1) < next
}

/// Whether the number of each price is below the next.
#[tactic(auto, using(crate::proofs::HeadLemmas::below_last, crate::proofs::HeadLemmas::below_none))]
fn are_prices_below(prices: &Prices, next: u64) -> bool
    ensures { result ≡ are_below next prices.now.entries }
{
    let count = prices.len();
    count == 0 || prices.number_at(count - 1) < next
}

/// Whether each number of the table is below the next.
#[tactic(auto, using(crate::proofs::HeadLemmas::below_last, crate::proofs::HeadLemmas::below_none))]
fn are_below<T>(table: &Table<T>, next: u64) -> bool
    ensures { result ≡ are_below next table.now.entries }
{
    let count = table.len();
    count == 0 || table.number_at(count - 1) < next
}

/// Whether the number of each split is below the next.
#[tactic(auto, using(crate::proofs::HeadLemmas::all_splits))]
fn are_splits_below(transactions: &Txns, next: u64) -> bool
    ensures { result ≡ list_all (λ split. nat_lt split.id next) (splits_of transactions.now.entries) }
{
    have_numbers_below(transactions.as_slice(), next)
}

/// Whether the number of each split of these transactions is below the next.
fn have_numbers_below(transactions: &[(u64, Txn)], next: u64) -> bool
    ensures { result ≡ list_all (λ entry. list_all (λ split. nat_lt split.id next) entry.1.splits) transactions.now }
{
    let mut entries = transactions.iter();
    entries.all(|(_, transaction)| are_numbers_below(transaction.splits.as_slice(), next))
}

/// Whether the numbers of these splits are below the next.
fn are_numbers_below(splits: &[Split], next: u64) -> bool
    ensures { result ≡ list_all (λ split. nat_lt split.id next) splits.now }
{
    splits.iter().all(|split| split.id < next)
}

/// Whether the number of each marked split is below the next.
fn are_marked_below(reconciliations: &Table<Recon>, next: u64) -> bool
    ensures { result ≡ list_all (λ entry. list_all (λ marked. nat_lt marked.split next) entry.1.marked)
        reconciliations.now.entries }
{
    let mut entries = reconciliations.as_slice().iter();
    entries.all(|(_, reconciliation)| are_all_below(reconciliation.marked.as_slice(), next))
}

/// Whether the numbers of these marked splits are below the next.
fn are_all_below(marked: &[MarkedSplit], next: u64) -> bool
    ensures { result ≡ list_all (λ marked. nat_lt marked.split next) marked.now }
{
    marked.iter().all(|split| split.split < next)
}

/// Whether the count that each schedule has made is below the next.
fn are_made_below(schedules: &Table<Schedule>, next: u64) -> bool
    ensures { result ≡ list_all (λ entry. nat_lt entry.1.timing.made next) schedules.now.entries }
{
    let mut entries = schedules.as_slice().iter();
    entries.all(|(_, schedule)| schedule.timing.made < next)
}
