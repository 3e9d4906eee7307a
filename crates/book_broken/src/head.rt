ghost use Rattle.std.specs.Prelude.{◌≡◌, drop, nat_lt};
ghost use Rattle.std.specs.List.{list_all};
ghost use Rattle.book_opening.specs.State.{head_of, state_of};
ghost use Rattle.book_opening.specs.Steps.{counts_fit};
ghost use Rattle.book_splits.specs.Balance.{splits_of};
ghost use Rattle.book_undo.specs.Book.{book_of};
ghost use Rattle.book_check.specs.FirstUnsound.{are_below, head_rules};
ghost use Rattle.book_broken.specs.Broken.{first_failing, head_tests};
ghost use Rattle.book_broken.specs.Names.{book_names, head_names};

use crate::BrokenRule;
use crate::accounts::root_of;
use crate::commodities::is_currency;
use book_accounts::Tree;
use book_commodity::{Kind, Table};
use book_opening::Saved;
use book_prices::Prices;
use book_splits::{MarkedSplit, Recon, Split, Txn, Txns};
use book_undo::{Plain, Schedule};

/// How many steps are kept.
const STEPS_LIMIT: u64 = 256;

/// The first rule that the head of a state breaks; where it breaks none, it is `TooMany`.
pub(crate) fn in_head(state: &Saved) -> BrokenRule
    ensures { result ≡ first_failing (head_tests (state_of state.now)) head_names }
{
    if state.position > state.version {
        return BrokenRule::PositionAboveVersion;
    }
    if !counts_fit(state) {
        return BrokenRule::StepCounts;
    }
    in_book(&state.plain, state.next)
}

/// Whether the head counts no more steps back than its position, and at most 256 steps in all.
pub(crate) fn counts_fit(state: &Saved) -> bool
    ensures { result ≡ counts_fit (head_of (state_of state.now)) }
{
    state.past <= state.position
        && state.past <= STEPS_LIMIT
        && state.later <= STEPS_LIMIT - state.past
}

/// The first rule of the head that a book with a next number breaks.
fn in_book(plain: &Plain, next: u64) -> BrokenRule
    ensures { result ≡ first_failing (head_rules (book_of plain.now) next) book_names }
{
    if !is_currency(&plain.commodities, plain.currency) {
        return BrokenRule::CurrencyIsNone;
    }
    if root_of(&plain.accounts).is_none() {
        return BrokenRule::NoRoot;
    }
    in_numbers(plain, next)
}

/// The first number of the book that is not below the next, by its kind.
fn in_numbers(plain: &Plain, next: u64) -> BrokenRule
    ensures { result ≡ first_failing (drop 2 (head_rules (book_of plain.now) next)) (drop 2 book_names) }
{
    if !are_below(&plain.commodities, next) {
        return BrokenRule::NumberNotDrawn(Kind::Commodity);
    }
    if !are_accounts_below(&plain.accounts, next) {
        return BrokenRule::NumberNotDrawn(Kind::Account);
    }
    if !are_transactions_below(&plain.transactions, next) {
        return BrokenRule::NumberNotDrawn(Kind::Transaction);
    }
    if !are_prices_below(&plain.prices, next) {
        return BrokenRule::NumberNotDrawn(Kind::Price);
    }
    if !are_below(&plain.schedules, next) {
        return BrokenRule::NumberNotDrawn(Kind::Schedule);
    }
    if !are_below(&plain.statements, next) {
        return BrokenRule::NumberNotDrawn(Kind::Statement);
    }
    in_later_numbers(plain, next)
}

/// The same behind the statements.
fn in_later_numbers(plain: &Plain, next: u64) -> BrokenRule
    ensures { result ≡ first_failing (drop 8 (head_rules (book_of plain.now) next)) (drop 8 book_names) }
{
    if !are_below(&plain.lines, next) {
        return BrokenRule::NumberNotDrawn(Kind::Line);
    }
    if !are_below(&plain.bindings, next) {
        return BrokenRule::NumberNotDrawn(Kind::Binding);
    }
    if !are_below(&plain.reconciliations, next) {
        return BrokenRule::NumberNotDrawn(Kind::Reconciliation);
    }
    if !are_splits_below(&plain.transactions, next) {
        return BrokenRule::NumberNotDrawn(Kind::Split);
    }
    if !are_marked_below(&plain.reconciliations, next) {
        return BrokenRule::MarkedNotDrawn;
    }
    if !are_made_below(&plain.schedules, next) {
        return BrokenRule::MadeNotDrawn;
    }
    BrokenRule::TooMany
}

/// Whether the number of each account is below the next: that of the last is the greatest.
#[tactic(auto, using(book_check::proofs::HeadLemmas::below_last, book_check::proofs::HeadLemmas::below_none))]
fn are_accounts_below(accounts: &Tree, next: u64) -> bool
    ensures { result ≡ are_below next accounts.now.entries }
{
    let count = accounts.len();
    count == 0 || accounts.number_at(count - 1) < next
}

/// Whether the number of each transaction is below the next.
#[tactic(auto, using(book_check::proofs::HeadLemmas::below_last, book_check::proofs::HeadLemmas::below_none))]
fn are_transactions_below(transactions: &Txns, next: u64) -> bool
    ensures { result ≡ are_below next transactions.now.entries }
{
    let count = transactions.len();
    count == 0 || transactions.number_at(count - 1) < next
}

/// Whether the number of each price is below the next.
#[tactic(auto, using(book_check::proofs::HeadLemmas::below_last, book_check::proofs::HeadLemmas::below_none))]
fn are_prices_below(prices: &Prices, next: u64) -> bool
    ensures { result ≡ are_below next prices.now.entries }
{
    let count = prices.len();
    count == 0 || prices.number_at(count - 1) < next
}

/// Whether each number of the table is below the next.
#[tactic(auto, using(book_check::proofs::HeadLemmas::below_last, book_check::proofs::HeadLemmas::below_none))]
fn are_below<T>(table: &Table<T>, next: u64) -> bool
    ensures { result ≡ are_below next table.now.entries }
{
    let count = table.len();
    count == 0 || table.number_at(count - 1) < next
}

/// Whether the number of each split is below the next.
#[tactic(auto, using(book_check::proofs::HeadLemmas::all_splits))]
fn are_splits_below(transactions: &Txns, next: u64) -> bool
    ensures { result ≡ list_all (λ split. nat_lt split.id next) (splits_of transactions.now.entries) }
{
    have_numbers_below(transactions.as_slice(), next)
}

/// Whether the number of each split of these transactions is below the next.
fn have_numbers_below(transactions: &[(u64, Txn)], next: u64) -> bool
    ensures { result ≡ list_all (λ entry. list_all (λ split. nat_lt split.id next) entry.1.splits) transactions.now }
{
    let mut entries = transactions.iter();
    entries.all(|(_, transaction)| are_numbers_below(transaction.splits.as_slice(), next))
}

/// Whether the numbers of these splits are below the next.
fn are_numbers_below(splits: &[Split], next: u64) -> bool
    ensures { result ≡ list_all (λ split. nat_lt split.id next) splits.now }
{
    splits.iter().all(|split| split.id < next)
}

/// Whether the number of each marked split is below the next.
fn are_marked_below(reconciliations: &Table<Recon>, next: u64) -> bool
    ensures { result ≡ list_all (λ entry. list_all (λ marked. nat_lt marked.split next) entry.1.marked)
        reconciliations.now.entries }
{
    let mut entries = reconciliations.as_slice().iter();
    entries.all(|(_, reconciliation)| are_all_below(reconciliation.marked.as_slice(), next))
}

/// Whether the numbers of these marked splits are below the next.
fn are_all_below(marked: &[MarkedSplit], next: u64) -> bool
    ensures { result ≡ list_all (λ marked. nat_lt marked.split next) marked.now }
{
    marked.iter().all(|split| split.split < next)
}

/// Whether the count that each schedule has made is below the next.
fn are_made_below(schedules: &Table<Schedule>, next: u64) -> bool
    ensures { result ≡ list_all (λ entry. nat_lt entry.1.timing.made next) schedules.now.entries }
{
    let mut entries = schedules.as_slice().iter();
    entries.all(|(_, schedule)| schedule.timing.made < next)
}
