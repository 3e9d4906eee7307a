ghost use Rattle.std.specs.Prelude.{◌≡◌, ◌+◌, ◌<◌, ◌==◌, Some, drop, length, option_map, slice_get};
ghost use Rattle.std.specs.List.{list_any};
ghost use Rattle.book_splits.specs.TransactionRules.{are_once};
ghost use Rattle.book_sound.specs.ReconciliationRules.{is_closed, marked_numbers, marked_sum};
ghost use Rattle.book_sound.specs.ReconciliationRules.{reconciliation_rules};
ghost use Rattle.book_broken.specs.Broken.{broken_in};
ghost use Rattle.book_broken.specs.Names.{reconciliation_names};

use crate::BrokenRule;
use book_accounts::Tree;
use book_commodity::Table;
use book_splits::{MarkedSplit, Recon};

/// The rule that the reconciliation under the number breaks, if a reconciliation is there.
pub(crate) fn in_reconciliations(
    accounts: &Tree,
    reconciliations: &Table<Recon>,
    number: u64,
) -> Option<BrokenRule>
    ensures { result ≡ broken_in (reconciliation_rules accounts.now.entries) (λ _. reconciliation_names) number
        reconciliations.now.entries }
{
    let Some(reconciliation) = reconciliations.find(number) else {
        return None;
    };
    if accounts.find(reconciliation.account).is_none() {
        return Some(BrokenRule::UnknownAccount);
    }
    if !are_once(reconciliation.marked.as_slice()) {
        return Some(BrokenRule::MarkedTwice);
    }
    if !is_closed(reconciliation) {
        return Some(BrokenRule::NotClosed);
    }
    Some(BrokenRule::TooMany)
}

/// Whether each split stands once in the list.
fn are_once(marked: &[MarkedSplit]) -> bool
    ensures { result ≡ are_once (marked_numbers marked.now) }
{
    for place in 0..marked.len() {
        if is_again(marked, place) {
            return false;
        }
    }
    true
}

/// Whether the split at the place stands behind it too.
fn is_again(marked: &[MarkedSplit], place: usize) -> bool
    requires { place < length marked.now }
    ensures { option_map (λ item. list_any (λ other. other.split == item.split) (drop (place + 1) marked.now))
        (slice_get marked.now place) ≡ Some result }
{
    has_number(&marked[place + 1..], marked[place].split)
}

/// Whether the split of the number is in the list.
fn has_number(marked: &[MarkedSplit], number: u64) -> bool
    ensures { result ≡ list_any (λ item. item.split == number) marked.now }
{
    marked.iter().any(|item| item.split == number)
}

/// Whether the opening balance and the marked splits sum to the closing balance.
fn is_closed(reconciliation: &Recon) -> bool
    ensures { result ≡ is_closed reconciliation.now }
{
    let closing = i128::from(reconciliation.closing);
    let sum = marked_sum(reconciliation.marked.as_slice());
    match reconciliation.opening.checked_add(sum) {
        Some(balance) => balance == closing,
        None => false,
    }
}

/// The sum of the quantities that the marked splits had.
fn marked_sum(marked: &[MarkedSplit]) -> i128
    ensures { result ≡ marked_sum marked.now }
{
    let mut sum = 0i128;
    for item in marked {
        sum += i128::from(quantity_of(item));
    }
    sum
}

/// The quantity that the marked split had.
fn quantity_of(marked: &MarkedSplit) -> i64
    ensures { result ≡ marked.now.quantity }
{
    marked.quantity
}
