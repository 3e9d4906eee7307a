ghost use Rattle.std.specs.Prelude.{◌≡◌};
ghost use Rattle.book_step.specs.SameTransaction.{is_mark, same_kept, same_kept_splits, same_split, same_splits};
ghost use Rattle.book_step.specs.SameTransaction.{same_transaction, same_void, same_voided};

use book_splits::{KeptSplit, Mark, Split, Txn, Void};

/// Whether the transaction is the same as the other.
pub(crate) fn is_same(transaction: &Txn, other: &Txn) -> bool
    ensures { result ≡ (same_transaction transaction.now other.now).is }
{
    transaction.currency == other.currency
        && transaction.day == other.day
        && transaction.num.as_str() == other.num.as_str()
        && transaction.description.as_str() == other.description.as_str()
        && are_same(transaction.splits.as_slice(), other.splits.as_slice())
        && is_same_voided(&transaction.voided, &other.voided)
}

/// Whether the splits are the same as the others, place by place.
fn are_same(splits: &[Split], others: &[Split]) -> bool
    ensures { result ≡ (same_splits splits.now others.now).is }
{
    if splits.len() != others.len() {
        return false;
    }
    for (place, split) in splits.iter().enumerate() {
        if !is_same_split(split, &others[place]) {
            return false;
        }
    }
    true
}

/// Whether the split is the same as the other.
fn is_same_split(split: &Split, other: &Split) -> bool
    ensures { result ≡ (same_split split.now other.now).is }
{
    split.id == other.id
        && split.account == other.account
        && split.memo.as_str() == other.memo.as_str()
        && split.action.as_str() == other.action.as_str()
        && is_mark(split.mark, other.mark)
        && split.recon == other.recon
        && split.value == other.value
        && split.quantity == other.quantity
}

/// Whether the mark is the same as the other.
pub(crate) fn is_mark(mark: Mark, other: Mark) -> bool
    ensures { result ≡ is_mark mark other }
{
    match mark {
        Mark::New => matches!(other, Mark::New),
        Mark::Cleared => matches!(other, Mark::Cleared),
        Mark::Reconciled => matches!(other, Mark::Reconciled),
        Mark::Voided => matches!(other, Mark::Voided),
    }
}

/// Whether what is kept of a transaction that may be voided is the same as of the other.
fn is_same_voided(voided: &Option<Void>, other: &Option<Void>) -> bool
    ensures { result ≡ (same_voided voided.now other.now).is }
{
    match (voided, other) {
        (None, None) => true,
        (Some(void), Some(other)) => is_same_void(void, other),
        _ => false,
    }
}

/// Whether what is kept of a voided transaction is the same as of the other.
fn is_same_void(void: &Void, other: &Void) -> bool
    ensures { result ≡ (same_void void.now other.now).is }
{
    void.reason.as_str() == other.reason.as_str()
        && are_same_kept(void.kept.as_slice(), other.kept.as_slice())
}

/// Whether what is kept of each split is the same, place by place.
fn are_same_kept(kept: &[KeptSplit], others: &[KeptSplit]) -> bool
    ensures { result ≡ (same_kept_splits kept.now others.now).is }
{
    if kept.len() != others.len() {
        return false;
    }
    for (place, split) in kept.iter().enumerate() {
        if !is_same_kept(split, &others[place]) {
            return false;
        }
    }
    true
}

/// Whether what is kept of a split is the same as of the other.
fn is_same_kept(kept: &KeptSplit, other: &KeptSplit) -> bool
    ensures { result ≡ (same_kept kept.now other.now).is }
{
    kept.value == other.value && kept.quantity == other.quantity
}
