ghost use Rattle.std.specs.Prelude.{◌≡◌, IfOk, map, is_none, true};
ghost use Rattle.book_void.specs.Voiding.{kept_of, voided_for, voided_split};

use book_commodity::{Many, OutOfMemory, Text};
use book_splits::{KeptSplit, Mark, Split, Txn, Void};
use std::alloc::Global;

/// The transaction voided for the reason: each split is voided, has a value and a quantity of zero and names no
/// reconciliation, and what it had is kept. A mark is not kept. The transaction is not voided already, or its amounts
/// would be lost. The error is out of memory.
pub fn voided_for(alloc: Global, transaction: &Txn, reason: Text) -> Result<Txn, OutOfMemory>
    requires { is_none transaction.now.voided ≡ true }
    ensures { IfOk result (λ new. new ≡ voided_for reason transaction.now) }
{
    let splits = transaction.splits.as_slice();
    Ok(Txn {
        currency: transaction.currency,
        day: transaction.day,
        num: transaction.num.copy()?,
        description: transaction.description.copy()?,
        splits: voided_splits(alloc, splits)?,
        voided: Some(Void {
            reason,
            kept: kept_splits(alloc, splits)?,
        }),
    })
}

/// The splits, each voided.
fn voided_splits(alloc: Global, splits: &[Split]) -> Result<Many<Split>, OutOfMemory>
    ensures { IfOk result (λ voided. voided ≡ map voided_split splits.now) }
{
    let mut voided = Many::new(alloc);
    for split in splits {
        voided.push(voided_split(split)?)?;
    }
    Ok(voided)
}

/// The split voided: its amounts are zero, and it names no reconciliation.
fn voided_split(split: &Split) -> Result<Split, OutOfMemory>
    ensures { IfOk result (λ voided. voided ≡ voided_split split.now) }
{
    Ok(Split {
        id: split.id,
        account: split.account,
        memo: split.memo.copy()?,
        action: split.action.copy()?,
        mark: Mark::Voided,
        recon: None,
        value: 0,
        quantity: 0,
    })
}

/// What is kept of each of the splits.
fn kept_splits(alloc: Global, splits: &[Split]) -> Result<Many<KeptSplit>, OutOfMemory>
    ensures { IfOk result (λ kept. kept ≡ map kept_of splits.now) }
{
    let mut kept = Many::new(alloc);
    for split in splits {
        kept.push(kept_of(split))?;
    }
    Ok(kept)
}

/// What is kept of the split: its value and its quantity.
fn kept_of(split: &Split) -> KeptSplit
    ensures { result ≡ kept_of split.now }
{
    KeptSplit {
        value: split.value,
        quantity: split.quantity,
    }
}
