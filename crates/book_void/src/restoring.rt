ghost use Rattle.std.specs.Prelude.{◌≡◌, IfOk, IfSome, length};
ghost use Rattle.book_void.specs.Voiding.{restored, restored_split, restored_splits};

use book_commodity::{Many, OutOfMemory};
use book_splits::{KeptSplit, Mark, Split, Txn};
use std::alloc::Global;

/// The transaction brought back: each split has the value and the quantity that were kept of it, is new and names no
/// reconciliation, and nothing is kept any more. The caller sees to it that as many amounts are kept as there are
/// splits, where the transaction is voided. One that is not voided is copied as it is. The error is out of memory.
pub fn restored(alloc: Global, transaction: &Txn) -> Result<Txn, OutOfMemory>
    requires { IfSome transaction.now.voided (λ void. length void.kept ≡ length transaction.now.splits) }
    ensures { IfOk result (λ new. new ≡ restored transaction.now) }
{
    let Some(void) = &transaction.voided else {
        return transaction.copy();
    };
    Ok(Txn {
        currency: transaction.currency,
        day: transaction.day,
        num: transaction.num.copy()?,
        description: transaction.description.copy()?,
        splits: restored_splits(alloc, transaction.splits.as_slice(), void.kept.as_slice())?,
        voided: None,
    })
}

/// The splits with what was kept of them, by place, up to the end of the shorter list.
fn restored_splits(
    alloc: Global,
    splits: &[Split],
    kept: &[KeptSplit],
) -> Result<Many<Split>, OutOfMemory>
    ensures { IfOk result (λ restored. restored ≡ restored_splits splits.now kept.now) }
{
    let mut restored = Many::new(alloc);
    for (place, split) in splits.iter().enumerate() {
        let Some(had) = kept.get(place) else {
            return Ok(restored);
        };
        restored.push(restored_split(split, had)?)?;
    }
    Ok(restored)
}

/// The split with what was kept of it: it is new, and names no reconciliation.
fn restored_split(split: &Split, kept: &KeptSplit) -> Result<Split, OutOfMemory>
    ensures { IfOk result (λ restored. restored ≡ restored_split split.now kept.now) }
{
    Ok(Split {
        id: split.id,
        account: split.account,
        memo: split.memo.copy()?,
        action: split.action.copy()?,
        mark: Mark::New,
        recon: None,
        value: kept.value,
        quantity: kept.quantity,
    })
}
