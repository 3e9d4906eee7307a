ghost use Rattle.std.specs.Prelude.{◌≡◌, ◌&&◌, not, IfOk, is_none, option_map};
ghost use Rattle.std.specs.List.{list_any};
ghost use Rattle.book_splits.specs.TransactionRules.{has_voided, is_not_voided, is_voided};

use crate::{Mark, Split, Void};
use book_commodity::{Day, Many, OutOfMemory, Text};

/// A transaction: its currency, its day, the number and the description that a person gave it, and its splits in
/// order. Of a voided one there is kept why, and what each split had.
#[derive(Drop)]
pub struct Txn {
    pub currency: u64,
    pub day: Day,
    pub num: Text,
    pub description: Text,
    pub splits: Many<Split>,
    pub voided: Option<Void>,
}

impl Txn {
    /// An equal transaction with memory of its own.
    pub fn copy(&self) -> Result<Txn, OutOfMemory>
        ensures { IfOk result (λ copy. copy ≡ self.now) }
    {
        let num = self.num.copy()?.into_string();
        let mut splits = Many::new(*num.allocator());
        for split in self.splits.as_slice() {
            splits.push(split.copy()?)?;
        }
        self.with_splits(splits)
    }

    /// The transaction with these splits in the place of its own, and memory of its own.
    pub fn with_splits(&self, splits: Many<Split>) -> Result<Txn, OutOfMemory>
        ensures { IfOk result (λ new. new ≡ record self.now { splits = splits }) }
    {
        Ok(Txn {
            currency: self.currency,
            day: self.day,
            num: self.num.copy()?,
            description: self.description.copy()?,
            splits,
            voided: match &self.voided {
                Some(void) => Some(void.copy()?),
                None => None,
            },
        })
    }

    /// Whether the transaction is not voided: nothing is kept of it, and no split has the mark of a voided one.
    pub fn is_not_voided(&self) -> bool
        ensures { result ≡ is_not_voided self.now }
    {
        self.voided.is_none() && !has_voided(self.splits.as_slice())
    }
}

/// Whether one of the splits is voided.
fn has_voided(splits: &[Split]) -> bool
    ensures { result ≡ has_voided splits.now }
{
    splits.iter().any(is_voided)
}

/// Whether the split is voided.
fn is_voided(split: &Split) -> bool
    ensures { result ≡ is_voided split.now.mark }
{
    split.mark == Mark::Voided
}
