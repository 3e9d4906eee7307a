ghost use Rattle.std.specs.Prelude.{◌≡◌, OnOk, IfOk};
ghost use Rattle.std.specs.BTreeMap.{get};
ghost use Rattle.std.specs.Ordering.{nat_cmp};
ghost use Rattle.book_splits.specs.Balance.{splits_of};
ghost use Rattle.book_check.specs.Splits.{fits_facts, HasSplits, PutsBefore, facts_of};

use book_commodity::OutOfMemory;
use book_splits::{Mark, Split, Txns};
use std::alloc::Global;
use std::collections::BTreeMap;

/// What a split gives to an account, in smallest units of the account's commodity, and whether it is voided.
#[derive(Clone, Copy, Debug, PartialEq, Eq)]
pub(crate) struct SplitFacts {
    pub(crate) account: u64,
    pub(crate) quantity: i64,
    pub(crate) voided: bool,
}

/// What the splits of a book give to accounts, by the numbers of the splits.
#[derive(Drop)]
pub(crate) struct Splits {
    quantities: BTreeMap<u64, SplitFacts>,
}

impl Splits {
    /// The splits of the transactions; of those that have one number the first.
    pub(crate) fn of(alloc: Global, transactions: &Txns) -> Result<Splits, OutOfMemory>
        ensures { IfOk result (HasSplits (splits_of transactions.now.entries)) }
    {
        let mut splits = Splits {
            quantities: BTreeMap::new(alloc),
        };
        for place in (0..transactions.len()).rev() {
            splits.add(transactions.value_at(place).splits.as_slice())?;
        }
        Ok(splits)
    }

    /// Whether the split with the number is there, gives this quantity to the account, and is not voided.
    pub(crate) fn fits(&self, number: u64, account: u64, quantity: i64) -> bool
        ensures { result ≡ fits_facts account quantity (get nat_cmp self.now.quantities number) }
    {
        match self.quantities.get(&number) {
            Some(split) => {
                split.account == account && split.quantity == quantity && !split.voided
            }
            None => false,
        }
    }

    /// Adds splits that stand before all that are there.
    fn add(&mut self, splits: &[Split]) -> Result<(), OutOfMemory>
        ensures { OnOk result (PutsBefore splits.now self.old self.new) }
    {
        for place in (0..splits.len()).rev() {
            let split = &splits[place];
            self.quantities.insert(split.id, facts_of(split))?;
        }
        Ok(())
    }
}

/// What the split gives to its account, and whether it is voided.
fn facts_of(split: &Split) -> SplitFacts
    ensures { result ≡ facts_of split.now }
{
    SplitFacts {
        account: split.account,
        quantity: split.quantity,
        voided: split.mark == Mark::Voided,
    }
}
