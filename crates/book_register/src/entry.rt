ghost use Rattle.std.specs.Prelude.{◌≡◌};
ghost use Rattle.book_seq.specs.Sums.{listed};

use book_commodity::Day;
use book_seq::Weigh;

/// How far a split is reconciled with a statement: a mark n is `Plain`, c `Cleared` and y `Reconciled`.
#[derive(Clone, Copy, Debug, PartialEq, Eq)]
pub enum Mark2 {
    Plain,
    Cleared,
    Reconciled,
}

/// A row of a register: a split with the day and the number of its transaction and its place there. The quantity is in
/// smallest units of the account's commodity, the value in those of the transaction's currency.
#[derive(Clone, Copy, Debug, PartialEq, Eq)]
pub struct Entry {
    pub day: Day,
    pub txn: u64,
    pub place: u32,
    pub split: u64,
    pub currency: u64,
    pub quantity: i64,
    pub value: i64,
    pub mark: Mark2,
}

impl Weigh for Entry {
    ghost use Rattle.book_register.specs.Weights.{weights_of};

    ghost weights = { weights_of };

    fn weight(&self) -> [i64; 3] {
        match self.mark {
            Mark2::Plain => [self.quantity, 0, 0],
            Mark2::Cleared => [self.quantity, self.quantity, 0],
            Mark2::Reconciled => [self.quantity, self.quantity, self.quantity],
        }
    }
}
