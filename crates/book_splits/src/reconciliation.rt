ghost use Rattle.std.specs.Prelude.{◌≡◌, IfOk};

use book_commodity::{Day, Many, OutOfMemory};
use std::alloc::Global;

/// A split that a reconciliation marked, by its number, and the quantity that it had then.
#[derive(Clone, Copy, Debug, PartialEq, Eq)]
pub struct MarkedSplit {
    pub split: u64,
    pub quantity: i64,
}

/// A reconciliation of an account: the day and the closing balance of the bank's statement, the opening balance to
/// which the splits marked add up to the closing one, and these splits in order. Balances and quantities are in
/// smallest units of the account's commodity.
#[derive(Drop)]
pub struct Recon {
    pub account: u64,
    pub day: Day,
    pub opening: i128,
    pub closing: i64,
    pub marked: Many<MarkedSplit>,
}

impl Recon {
    /// An equal reconciliation with memory of its own.
    pub fn copy(&self, alloc: Global) -> Result<Recon, OutOfMemory>
        ensures { IfOk result (λ copy. copy ≡ self.now) }
    {
        Ok(Recon {
            account: self.account,
            day: self.day,
            opening: self.opening,
            closing: self.closing,
            marked: Many::of(Vec::from_slice(alloc, self.marked.as_slice())?),
        })
    }
}
