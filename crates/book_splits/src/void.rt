ghost use Rattle.std.specs.Prelude.{◌≡◌, IfOk};

use book_commodity::{Many, OutOfMemory, Text};

/// What a split had before its transaction was voided: its value, in smallest units of the transaction's currency, and
/// its quantity, in smallest units of the account's commodity.
#[derive(Clone, Copy, Debug, PartialEq, Eq)]
pub struct KeptSplit {
    pub value: i64,
    pub quantity: i64,
}

/// What is kept of a voided transaction: why it was voided, and what each of its splits had, by place (GnuCash
/// Manual, voiding a transaction).
#[derive(Drop)]
pub struct Void {
    pub reason: Text,
    pub kept: Many<KeptSplit>,
}

impl Void {
    /// An equal record with memory of its own.
    pub fn copy(&self) -> Result<Void, OutOfMemory>
        ensures { IfOk result (λ copy. copy ≡ self.now) }
    {
        let reason = self.reason.copy()?.into_string();
        let kept = Many::of(Vec::from_slice(*reason.allocator(), self.kept.as_slice())?);
        Ok(Void {
            reason: Text::of(reason),
            kept,
        })
    }
}
