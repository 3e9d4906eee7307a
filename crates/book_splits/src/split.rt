ghost use Rattle.std.specs.Prelude.{◌≡◌, IfOk};

use book_commodity::{OutOfMemory, Text};

/// How far a split was checked against the bank's word: not yet, cleared, or reconciled; or that its transaction is
/// voided (GnuCash SQL schema, column reconcile_state of splits).
#[derive(Clone, Copy, Debug, PartialEq, Eq)]
pub enum Mark {
    New,
    Cleared,
    Reconciled,
    Voided,
}

/// One account's part in a transaction. The value is in smallest units of the transaction's currency,
/// the quantity in smallest units of the account's commodity; a reconciled split names its reconciliation.
#[derive(Drop)]
pub struct Split {
    pub id: u64,
    pub account: u64,
    pub memo: Text,
    pub action: Text,
    pub mark: Mark,
    pub recon: Option<u64>,
    pub value: i64,
    pub quantity: i64,
}

impl Split {
    /// An equal split with memory of its own.
    pub fn copy(&self) -> Result<Split, OutOfMemory>
        ensures { IfOk result (λ copy. copy ≡ self.now) }
    {
        Ok(Split {
            id: self.id,
            account: self.account,
            memo: self.memo.copy()?,
            action: self.action.copy()?,
            mark: self.mark,
            recon: self.recon,
            value: self.value,
            quantity: self.quantity,
        })
    }
}
