use book_commodity::{OutOfMemory, Text};
use std::alloc::Global;

/// A part of an entry: its category and, where they have come, its memo and its amount in smallest units.
#[derive(Drop)]
pub struct SplitSaid {
    pub category: Text,
    pub memo: Option<Text>,
    pub amount: Option<i64>,
}

impl SplitSaid {
    ghost use Rattle.std.specs.Prelude.{◌≡◌, IfOk};
    ghost use Rattle.qif_read.specs.Steps.{with_amount, with_memo};

    /// The part with a memo, if it has none yet.
    pub fn with_memo(self, alloc: Global, text: &str) -> Result<SplitSaid, OutOfMemory>
        ensures { IfOk result (λ changed. changed ≡ with_memo text.now self) }
    {
        if self.memo.is_some() {
            return Ok(self);
        }
        let mut changed = self;
        changed.memo = Some(Text::of(String::from_str(alloc, text)?));
        Ok(changed)
    }

    /// The part with an amount, if it has none yet.
    pub fn with_amount(self, amount: i64) -> SplitSaid
        ensures { result ≡ with_amount amount self }
    {
        if self.amount.is_some() {
            return self;
        }
        let mut changed = self;
        changed.amount = Some(amount);
        changed
    }
}
