ghost use Rattle.std.specs.Prelude.{◌≡◌, IfOk};

use book_commodity::{OutOfMemory, Text};

/// A part of a line that the file itself divides: its category, its memo and its amount in smallest units.
#[derive(Drop)]
pub struct Part {
    pub category: Text,
    pub memo: Text,
    pub amount: i64,
}

impl Part {
    /// An equal part.
    pub fn copy(&self) -> Result<Part, OutOfMemory>
        ensures { IfOk result (λ copy. copy ≡ self.now) }
    {
        Ok(Part {
            category: self.category.copy()?,
            memo: self.memo.copy()?,
            amount: self.amount,
        })
    }
}
