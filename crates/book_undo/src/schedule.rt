ghost use Rattle.std.specs.Prelude.{◌≡◌, IfOk};

use book_commodity::{OutOfMemory, Text};
use book_schedule::Timing;
use book_splits::Txn;

/// A scheduled transaction: its name, when it is due, and the transaction that is made on each of these days.
#[derive(Drop)]
pub struct Schedule {
    pub name: Text,
    pub timing: Timing,
    pub template: Txn,
}

impl Schedule {
    /// An equal schedule with memory of its own.
    pub fn copy(&self) -> Result<Schedule, OutOfMemory>
        ensures { IfOk result (λ copy. copy ≡ self.now) }
    {
        let name = self.name.copy()?.into_string();
        let timing = self.timing.copy(*name.allocator())?;
        Ok(Schedule {
            name: Text::of(name),
            timing,
            template: self.template.copy()?,
        })
    }
}
