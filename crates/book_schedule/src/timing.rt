ghost use Rattle.std.specs.Prelude.{◌≡◌, IfOk};

use crate::Recurrence;
use book_commodity::{Day, Many, OutOfMemory};
use std::alloc::Global;

/// When a schedule ends.
#[derive(Clone, Copy, Debug, PartialEq, Eq)]
pub enum End {
    Never,
    /// After this day.
    Until(Day),
    /// After so many occurrences, those already made among them.
    After(u64),
}

/// When a schedule's transactions are due: its recurrences and its end, how many days in advance they are made, the
/// last day that was made, and how many occurrences were.
#[derive(Drop)]
pub struct Timing {
    pub recurrences: Many<Recurrence>,
    pub end: End,
    pub advance: u32,
    pub last: Option<Day>,
    pub made: u64,
}

impl Timing {
    /// An equal timing with memory of its own.
    pub fn copy(&self, alloc: Global) -> Result<Timing, OutOfMemory>
        ensures { IfOk result (λ copy. copy ≡ self.now) }
    {
        Ok(Timing {
            recurrences: Many::of(Vec::from_slice(alloc, self.recurrences.as_slice())?),
            end: self.end,
            advance: self.advance,
            last: self.last,
            made: self.made,
        })
    }
}
