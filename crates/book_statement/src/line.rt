ghost use Rattle.std.specs.Prelude.{◌≡◌, IfOk};

use crate::{LineState, StatementLine};
use book_commodity::OutOfMemory;

/// A statement's line in the book: the account and the statement that it belongs to, its ordinal among the lines of
/// that statement that are equal to it, what it says, and what became of it. Ordinals count from 0.
#[derive(Drop)]
pub struct Line {
    pub account: u64,
    pub statement: u64,
    pub ordinal: u64,
    pub body: StatementLine,
    pub state: LineState,
}

impl Line {
    /// An equal line.
    pub fn copy(&self) -> Result<Line, OutOfMemory>
        ensures { IfOk result (λ copy. copy ≡ self.now) }
    {
        Ok(Line {
            account: self.account,
            statement: self.statement,
            ordinal: self.ordinal,
            body: self.body.copy()?,
            state: self.state,
        })
    }
}
