ghost use Rattle.std.specs.Prelude.{◌≡◌, IfOk};
ghost use Rattle.book_import.specs.Import.{held_of};

use book_commodity::OutOfMemory;
use book_statement::{Held, Statement};
use std::marker::Model;

/// A statement of a file, borrowed, with the account of the book that it goes to.
#[derive(Drop)]
pub struct Bound<'a> {
    pub account: u64,
    pub statement: &'a Statement,
}

impl<'a> Model for Bound<'a> {
    ghost use Rattle.book_import.specs.Import.{Bound};

    ghost Value = { Bound };

    ghost view = { λ b. record { account = b.account; statement = b.statement.now } };
}

impl<'a> Bound<'a> {
    /// What a book keeps of the statement beside its lines.
    pub(crate) fn held(&self) -> Result<Held, OutOfMemory>
        ensures { IfOk result (λ held. held ≡ held_of self.now) }
    {
        let statement = self.statement;
        Ok(Held {
            account: self.account,
            account_text: statement.account_text.copy()?,
            number: statement.number.copy()?,
            opening: statement.opening,
            closing: statement.closing,
            day: statement.day,
            ties: statement.ties,
        })
    }
}
