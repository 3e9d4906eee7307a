ghost use Rattle.std.specs.Prelude.{◌≡◌, IfOk};

use book_commodity::{Day, OutOfMemory, Text};

/// A statement that is kept in the book, without its lines: the account of the book, what the file calls the account,
/// the statement's number, its balances in smallest units of the account's commodity, its day, and whether its opening
/// balance and its lines sum to its closing balance.
#[derive(Drop)]
pub struct Held {
    pub account: u64,
    pub account_text: Text,
    pub number: Text,
    pub opening: Option<i64>,
    pub closing: Option<i64>,
    pub day: Day,
    pub ties: Option<bool>,
}

impl Held {
    /// An equal statement.
    pub fn copy(&self) -> Result<Held, OutOfMemory>
        ensures { IfOk result (λ copy. copy ≡ self.now) }
    {
        Ok(Held {
            account: self.account,
            account_text: self.account_text.copy()?,
            number: self.number.copy()?,
            opening: self.opening,
            closing: self.closing,
            day: self.day,
            ties: self.ties,
        })
    }
}
