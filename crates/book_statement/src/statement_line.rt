ghost use Rattle.std.specs.Prelude.{◌≡◌, IfOk};

use crate::Part;
use book_commodity::{Day, Many, OutOfMemory, Text};

/// One line of a statement. The amount is in smallest units of the statement's currency: positive for money that comes
/// into the account, negative for money that leaves it.
#[derive(Drop)]
pub struct StatementLine {
    /// The day on which the bank booked the line: in MT940 the entry date, or else the value date; in BAI2 the as-of
    /// date of the group; in QIF the date of the record.
    pub day: Day,
    /// The day from which the bank reckons interest: in MT940 the value date; in BAI2 the date of funds type V; where
    /// that is missing, and in QIF, the day.
    pub value_day: Day,
    pub amount: i64,
    /// The type of the transaction, in the format's own code; empty in QIF.
    pub kind: Text,
    /// The reference of the account's owner: in BAI2 the customer reference, in QIF the number.
    pub ref_own: Text,
    /// The reference of the bank; empty in QIF.
    pub ref_bank: Text,
    /// What the line is for, in words.
    pub text: Text,
    /// The category of QIF; empty in other formats.
    pub category: Text,
    /// The parts into which a QIF record divides its amount; none in other formats.
    pub parts: Many<Part>,
}

impl StatementLine {
    /// An equal line.
    pub fn copy(&self) -> Result<StatementLine, OutOfMemory>
        ensures { IfOk result (λ copy. copy ≡ self.now) }
    {
        let kind = self.kind.copy()?.into_string();
        let mut parts = Many::new(*kind.allocator());
        for part in self.parts.as_slice() {
            parts.push(part.copy()?)?;
        }
        Ok(StatementLine {
            day: self.day,
            value_day: self.value_day,
            amount: self.amount,
            kind: Text::of(kind),
            ref_own: self.ref_own.copy()?,
            ref_bank: self.ref_bank.copy()?,
            text: self.text.copy()?,
            category: self.category.copy()?,
            parts,
        })
    }
}
