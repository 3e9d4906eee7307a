use crate::StatementLine;
use book_commodity::{Day, Many, Text};

/// A bank statement as a file has it. Amounts are in smallest units of the currency.
#[derive(Drop)]
pub struct Statement {
    /// What the file calls the account.
    pub account_text: Text,
    /// In MT940 the statement number of the field 28, in BAI2 the file identification; empty in QIF.
    pub number: Text,
    /// The code of the currency.
    pub currency: Text,
    /// The opening balance; `None` where the file gives none.
    pub opening: Option<i64>,
    /// The closing balance; `None` where the file gives none, as in QIF.
    pub closing: Option<i64>,
    /// In MT940 the date of the closing balance, in BAI2 the as-of date of the group, in QIF the latest day among the
    /// records of the section.
    pub day: Day,
    /// Whether the opening balance and the lines sum to the closing balance; `None` where a balance is missing.
    pub ties: Option<bool>,
    /// In the order of the file.
    pub lines: Many<StatementLine>,
}
