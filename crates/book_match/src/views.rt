use book_commodity::{Day, Text};

/// A line of a bank statement as far as it is matched: its number in the book, its day, its amount in smallest units,
/// and the number that the bank gave it, as that of a check; empty, where it has none.
#[derive(Drop)]
pub struct LineView {
    pub line: u64,
    pub day: Day,
    pub amount: i64,
    pub number: Text,
}

/// A split as far as it is matched: its number, the day and the number text of its transaction, and its quantity in
/// smallest units.
#[derive(Drop)]
pub struct SplitView {
    pub split: u64,
    pub day: Day,
    pub quantity: i64,
    pub num: Text,
}

/// A line with the split that it takes.
#[derive(Clone, Copy, Debug, PartialEq, Eq)]
pub struct Matched {
    pub line: u64,
    pub split: u64,
}
