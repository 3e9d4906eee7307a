use book_commodity::{Day, Text};

/// By what a line of a statement is known when its file is imported again: its account, what it says without value
/// day, category and parts, and its ordinal among the lines of its statement that are equal in all this.
#[derive(Drop)]
pub struct LineKey {
    pub account: u64,
    pub day: Day,
    pub amount: i64,
    pub kind: Text,
    pub ref_own: Text,
    pub ref_bank: Text,
    pub text: Text,
    pub ordinal: u64,
}
