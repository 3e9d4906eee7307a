//! The limit of the amounts of splits, in one place. The amounts of statement lines have one of their own, which is
//! `LARGEST_AMOUNT` of `book_statement`.
#![tactic(auto)]

/// The largest size of a split's value and of its quantity, in smallest units: a limit of this project. A book has at
/// most 1,000,000 splits, so that their amounts sum to at most 10^19, and a count of units fits in 64 bits. The words of
/// `book_broken` and the pages spell it out.
pub const LARGEST_SPLIT_AMOUNT: u64 = 10_000_000_000_000;
