//! The day for which a schedule posts next: the first of the days of its recurrences that is still to be made, however
//! far it lies ahead. Public is `next_day`.
#![tactic(auto)]

mod coming;

pub use coming::next_day;
