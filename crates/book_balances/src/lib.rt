//! The whole step of a change: that of `book_step`, with the balances in its answer. These come from the registers that
//! are kept of the book before the step, and from what the edit gives to accounts and takes from them, so that no
//! balance is summed over all transactions. Public is `answered_step`.
#![tactic(auto)]

mod answered;
mod balances;
mod moves;

pub use answered::answered_step;
