//! The free splits of a book, those that a line of a bank statement may be matched with: they are new or cleared, and no
//! line is matched with them (GnuCash Manual, import matcher). They are kept beside the book, by account and amount,
//! and changed by what an edit changes, so that a match of an account's lines finds them without all transactions.
//! `FreeSplits` is what is kept, and `Moves` what becomes of it by an edit.
#![tactic(auto)]

mod collecting;
mod kept;
mod moves;
mod opening;
mod seen;

pub use kept::FreeSplits;
pub use moves::{Move, Moves};
