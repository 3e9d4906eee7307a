//! The ledger of a book: the register of each of its accounts, kept beside the book and changed by the leaves of each
//! edit, so that a balance or a report doesn't pass over all transactions (GnuCash Concepts Guide, account registers).
//! Beside each register stand lots, which are reckoned from its first rows and forgotten from the first row on that
//! changes. Public is `Registers`.
#![tactic(auto)]

mod apply;
mod opening;
mod page;
mod registers;
mod room;
mod row;

pub use registers::Registers;
