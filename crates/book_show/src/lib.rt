//! What the present book of a keeper's rows has: `open_book` opens it, `asked_of` reads the words of a program, and
//! `show` writes the answer to them, a text of `book_listings` or the whole book as a journal for ledger and hledger,
//! from a keeper's rows, which stay as they are.
#![tactic(auto)]

mod opening;
mod question;
mod showing;
mod words;
mod writing;

pub use opening::{BookError, Opened, open_book};
pub use question::Question;
pub use showing::{ShowError, show};
pub use words::{Asked, asked_of, names_book};
