//! What a book has, as texts for a person or as comma-separated values, with the numbers by which commands name
//! things: its accounts and their registers, its commodities, prices and schedules, its journal, the transactions in
//! which a text stands, the command that changes a transaction, and how much of each kind there is. `PresentBook` is
//! the sound book that they are texts of, with its registers. Each text is stated as a function of the book or, as the
//! journal, as the one text of which its definition holds.
#![tactic(auto)]

mod account;
mod accounts;
mod check;
mod command;
mod commodities;
mod days;
mod find;
mod journal;
mod order;
mod present;
mod schedules;

pub use account::account_text;
pub use accounts::accounts_text;
pub use check::check_text;
pub use command::command_text;
pub use commodities::{commodities_text, prices_text};
pub use days::Days;
pub use find::found_text;
pub use journal::journal_text;
pub use present::PresentBook;
pub use schedules::schedules_text;
