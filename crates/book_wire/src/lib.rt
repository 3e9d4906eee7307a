//! Lines of JSON read as commands: the word of each, and its members in their order. A line is read exactly as the
//! definitions in `specs/` say. Nothing here knows the book or how it is kept. Public is
//! `command_of`; the texts that answer lines are handed on from the crates that make them.
#![tactic(auto)]

mod accounts;
mod commands;
mod commodities;
mod formats;
mod kinds;
mod line;
mod posting;
mod prices;
mod reconciliations;
mod recurrences;
mod reports;
mod schedules;
mod statements;

pub use book_command::WireError;
pub use book_lines::{KEEPER, MEMORY};
pub use book_texts::{answer_text, rule_text, wire_text};
pub use line::command_of;
