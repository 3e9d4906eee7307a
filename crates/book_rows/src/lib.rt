//! The rows of a book as bytes. The head of a book's rows, each of its things, and each edit that leads a step back or
//! forth is a row: a key and a body. There are two formats, 1 and 2, which the first byte of each body tells.
//! `write_row` gives the body of a record in format 2, and `read_row` reads exactly the bodies that a format has. A
//! record has one spelling in format 2, and at most one in format 1. `write_thing` and `write_edit` give the body of a
//! thing and of an edit that are only borrowed.
#![tactic(auto)]

mod account;
mod commodity;
mod edit;
mod format;
mod head;
mod price;
mod reconciliation;
mod record;
mod rows;
mod schedule;
mod statement;
mod thing;
mod transaction;

pub use edit::write_edit;
pub use format::{RowFormat, WRITTEN_FORMAT, format_in};
pub use head::Head;
pub use record::{Record, RowError, read_row, write_row};
pub use rows::Rows;
pub use thing::{kind_byte, write_thing};
