//! Bank statements in the format MT940 (SWIFT, customer statement message). `read_mt940` gives the statements of a
//! text, or the first line at which it breaks a rule of the format and what is wrong there. A text is a tree of
//! messages, of fields, of lines (`specs/Tree.antt`), and the rules are conditions on that tree (`specs/Reading.antt`).
#![tactic(auto)]

mod amount;
mod answer;
mod balance;
mod checks;
mod entry_date;
mod fraction;
mod kept;
mod kinds;
mod line_field;
mod lines;
mod message;
mod order;
mod page;
mod read;
mod reader;
mod slashes;
mod statements;
mod tag;
mod texts;

pub use read::read_mt940;
