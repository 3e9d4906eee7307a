//! Bank statements: what a statement file says, what the book keeps of it, and by what its lines are known again.
//! `Held`, `Line` with its `LineState`, and `Binding` are what a book keeps. `as_text` makes
//! a text of a file's bytes and `keys_of` gives the keys of a statement's lines. The parts that the readers of
//! statement files share stand here too: lines, digits, amounts, dates, currencies and joined texts.
#![tactic(auto)]

mod bad;
mod binding;
mod count_of;
mod currencies;
mod dates;
mod fault;
mod held;
mod keys;
mod level;
mod line;
mod line_key;
mod line_state;
mod lines;
mod numbers;
mod part;
mod pieces;
mod read_error;
mod statement;
mod statement_line;
mod texts;

pub use bad::Bad;
pub use binding::Binding;
pub use count_of::CountOf;
pub use currencies::fraction_of;
pub use dates::{day_of_date, short_date, year_of_two};
pub use fault::StatementFault;
pub use held::Held;
pub use keys::keys_of;
pub use level::Level;
pub use line::Line;
pub use line_key::LineKey;
pub use line_state::LineState;
pub use lines::next_line;
pub use numbers::{LARGEST_AMOUNT, has_digits, number, units_of};
pub use part::Part;
pub use pieces::{after_chars, first_chars, text_before, text_behind};
pub use read_error::ReadError;
pub use statement::Statement;
pub use statement_line::StatementLine;
pub use texts::{add_piece, as_text};

/// The most lines that a statement of a file has.
pub const MAX_LINES: u64 = 10_000;

/// The most statements that a file has.
pub const MAX_STATEMENTS: u64 = 1_000;
