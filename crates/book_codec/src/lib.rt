//! Values as bytes. `Field` has the two directions, spelling a value and reading it back, and says of both what the
//! bytes of a value are; each word of the rows of a book has it here: numbers, truth values, texts, days, what may be
//! absent, lists and pairs. `write_whole` and `read_whole` are for a body: the byte of its format, one value, and
//! nothing behind it.
#![tactic(auto)]

mod day;
mod error;
mod field;
mod flag;
mod many;
mod number;
mod optional;
mod pair;
mod text;
mod whole;

pub use error::DecodeError;
pub use field::Field;
pub use whole::{behind_format, read_whole, write_whole};
