//! The texts in which a person sees what a bank statement file says, or its fault. `read_words` reads which format is
//! asked for, `answer` reads a file in it and gives the rows of its statements, or the row of its fault. `Currencies`
//! are those that a file may be in.
#![tactic(auto)]

mod answering;
mod asked;
mod currencies;
mod faults;
mod rows;

pub use answering::answer;
pub use asked::{Asked, Format, read_words};
pub use currencies::Currencies;
