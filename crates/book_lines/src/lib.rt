//! The line loop of a book: it cuts an input into lines, has a machine answer each line that is not blank, and writes
//! the answers, one line each. It knows no command and no answer but the two for a line that the machine could not
//! answer; what was written for which lines is a clause of `run` over the machine's own meaning of an answer.
//! `run_whole` has the whole input answered as one line. Public are these two with their `RunEnd`, the `LineRoom` that
//! they read into, and the trait `Machine` with `Unanswered`.
#![tactic(auto)]

mod answer;
mod line;
mod machine;
mod piece;
mod reading;
mod room;
mod running;
mod whole;

pub use machine::{KEEPER, MEMORY, Machine, Unanswered};
pub use room::LineRoom;
pub use running::{RunEnd, run};
pub use whole::run_whole;
