//! The sample: command lines that fill a book with accounts and with posts that are drawn from a number, so that what
//! the program does with a book of some size can be tried and measured anywhere without a file of lines.
//! `show_sample` has a machine answer them and writes its last two answers, the counts of the book and its trial
//! balance.
#![tactic(auto)]

mod draw;
mod last_lines;
mod lines;
mod showing;

pub use last_lines::last_two_answers;
pub use lines::sample_lines;
pub use showing::{SampleEnd, show_sample};
