//! The file of a book, as a program meets it: what is wrong with it before a keeper opens it (`fault_before`) and
//! where no keeper can (`fault_behind`), and a whole copy of it (`copy_file`). The rows of a copy are those of the
//! book, which has a clause, and each fault is one that can be found there (`shows_before`, `shows_behind`). What the
//! system says of a file, and that a run that is stopped leaves no part of a copy at its path, no clause says.
#![tactic(auto)]

mod beside;
mod copying;
mod looking;

pub use copying::{FileCopyError, copy_file};
pub use looking::{fault_before, fault_behind};
