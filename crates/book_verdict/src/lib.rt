//! What is said of a file that `book` refuses, for a person: what it is, and what to do next. `FileFault` has the
//! words for what is no book or can't be used, `fault_of_head` tells two of them from the first bytes and the length
//! of the file, and `unread_row_text` and `unsound_row_text` name the row at which a book is damaged.
#![tactic(auto)]

mod fault;
mod head;
mod rows;

pub use fault::FileFault;
pub use head::{HEAD, fault_of_head};
pub use rows::{unread_row_text, unsound_row_text};
