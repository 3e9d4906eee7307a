//! The rows of a book: what a keeper holds for a state, and the state as which rows open. `read_rows` asks a keeper for
//! its rows one by one and gives exactly the state whose rows they are, or the least key at which they are bad;
//! `changes_of` gives the changes of rows that an edit comes to, `back_put`, `back_gone`, `forth_put` and `forth_gone`
//! those of the steps that are kept, and `all_rows` all rows of a state. Rows are read in either format, and written in
//! format 2.
#![tactic(auto)]

mod changes;
mod fault;
mod read;
mod saved;
mod step_changes;
mod steps;
mod thing_row;
mod whole;

pub use changes::changes_of;
pub use fault::OpenFault;
pub use read::read_rows;
pub use saved::Saved;
pub use step_changes::{back_gone, back_put, forth_gone, forth_put};
pub use whole::all_rows;
