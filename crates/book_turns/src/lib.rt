//! The turns of a state that is kept with its steps. A change of the book, `undo` and `redo` each lead to the next
//! state and keep the edit that leads back or forth, and come to the rows that change with it. It begins with the fresh
//! book; `Turn::of` reckons the head of the next state, once; `row_changes` makes the changes of rows, that of the head
//! among them; and `make_turn` makes the next state, gives it the head, and can't fail. Public are these, `Way`,
//! `fresh_book` and its `FIRST_NUMBER`.
#![tactic(auto)]

mod changes;
mod fresh;
mod head;
mod turn;

pub use changes::row_changes;
pub use fresh::{FIRST_NUMBER, fresh_book};
pub use turn::{Turn, Way, make_turn};
