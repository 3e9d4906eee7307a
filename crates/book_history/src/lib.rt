//! The steps that are kept to go back to earlier books and forth again to later ones: edits, each with its number.
//! `first_fault_back` and `first_fault_forth` give the number of the first kept step that is broken, asked outward from
//! the present book; they go along the steps on the book itself, and come back by their inverses. A step leads from a
//! sound book to a sound one where each of its single changes does by itself, and only after other steps is the book
//! checked whole. `passing` makes the changes of a step, in an order in which they do. Which do is said by `leaving`
//! and, of things that are put, by `placing`, with `marking` for the marks of splits, `restating` for lines, and
//! `losing` for the splits that lines are matched with.
#![tactic(auto)]

mod leaving;
mod losing;
mod marking;
mod passing;
mod placing;
mod restating;
mod walk;

pub use walk::{first_fault_back, first_fault_forth};
