//! The whole book as nine plain tables, and the edits that turn one book into another: trees of lists with leaves, of
//! which each sets the currency, puts one thing under a number or deletes one. An edit is checked against the book,
//! takes its memory before it is applied, and then can't fail; its inverse leads back to exactly the book before.
//! Public are the book as `Plain`, its things as `Thing` with their `ThingKind`, `Schedule`, `Edit` and `EditRule`.
#![tactic(auto)]

mod apply;
mod check;
mod copy;
mod edit;
mod inverse;
mod needs;
mod nesting;
mod order;
mod plain;
mod rule;
mod schedule;
mod thing;

pub use edit::Edit;
pub use plain::Plain;
pub use rule::EditRule;
pub use schedule::Schedule;
pub use thing::{Thing, ThingKind};
