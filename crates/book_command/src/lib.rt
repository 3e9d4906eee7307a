//! What a command asks, what an accepted command is answered, the rules that can refuse one, and why a line is no
//! command, as plain types; and the words of commands. Public are `Command` with its `What`, an `Update` of the book
//! and a `Report` on it among them, and the values given in it, `Answer` with what it shows, `Rule`, `Refusal`,
//! `WireError`, `Word` and `words`.
#![tactic(auto)]

mod answer;
mod command;
mod refusal;
mod rule;
mod wire_error;
mod word;

pub use answer::{Answer, DueDay, HeldShown, LineShown, Ratio, ReconShown, VoidedShown};
pub use command::{
    Command, Format, GivenAccount, GivenOther, GivenSchedule, GivenSplit, GivenTxn, Report, Update,
    What,
};
pub use refusal::Refusal;
pub use rule::Rule;
pub use wire_error::WireError;
pub use word::{Word, words};
