//! The lines that the book answers: to an accepted command, to one that would break a rule, and to a line that is no
//! command. Each is one line of JSON without blanks, its members in the byte order of their names, and its bytes are
//! stated in `specs/`. Public are `answer_text`, `rule_text`, `wire_text` and `too_long_text`.
#![tactic(auto)]

mod accounts;
mod answers;
mod commodities;
mod fields;
mod history;
mod posting;
mod prices;
mod reconciliations;
mod refused;
mod reports;
mod rules;
mod schedules;
mod shown;
mod statement_faults;
mod statements;
mod voiding;
mod words;

pub use answers::answer_text;
pub use refused::{too_long_text, wire_text};
pub use rules::rule_text;
