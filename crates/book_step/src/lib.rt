//! The step that each change of a book takes. In `specs/` stands what such a command comes to, family by family, and
//! the state that it is asked in; `step_of` reports what it comes to in a book, and changes nothing. `check_version`
//! asks of any command whether it is for the present version. `rate_answer` answers what a commodity is worth on a
//! day, `due_answer` which days of the schedules are due, `lines_answer` and `statements_answer` what the bank
//! statements of an account are, `recons_answer` what its reconciliations are, and `voided_answer` which of its splits are
//! voided. The types of commands, answers and rules come from `book_command`. Public are these, `Step`, `step_of`,
//! `check_version` and the six functions that answer.
#![tactic(auto)]

mod account_edit;
mod accounts;
mod auto_matching;
mod bank_lines;
mod bank_questions;
mod bindings;
mod bound_statements;
mod clearing;
mod commodities;
mod dismissing;
mod due_schedules;
mod edited_splits;
mod editing;
mod importing;
mod in_use;
mod line_adding;
mod line_matching;
mod marking;
mod matchable;
mod pairing;
mod posting;
mod present;
mod prices;
mod reconciling;
mod same_transaction;
mod schedule_runs;
mod schedules;
mod split_search;
mod statement_files;
mod step;
mod voided_splits;
mod voiding;

pub use bank_questions::{lines_answer, statements_answer};
pub use book_command::{
    Answer, Command, DueDay, GivenAccount, GivenOther, GivenSchedule, GivenSplit, GivenTxn,
    HeldShown, LineShown, ReconShown, Refusal, Rule, Update, VoidedShown, What,
};
pub use due_schedules::due_answer;
pub use prices::rate_answer;
pub use reconciling::recons_answer;
pub use step::{Step, check_version, step_of};
pub use voided_splits::voided_answer;
