//! The answers to the questions for reports: the rules that each of them has, and its text on the present book. A
//! report on lots is asked of a security account, whose lots have to be brought up to its register before. Public are
//! `report_answer`, `lots_asked`, which says of which account, and `is_security`.
#![tactic(auto)]

mod reports;

pub use reports::{is_security, lots_asked, report_answer};
