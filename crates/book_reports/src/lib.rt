//! The reports on a book as texts, for a person or as comma-separated values: the trial balance, the balance sheet, the
//! report of income and expenses, the register and the lots of an account (GnuCash Manual, reports). Public are
//! `trial`, `sheet`, `income`, `register_text` and `lots_text`, `gains`, `Form`, and `View`, the book with its
//! registers that they read.
#![tactic(auto)]

mod balance_sheet;
mod form;
mod income_report;
mod layout;
mod lines;
mod lots_report;
mod period;
mod register_report;
mod section;
mod sums;
mod trial_balance;
mod view;

pub use balance_sheet::sheet;
pub use form::Form;
pub use income_report::income;
pub use lots_report::{gains, lots_text};
pub use register_report::register_text;
pub use trial_balance::trial;
pub use view::View;
