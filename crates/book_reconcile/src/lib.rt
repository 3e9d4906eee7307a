//! Reconciling an account with a bank statement (GnuCash Manual, reconciling): the splits that are marked cleared on or
//! before the statement's day are to become reconciled, where they account for its closing balance. `difference` tells
//! how much is missing. `plan_finish` makes the record that names the cleared splits; who applies it marks them.
//! `intact` tells whether a book still has the splits of a record as they were then.
#![tactic(auto)]

mod finish;
mod kept;
mod sums;

pub use finish::{FinishError, difference, plan_finish};
pub use kept::intact;
