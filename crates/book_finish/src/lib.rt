//! A reconciliation of an account from the account's register, which is kept beside the book: what `book_reconcile`
//! tells from all transactions (GnuCash Manual, reconciling), without a pass over these. Public are `plan_finish_kept`;
//! `marked_transactions`, the numbers of the transactions that a reconciliation changes; and `sort_once`.
#![tactic(auto)]

mod balances;
mod finish;
mod marked;

pub use finish::plan_finish_kept;
pub use marked::{marked_transactions, sort_once};
