//! Transactions and their splits. A transaction moves value among accounts: each split gives one account
//! a value, in the transaction's currency, and a quantity, in the account's commodity, and the values of
//! a transaction sum to zero (GnuCash Concepts Guide, the accounting equation and double entry). `check_txn`
//! reports the first rule that a transaction breaks, and `Txns` is the table of a book's transactions.
#![tactic(auto)]

mod account_splits;
mod check;
mod reconciliation;
mod rule;
mod split;
mod transaction;
mod transactions;
mod void;

pub use account_splits::has_splits;
pub use check::check_txn;
pub use reconciliation::{MarkedSplit, Recon};
pub use rule::TxnRule;
pub use split::{Mark, Split};
pub use transaction::Txn;
pub use transactions::Txns;
pub use void::{KeptSplit, Void};
