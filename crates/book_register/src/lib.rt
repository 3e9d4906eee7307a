//! The register of an account: its splits in the order of day, transaction and place, with running balances (GnuCash
//! Concepts Guide, account registers; the order among splits of one day is this project's own). Public are `Entry` with
//! its `Mark2`, `Balances`, and `Register`, which keeps the entries in chunks with sums, so that a change or a balance
//! doesn't pass over all entries.
#![tactic(auto)]

mod balances;
mod entry;
mod key;
mod register;

pub use balances::Balances;
pub use entry::{Entry, Mark2};
pub use register::Register;
