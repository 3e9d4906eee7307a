//! The whole book as a plain-text journal that ledger and hledger read: its commodities, its accounts with their paths,
//! its prices, and its transactions by day with the marks of their splits. Amounts are exact decimal numbers, and where
//! a split's account holds another commodity than the transaction's currency, its value is the cost of its quantity.
//! `export` writes it to a sink, one piece after another. The text is stated as a function of the book; what each name,
//! text and amount becomes is a definition of its own.
#![tactic(auto)]

mod error;
mod journal;
mod names;
mod order;
mod path;
mod posting;
mod prices;
mod symbols;
mod texts;
mod transactions;
mod writing;

pub use error::ExportError;
pub use journal::export;
