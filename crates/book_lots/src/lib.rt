//! The lots of a security account, first in first out: which bought units were sold with which, the gain of each such
//! pair, and what is open. Units that are sold before they are bought make short lots. Public are `Pair`, `OpenLot`,
//! and `Lots`, which reckons a register's entries in their order and can forget the last of them. Contracts see of
//! `Lots` the entries that were reckoned and the work that it took; all that it tells is a function of these entries.
#![tactic(auto)]

mod lots;
mod mark;
mod open_lot;
mod pair;
mod reckoning;
mod side;
mod stretch;

pub use lots::Lots;
pub use open_lot::OpenLot;
pub use pair::Pair;
