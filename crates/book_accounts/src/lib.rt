//! The tree of accounts: kinds, groups, names and parents, and the rules by which an account may be added or moved
//! (GnuCash Concepts Guide, accounts). Under one root stand accounts of three groups; siblings have different names,
//! and a parent and its child are in one group. Public are the kinds, `Account`, its `Tree`, and the rules of the
//! tree.
#![tactic(auto)]

mod account;
mod check;
mod children;
mod kind;
mod order;
mod path;
mod rule;
mod tree;

pub use account::Account;
pub use kind::{AccountGroup, AccountKind};
pub use rule::TreeRule;
pub use tree::Tree;
