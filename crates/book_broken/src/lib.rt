//! Which rule a book breaks that is not sound: `broken_rule` names the rule that is broken at a key at which
//! `book_state_check` finds a state unsound, and `BrokenRule` has the words for a person. The rules are the tests of
//! `book_sound`; here stand their names. It takes no memory but for a voided transaction, which is brought back to be
//! checked; so what may stand once is compared with each thing of its table.
#![tactic(auto)]

mod accounts;
mod bindings;
mod broken;
mod commodities;
mod first;
mod head;
mod lines;
mod prices;
mod reconciliations;
mod rule;
mod schedules;
mod statements;
mod transactions;

pub use broken::broken_rule;
pub use first::{Broken, first_broken_rule};
pub use rule::BrokenRule;
