//! The check of a state that was read: of its head, of its book, and of its steps back and forth. `first_unsound_key`
//! gives the first key at which the rule of its kind is broken, which is asked in this order. Where there is none, the
//! state is sound with all its steps, and as it was.
#![tactic(auto)]

mod state_check;

pub use state_check::first_unsound_key;
