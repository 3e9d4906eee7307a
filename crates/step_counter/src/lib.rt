//! A counter of steps, which only contracts see. A call whose contract bounds its steps takes the counter of its
//! caller, for a ledger of any type, and adds one for each step. Public is `Steps`.
#![tactic(auto)]

mod steps;

pub use steps::Steps;
