//! Runs that meet no fault. The laws in `proofs/CompleteLaws` say of every keeper, input and output: with words of the
//! grammar, rows that open, an input within the limits and counts of faults that do not rise, a run of the program is
//! complete. It ends by Done, with all that its words ask for, or by Memory. `NoFailSource`, `NoFailSink` and
//! `NoFailKeeper` are objects in memory whose counts can't rise, and `run_sure` is the program's call over them.
#![tactic(auto)]

mod no_fail_keeper;
mod no_fail_sink;
mod no_fail_source;
#[cfg(test)]
mod row_one;
mod sure;

pub use no_fail_keeper::NoFailKeeper;
pub use no_fail_sink::NoFailSink;
pub use no_fail_source::NoFailSource;
pub use sure::run_sure;
