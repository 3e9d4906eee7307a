//! Rows open as one machine at most. Here stand lemmas alone: bytes that begin with the spelling of a value begin with
//! that of no other, so a row stands for one record, and all rows for one state.
#![tactic(auto)]
