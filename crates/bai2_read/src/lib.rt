//! Bank statements in BAI2, the cash management balance reporting format of the Bank Administration Institute.
//! `read_bai2` gives the statements of a file, one for each account, or the first line at which the file is broken and
//! what is wrong there. An accepted file is a tree (`specs/Tree.antt`) that keeps the rules of `specs/TreeRules.antt`;
//! the fault of another file is that of `reading` in `specs/Reading.antt`.
#![tactic(auto)]

mod amounts;
mod checks;
mod context;
mod days;
mod details;
mod extent;
mod fields;
mod funds;
mod kind;
mod lines;
mod pending;
mod reader;
mod reading;
mod statements;
mod summaries;
mod sums;
mod tally;
mod texts;

pub use reading::read_bai2;
