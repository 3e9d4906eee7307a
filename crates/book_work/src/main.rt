//! The work that an engine takes, which no answer shows. `kept.work` has lines of command, and between them rows: how
//! often a register was changed, how many rows of lots were reckoned, how often the index of the splits that may be
//! matched was changed. The program has an engine do the lines, compares the work so far with each row, and says how
//! many rows there are. A row that fails is said on standard output and on standard error; then the program goes on, and
//! ends with 1. With the words `opening COUNT` it measures instead how long a book of so many transactions takes to
//! open.
#![tactic(auto)]

mod opening;
mod work;

use crate::opening::measure;
use crate::work::check_work;
use gate_rows::Report;
use std::process::ExitCode;
use std::{env, io};

/// Compares all rows. Whether none failed.
fn compare_all(rt: &HostRuntime) -> io::Result<bool> {
    let mut report = Report::new(rt);
    check_work(&mut report, "kept.work")?;
    Ok(report.has_no_failure())
}

/// Does what the words ask.
fn do_words(rt: &HostRuntime) -> io::Result<bool> {
    let words: Vec<String> = env::args(rt)?.skip(1).collect(rt.alloc())?;
    match words.as_slice() {
        [] => compare_all(rt),
        [word, count] if word.as_str() == "opening" => measure(rt, count.as_str()),
        _ => Ok(false),
    }
}

fn main(rt: HostRuntime) -> ExitCode {
    match do_words(&rt) {
        Ok(true) => ExitCode::SUCCESS,
        _ => ExitCode::from(1),
    }
}
