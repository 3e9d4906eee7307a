//! Runs of the program that are stopped because a file of the book fails, over a disk in memory. Each line of
//! `stops.rows` is a row, `START LINES FILE ENDING BEFORE AFTER`; one without text, or that begins with `#`, is none.
//!
//! - START is the file of the book that the run begins with, or `-`: then the files are empty, and the table of rows is
//!   made in them before the lines.
//! - LINES is the file of the lines, or `-`: there are none.
//! - FILE is `log` or `book`: the file whose calls fail from a call on. The row's run is made once for each call of it.
//! - ENDING is `lost` or `kept`: what becomes of the writes that were not synced.
//! - BEFORE and AFTER are how many of these runs leave the rows before the commit that was stopped, and those after it.
//!
//! Without a START they are the rows in memory after the lines that were answered as done, and after one more. A run
//! from a START makes one commit: they are the rows of START, and those that the whole run leaves in memory. Where it
//! said that all was done, only the rows after it count. A book of row format 1 is such a START: the run without lines
//! writes all of its rows in format 2, as one commit.
//!
//! No run may leave other rows. And a next run over the same files, in which no call fails, has to go on: it is given
//! the lines that the book does not have yet, and leaves the rows after all lines. A run where it does not is counted
//! among the others, and its row fails.
//!
//! The program compares what comes with what each row wants, and says for each row how many stops there were. A row
//! that fails is said on standard output and on standard error; then the program goes on, and ends with 1.
#![tactic(auto)]

mod disk;
mod making;
mod start;
mod stop;
mod stops;

use crate::stops::check_stops;
use gate_rows::{Case, Report};
use std::io;
use std::process::ExitCode;

/// The file of the rows.
const ROWS: &str = "stops.rows";

/// Makes each row, and compares. A row that can't be made is one that fails.
fn check_all(report: &mut Report<'_>, rows: &str) -> io::Result<()> {
    for (place, line) in rows.lines().enumerate() {
        if line.is_empty() || line.starts_with('#') {
            continue;
        }
        let case = Case {
            file: ROWS,
            name: line,
        };
        let place = case.at(place.saturating_add(1));
        if let Err(error) = check_stops(report, place, line) {
            let came = format!(in report.alloc(); "{:?}", error.kind())?;
            report.fail(place, "a row that can be made", came.as_str())?;
        }
    }
    Ok(())
}

/// Compares all rows. Whether none failed.
fn compare_all(rt: &HostRuntime) -> io::Result<bool> {
    let mut report = Report::new(rt);
    let rows = report.read(ROWS)?;
    check_all(&mut report, rows.as_str())?;
    Ok(report.has_no_failure())
}

fn main(rt: HostRuntime) -> ExitCode {
    match compare_all(&rt) {
        Ok(true) => ExitCode::SUCCESS,
        _ => ExitCode::from(1),
    }
}
