//! The rows of the gate: runs of the program, pages, books that are opened again, standard streams and statement files.
//! Each row stands in a file beside the program, and `gate.txt` lists the files. The program makes what each row says,
//! compares what comes with what the row wants, and says for each file how many rows it has. A row that fails is said on
//! standard output and on standard error; then the program goes on, and ends with 1.
#![tactic(auto)]

mod case;
mod each;
mod links;
mod making;
mod pages;
mod store;
mod streams;

use crate::case::{check_runs, check_wrong};
use crate::pages::{check_commands, check_example, check_page, check_readme};
use crate::streams::check_streams;
use gate_rows::{Place, Report, check_files};
use std::io;
use std::io::ErrorKind;
use std::process::ExitCode;

/// Does what one line of the list asks.
fn check(report: &mut Report<'_>, line: &str) -> io::Result<()> {
    let (mark, rest) = line.split_once(' ').unwrap_or((line, ""));
    match mark {
        "page" => check_page(report, rest),
        "runs" => check_runs(report, rest),
        "wrong" => check_wrong(report, rest),
        "files" => check_files(report, rest),
        _ => check_words(report, mark, rest),
    }
}

/// Does what one line of the list asks, which names several files.
fn check_words(report: &mut Report<'_>, mark: &str, rest: &str) -> io::Result<()> {
    let words: Vec<&str> = rest.split(' ').collect(report.alloc())?;
    match (mark, words.as_slice()) {
        ("commands", [file, session]) => check_commands(report, file, session),
        ("example", [file, answers]) => check_example(report, file, answers),
        ("readme", [file, salary, month]) => check_readme(report, file, salary, month),
        ("streams", [file, lines, answers]) => check_streams(report, file, lines, answers),
        _ => Err(io::Error::from(ErrorKind::InvalidInput)),
    }
}

/// Does what each line of the list asks. A line that can't be done is a row that fails.
fn check_all(report: &mut Report<'_>, list: &str) -> io::Result<()> {
    for (place, line) in list.lines().enumerate() {
        let number = place.saturating_add(1);
        if let Err(error) = check(report, line) {
            let place = Place {
                file: "gate.txt",
                line: number,
                name: line,
            };
            let came = format!(in report.alloc(); "{:?}", error.kind())?;
            report.fail(place, "rows that can be read", came.as_str())?;
        }
    }
    Ok(())
}

/// Compares all rows. Whether none failed.
fn compare_all(rt: &HostRuntime) -> io::Result<bool> {
    let mut report = Report::new(rt);
    let list = report.read("gate.txt")?;
    check_all(&mut report, list.as_str())?;
    Ok(report.has_no_failure())
}

fn main(rt: HostRuntime) -> ExitCode {
    match compare_all(&rt) {
        Ok(true) => ExitCode::SUCCESS,
        _ => ExitCode::from(1),
    }
}
