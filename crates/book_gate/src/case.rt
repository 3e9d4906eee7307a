use crate::store::Store;
use gate_rows::{Case, Line, Report, Run, Section, sections_of, unread};
use std::alloc::Global;
use std::io;

/// A case that is under way: the rows as the run before left them, the run as its lines have said it so far, and how
/// many runs were made.
#[derive(Drop)]
struct Progress {
    store: Store,
    run: Run,
    runs: u64,
}

/// Makes the runs of each case of a file, and says how many there are.
pub(crate) fn check_runs(report: &mut Report<'_>, file: &str) -> io::Result<()> {
    let text = report.read(file)?;
    let sections = sections_of(report.alloc(), text.as_str())?;
    let mut runs: u64 = 0;
    for section in sections.as_slice() {
        if section.is_case {
            runs = runs.saturating_add(check_case(report, file, section)?);
        }
    }
    report.say_lines(file, runs, "runs", text.as_str())
}

/// Makes the runs of each case of a file, of which each is wrong in one thing, and says how many fail, as all have to.
pub(crate) fn check_wrong(report: &mut Report<'_>, file: &str) -> io::Result<()> {
    let text = report.read(file)?;
    let sections = sections_of(report.alloc(), text.as_str())?;
    let mut cases: u64 = 0;
    for section in sections.as_slice() {
        if section.is_case {
            check_fails(report, file, section)?;
            cases = cases.saturating_add(1);
        }
    }
    report.say_count(file, cases, "cases that fail")
}

/// Makes the runs of a case that has to fail.
fn check_fails(report: &mut Report<'_>, file: &str, section: &Section<'_>) -> io::Result<()> {
    let mut silent = Report::silent(report.rt());
    check_case(&mut silent, file, section)?;
    if silent.has_no_failure() {
        let case = Case {
            file,
            name: section.name,
        };
        return report.fail(case.at(section.number), "a case that fails", "none");
    }
    Ok(())
}

/// Makes the runs of a case. How many there are. A line that can't be read ends the case as one that fails.
fn check_case(report: &mut Report<'_>, file: &str, section: &Section<'_>) -> io::Result<u64> {
    let case = Case {
        file,
        name: section.name,
    };
    let run = Run::new(report.alloc(), section.number)?;
    let mut progress = Progress {
        store: Store::new(report.alloc()),
        run,
        runs: 0,
    };
    let taken = take_all(report, case, &mut progress, section.lines.as_slice());
    let runs = progress.runs;
    drop(progress);
    if taken.is_err() {
        report.fail(
            case.at(section.number),
            "a run that can be made",
            "an error",
        )?;
    }
    Ok(runs)
}

/// Takes in the lines of a case, and makes its last run.
fn take_all(
    report: &mut Report<'_>,
    case: Case<'_>,
    progress: &mut Progress,
    lines: &[Line<'_>],
) -> io::Result<()> {
    for line in lines {
        if take(report, case, progress, *line).is_err() {
            return report.fail(case.at(line.number), "a line of a run", line.text);
        }
    }
    finish(report, case, progress)
}

/// Takes in a line of a case.
fn take(
    report: &mut Report<'_>,
    case: Case<'_>,
    progress: &mut Progress,
    line: Line<'_>,
) -> io::Result<()> {
    let alloc = report.alloc();
    let (mark, rest) = line.text.split_once(' ').unwrap_or((line.text, ""));
    if progress.store.change(report.rt(), mark, rest)? {
        return Ok(());
    }
    match mark {
        "again" => {
            finish(report, case, progress)?;
            progress.run = Run::new(alloc, line.number)?;
        }
        "over" => progress.store.choose(alloc, rest)?,
        _ => take_into(alloc, &mut progress.run, mark, rest, line.number)?,
    }
    Ok(())
}

/// Takes in a line of a run.
fn take_into(alloc: Global, run: &mut Run, mark: &str, rest: &str, line: usize) -> io::Result<()> {
    if run.take_given(alloc, mark, rest, line)? || run.wanted.take(alloc, mark, rest, line)? {
        Ok(())
    } else {
        Err(unread())
    }
}

/// Makes the run.
fn finish(report: &mut Report<'_>, case: Case<'_>, progress: &mut Progress) -> io::Result<()> {
    progress.store.check(report, case, &progress.run)?;
    progress.runs = progress.runs.saturating_add(1);
    Ok(())
}
