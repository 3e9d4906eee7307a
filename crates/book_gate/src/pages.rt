use crate::making::made_in_memory;
use gate_rows::{
    Case, Line, Report, Run, check_line, check_pairs, check_tables, compare, no_rows, page_of,
    say_page,
};
use std::alloc::{AllocError, Global};
use std::{io, str};

/// The first two commands that the README shows. Their lines are made as one run here.
const RUNS: [&str; 2] = [
    "./book run household.book < examples/salary.jsonl\n",
    "echo '{\"do\":\"status\"}' | ./book run household.book\n",
];

const STATUS: &str = "{\"do\":\"status\"}";

/// A run of these commands, one a line, that wants these answers.
fn run_of(alloc: Global, commands: &str, answers: &[Line<'_>]) -> io::Result<Run> {
    let mut run = Run::new(alloc, 1)?;
    run.input.extend_from_slice(commands.as_bytes())?;
    for answer in answers {
        run.wanted
            .add_answer(alloc, answer.text, true, answer.number)?;
    }
    Ok(run)
}

/// The lines in one text.
fn joined(alloc: Global, lines: &[Line<'_>]) -> Result<String, AllocError> {
    let mut text = String::new(alloc);
    for line in lines {
        text.push_str(line.text)?;
        text.push('\n')?;
    }
    Ok(text)
}

/// The answers to the commands, from a fresh book on.
fn answers_to(alloc: Global, commands: &str) -> io::Result<String> {
    let run = run_of(alloc, commands, &[])?;
    let (outcome, _) = made_in_memory(alloc, &run, no_rows(alloc), run.input.as_slice(), None)?;
    let text = str::from_utf8(outcome.output.written()).unwrap_or("");
    Ok(String::from_str(alloc, text)?)
}

/// The lines of a text, with their numbers.
fn lines_of<'a>(alloc: Global, text: &'a str) -> Result<Vec<Line<'a>>, AllocError> {
    let mut lines = Vec::new(alloc);
    for (place, text) in text.lines().enumerate() {
        let number = place.saturating_add(1);
        lines.push(Line { number, text })?;
    }
    Ok(lines)
}

/// Makes a run of the commands, and compares the answers, which stand in a file.
fn check_session(
    report: &mut Report<'_>,
    file: &str,
    commands: &str,
    answers: &[Line<'_>],
) -> io::Result<()> {
    let alloc = report.alloc();
    let run = run_of(alloc, commands, answers)?;
    let (outcome, keeper) = made_in_memory(
        alloc,
        &run,
        no_rows(alloc),
        run.input.as_slice(),
        None,
    )?;
    let case = Case {
        file,
        name: "answers",
    };
    compare(report, case, &run, &outcome, Some(keeper.rows()))
}

/// Compares the answers of a page whose commands, from its first to its last, are one run.
pub(crate) fn check_page(report: &mut Report<'_>, file: &str) -> io::Result<()> {
    let text = report.read(file)?;
    let page = page_of(report.alloc(), text.as_str())?;
    let commands = joined(report.alloc(), page.commands.as_slice())?;
    check_session(report, file, commands.as_str(), page.answers.as_slice())?;
    report.say_count(file, page.commands.len() as u64, "commands")
}

/// Compares the answers to the commands of an example with its file of answers.
pub(crate) fn check_example(report: &mut Report<'_>, file: &str, answers: &str) -> io::Result<()> {
    let commands = report.read(file)?;
    let text = report.read(answers)?;
    let lines = lines_of(report.alloc(), text.as_str())?;
    check_session(report, answers, commands.as_str(), lines.as_slice())?;
    let count = commands.as_str().lines().count() as u64;
    report.say_count(file, count, "commands")
}

/// Compares a page of which each command stands in a session, with its answer, and so does each answer of its tables.
pub(crate) fn check_commands(report: &mut Report<'_>, file: &str, session: &str) -> io::Result<()> {
    let text = report.read(file)?;
    let page = page_of(report.alloc(), text.as_str())?;
    let commands = report.read(session)?;
    let answers = answers_to(report.alloc(), commands.as_str())?;
    check_pairs(report, file, &page, commands.as_str(), answers.as_str())?;
    check_tables(report, file, &page, answers.as_str())?;
    say_page(report, file, session, &page)
}

/// Compares what the README shows: the answers to the salary, then the status of the same book, and then the last
/// command of the month with its answer.
pub(crate) fn check_readme(
    report: &mut Report<'_>,
    file: &str,
    salary: &str,
    month: &str,
) -> io::Result<()> {
    let text = report.read(file)?;
    let page = page_of(report.alloc(), text.as_str())?;
    let case = Case {
        file,
        name: "readme",
    };
    for run in RUNS {
        if !text.as_str().contains(run) {
            report.fail(case.at(1), run, "none")?;
        }
    }
    let last = page.answers.len().saturating_sub(1);
    let (first, month_answer) = page.answers.as_slice().split_at(last);
    let mut commands = report.read(salary)?;
    commands.push_str(STATUS)?;
    check_session(report, file, commands.as_str(), first)?;
    check_last(report, case, month, page.commands.as_slice(), month_answer)?;
    let line = format!(in report.alloc(); "{file}: the last command of {month}, and {salary}")?;
    report.say(line.as_str())
}

/// Compares the page's one command and its answer with the last of a file of commands.
fn check_last(
    report: &mut Report<'_>,
    case: Case<'_>,
    month: &str,
    commands: &[Line<'_>],
    answers: &[Line<'_>],
) -> io::Result<()> {
    let ([command], [answer]) = (commands, answers) else {
        return report.fail(case.at(1), "one command and its answer", "more or less");
    };
    let lines = report.read(month)?;
    let answered = answers_to(report.alloc(), lines.as_str())?;
    check_line(report, case, *command, last_line(lines.as_str()))?;
    check_line(report, case, *answer, last_line(answered.as_str()))
}

/// The last line of a text; empty where there is none.
fn last_line(text: &str) -> &str {
    text.lines().last().unwrap_or("")
}
