ghost use Rattle.std.specs.Prelude.{◌≡◌, ◌≤◌};
ghost use Rattle.gate_rows.specs.Comparing.{CountsUnless};

use crate::comparing::Case;
use crate::page::Page;
use crate::report::Report;
use crate::script::Line;
use std::io;

/// Says how many commands a page has, and how many answers stand in its tables.
pub fn say_page(report: &Report<'_>, file: &str, session: &str, page: &Page<'_>) -> io::Result<()> {
    let (count, more) = (page.commands.len(), page.in_tables.len());
    let line = format!(in report.alloc();
        "{file}: {count} commands of {session}, {more} answers of tables"
    )?;
    report.say(line.as_str())
}

/// Compares each command and its answer with those of a session.
pub fn check_pairs(
    report: &mut Report<'_>,
    file: &str,
    page: &Page<'_>,
    commands: &str,
    answers: &str,
) -> io::Result<()>
    ensures later { report.old.failed ≤ report.new.failed }
{
    let case = Case {
        file,
        name: "commands",
    };
    if page.commands.len() != page.answers.len() {
        report.fail(case.at(1), "an answer for each command", "more or less")?;
    }
    for (command, answer) in page.commands.iter().zip(page.answers.as_slice()) {
        let mut pairs = commands.lines().zip(answers.lines());
        if !pairs.any(|(line, answered)| line == command.text && answered == answer.text) {
            report.fail(
                case.at(command.number),
                "a line of the session and its answer",
                command.text,
            )?;
        }
    }
    Ok(())
}

/// Compares each answer of the page's tables with those of a session.
pub fn check_tables(
    report: &mut Report<'_>,
    file: &str,
    page: &Page<'_>,
    answers: &str,
) -> io::Result<()>
    ensures later { report.old.failed ≤ report.new.failed }
{
    let case = Case {
        file,
        name: "tables",
    };
    for answer in page.in_tables.as_slice() {
        if !answers.lines().any(|line| line == answer.text) {
            report.fail(
                case.at(answer.number),
                "an answer of the session",
                answer.text,
            )?;
        }
    }
    Ok(())
}

/// Compares a line of a page.
pub fn check_line(
    report: &mut Report<'_>,
    case: Case<'_>,
    shown: Line<'_>,
    wanted: &str,
) -> io::Result<()>
    ensures later { report.old.failed ≤ report.new.failed }
    ensures counted { CountsUnless (shown.entry.text.now ≡ wanted.now) report.old.failed report.new.failed }
{
    if shown.text == wanted {
        return Ok(());
    }
    report.fail(case.at(shown.number), wanted, shown.text)
}
