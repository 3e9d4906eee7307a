use book_commodity::discard;
use book_engine::Engine;
use book_keeper::MemKeeper;
use book_wire::command_of;
use gate_rows::{Case, Line, Report, Section, no_rows, number, sections_of, unread};
use std::alloc::Global;
use std::io;

/// Compares how much work the registers, the lots and the index of an engine took, and says how many rows there are.
pub(crate) fn check_work(report: &mut Report<'_>, file: &str) -> io::Result<()> {
    let text = report.read(file)?;
    let sections = sections_of(report.alloc(), text.as_str())?;
    let mut rows: u64 = 0;
    for section in sections.as_slice() {
        if section.is_case {
            rows = rows.saturating_add(check_case(report, file, section)?);
        }
    }
    report.say_count(file, rows, "rows")
}

/// Has an engine over a keeper without rows do the lines of a case, and compares the work that is asked for between
/// them. How many rows that were.
fn check_case(report: &mut Report<'_>, file: &str, section: &Section<'_>) -> io::Result<u64> {
    let name = section.name;
    let case = Case { file, name };
    let mut keeper = no_rows(report.alloc());
    match Engine::open(report.alloc(), &mut keeper) {
        Ok(mut engine) => {
            let lines = section.lines.as_slice();
            let rows = check_lines(report, case, &mut engine, &mut keeper, lines);
            discard(engine, rows)
        }
        Err(_) => no_book(report, case, section.number),
    }
}

/// Says that no book was opened.
fn no_book(report: &mut Report<'_>, case: Case<'_>, line: usize) -> io::Result<u64> {
    report.fail(case.at(line), "a book that opens", "none")?;
    Ok(0)
}

/// Has the engine do the lines, and compares the work that is asked for between them. How many rows that were.
fn check_lines(
    report: &mut Report<'_>,
    case: Case<'_>,
    engine: &mut Engine,
    keeper: &mut MemKeeper,
    lines: &[Line<'_>],
) -> io::Result<u64> {
    let mut rows: u64 = 0;
    for line in lines {
        if line.text.starts_with('>') {
            do_line(report, case, engine, keeper, *line)?;
        } else {
            compare_work(report, case, engine, *line)?;
            rows = rows.saturating_add(1);
        }
    }
    Ok(rows)
}

/// Has the engine do a line.
fn do_line(
    report: &mut Report<'_>,
    case: Case<'_>,
    engine: &mut Engine,
    keeper: &mut MemKeeper,
    line: Line<'_>,
) -> io::Result<()> {
    let text = line.text.strip_prefix("> ").unwrap_or("");
    if act(report.alloc(), engine, keeper, text) {
        return Ok(());
    }
    report.fail(case.at(line.number), "a line that is done", "a refusal")
}

/// Has the engine do what a line asks. Whether it is done.
fn act(alloc: Global, engine: &mut Engine, keeper: &mut MemKeeper, line: &str) -> bool {
    match command_of(alloc, line.as_bytes()) {
        Ok(command) => engine.act(keeper, command).is_ok(),
        Err(_) => false,
    }
}

/// Compares the work of a register, of lots or of the index of free splits with what a line says:
/// `register ACCOUNT CHANGES ROWS`, `lots ACCOUNT RECKONED ROWS`, or `free ACCOUNT AMOUNT CHANGES SPLITS`.
fn compare_work(
    report: &mut Report<'_>,
    case: Case<'_>,
    engine: &Engine,
    line: Line<'_>,
) -> io::Result<()> {
    let (work, wanted) = asked_for(report.alloc(), engine, line.text)?;
    let Some((work, rows)) = work else {
        return report.fail(case.at(line.number), wanted, "none");
    };
    let came = format!(in report.alloc(); "{work} {rows}")?;
    if came.as_str() == wanted {
        return Ok(());
    }
    report.fail(case.at(line.number), wanted, came.as_str())
}

/// The work that a line asks for, if there is such a thing, and what the line wants of it.
fn asked_for<'a>(
    alloc: Global,
    engine: &Engine,
    text: &'a str,
) -> io::Result<(Option<(u64, usize)>, &'a str)> {
    let (mark, rest) = text.split_once(' ').unwrap_or((text, ""));
    let (account, wanted) = rest.split_once(' ').unwrap_or((rest, ""));
    let account = number(account)?;
    match mark {
        "free" => {
            let (amount, wanted) = wanted.split_once(' ').unwrap_or((wanted, ""));
            Ok((free_work(alloc, engine, account, amount), wanted))
        }
        "lots" => Ok((lots_work(engine, account), wanted)),
        "register" => Ok((register_work(engine, account), wanted)),
        _ => Err(unread()),
    }
}

/// How often the index of free splits was changed, and how many it has of an account with an amount.
fn free_work(alloc: Global, engine: &Engine, account: u64, amount: &str) -> Option<(u64, usize)> {
    let Ok(amount) = amount.parse::<i64>() else {
        return None;
    };
    let free = engine.free();
    match free.of(alloc, account, amount) {
        Ok(splits) => Some((free.changes(), splits.len())),
        Err(_) => None,
    }
}

/// Of the lots of an account, how many rows were reckoned so far and how many are now.
fn lots_work(engine: &Engine, account: u64) -> Option<(u64, usize)> {
    engine
        .lots(account)
        .map(|lots| (lots.work(), lots.reckoned()))
}

/// Of the register of an account, how often it was changed, and how many rows it has.
fn register_work(engine: &Engine, account: u64) -> Option<(u64, usize)> {
    engine
        .register(account)
        .map(|register| (register.changes(), register.len()))
}
