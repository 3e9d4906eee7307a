use crate::links::no_ports;
use crate::making::made_in_memory;
use book_app::{Ended, Status, run_over, run_program, words_of};
use book_commodity::Text;
use gate_rows::{
    Case, Host, Reader, Report, Run, StreamRow, Unflushable, Unforgiving, Writer, first_lines,
    host_words, long_lines, no_rows, number, stream_row, unread,
};
use std::alloc::{AllocError, Global};
use std::cell::Cell;
use std::io;
use std::io::{Read, Write};
use std::process::{ExitCode, Termination};

/// The lines of the program that rows are about, and their answers.
#[derive(Clone, Copy)]
struct Lines<'a> {
    lines: &'a [u8],
    answers: &'a [u8],
}

/// Makes the rows of a file over these lines, whose answers stand in another: the numbers with which the program ends,
/// what it writes, and what it says on standard error.
pub(crate) fn check_streams(
    report: &mut Report<'_>,
    file: &str,
    lines: &str,
    answers: &str,
) -> io::Result<()> {
    let rows = report.read(file)?;
    let lines = report.read(lines)?;
    let answers = report.read(answers)?;
    let lines = Lines {
        lines: lines.as_str().as_bytes(),
        answers: answers.as_str().as_bytes(),
    };
    let mut count: u64 = 0;
    for (place, line) in rows.as_str().lines().enumerate() {
        if !line.is_empty() && !line.starts_with('#') {
            check_row(report, file, place.saturating_add(1), line, lines)?;
            count = count.saturating_add(1);
        }
    }
    report.say_count(file, count, "rows")
}

/// Makes a row, and compares.
fn check_row(
    report: &mut Report<'_>,
    file: &str,
    number: usize,
    line: &str,
    lines: Lines<'_>,
) -> io::Result<()> {
    let case = Case { file, name: line };
    match is_right(report.alloc(), line, lines) {
        Ok(true) => Ok(()),
        Ok(false) => report.fail(case.at(number), "its number, line and answers", "others"),
        Err(_) => report.fail(case.at(number), "a row that can be made", "an error"),
    }
}

/// Whether all that a row wants comes.
fn is_right(alloc: Global, line: &str, lines: Lines<'_>) -> io::Result<bool> {
    let row = stream_row(line)?;
    match row.mark {
        "words" => are_words_right(alloc, row, lines, false),
        "output" => are_words_right(alloc, row, lines, true),
        "status" => is_status_right(alloc, row),
        "read" => is_read_right(alloc, row, lines),
        "write" => is_write_right(alloc, row, lines),
        "flushes" => are_flushes_right(alloc, row),
        "flush" => is_flush_right(alloc, row, lines),
        _ => Err(unread()),
    }
}

/// The words and streams of a host, whose output may fail.
fn are_words_right(
    alloc: Global,
    row: StreamRow<'_>,
    lines: Lines<'_>,
    fails: bool,
) -> io::Result<bool> {
    let words = host_words(alloc, row.rest)?;
    let written = if row.number == 0 { lines.answers } else { &[] };
    let mut host = Host::with_words(alloc, words.as_slice(), lines.lines, written, row.said);
    if fails {
        host.break_output();
    }
    let mut keeper = no_rows(alloc);
    let mut ports = no_ports(alloc)?;
    let code = run_program(&host, words_of(&host), &mut keeper, &mut ports).report(&host);
    Ok(code == ExitCode::from(row.number) && host.is_content())
}

/// The line and the number of a status.
fn is_status_right(alloc: Global, row: StreamRow<'_>) -> io::Result<bool> {
    let host = Host::new(alloc, &[], row.said);
    let code = status_of(row.rest)?.report(&host);
    Ok(code == ExitCode::from(row.number) && host.is_content())
}

/// The status that a text names.
fn status_of(text: &str) -> io::Result<Status> {
    match text {
        "done" => Ok(Status::Done),
        "usage" => Ok(Status::Usage),
        "memory" => Ok(Status::Memory),
        "input fault" => Ok(Status::InputFault),
        "output fault" => Ok(Status::OutputFault),
        "keeper fault" => Ok(Status::KeeperFault),
        "port fault" => Ok(Status::PortFault),
        "input limit" => Ok(Status::InputLimit),
        "bad rows 4 5" => Ok(Status::BadRows { kind: 4, id: 5 }),
        "unsound book 4 5" => Ok(Status::UnsoundBook { kind: 4, id: 5 }),
        _ => Err(unread()),
    }
}

/// The words of a run.
fn words(alloc: Global) -> Result<Vec<Text>, AllocError> {
    let mut words = Vec::new(alloc);
    words.push(Text::of(String::from_str(alloc, "run")?))?;
    words.push(Text::of(String::from_str(alloc, "household.book")?))?;
    Ok(words)
}

/// How a run over this reader and this writer ends.
fn ended<R: Read + Drop, W: Write + Drop>(
    alloc: Global,
    reader: R,
    writer: W,
) -> io::Result<Ended> {
    let words = words(alloc)?;
    let mut keeper = no_rows(alloc);
    let mut ports = no_ports(alloc)?;
    let ran = run_over(
        alloc,
        words.as_slice(),
        &mut keeper,
        reader,
        writer,
        &mut ports,
    );
    Ok(ran.ended)
}

/// The number of a call.
fn call_of(row: StreamRow<'_>) -> io::Result<u32> {
    match u32::try_from(number(row.rest)?) {
        Ok(call) => Ok(call),
        Err(_) => Err(unread()),
    }
}

/// A read that fails once ends the run: no fault is hidden.
fn is_read_right(alloc: Global, row: StreamRow<'_>, lines: Lines<'_>) -> io::Result<bool> {
    let fails = call_of(row)?;
    let host = Host::new(alloc, &[], row.said);
    let taken = Cell::new(0usize);
    let reader = Reader::new(lines.lines, fails);
    let writer = Writer::new(lines.answers, 0, &taken);
    let code = ended(alloc, reader, writer)?.report(&host);
    Ok(
        code == ExitCode::from(row.number)
            && host.is_content()
            && taken.get() == answered(lines, fails).len(),
    )
}

/// The answers to the lines that are whole in the reads before the one that fails, of forty bytes each.
fn answered<'a>(lines: Lines<'a>, fails: u32) -> &'a [u8] {
    let reads = usize::try_from(fails.saturating_sub(1)).unwrap_or(usize::MAX);
    let read = lines
        .lines
        .get(..reads.saturating_mul(40))
        .unwrap_or(lines.lines);
    let count = read.iter().filter(|byte| **byte == b'\n').count();
    first_lines(lines.answers, count as u64)
}

/// Nor is a write hidden that fails once. Where none fails, all is written.
fn is_write_right(alloc: Global, row: StreamRow<'_>, lines: Lines<'_>) -> io::Result<bool> {
    let host = Host::new(alloc, &[], row.said);
    let taken = Cell::new(0usize);
    let writer = Writer::new(lines.answers, call_of(row)?, &taken);
    let code = ended(alloc, lines.lines, writer)?.report(&host);
    Ok(
        code == ExitCode::from(row.number)
            && host.is_content()
            && (taken.get() == lines.answers.len()) == (row.number == 0),
    )
}

/// Each write is flushed, however long it is.
fn are_flushes_right(alloc: Global, row: StreamRow<'_>) -> io::Result<bool> {
    let text = long_lines(alloc, row.rest)?;
    let lines = text.as_str().as_bytes();
    let host = Host::new(alloc, &[], row.said);
    let (taken, unflushed) = (Cell::new(0usize), Cell::new(0usize));
    let writer = Unforgiving::new(&taken, &unflushed);
    let code = ended(alloc, lines, writer)?.report(&host);
    let is_all = taken.get() == written(alloc, lines)? && unflushed.get() == 0;
    Ok(code == ExitCode::from(row.number) && host.is_content() && is_all)
}

/// How many bytes the answers to the lines have, from a fresh book on.
fn written(alloc: Global, lines: &[u8]) -> io::Result<usize> {
    let run = Run::new(alloc, 1)?;
    let (outcome, _) = made_in_memory(alloc, &run, no_rows(alloc), lines, None)?;
    Ok(outcome.output.written().len())
}

/// A flush that fails is a failure of the output.
fn is_flush_right(alloc: Global, row: StreamRow<'_>, lines: Lines<'_>) -> io::Result<bool> {
    let host = Host::new(alloc, &[], row.said);
    let code = ended(alloc, lines.lines, Unflushable)?.report(&host);
    Ok(code == ExitCode::from(row.number) && host.is_content())
}
