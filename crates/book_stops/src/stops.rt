use crate::disk::{Ending, Fuses};
use crate::start::{Found, Start, kept};
use crate::stop::{found_after, rows_at_first};
use gate_rows::{Place, Report, number, unread};
use std::alloc::{AllocError, Global};
use std::io::ErrorKind;
use std::{fs, io};

/// A bound on the calls of a run.
const MOST_CALLS: u64 = 1_000;

/// How many runs ended with the rows before the commit that was stopped, with those after it, and with others.
#[derive(Clone, Copy)]
struct Counts {
    before: u64,
    after: u64,
    others: u64,
}

impl Counts {
    /// As a report says them.
    fn text(self, alloc: Global) -> Result<String, AllocError> {
        let Counts {
            before,
            after,
            others,
        } = self;
        format!(in alloc; "before {before}, after {after}, others {others}")
    }

    /// Whether they are these, and no others.
    fn are(self, before: u64, after: u64) -> bool {
        self.before == before && self.after == after && self.others == 0
    }

    /// How many runs there were.
    fn sum(self) -> u64 {
        let known = self.before.saturating_add(self.after);
        known.saturating_add(self.others)
    }
}

/// Whether the file whose calls fail is the log, or else the book, by its word.
fn is_log(word: &str) -> io::Result<bool> {
    match word {
        "log" => Ok(true),
        "book" => Ok(false),
        _ => Err(unread()),
    }
}

/// What becomes of the writes that were not synced, by its word.
fn ending_of(word: &str) -> io::Result<Ending> {
    match word {
        "lost" => Ok(Ending::Lost),
        "kept" => Ok(Ending::Kept),
        _ => Err(unread()),
    }
}

/// The file whose calls fail, and what becomes of the writes that were not synced.
#[derive(Clone, Copy)]
struct Stop {
    is_log: bool,
    ending: Ending,
}

/// Stops runs at each call of the file, until a run is not stopped.
fn counts_of(alloc: Global, stop: Stop, start: Start<'_>) -> io::Result<Counts> {
    let mut counts = Counts {
        before: 0,
        after: 0,
        others: 0,
    };
    for calls in 0..MOST_CALLS {
        match found_after(alloc, Fuses::of(stop.is_log, calls), stop.ending, start)? {
            Found::Before => counts.before = counts.before.saturating_add(1),
            Found::After => counts.after = counts.after.saturating_add(1),
            Found::Other => counts.others = counts.others.saturating_add(1),
            Found::All => return Ok(counts),
        }
    }
    Err(io::Error::from(ErrorKind::TimedOut))
}

/// The bytes of the file that a word names, or none where it is `-`.
fn bytes_at(report: &Report<'_>, name: &str) -> io::Result<Vec<u8>> {
    if name == "-" {
        return Ok(Vec::new(report.alloc()));
    }
    fs::read(report.rt(), name)
}

/// The text of the file that a word names, or none where it is `-`.
fn text_at(report: &Report<'_>, name: &str) -> io::Result<String> {
    if name == "-" {
        return Ok(String::new(report.alloc()));
    }
    report.read(name)
}

/// Stops the runs of a file of lines over a file of a book.
fn counts_from(report: &Report<'_>, book: &str, lines: &str, stop: Stop) -> io::Result<Counts> {
    let alloc = report.alloc();
    let book = bytes_at(report, book)?;
    let text = text_at(report, lines)?;
    let lines: Vec<&str> = text.as_str().lines().collect(alloc)?;
    let Some(rows) = rows_at_first(alloc, book.as_slice())? else {
        return Err(unread());
    };
    let held = kept(alloc, rows.as_slice())?;
    let start = Start {
        book: book.as_slice(),
        held: &held,
        lines: lines.as_slice(),
    };
    counts_of(alloc, stop, start)
}

/// Makes the runs of a row, and compares how many ended in each way; says how many stops there were.
pub(crate) fn check_stops(report: &mut Report<'_>, place: Place<'_>, row: &str) -> io::Result<()> {
    let words: Vec<&str> = row.split(' ').collect(report.alloc())?;
    let [book, lines, file, ending, before, after] = words.as_slice() else {
        return Err(unread());
    };
    let stop = Stop {
        is_log: is_log(file)?,
        ending: ending_of(ending)?,
    };
    let (before, after) = (number(before)?, number(after)?);
    let counts = counts_from(report, book, lines, stop)?;
    if !counts.are(before, after) {
        fail(report, place, counts)?;
    }
    let count = counts.sum();
    let line = format!(in report.alloc(); "{book} {lines} {file} {ending}: {count} stops")?;
    report.say(line.as_str())
}

/// Says that the runs of a row ended otherwise.
fn fail(report: &mut Report<'_>, place: Place<'_>, counts: Counts) -> io::Result<()> {
    let came = counts.text(report.alloc())?;
    report.fail(place, "the row's numbers, and no others", came.as_str())
}
