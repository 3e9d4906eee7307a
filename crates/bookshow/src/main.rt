//! The program `bookshow`: `bookshow BOOK WORD ..` shows what the book in a file has, with the numbers by which
//! commands name things. It reads the file through the keeper that `book` writes it by, and commits nothing: the rows
//! of the file stay as they are, whatever the words. A log may be left beside the file, as by each run over it.
//! `bookshow BOOK check` also says what is wrong with a file that is no sound book, and `bookshow BOOK copy TO` makes a
//! copy of a book.
#![tactic(auto)]

mod copying;
mod ended;
mod watched;

ghost use Rattle.std.specs.Prelude.{◌≡◌, List, IfOk, IsTrue, OnOk};
ghost use Rattle.sqlite.specs.Files.{over_files};
ghost use Rattle.sqlite.specs.WalFiles.{image_at};
ghost use Rattle.book_keeper.specs.declared.row.Row.{Row};
ghost use Rattle.book_sqlite.specs.KeeperInSqlite.{HoldsRows, is_sure};
ghost use Rattle.book_show.specs.Shown.{HasFault, HasShown};
ghost use Rattle.bookshow.specs.CheckedRows.{row_text};
ghost use Rattle.book_files.specs.FileRows.{BeginsWith};

use crate::copying::copy_of;
use crate::ended::Ended;
use crate::watched::Watched;
use book_broken::Broken;
use book_commodity::{OutOfMemory, Text};
use book_copy::CopyError;
use book_files::{FileCopyError, copy_file, fault_before, fault_behind};
use book_keeper::{Sink, StreamSink};
use book_show::{Asked, BookError, Question, ShowError, asked_of, show};
use book_sqlite::FileKeeper;
use book_verdict::{unread_row_text, unsound_row_text};
use sqlite::{Start, Unknown};
use std::alloc::Global;
use std::io::Write;
use std::{env, fs, io};

/// What `--help` shows.
const HELP: &str = "usage: bookshow BOOK WORD .. [--csv]

Shows what the book in the file BOOK has, and changes nothing in it. WORD .. is one of

  accounts            the accounts, with their numbers and balances
  commodities         the commodities, with their numbers
  prices              the prices, with their numbers
  schedules           the schedules, with their numbers, next days and ends
  journal             all transactions by day, with their splits
  journal FROM TO     those from one day to another, as 2024-01-31
  account NUMBER      the register of an account, with the other side of each split
  find TEXT           the transactions with TEXT in num, description, a memo or
                      the reason for which they were voided
  command NUMBER      the line `edit` of a transaction as it stands; of a voided
                      one `unvoid`, and then `edit` with what it had
  export              the whole book, as a journal for ledger and hledger
  check               what is wrong with the file, or how much a sound book has
  copy TO             makes a copy of the book at the path TO

--csv, the last word, asks for comma-separated values in place of columns, but
for `command`, `export`, `check` and `copy`. The book is open, and no other run
can open it, until the last line has been read.
";

/// What `--version` shows.
const VERSION: &str = "bookshow 1\n";

/// The words behind the program's name.
fn words(rt: &HostRuntime) -> io::Result<Vec<Text>> {
    let mut words = Vec::new(rt.alloc());
    for word in env::args(rt)?.skip(1) {
        words.push(Text::of(word))?;
    }
    Ok(words)
}

/// Writes the answer to what is asked of the book in a file; with the keeper over that file as it was left. `T` stands
/// for what the file and its log held before. It is proved for every `T`, so it holds of any file: the rows stay.
fn show_in<T: Start, O: Sink>(
    rt: &HostRuntime,
    asked: &Asked,
    start: T,
    output: &mut O,
) -> (Result<(), ShowError>, FileKeeper<T>)
    ensures rows { IsTrue (is_sure over_files result.1) → (rows : List Row)
        → BeginsWith (image_at T.Start) rows → HoldsRows over_files result.1 rows }
    ensures shown { IsTrue (is_sure over_files result.1) → (rows : List Row)
        → BeginsWith (image_at T.Start) rows
        → HasShown (O.written output.old) (O.written output.new) rows asked.now.question asked.now.form result.0 }
    ensures path { OnOk result.0 (result.1.path ≡ asked.now.book.now) }
    ensures output_faults { HasFault (O.faults output.old) (O.faults output.new) result.0 }
{
    let mut keeper = FileKeeper::at(rt, Some(asked.book), start);
    let answer = show(
        rt.alloc(),
        &mut keeper,
        asked.book,
        &asked.question,
        asked.form,
        output,
    );
    (answer, keeper)
}

/// Why the file at the path is not opened, if it is not. A keeper would make one where there is none, and a table in a
/// database that has none: so those are no books. A log beside a missing one may hold a book, which only `book` may
/// take over.
fn refused(rt: &HostRuntime, path: &str) -> Option<Ended> {
    match fault_before(rt, path) {
        Ok(None) => None,
        Ok(Some(fault)) => Some(Ended::NotOpened(fault)),
        Err(OutOfMemory) => Some(Ended::Memory),
    }
}

/// The end where no keeper could open or read the file.
fn unopened(rt: &HostRuntime, path: &str) -> Ended {
    match fault_behind(rt, path) {
        Some(fault) => Ended::NotOpened(fault),
        None => Ended::Memory,
    }
}

/// Shows what is asked of the book in a file.
fn show_file(rt: &HostRuntime, asked: &Asked) -> Ended {
    if let Some(ended) = refused(rt, asked.book) {
        return ended;
    }
    let mut writer = Watched::new(io::writer(rt));
    // The keeper is not closed, since that would copy the commits of a log beside the file into it.
    let (answer, keeper) = show_in(rt, asked, Unknown, &mut StreamSink::new(&mut writer));
    drop(keeper);
    match answer {
        Ok(()) => Ended::Done,
        Err(ShowError::Open(BookError::Keeper)) => unopened(rt, asked.book),
        Err(ShowError::Output) if writer.is_closed() => Ended::Closed,
        Err(error) => Ended::of_error(error),
    }
}

/// Says what is wrong with the file of a book, and what a person does next, or how much a sound book has.
fn check_file(rt: &HostRuntime, asked: &Asked) -> Ended {
    match show_file(rt, asked) {
        Ended::Done => print_size(rt, asked.book),
        Ended::NotOpened(fault) => print(rt, fault.words(), Ended::Refused),
        ended => print_row(rt, ended),
    }
}

/// Says at which row the book is damaged, where the program ended so.
fn print_row(rt: &HostRuntime, ended: Ended) -> Ended {
    match row_text(rt.alloc(), ended) {
        Ok(Some(text)) => print(rt, text.as_str(), Ended::Damaged),
        Ok(None) => ended,
        Err(OutOfMemory) => Ended::Memory,
    }
}

/// The text on the row at which a book is damaged; None where the program ended otherwise.
fn row_text(alloc: Global, ended: Ended) -> Result<Option<Text>, OutOfMemory>
    ensures { IfOk result (λ text. text ≡ row_text ended) }
{
    match ended {
        Ended::BadRows { kind, id } => Ok(Some(unread_row_text(alloc, kind, id)?)),
        Ended::UnsoundBook(broken) => {
            let Broken { key, rule } = broken;
            Ok(Some(unsound_row_text(alloc, key.kind, key.id, rule.words())?))
        }
        _ => Ok(None),
    }
}

/// Says how long the file is.
fn print_size(rt: &HostRuntime, path: &str) -> Ended {
    let Ok(found) = fs::metadata(rt, path) else {
        return Ended::KeeperFault;
    };
    match format!(in rt.alloc(); "\nThe file has {} bytes.\n", found.len()) {
        Ok(text) => print(rt, text.as_str(), Ended::Done),
        Err(_) => Ended::Memory,
    }
}

/// Writes a text on standard output, and ends so, unless the output fails.
fn print(rt: &HostRuntime, text: &str, ended: Ended) -> Ended {
    match io::writer(rt).write_all(text.as_bytes()) {
        Ok(()) => ended,
        Err(error) => Ended::of_output(&error),
    }
}

/// Does what the words ask.
fn run(rt: &HostRuntime, words: &[Text]) -> Ended {
    match words {
        [word] if word.as_str() == "--help" => print(rt, HELP, Ended::Done),
        [word] if word.as_str() == "--version" => print(rt, VERSION, Ended::Done),
        _ => match copy_of(words) {
            Some((book, to)) => copy_book(rt, book, to),
            None => answer(rt, words),
        },
    }
}

/// Makes a copy of the book in a file.
fn copy_book(rt: &HostRuntime, book: &str, to: &str) -> Ended {
    if let Some(ended) = refused(rt, book) {
        return ended;
    }
    match copy_file(rt, book, to) {
        Ok(()) => Ended::Done,
        Err(FileCopyError::Rows(CopyError::Source)) => unopened(rt, book),
        Err(error) => Ended::of_copying(error),
    }
}

/// Answers what the words ask of a book.
fn answer(rt: &HostRuntime, words: &[Text]) -> Ended {
    match asked_of(words) {
        Ok(Some(asked)) => match asked.question {
            Question::Check => check_file(rt, &asked),
            _ => show_file(rt, &asked),
        },
        Ok(None) => Ended::Usage,
        Err(OutOfMemory) => Ended::Memory,
    }
}

fn main(rt: HostRuntime) -> Ended {
    match words(&rt) {
        Ok(words) => run(&rt, words.as_slice()),
        Err(error) => Ended::of_words(&error),
    }
}
