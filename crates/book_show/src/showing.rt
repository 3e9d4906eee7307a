ghost use Rattle.std.specs.Prelude.{◌≡◌, List, IsTrue, OnOk, Err};
ghost use Rattle.book_keeper.specs.Faults.{Rose};
ghost use Rattle.book_keeper.specs.declared.row.Row.{Row};
ghost use Rattle.book_show.specs.Opening.{HasBookCause, OpenedAs};
ghost use Rattle.book_show.specs.Shown.{Answers, HasAnswered, HasFault, HasShown};

use crate::Question;
use crate::opening::{BookError, Opened, open_book};
use crate::writing::{write_found, write_journal, write_text};
use book_keeper::{KeepError, Keeper, Sink};
use book_listings::{
    account_text, accounts_text, check_text, command_text, commodities_text, found_text,
    journal_text, prices_text, schedules_text,
};
use book_reports::Form;
use std::alloc::Global;

/// Why nothing is shown, or not all.
#[derive(Clone, Copy, Debug, PartialEq, Eq)]
pub enum ShowError {
    /// The book has nothing of the number that is asked for.
    Unknown,
    /// The book can't be opened.
    Open(BookError),
    /// The program is out of memory.
    OutOfMemory,
    /// The output failed.
    Output,
}

/// Writes the answer to a question on the book that the keeper has at a path. The keeper commits nothing: its rows are
/// as before, whatever is answered. An answer is written whole, the exported book one piece after another.
/// Open: the book can't be opened, and nothing was written; where the keeper failed, its count of faults rose.
/// Unknown: the book has nothing of the number that is asked for, and nothing was written. OutOfMemory: what was
/// written is the front of the answer, perhaps nothing. Output: the output failed; a part was written, and not all.
pub fn show<K: Keeper, O: Sink>(
    alloc: Global,
    keeper: &mut K,
    path: &str,
    question: &Question,
    form: Form,
    output: &mut O,
) -> Result<(), ShowError>
    ensures sure { IsTrue (K.sure keeper.new) → IsTrue (K.sure keeper.old) }
    ensures rows { IsTrue (K.sure keeper.new) → (rows : List Row) → K.holds keeper.old rows → K.holds keeper.new rows }
    ensures shown { IsTrue (K.sure keeper.new) → (rows : List Row) → K.holds keeper.old rows
        → HasShown (O.written output.old) (O.written output.new) rows question.now form result }
    ensures path { OnOk result (K.path_given keeper.new ≡ path.now) }
    ensures fault { result ≡ Err (ShowError.Open BookError.Keeper)
        → Rose (K.faults keeper.old) (K.faults keeper.new) }
    ensures output_faults { HasFault (O.faults output.old) (O.faults output.new) result }
{
    match open_at(alloc, keeper, path) {
        Ok(opened) => write_answer(alloc, &opened, question, form, output),
        Err(error) => Err(ShowError::Open(error)),
    }
}

/// The present book that the keeper has at a path, with its version.
fn open_at<K: Keeper>(alloc: Global, keeper: &mut K, path: &str) -> Result<Opened, BookError>
    ensures sure { IsTrue (K.sure keeper.new) → IsTrue (K.sure keeper.old) }
    ensures rows { IsTrue (K.sure keeper.new) → (rows : List Row) → K.holds keeper.old rows → K.holds keeper.new rows }
    ensures opened { IsTrue (K.sure keeper.new) → (rows : List Row) → K.holds keeper.old rows → OpenedAs rows result }
    ensures path { OnOk result (K.path_given keeper.new ≡ path.now) }
    ensures cause { HasBookCause (K.faults keeper.old) (K.faults keeper.new) result }
{
    match keeper.open(path) {
        Ok(()) => open_book(alloc, keeper),
        Err(KeepError::Failed) => Err(BookError::Keeper),
        Err(KeepError::OutOfMemory) => Err(BookError::OutOfMemory),
    }
}

/// Writes the answer of a book to a question.
/// Unknown: it has nothing of the number that is asked for. OutOfMemory: the program is out of memory. Output: the
/// output failed.
fn write_answer<O: Sink>(
    alloc: Global,
    opened: &Opened,
    question: &Question,
    form: Form,
    output: &mut O,
) -> Result<(), ShowError>
    ensures written { HasAnswered (O.written output.old) (O.written output.new) (Answers opened.now question.now form)
        result }
    ensures faults { HasFault (O.faults output.old) (O.faults output.new) result }
{
    let book = &opened.book;
    match question {
        Question::Accounts => write_text(output, accounts_text(alloc, book, form)),
        Question::Commodities => write_text(output, commodities_text(alloc, book, form)),
        Question::Prices => write_text(output, prices_text(alloc, book, form)),
        Question::Schedules => write_text(output, schedules_text(alloc, book, form)),
        Question::Journal(days) => write_text(output, journal_text(alloc, book, days, form)),
        Question::Account(number) => write_found(output, account_text(alloc, book, *number, form)),
        Question::Find(sought) => {
            write_text(output, found_text(alloc, book, sought.as_str(), form))
        }
        Question::Command(number) => write_found(output, command_text(alloc, book, *number)),
        Question::Export => write_journal(alloc, book, output),
        Question::Check => write_text(output, check_text(alloc, book, opened.version)),
    }
}
