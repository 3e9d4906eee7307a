ghost use Rattle.std.specs.Prelude.{◌≡◌};
ghost use Rattle.std.specs.Process.{exit_status};
ghost use Rattle.bookshow.specs.Ended.{end_of, end_of_copying, number_of};

use book_broken::Broken;
use book_copy::CopyError;
use book_files::FileCopyError;
use book_show::{BookError, ShowError};
use book_verdict::FileFault;
use std::io;
use std::io::ErrorKind;
use std::process::{ExitCode, Termination};

/// What the program prints where the words ask nothing.
const USAGE: &str = "bookshow: these words ask for nothing; these do:
bookshow BOOK accounts | commodities | prices | schedules | journal [FROM TO] | account NUMBER | find TEXT [--csv]
bookshow BOOK command NUMBER | export | check | copy TO
bookshow --help";

/// How the program ended.
#[derive(Clone, Copy, Debug, PartialEq, Eq)]
pub(crate) enum Ended {
    /// All was written.
    Done,
    /// The book has nothing of the number that is asked for.
    NotThere,
    /// The words ask nothing.
    Usage,
    /// It was out of memory.
    Memory,
    /// What reads the output closed it.
    Closed,
    /// The output failed.
    OutputFault,
    /// The file is no book, or can't be opened or read, for this reason.
    NotOpened(FileFault),
    /// The book's file failed, and it is not known why.
    KeeperFault,
    /// The row of this key can't be read, or is missing.
    BadRows { kind: u8, id: u64 },
    /// This is the first key at which the book is not sound, and the rule that is broken there.
    UnsoundBook(Broken),
    /// A check said that the file is no book, or can't be used.
    Refused,
    /// A check said at which row the book is damaged.
    Damaged,
    /// Something is at the path that a copy was to get, or its log is.
    TargetThere,
    /// Another copy to this path was stopped, and left a part.
    PartThere,
    /// A copy could not be written.
    CopyFailed,
}

impl Ended {
    /// The end by an error of what is shown. Whether what reads the output closed it is not seen here.
    pub(crate) fn of_error(error: ShowError) -> Ended
        ensures { result ≡ end_of error }
    {
        match error {
            ShowError::Unknown => Ended::NotThere,
            ShowError::Output => Ended::OutputFault,
            ShowError::OutOfMemory | ShowError::Open(BookError::OutOfMemory) => Ended::Memory,
            ShowError::Open(BookError::Keeper) => Ended::KeeperFault,
            ShowError::Open(BookError::BadRows { kind, id }) => Ended::BadRows { kind, id },
            ShowError::Open(BookError::UnsoundBook(broken)) => Ended::UnsoundBook(broken),
        }
    }

    /// The end where no copy was made.
    pub(crate) fn of_copying(error: FileCopyError) -> Ended
        ensures { result ≡ end_of_copying error }
    {
        match error {
            FileCopyError::TargetThere => Ended::TargetThere,
            FileCopyError::PartThere => Ended::PartThere,
            FileCopyError::Rows(CopyError::Source) => Ended::KeeperFault,
            FileCopyError::Rows(CopyError::NoBookRow { kind, id }) => Ended::BadRows { kind, id },
            FileCopyError::Rows(CopyError::Target) | FileCopyError::File => Ended::CopyFailed,
            FileCopyError::Rows(CopyError::OutOfMemory) | FileCopyError::OutOfMemory =>
                Ended::Memory,
        }
    }

    /// The end by an error of the output.
    pub(crate) fn of_output(error: &io::Error) -> Ended {
        if error.kind() == ErrorKind::BrokenPipe {
            Ended::Closed
        } else {
            Ended::OutputFault
        }
    }

    /// The end where the words could not be read: one of them is not UTF-8, or there was no memory.
    pub(crate) fn of_words(error: &io::Error) -> Ended {
        if error.kind() == ErrorKind::InvalidData {
            Ended::Usage
        } else {
            Ended::Memory
        }
    }

    /// The number with which the program ends: those of `book`, and two that `book` doesn't have, 1 and 10.
    pub(crate) fn number(self) -> u8
        ensures { result ≡ number_of self }
    {
        match self {
            Ended::Done => 0,
            Ended::NotThere => 1,
            Ended::Usage => 2,
            Ended::Memory => 3,
            Ended::Closed | Ended::OutputFault => 5,
            Ended::NotOpened(_) | Ended::KeeperFault | Ended::Refused => 6,
            Ended::BadRows { .. } | Ended::UnsoundBook(_) | Ended::Damaged => 7,
            Ended::TargetThere | Ended::PartThere | Ended::CopyFailed => 10,
        }
    }

    /// The line that the program prints on standard error; empty where it prints none.
    fn message(self) -> &'static str {
        match self {
            Ended::Done | Ended::Closed | Ended::Refused | Ended::Damaged => "",
            Ended::NotThere =>
                "bookshow: the book has no thing of the kind that was asked for under this number",
            Ended::Usage => USAGE,
            Ended::Memory => "bookshow: out of memory",
            Ended::OutputFault => "bookshow: the output failed",
            Ended::NotOpened(fault) => message_of(fault),
            Ended::KeeperFault => "bookshow: the book file failed",
            Ended::BadRows { .. } | Ended::UnsoundBook(_) => {
                "bookshow: the book is damaged; `bookshow BOOK check` says at which row"
            }
            Ended::TargetThere =>
                "bookshow: a file, a folder or a log is at the path of the copy; name a new file",
            Ended::PartThere =>
                "bookshow: TO.part is there: another copy is being made, or one was stopped; then remove it",
            Ended::CopyFailed =>
                "bookshow: the copy could not be written; look at its folder, its room and your rights",
        }
    }
}

/// The line on a file that is no book, or can't be opened or read.
fn message_of(fault: FileFault) -> &'static str {
    match fault {
        FileFault::Missing | FileFault::Empty | FileFault::NoTable => {
            "bookshow: there is no book at this path"
        }
        _ => "bookshow: the book file failed",
    }
}

impl Termination for Ended {
    /// Prints the message on standard error where there is one, behind it the words on a file that was not opened, and
    /// ends with the number.
    fn report<R: Eprint>(self, rt: &R) -> ExitCode
        ensures number { exit_status result ≡ number_of self }
    {
        let message = self.message();
        if !message.is_empty() {
            let _ = rt.eprintln(message);
        }
        if let Ended::NotOpened(fault) = self {
            let _ = rt.eprint(fault.words());
        }
        ExitCode::from(self.number())
    }
}
