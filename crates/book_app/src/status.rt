ghost use Rattle.std.specs.Prelude.{◌≡◌};
ghost use Rattle.book_app.specs.Numbers.{number_of, message_of, status_of, status_served, status_shown};
ghost use Rattle.book_app.specs.Numbers.{status_unopened};

use book_engine::OpenError;
use book_lines::RunEnd;
use book_sample::SampleEnd;
use book_serve::ServeEnd;

/// How the program's work ended.
#[derive(Clone, Copy, Debug, PartialEq, Eq)]
pub enum Status {
    /// The input was read to its end and all was written; for a sample, all was written; for `serve`, as many links
    /// were served as the words say, or no more came.
    Done,
    /// The words are not those of a command of the program.
    Usage,
    /// It was out of memory before the input was read or a link came; for a sample, at any time; for `serve`, also as it
    /// read a link or wrote to it.
    Memory,
    /// The input failed.
    InputFault,
    /// The output failed.
    OutputFault,
    /// The keeper failed before the input was read.
    KeeperFault,
    /// The keeper holds rows that are no rows of a book: this key is the first whose row can't be read or is missing.
    BadRows { kind: u8, id: u64 },
    /// The keeper holds the rows of a book that is not sound: this key is the first that breaks a rule.
    UnsoundBook { kind: u8, id: u64 },
    /// The ports failed to give the next link.
    PortFault,
    /// A byte follows 1,000,000 lines or 2^33 bytes; for an import, 8 MiB.
    InputLimit,
}

impl Status {
    /// The number with which the program ends.
    pub fn number(self) -> u8
        ensures { result ≡ number_of self }
    {
        match self {
            Status::Done => 0,
            Status::Usage => 2,
            Status::Memory => 3,
            Status::InputFault => 4,
            Status::OutputFault => 5,
            Status::KeeperFault => 6,
            Status::BadRows { .. } | Status::UnsoundBook { .. } => 7,
            Status::PortFault => 8,
            Status::InputLimit => 9,
        }
    }

    /// The line that the program prints on standard error at this status; empty at Done, where it prints none.
    pub fn message(self) -> &'static str
        ensures { result.now ≡ message_of self }
    {
        match self {
            Status::Done => "",
            Status::Usage => {
                "usage: book run BOOK | import BOOK FORMAT ACCOUNT CURRENCY | serve BOOK PORT LINKS | sample NUMBER"
            }
            Status::Memory => "book: out of memory",
            Status::InputFault => "book: the input failed",
            Status::OutputFault => "book: the output failed",
            Status::KeeperFault => "book: the book file failed",
            Status::BadRows { .. } | Status::UnsoundBook { .. } => "book: the book is damaged",
            Status::PortFault => "book: the port failed",
            Status::InputLimit => "book: the input is too long",
        }
    }
}

/// The status that a run of lines or an import ends with.
pub(crate) fn status_after(end: RunEnd) -> Status
    ensures { result ≡ status_of end }
{
    match end {
        RunEnd::Done => Status::Done,
        RunEnd::InputLimit => Status::InputLimit,
        RunEnd::InputFault => Status::InputFault,
        RunEnd::OutputFault => Status::OutputFault,
    }
}

/// The status of a sample that was shown.
pub(crate) fn status_shown(end: SampleEnd) -> Status
    ensures { result ≡ status_shown end }
{
    match end {
        SampleEnd::Done => Status::Done,
        SampleEnd::OutOfMemory => Status::Memory,
        SampleEnd::OutputFault => Status::OutputFault,
    }
}

/// The status of a serving of links.
pub(crate) fn status_served(end: ServeEnd) -> Status
    ensures { result ≡ status_served end }
{
    match end {
        ServeEnd::Done => Status::Done,
        ServeEnd::PortFault => Status::PortFault,
        ServeEnd::OutOfMemory => Status::Memory,
    }
}

/// The status where no book was opened.
pub(crate) fn status_unopened(error: OpenError) -> Status
    ensures { result ≡ status_unopened error }
{
    match error {
        OpenError::Keeper => Status::KeeperFault,
        OpenError::BadRows { kind, id } => Status::BadRows { kind, id },
        OpenError::UnsoundBook { kind, id } => Status::UnsoundBook { kind, id },
        OpenError::OutOfMemory => Status::Memory,
    }
}
