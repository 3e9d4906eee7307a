ghost use Rattle.std.specs.Prelude.{◌≡◌};
ghost use Rattle.book_verdict.specs.Words.{words_on};

/// What is wrong with a file that is no book, or can't be used.
#[derive(Clone, Copy, Debug, PartialEq, Eq)]
pub enum FileFault {
    /// Nothing is at the path.
    Missing,
    /// The file is missing or empty, and its log stands alone.
    LogAlone,
    /// The file has no bytes.
    Empty,
    /// It is a SQLite database without a table.
    NoTable,
    /// It is a folder.
    Folder,
    /// It is a device, a pipe or a socket.
    NoFile,
    /// It may not be read and written.
    NoRight,
    /// It is on a disk that can only be read.
    ReadOnlyDisk,
    /// It has another name too.
    SecondName,
    /// A rollback journal stands beside it.
    Journal,
    /// Another program has it open.
    InUse,
    /// It is no SQLite database.
    NoDatabase,
    /// It has fewer bytes than its first page says.
    CutShort,
    /// It is a SQLite database whose pages don't fit together.
    Damaged,
    /// It is a SQLite database with other things in it than a book.
    OtherDatabase,
    /// The disk or the system failed.
    Failed,
}

impl FileFault {
    /// The words for a person: what the file is, and what to do next. Each line ends by a line feed.
    #[tactic(auto, unfolding(crate::specs::Words::words_on))]
    pub fn words(self) -> &'static str
        ensures { result.now ≡ words_on self }
    {
        match self {
            FileFault::Missing => {
                "There is no file at this path.\n\
                Look for the book under another name, or in another folder.\n"
            }
            FileFault::LogAlone => {
                "The file is missing or empty, but its log stands there and may hold changes, as where the book was\n\
                renamed after a run was killed.\n\
                Give the file its old name again, and run `book` over it once. If its file is gone, or you want a new\n\
                book under this name, move the log away.\n"
            }
            FileFault::Empty => {
                "The file is empty: no book was kept in it.\n\
                Look for the book under another name; a run of `book` over this file begins a new one.\n"
            }
            FileFault::NoTable => {
                "The file is a SQLite database without a table: no book was kept in it.\n\
                Look for the book under another name; a run of `book` over this file begins a new one.\n"
            }
            FileFault::Folder => {
                "This is a folder.\n\
                Name the file of the book that is in it.\n"
            }
            FileFault::NoFile => {
                "This is no file on a disk, but a device, a pipe or a socket.\n\
                Name the file of the book.\n"
            }
            FileFault::NoRight => {
                "You are not allowed to read and write the file, its log or its folder.\n\
                Ask whoever owns them, or change their rights; a copy that belongs to you can be opened too.\n"
            }
            FileFault::ReadOnlyDisk => {
                "The file is on a disk that can only be read, and a book is opened for writing, also where nothing is\n\
                written.\n\
                Copy the file, and its log if there is one, to another disk, and use the copy.\n"
            }
            FileFault::SecondName => {
                "The file has a second name, a hard link, and a book has one name.\n\
                Remove the other name, or use a copy of the file.\n"
            }
            FileFault::Journal => {
                "A rollback journal stands beside the file, its name with `-journal` behind: another program was\n\
                stopped as it wrote.\n\
                Open the file once with `sqlite3`, which undoes what was half written, and try again.\n"
            }
            FileFault::InUse => {
                "Another run, or another program such as `sqlite3`, has the file open.\n\
                End it, and try again.\n"
            }
            FileFault::NoDatabase => {
                "The file is no SQLite database, so it is no book.\n\
                Look for the book under another name. If it was here, the file was overwritten: use your last copy.\n"
            }
            FileFault::CutShort => {
                "The file is cut short: it has fewer bytes than its first page says.\n\
                Use your last copy.\n"
            }
            FileFault::Damaged => {
                "The file is a SQLite database, but a damaged one: its pages don't fit together, or not with the log\n\
                beside it, the file of the same name with `-wal` behind.\n\
                Save both elsewhere before any program opens them. If the log may be that of another book, move it\n\
                away and check again; else use your last copy, where no log is beside it.\n"
            }
            FileFault::OtherDatabase => {
                "The file is a SQLite database, but no book: it has other tables, an index, a trigger, or a row that\n\
                is none of a book.\n\
                It belongs to another program, or someone added these: then drop them. On a saved copy of the file\n\
                `sqlite3 COPY .schema` shows what it has.\n"
            }
            FileFault::Failed => {
                "The file could not be read: the disk or the system failed.\n\
                Try again; if it fails again, copy the file to another disk, or use your last copy.\n"
            }
        }
    }
}
