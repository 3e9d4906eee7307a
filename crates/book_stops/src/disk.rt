use sqlite::Files;
use sqlite_disk::{Crash, Disk, Fuse, Memory};
use std::alloc::Global;
use std::io;

/// Two files in memory that fail from a call on.
pub(crate) type FusedFiles = Files<Fuse<Memory>>;

/// How many calls each file passes on before it fails.
#[derive(Clone, Copy)]
pub(crate) struct Fuses {
    log: u64,
    book: u64,
}

impl Fuses {
    /// No call fails.
    pub(crate) fn none() -> Fuses {
        Fuses {
            log: u64::MAX,
            book: u64::MAX,
        }
    }

    /// The log, or else the book, fails after so many calls.
    pub(crate) fn of(is_log: bool, calls: u64) -> Fuses {
        if is_log {
            Fuses {
                log: calls,
                book: u64::MAX,
            }
        } else {
            Fuses {
                log: u64::MAX,
                book: calls,
            }
        }
    }
}

/// What becomes of the writes that were not synced.
#[derive(Clone, Copy)]
pub(crate) enum Ending {
    /// They are lost, as where the machine stops.
    Lost,
    /// They stay, as where the program is killed.
    Kept,
}

/// A file in memory with these bytes, which is on the disk, and which fails after so many calls.
fn file_of(alloc: Global, bytes: &[u8], calls: u64) -> io::Result<Fuse<Memory>> {
    let mut file = Memory::new(alloc);
    if !bytes.is_empty() && file.may_be_used() {
        file.write_at(0, bytes)?;
    }
    if file.may_be_used() {
        file.sync()?;
    }
    Ok(Fuse::new(file, calls))
}

/// Two files with these bytes, which are on the disk, and with these fuses.
fn files_of(alloc: Global, log: &[u8], book: &[u8], fuses: Fuses) -> io::Result<FusedFiles> {
    Ok(Files {
        log: file_of(alloc, log, fuses.log)?,
        db: file_of(alloc, book, fuses.book)?,
    })
}

/// The files that a run begins with: an empty log, and the book with these bytes.
pub(crate) fn first_files(alloc: Global, book: &[u8], fuses: Fuses) -> io::Result<FusedFiles> {
    files_of(alloc, &[], book, fuses)
}

/// The files as the next run finds them, whose calls don't fail. Each call gives files of their own.
pub(crate) fn next_files(
    alloc: Global,
    files: &mut FusedFiles,
    ending: Ending,
) -> io::Result<FusedFiles> {
    if let Ending::Lost = ending {
        files.log.crash();
        files.db.crash();
    }
    let log = files.log.inner().bytes();
    let book = files.db.inner().bytes();
    files_of(alloc, log, book, Fuses::none())
}
