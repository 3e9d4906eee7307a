ghost use Rattle.std.specs.Prelude.{IfOk, IsTrue, List};
ghost use Rattle.sqlite.specs.Files.{over_files};
ghost use Rattle.sqlite.specs.WalFiles.{image_at};
ghost use Rattle.book_keeper.specs.declared.row.Row.{Row};
ghost use Rattle.book_sqlite.specs.KeeperInSqlite.{HoldsRows, is_sure};
ghost use Rattle.book_sqlite.specs.NewFiles.{HoldNothing};
ghost use Rattle.book_files.specs.FileRows.{BeginsWith};

use crate::beside::folder_of;
use book_copy::{CopyError, copy_rows};
use book_keeper::{KeepError, Keeper};
use book_sqlite::FileKeeper;
use sqlite::{Start, Unknown};
use std::fs::{File, OpenOptions};
use std::io::ErrorKind;
use std::os::unix::fs::OpenOptionsExt;
use std::{fs, io};

/// How many bytes a log has at most that holds no commit.
const EMPTY_LOG: u64 = 41;

/// Why a copy of a book was not made. Nothing stands at its path then, unless something did before.
#[derive(Clone, Copy, Debug, PartialEq, Eq)]
pub enum FileCopyError {
    /// Something is at the path of the copy, or a log beside it.
    TargetThere,
    /// Something is at the path of the part that is written first, as where a copy was stopped or is being made.
    PartThere,
    /// The rows were not copied.
    Rows(CopyError),
    /// The file of the copy failed.
    File,
    /// The program is out of memory.
    OutOfMemory,
}

/// Copies all rows of the book in a file into another file; with the keepers over both as they were left. The book's
/// rows stay, and those of the copy are exactly these. `T` and `U` stand for what the files and their logs held before.
/// It is proved for all of them, so it holds of any file that is new.
fn copy_in<T: Start, U: Start>(
    rt: &HostRuntime,
    from: &str,
    to: &str,
    start: T,
    other: U,
) -> (Result<FileKeeper<U>, CopyError>, FileKeeper<T>)
    ensures rows { IsTrue (is_sure over_files result.1) → (rows : List Row)
        → BeginsWith (image_at T.Start) rows → HoldsRows over_files result.1 rows }
    ensures copied { IfOk result.0 (λ copy. IsTrue (is_sure over_files result.1) → IsTrue (is_sure over_files copy)
        → (rows : List Row) → BeginsWith (image_at T.Start) rows → HoldNothing (image_at U.Start)
        → HoldsRows over_files copy rows) }
{
    let mut source = FileKeeper::at(rt, Some(from), start);
    if let Err(error) = source.open(from) {
        return (Err(unread(error)), source);
    }
    let mut target = FileKeeper::at(rt, Some(to), other);
    match copy_rows(rt.alloc(), &mut source, &mut target) {
        Ok(()) => (Ok(target), source),
        Err(error) => (Err(error), source),
    }
}

/// Why no row was copied of a book that can't be opened.
fn unread(error: KeepError) -> CopyError {
    match error {
        KeepError::Failed => CopyError::Source,
        KeepError::OutOfMemory => CopyError::OutOfMemory,
    }
}

/// Makes a whole copy of the book in a file, its log included, at a path where nothing is. It is made at the path with
/// `.part` behind, and gets its own in the end, so a run that is stopped leaves no part of a copy at the path itself.
/// TargetThere: something is there, or a log. PartThere: something is where the part comes. Rows: the book can't be
/// opened or read, or the part can't be written. File: the copy could not be closed or get its path. OutOfMemory: the
/// program is.
pub fn copy_file(rt: &HostRuntime, from: &str, to: &str) -> Result<(), FileCopyError> {
    let (Ok(log), Ok(part), Ok(part_log)) = (
        format!(in rt.alloc(); "{to}-wal"),
        format!(in rt.alloc(); "{to}.part"),
        format!(in rt.alloc(); "{to}.part-wal"),
    ) else {
        return Err(FileCopyError::OutOfMemory);
    };
    if is_there(rt, to) || is_there(rt, log.as_str()) {
        return Err(FileCopyError::TargetThere);
    }
    if is_there(rt, part_log.as_str()) {
        return Err(FileCopyError::PartThere);
    }
    begin(rt, part.as_str())?;
    let made = copy_through(rt, from, part.as_str(), part_log.as_str(), to);
    if made.is_err() {
        let _ = fs::remove_file(rt, part.as_str());
        let _ = fs::remove_file(rt, part_log.as_str());
    }
    made
}

/// Makes the part, without bytes, where nothing is at its path. Its user alone may read it until it gets the rights of
/// the book.
fn begin(rt: &HostRuntime, part: &str) -> Result<(), FileCopyError> {
    let made = OpenOptions::new()
        .write(true)
        .create_new(true)
        .mode(0o600)
        .open(rt, part);
    match made {
        Ok(file) => {
            drop(file);
            Ok(())
        }
        Err(error) if error.kind() == ErrorKind::AlreadyExists => Err(FileCopyError::PartThere),
        Err(_) => Err(FileCopyError::File),
    }
}

/// Whether something is at a path, or that can't be seen.
fn is_there(rt: &HostRuntime, path: &str) -> bool {
    match fs::symlink_metadata(rt, path) {
        Ok(_) => true,
        Err(error) => error.kind() != ErrorKind::NotFound,
    }
}

/// Makes the copy at the path of its part, and gives it its own path.
fn copy_through(
    rt: &HostRuntime,
    from: &str,
    part: &str,
    part_log: &str,
    to: &str,
) -> Result<(), FileCopyError> {
    let (copied, source) = copy_in(rt, from, part, Unknown, Unknown);
    drop(source);
    let copy = match copied {
        Ok(copy) => copy,
        Err(error) => return Err(FileCopyError::Rows(error)),
    };
    // The copy is closed, so that its file alone has the rows.
    if copy.close().is_err() {
        return Err(FileCopyError::File);
    }
    match given(rt, from, part, part_log, to) {
        Ok(()) => Ok(()),
        Err(_) => Err(FileCopyError::File),
    }
}

/// Gives a file that is closed and has its rows alone the rights of the book and its own path. It waits for the disk
/// before that, and asks it to keep the new path behind that, which not each file system does.
fn given(rt: &HostRuntime, from: &str, part: &str, part_log: &str, to: &str) -> io::Result<()> {
    remove_log(rt, part_log)?;
    fs::set_permissions(rt, part, fs::metadata(rt, from)?.permissions())?;
    File::open(rt, part)?.sync_all()?;
    let folder = File::open(rt, folder_of(to))?;
    fs::rename(rt, part, to)?;
    drop(folder.sync_all());
    Ok(())
}

/// Removes the log of a file that is closed. An error where it holds more than its head: then the file lacks rows.
fn remove_log(rt: &HostRuntime, log: &str) -> io::Result<()> {
    if !is_there(rt, log) {
        return Ok(());
    }
    if fs::metadata(rt, log)?.len() > EMPTY_LOG {
        return Err(io::Error::other("the log holds rows"));
    }
    fs::remove_file(rt, log)
}
