ghost use Rattle.std.specs.Prelude.{◌≡◌, ◌≢◌, ◌⊎◌, Ok, IfErr, IfOk, IfSome, IsTrue};
ghost use Rattle.book_verdict.specs.Head.{fault_of_head};
ghost use Rattle.book_files.specs.Faults.{shows_before, shows_behind};

use crate::beside::{beside, folder_of};
use book_commodity::OutOfMemory;
use book_verdict::{FileFault, HEAD, fault_of_head};
use sqlite::{Connection, Error, ErrorCode};
use std::fs::{File, OpenOptions};
use std::io::{ErrorKind, Read};
use std::os::unix::fs::MetadataExt;
use std::{fs, io};

/// How many bytes a log has at least that holds a commit.
const LEAST_LOG: u64 = 568;

/// What is wrong with the file at a path, as far as it shows before a keeper opens it; None where nothing does. No row
/// is written: where the log holds a commit SQLite opens the file to see its tables, and commits nothing. A database
/// whose tables a log alone drops, and that no run has open, is not told from one with tables.
pub fn fault_before(rt: &HostRuntime, path: &str) -> Result<Option<FileFault>, OutOfMemory>
    ensures { IfOk result (λ found. IfSome found (λ fault. IsTrue (shows_before fault))) }
{
    let found = match fs::metadata(rt, path) {
        Ok(found) => found,
        Err(error) if error.kind() == ErrorKind::NotFound => {
            return without_bytes(rt, path, FileFault::Missing);
        }
        Err(error) => return Ok(Some(fault_of(&error)?)),
    };
    if found.is_dir() {
        return Ok(Some(FileFault::Folder));
    }
    if !found.is_file() {
        return Ok(Some(FileFault::NoFile));
    }
    if found.len() == 0 {
        return without_bytes(rt, path, FileFault::Empty);
    }
    if found.nlink() != 1 {
        return Ok(Some(FileFault::SecondName));
    }
    fault_in(rt, path, found.len())
}

/// The fault where the file is missing or empty: this one, unless the log stands alone.
fn without_bytes(
    rt: &HostRuntime,
    path: &str,
    fault: FileFault,
) -> Result<Option<FileFault>, OutOfMemory>
    requires { IsTrue (shows_before fault) }
    ensures { IfOk result (λ found. IfSome found (λ fault. IsTrue (shows_before fault))) }
{
    if has_commit(rt, path)? {
        Ok(Some(FileFault::LogAlone))
    } else {
        Ok(Some(fault))
    }
}

/// Whether the log beside a file may hold a commit.
fn has_commit(rt: &HostRuntime, path: &str) -> Result<bool, OutOfMemory> {
    let log = beside(rt, path, "-wal")?;
    match fs::metadata(rt, log.as_str()) {
        Ok(found) => Ok(found.len() >= LEAST_LOG),
        Err(_) => Ok(false),
    }
}

/// The fault that the bytes of a file show, or that it may not be read and written. A run that was stopped may have
/// left pages of the file to the log: where that holds a commit, the two are looked at together.
fn fault_in(rt: &HostRuntime, path: &str, length: u64) -> Result<Option<FileFault>, OutOfMemory>
    ensures { IfOk result (λ found. IfSome found (λ fault. IsTrue (shows_before fault))) }
{
    let Some(fault) = fault_of_bytes(rt, path, length)? else {
        return Ok(None);
    };
    if has_commit(rt, path)? {
        Ok(fault_with_log(rt, path))
    } else {
        Ok(Some(fault))
    }
}

/// The fault that the first bytes of a file and its length show, or that it may not be read and written.
fn fault_of_bytes(
    rt: &HostRuntime,
    path: &str,
    length: u64,
) -> Result<Option<FileFault>, OutOfMemory>
    ensures { IfOk result (λ found. IfSome found (λ fault. IsTrue (shows_before fault))) }
{
    let mut file = match OpenOptions::new().read(true).write(true).open(rt, path) {
        Ok(file) => file,
        Err(error) => return Ok(Some(fault_of(&error)?)),
    };
    let mut head = [0u8; HEAD];
    match file.read(&mut head) {
        Ok(count) => Ok(shown_by_head(&head[..count], length)),
        Err(error) => Ok(Some(fault_of(&error)?)),
    }
}

/// The fault that the first bytes of a file and its length show.
fn shown_by_head(head: &[u8], length: u64) -> Option<FileFault>
    ensures fault { result ≡ fault_of_head head.now length }
    ensures before { IfSome result (λ fault. IsTrue (shows_before fault)) }
{
    fault_of_head(head, length)
}

/// The fault of a file whose log holds a commit, where the two are a database without a table. What else is wrong with
/// them is left to the keeper, also where the file alone lists other things than a book.
fn fault_with_log(rt: &HostRuntime, path: &str) -> Option<FileFault>
    ensures { IfSome result (λ fault. IsTrue (shows_before fault)) }
{
    match Connection::open(rt, path) {
        Ok(connection) if connection.schema().tables.is_empty() => Some(FileFault::NoTable),
        Ok(_) | Err(_) => None,
    }
}

/// The fault that a failed call of the system shows.
fn fault_of(error: &io::Error) -> Result<FileFault, OutOfMemory>
    ensures before { IfOk result (λ fault. IsTrue (shows_before fault)) }
    ensures behind { IfOk result (λ fault. IsTrue (shows_behind fault)) }
{
    match error.kind() {
        ErrorKind::OutOfMemory => Err(OutOfMemory),
        kind => Ok(fault_of_kind(kind)),
    }
}

/// The fault that a call shows which failed so: Failed, where the kind is none of these.
fn fault_of_kind(kind: ErrorKind) -> FileFault
    ensures missing { (kind ≡ ErrorKind.NotFound) ⊎ (kind ≡ ErrorKind.NotADirectory) → result ≡ FileFault.Missing }
    ensures no_right { kind ≡ ErrorKind.PermissionDenied → result ≡ FileFault.NoRight }
    ensures read_only { kind ≡ ErrorKind.ReadOnlyFilesystem → result ≡ FileFault.ReadOnlyDisk }
    ensures other { kind ≢ ErrorKind.NotFound → kind ≢ ErrorKind.NotADirectory → kind ≢ ErrorKind.PermissionDenied
        → kind ≢ ErrorKind.ReadOnlyFilesystem → result ≡ FileFault.Failed }
    ensures before { IsTrue (shows_before result) }
    ensures behind { IsTrue (shows_behind result) }
{
    match kind {
        ErrorKind::NotFound | ErrorKind::NotADirectory => FileFault::Missing,
        ErrorKind::PermissionDenied => FileFault::NoRight,
        ErrorKind::ReadOnlyFilesystem => FileFault::ReadOnlyDisk,
        _ => FileFault::Failed,
    }
}

/// What is wrong with a file that no keeper could open or read: it is opened a second time, since a keeper doesn't say
/// why it failed. So what is answered is what the second opening meets: where another run let go of the file between
/// the two, it is called another database. None where the program is out of memory.
pub fn fault_behind(rt: &HostRuntime, path: &str) -> Option<FileFault>
    ensures { IfSome result (λ fault. IsTrue (shows_behind fault)) }
{
    match fault_opening(rt, path) {
        Ok(fault) => Some(fault),
        Err(OutOfMemory) => None,
    }
}

/// The fault that opening a file meets.
fn fault_opening(rt: &HostRuntime, path: &str) -> Result<FileFault, OutOfMemory>
    ensures { IfOk result (λ fault. IsTrue (shows_behind fault)) }
{
    match Connection::open(rt, path) {
        Ok(connection) => {
            drop(connection);
            Ok(FileFault::OtherDatabase)
        }
        Err(Error::SqliteFailure(ErrorCode::CannotOpen)) => unopened(rt, path),
        Err(error) => fault_of_error(error),
    }
}

/// The fault that an error of SQLite shows.
fn fault_of_error(error: Error) -> Result<FileFault, OutOfMemory>
    ensures busy { error ≡ Error.SqliteFailure ErrorCode.DatabaseBusy → result ≡ Ok FileFault.InUse }
    ensures other { error ≡ Error.SqliteFailure ErrorCode.NotADatabase → result ≡ Ok FileFault.OtherDatabase }
    ensures damaged { error ≡ Error.SqliteFailure ErrorCode.DatabaseCorrupt → result ≡ Ok FileFault.Damaged }
    ensures memory { IfErr result (λ _. error ≡ Error.SqliteFailure ErrorCode.OutOfMemory) }
    ensures behind { IfOk result (λ fault. IsTrue (shows_behind fault)) }
{
    match error {
        Error::SqliteFailure(ErrorCode::OutOfMemory) => Err(OutOfMemory),
        Error::SqliteFailure(ErrorCode::DatabaseBusy) => Ok(FileFault::InUse),
        Error::SqliteFailure(ErrorCode::NotADatabase) => Ok(FileFault::OtherDatabase),
        Error::SqliteFailure(ErrorCode::DatabaseCorrupt) => Ok(FileFault::Damaged),
        _ => Ok(FileFault::Failed),
    }
}

/// The fault of a file that could be read and can't be opened: a journal stands beside it, or its log can't be used.
fn unopened(rt: &HostRuntime, path: &str) -> Result<FileFault, OutOfMemory>
    ensures { IfOk result (λ fault. IsTrue (shows_behind fault)) }
{
    let journal = beside(rt, path, "-journal")?;
    if is_journal(rt, journal.as_str()) {
        return Ok(FileFault::Journal);
    }
    let log = beside(rt, path, "-wal")?;
    match OpenOptions::new()
        .read(true)
        .write(true)
        .open(rt, log.as_str())
    {
        Ok(log_file) => {
            drop(log_file);
            fault_of_folder(rt, folder_of(log.as_str()))
        }
        // It was not made: the folder may not be written.
        Err(error) if error.kind() == ErrorKind::NotFound => Ok(FileFault::NoRight),
        Err(error) => fault_of(&error),
    }
}

/// Whether what stands at a path keeps SQLite from opening the file: a journal with something in it, or what is none.
fn is_journal(rt: &HostRuntime, path: &str) -> bool {
    match fs::symlink_metadata(rt, path) {
        Ok(found) => !found.is_file() || found.len() > 0,
        Err(_) => false,
    }
}

/// The fault of a file that can be opened, and its log too: it is of their folder, which has to be read, or unknown.
fn fault_of_folder(rt: &HostRuntime, folder: &str) -> Result<FileFault, OutOfMemory>
    ensures { IfOk result (λ fault. IsTrue (shows_behind fault)) }
{
    match File::open(rt, folder) {
        Ok(file) => {
            drop(file);
            Ok(FileFault::Failed)
        }
        Err(error) => fault_of(&error),
    }
}
