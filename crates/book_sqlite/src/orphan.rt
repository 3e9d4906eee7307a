use std::io::ErrorKind;
use std::{fs, io};

/// The least length of a log with a commit: the header, and a frame that holds the least page of SQLite.
const LEAST_LOG: u64 = 32 + 24 + 512;

/// The length of the file at the path, or 0 where there is none.
fn length_at(rt: &HostRuntime, path: &str) -> io::Result<u64> {
    match fs::metadata(rt, path) {
        Ok(found) => Ok(found.len()),
        Err(error) if error.kind() == ErrorKind::NotFound => Ok(0),
        Err(error) => Err(error),
    }
}

/// The path of the log, which stands beside the file that the path leads to.
fn log_of(rt: &HostRuntime, path: &str) -> io::Result<String> {
    match fs::canonicalize(rt, path) {
        Ok(real) => Ok(format!(in rt.alloc(); "{}-wal", real.as_str())?),
        Err(error) if error.kind() == ErrorKind::NotFound => {
            Ok(format!(in rt.alloc(); "{path}-wal")?)
        }
        Err(error) => Err(error),
    }
}

/// Whether a log that is long enough for a commit stands beside a file that is missing or empty. To open the file would
/// empty the log.
fn is_log_alone(rt: &HostRuntime, path: &str) -> io::Result<bool> {
    if length_at(rt, path)? > 0 {
        return Ok(false);
    }
    let log = log_of(rt, path)?;
    Ok(length_at(rt, log.as_str())? >= LEAST_LOG)
}

/// The path of a file that may be opened. An error says whether the program lacked memory; where it did not, there is no
/// path, or a log stands beside the file alone.
pub(crate) fn usable_path<'a>(rt: &HostRuntime, path: Option<&'a str>) -> Result<&'a str, bool> {
    let Some(path) = path else {
        return Err(false);
    };
    match is_log_alone(rt, path) {
        Ok(false) => Ok(path),
        Ok(true) => Err(false),
        Err(error) => Err(error.kind() == ErrorKind::OutOfMemory),
    }
}
