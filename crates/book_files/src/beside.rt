use book_commodity::OutOfMemory;
use std::fs;
use std::io::ErrorKind;

/// The path of what stands beside the file of a book, with this behind the name of the file. SQLite follows a link and
/// looks beside the file that it leads to.
pub(crate) fn beside(rt: &HostRuntime, path: &str, behind: &str) -> Result<String, OutOfMemory> {
    match fs::canonicalize(rt, path) {
        Ok(real) => Ok(format!(in rt.alloc(); "{}{behind}", real.as_str())?),
        Err(error) if error.kind() == ErrorKind::OutOfMemory => Err(OutOfMemory),
        Err(_) => Ok(format!(in rt.alloc(); "{path}{behind}")?),
    }
}

/// The folder of a path.
pub(crate) fn folder_of(path: &str) -> &str {
    match path.rsplit_once('/') {
        None => ".",
        Some(("", _)) => "/",
        Some((folder, _)) => folder,
    }
}
