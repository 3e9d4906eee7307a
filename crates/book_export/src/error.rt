use book_commodity::OutOfMemory;

/// Why a journal wasn't written to its end: the program is out of memory, or the output failed.
#[derive(Clone, Copy, Debug, PartialEq, Eq)]
pub enum ExportError {
    Memory,
    Output,
}

impl From<OutOfMemory> for ExportError {
    fn from(_error: OutOfMemory) -> ExportError {
        ExportError::Memory
    }
}
