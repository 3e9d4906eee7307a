/// Why no engine is opened: the keeper failed, and its count of faults rose in that call; the row of a key is missing
/// or can't be opened, and it is the least such key; a key is the first at which the book isn't sound; or the program
/// is out of memory.
#[derive(Clone, Copy, Debug, PartialEq, Eq)]
pub enum OpenError {
    Keeper,
    BadRows { kind: u8, id: u64 },
    UnsoundBook { kind: u8, id: u64 },
    OutOfMemory,
}
