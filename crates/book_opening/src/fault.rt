/// Why rows are not opened: the keeper failed; the row of a key is missing or can't be opened, and it is the least such
/// key; or the program is out of memory.
#[derive(Clone, Copy, Debug, PartialEq, Eq)]
pub enum OpenFault {
    Keeper,
    BadRows { kind: u8, id: u64 },
    OutOfMemory,
}
