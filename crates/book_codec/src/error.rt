/// Why bytes are not read as a value: they begin with no spelling of one, or the program is out of memory.
#[derive(Clone, Copy, Debug, PartialEq, Eq)]
pub enum DecodeError {
    Bad,
    OutOfMemory,
}
