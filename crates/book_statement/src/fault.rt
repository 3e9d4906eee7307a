use crate::Bad;

/// The first place in a statement file at which a check fails: its line, counted from 1, and what is wrong there.
/// Line 0 stands for a file without a statement.
#[derive(Clone, Copy, Debug, PartialEq, Eq)]
pub struct StatementFault {
    pub line: u64,
    pub bad: Bad,
}
