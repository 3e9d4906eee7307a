ghost use Rattle.std.specs.Prelude.{◌≡◌, ◌<◌, ◌↔◌, IfOk, IsTrue};
ghost use Rattle.book_keeper.specs.Rows.{rank};

use book_commodity::{Bytes, OutOfMemory};

/// A call on a keeper went wrong: it failed, and its count of faults rose in that call; or it is out of memory.
#[derive(Clone, Copy, Debug, PartialEq, Eq)]
pub enum KeepError {
    Failed,
    OutOfMemory,
}

/// The key of a row: its kind and, among the rows of the kind, its number. Keys are in order by kind, then by
/// number.
#[derive(Clone, Copy, Debug, PartialEq, Eq, PartialOrd, Ord)]
pub struct RowKey {
    pub kind: u8,
    pub id: u64,
}

impl RowKey {
    /// The place of the key among all keys, as one number that rises with them.
    pub(crate) fn rank(self) -> u128
        ensures { result ≡ rank self }
    {
        self.kind as u128 * 0x1_0000_0000_0000_0000 + self.id as u128
    }
}

/// A row: bytes under a key.
#[derive(Drop)]
pub struct Row {
    pub key: RowKey,
    pub body: Bytes,
}

impl Row {
    /// An equal row with memory of its own.
    pub fn copy(&self) -> Result<Row, OutOfMemory>
        ensures { IfOk result (λ copy. copy ≡ self.now) }
    {
        Ok(Row {
            key: self.key,
            body: self.body.copy()?,
        })
    }
}

/// What becomes different in the rows of a keeper: a row is put, in place of the one with its key if there is one,
/// or the row with the key, if there is one, is gone.
#[derive(Drop)]
pub enum Change {
    Put(Row),
    Gone(RowKey),
}

impl Change {
    /// An equal change with memory of its own.
    pub fn copy(&self) -> Result<Change, OutOfMemory>
        ensures { IfOk result (λ copy. copy ≡ self.now) }
    {
        match self {
            Change::Put(row) => Ok(Change::Put(row.copy()?)),
            Change::Gone(key) => Ok(Change::Gone(*key)),
        }
    }
}
