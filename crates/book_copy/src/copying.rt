ghost use Rattle.std.specs.Prelude.{◌≡◌, ◌≤◌, Err, IfOk, IsTrue, List, None, OnErr, OnOk, Some, [], map, ℕ};
ghost use Rattle.book_copy.specs.BookNumbers.{first_past_limit};
ghost use Rattle.book_keeper.specs.Faults.{Rose};
ghost use Rattle.book_keeper.specs.Rows.{AreRising};
ghost use Rattle.book_keeper.specs.declared.row.Row.{Row};
ghost use Rattle.book_keeper.specs.declared.row.RowKey.{RowKey};
ghost use Rattle.book_keeper.specs.declared.row.Change.{Change};

use book_keeper::{Change, KeepError, Keeper, RowKey};
use std::alloc::Global;

/// Why no row was copied.
#[derive(Clone, Copy, Debug, PartialEq, Eq)]
pub enum CopyError {
    /// The keeper that has the rows failed.
    Source,
    /// The keeper that was to get them failed.
    Target,
    /// This row can't be put into a keeper: its number is 2^62 or more, so it is none of a book.
    NoBookRow { kind: u8, id: u64 },
    /// The program is out of memory.
    OutOfMemory,
}

/// The numbers of rows that are put are below 2^62.
const NUMBER_LIMIT: u64 = 1 << 62;

/// Puts all rows that a keeper has into another by one commit. The rows of the first stay, whatever happens. Where the
/// other had none, it then has exactly these; at an error it has what it had.
/// Source: the first keeper failed, and its count of faults rose. Target: the other failed, and its count rose.
/// NoBookRow: this is the first row with a number that no row of a book has; with Ok there is none. OutOfMemory: the
/// program is out of memory.
pub fn copy_rows<K: Keeper, L: Keeper>(
    alloc: Global,
    source: &mut K,
    target: &mut L,
) -> Result<(), CopyError>
    ensures path { K.path_given source.new ≡ K.path_given source.old }
    ensures sure { IsTrue (K.sure source.new) → IsTrue (K.sure source.old) }
    ensures rows { IsTrue (K.sure source.new) → (rows : List Row) → K.holds source.old rows → K.holds source.new rows }
    ensures target_sure { IsTrue (L.sure target.new) → IsTrue (L.sure target.old) }
    ensures target_path { L.path_given target.new ≡ L.path_given target.old }
    ensures copied { OnOk result (IsTrue (K.sure source.new) → IsTrue (L.sure target.new) → (rows : List Row)
        → K.holds source.old rows → L.holds target.old [] → L.holds target.new rows) }
    ensures not_copied { OnErr result (IsTrue (L.sure target.new) → (rows : List Row) → L.holds target.old rows
        → L.holds target.new rows) }
    ensures no_book_row { (kind : ℕ) → (id : ℕ) → result ≡ Err (CopyError.NoBookRow kind id)
        → IsTrue (K.sure source.new) → (rows : List Row) → K.holds source.old rows
        → first_past_limit rows ≡ Some (record { kind = kind; id = id }) }
    ensures book_rows { OnOk result (IsTrue (K.sure source.new) → (rows : List Row) → K.holds source.old rows
        → first_past_limit rows ≡ None) }
    ensures source_fault { result ≡ Err CopyError.Source → Rose (K.faults source.old) (K.faults source.new) }
    ensures target_fault { result ≡ Err CopyError.Target → Rose (L.faults target.old) (L.faults target.new) }
{
    let changes = read_changes(alloc, source)?;
    match target.commit(changes.as_slice()) {
        Ok(()) => Ok(()),
        Err(KeepError::Failed) => Err(CopyError::Target),
        Err(KeepError::OutOfMemory) => Err(CopyError::OutOfMemory),
    }
}

/// The changes that put each row of a keeper.
fn read_changes<K: Keeper>(alloc: Global, source: &mut K) -> Result<Vec<Change>, CopyError>
    ensures path { K.path_given source.new ≡ K.path_given source.old }
    ensures sure { IsTrue (K.sure source.new) → IsTrue (K.sure source.old) }
    ensures rows { IsTrue (K.sure source.new) → (rows : List Row) → K.holds source.old rows → K.holds source.new rows }
    ensures rising { IfOk result (λ changes. AreRising changes.items) }
    ensures read { IfOk result (λ changes. IsTrue (K.sure source.new) → (rows : List Row) → K.holds source.old rows
        → changes.items ≡ map Change.Put rows) }
    ensures no_book_row { (kind : ℕ) → (id : ℕ) → result ≡ Err (CopyError.NoBookRow kind id)
        → IsTrue (K.sure source.new) → (rows : List Row) → K.holds source.old rows
        → first_past_limit rows ≡ Some (record { kind = kind; id = id }) }
    ensures book_rows { OnOk result (IsTrue (K.sure source.new) → (rows : List Row) → K.holds source.old rows
        → first_past_limit rows ≡ None) }
    ensures fault { result ≡ Err CopyError.Source → Rose (K.faults source.old) (K.faults source.new) }
    ensures not_target { result ≡ Err CopyError.Target → ⊥ }
{
    let mut changes = Vec::new(alloc);
    let mut last: Option<RowKey> = None;
    'rows: loop {
        let row = match source.next_row(last) {
            Ok(Some(row)) => row,
            Ok(None) => return Ok(changes),
            Err(KeepError::Failed) => return Err(CopyError::Source),
            Err(KeepError::OutOfMemory) => return Err(CopyError::OutOfMemory),
        };
        let RowKey { kind, id } = row.key;
        if id >= NUMBER_LIMIT {
            return Err(CopyError::NoBookRow { kind, id });
        }
        last = Some(row.key);
        let Ok(()) = changes.push(Change::Put(row)) else {
            return Err(CopyError::OutOfMemory);
        };
    }
}
