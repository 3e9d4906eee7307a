ghost use Rattle.std.specs.Prelude.{◌≡◌, ◌+◌, ◌-◌, ◌≤◌, ◌^◌, if◌then◌else◌, false, find, is_some, length, min};
ghost use Rattle.std.specs.Prelude.{None, Some, insert, position, slice_get};
ghost use Rattle.std.specs.Option.{option_copied};
ghost use Rattle.book_ledger.specs.Change.{is_same as is_same_row, left_at, placed as placed_at};
ghost use Rattle.book_ledger.specs.Changes.{differing, has_row};
ghost use Rattle.book_ledger.specs.Ledger.{mark_of as kept_mark, row_of as row_at_place};
ghost use Rattle.book_ledger.specs.Room.{FitsPlaces};
ghost use Rattle.book_register.specs.Register.{IsSorted, has_key, key_of, rows_without};

use book_commodity::Steps;
use book_register::{Entry, Mark2, Register};
use book_splits::{Mark, Split, Txn};

/// How far a split is reconciled, as its register keeps it. A voided split has no row.
fn mark_of(mark: Mark) -> Mark2
    ensures { result ≡ kept_mark mark }
{
    match mark {
        Mark::New | Mark::Voided => Mark2::Plain,
        Mark::Cleared => Mark2::Cleared,
        Mark::Reconciled => Mark2::Reconciled,
    }
}

/// The row of the split that stands at a place of the transaction with a number.
fn row_of(number: u64, transaction: &Txn, place: u32, split: &Split) -> Entry
    ensures { result ≡ row_at_place number transaction.now place split.now }
{
    Entry {
        day: transaction.day,
        txn: number,
        place,
        split: split.id,
        currency: transaction.currency,
        quantity: split.quantity,
        value: split.value,
        mark: mark_of(split.mark),
    }
}

/// Whether two rows are the same.
fn is_same(one: &Entry, other: &Entry) -> bool
    ensures { result ≡ is_same_row one.now other.now }
{
    one == other
}

/// The row that a transaction has at a place, with its account; `None` where it has no such place, and where the split
/// there is voided.
fn placed(number: u64, transaction: &Txn, place: usize) -> Option<(u64, Entry)>
    requires { length transaction.now.splits ≤ 2 ^ 32 }
    ensures { result ≡ placed_at number (Some transaction.now) place }
{
    let split = transaction.splits.as_slice().get(place)?;
    if split.mark == Mark::Voided {
        return None;
    }
    Some((
        split.account,
        row_of(number, transaction, place as u32, split),
    ))
}

/// The row that a transaction has at a place, with its account, unless the other transaction has the same there.
pub(crate) fn left(
    number: u64,
    transaction: &Txn,
    other: Option<&Txn>,
    place: usize,
) -> Option<(u64, Entry)>
    requires own { length transaction.now.splits ≤ 2 ^ 32 }
    requires others { FitsPlaces (option_copied other) }
    ensures { result ≡ left_at number (Some transaction.now) (option_copied other.entry) place }
{
    let (account, row) = placed(number, transaction, place)?;
    let Some(other) = other else {
        return Some((account, row));
    };
    let Some((other_account, other_row)) = placed(number, other, place) else {
        return Some((account, row));
    };
    if account == other_account && is_same(&row, &other_row) {
        return None;
    }
    Some((account, row))
}

/// Takes a row out of a register, where one stands at its key, and tells its place.
pub(crate) fn take_row(register: &mut Register, row: &Entry) -> Option<usize>
    ensures place { result ≡ position (has_key (key_of row.now)) register.old.rows }
    ensures found { (key : _) → find (has_key key) register.new.rows
        ≡ (if has_key key row.now then None else find (has_key key) register.old.rows) }
    ensures rows { register.new.rows
        ≡ rows_without (position (has_key (key_of row.now)) register.old.rows) register.old.rows }
    ensures was_sorted { IsSorted register.old.rows }
    ensures differing { (first : _) → IsSorted first → find (has_key (key_of row.now)) first ≡ Some row.now
        → find (has_key (key_of row.now)) register.old.rows ≡ Some row.now
        → differing first register.new.rows ≡ differing first register.old.rows + 1 }
    ensures changes { register.new.changes ≡ (if is_some (find (has_key (key_of row.now)) register.old.rows)
        then min (register.old.changes + 1) (2 ^ 64 - 1) else register.old.changes) }
    ensures sorted { IsSorted register.new.rows }
    ensures spare { register.old.spare ≤ register.new.spare }
{
    let _ = register.len();
    let place = register.remove(row.day, row.txn, row.place, &mut Steps::new());
    let _ = register.len();
    place
}

/// Puts a row into a register, at whose key none stands, and tells its place.
pub(crate) fn insert_row(register: &mut Register, row: Entry) -> usize
    requires room { 1 ≤ register.old.spare }
    requires absent { find (has_key (key_of row)) register.old.rows ≡ None }
    ensures rows { register.new.rows ≡ insert register.old.rows result row }
    ensures place { slice_get register.new.rows result ≡ Some row }
    ensures found { (key : _) → find (has_key key) register.new.rows
        ≡ (if has_key key row then Some row else find (has_key key) register.old.rows) }
    ensures differing { (first : _) → has_row row first ≡ false
        → differing first register.new.rows ≡ differing first register.old.rows + 1 }
    ensures changes { register.new.changes ≡ min (register.old.changes + 1) (2 ^ 64 - 1) }
    ensures sorted { IsSorted register.new.rows }
    ensures spare { register.old.spare ≤ register.new.spare + 1 }
{
    register.insert(row, &mut Steps::new())
}
