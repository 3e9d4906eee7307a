ghost use Rattle.std.specs.Prelude.{◌≡◌, ◌≢◌, ◌↔◌, ℕ, ◌<◌, ◌⊎◌, [], Bool, List, IfOk, IfSome, OnOk, OnErr, IsTrue};
ghost use Rattle.book_keeper.specs.Rows.{Rises, AreRising, rank, after_changes, first_after};
ghost use Rattle.book_keeper.specs.Keeping.{HasKeepCause};

use crate::{Change, KeepError, Row, RowKey};

/// Where the rows of a book are kept: a list of rows in rising order of their keys.
pub trait Keeper {
    ghost use Rattle.book_keeper.specs.declared.row.Row.{Row};

    /// The bytes of the path that the last `open` which answered Ok was given, none before the first.
    ghost path_given: { Self → List ℕ };

    /// Whether what is under the keeper has returned what was written to it, so far. Once it has not, it never counts as
    /// honest again.
    ghost honest: { Self → Bool };

    /// Whether the keeper still knows what it holds. Once it does not, it never does again. Only a call that failed, or
    /// one under which the keeper was not honest, ends it.
    ghost sure: { Self → Bool };

    /// The keeper holds exactly these rows.
    ghost holds: { Self → List Row → Type 0 };

    /// The rows that the next keeper over the same store may find, if the program ends at this moment.
    ghost may_leave: { Self → List Row → Type 0 };

    /// The count of its faults.
    ghost faults: { Self → ℕ };

    /// Opens the store that the path names. The rows stay. After Ok an honest keeper knows what it holds.
    /// Failed: the count of faults rose. A call that succeeds leaves the count.
    fn open(&mut self, path: &str) -> Result<(), KeepError>
        ensures path { OnOk result (path_given self.new ≡ path.now) }
        ensures path_kept { OnErr result (path_given self.new ≡ path_given self.old) }
        ensures honest { IsTrue (honest self.new) → IsTrue (honest self.old) }
        ensures sure { IsTrue (sure self.new) → IsTrue (sure self.old) }
        ensures known { OnOk result (IsTrue (honest self.new) → IsTrue (sure self.new)) }
        ensures left { IsTrue (honest self.new) → (rows : List Row) → may_leave self.new rows → may_leave self.old rows }
        ensures settled { OnOk result (IsTrue (sure self.new) → (rows : List Row)
            → may_leave self.new rows ↔ holds self.new rows) }
        ensures rows { IsTrue (sure self.new) → (rows : List Row) → holds self.old rows → holds self.new rows }
        ensures cause { HasKeepCause (faults self.old) (faults self.new) result };

    /// Makes all the changes or, at an error, none, as far as it still knows what it holds. Where it is honest, a commit
    /// of at least one change leaves to the next keeper, at each exit, the rows that it could find before or, where this
    /// one knew what it held, the rows after all the changes; after Ok, what it holds alone.
    /// Failed: the count of faults rose. A call that succeeds leaves the count.
    fn commit(&mut self, changes: &[Change]) -> Result<(), KeepError>
        requires { AreRising changes.now }
        ensures path { path_given self.new ≡ path_given self.old }
        ensures honest { IsTrue (honest self.new) → IsTrue (honest self.old) }
        ensures sure { IsTrue (sure self.new) → IsTrue (sure self.old) }
        ensures known { OnOk result (IsTrue (honest self.new) → IsTrue (sure self.new)) }
        ensures left { IsTrue (honest self.new) → changes.now ≢ [] → (rows : List Row) → may_leave self.new rows
            → may_leave self.old rows ⊎ (IsTrue (sure self.old) × ((held : List Row) → holds self.old held
            → rows ≡ after_changes changes.now held)) }
        ensures settled { OnOk result (IsTrue (sure self.new) → (rows : List Row)
            → may_leave self.new rows ↔ holds self.new rows) }
        ensures made { OnOk result (IsTrue (sure self.new) → (rows : List Row) → holds self.old rows
            → holds self.new (after_changes changes.now rows)) }
        ensures unchanged { OnErr result (IsTrue (sure self.new) → (rows : List Row) → holds self.old rows
            → holds self.new rows) }
        ensures cause { HasKeepCause (faults self.old) (faults self.new) result };

    /// The first row behind the key, or the first of all rows; None exactly where there is no such row. The rows
    /// stay. Whether the keeper knows its rows or not, the row's key is above the key given.
    /// Failed: the count of faults rose. A call that succeeds leaves the count.
    fn next_row(&mut self, after: Option<RowKey>) -> Result<Option<Row>, KeepError>
        ensures path { path_given self.new ≡ path_given self.old }
        ensures honest { IsTrue (honest self.new) → IsTrue (honest self.old) }
        ensures sure { IsTrue (sure self.new) → IsTrue (sure self.old) }
        ensures known { OnOk result (IsTrue (honest self.new) → IsTrue (sure self.old) → IsTrue (sure self.new)) }
        ensures left { IsTrue (honest self.new) → (rows : List Row) → may_leave self.new rows → may_leave self.old rows }
        ensures rows { IsTrue (sure self.new) → (rows : List Row) → holds self.old rows → holds self.new rows }
        ensures found { IfOk result (λ found. IsTrue (sure self.new) → (rows : List Row) → holds self.old rows
            → found ≡ first_after after rows) }
        ensures above { IfOk result (λ found. IfSome found (λ row. IfSome after (λ key. rank key < rank row.key))) }
        ensures cause { HasKeepCause (faults self.old) (faults self.new) result };

    /// A keeper that still knows what it holds is honest.
    ghost trusted: { (keeper : Self) → IsTrue (sure keeper) → IsTrue (honest keeper) };

    /// A keeper that still knows what it holds does hold rows.
    ghost told: { (keeper : Self) → IsTrue (sure keeper) → (rows : List Row) × holds keeper rows };

    /// The rows that a keeper holds are one list.
    ghost one: { (keeper : Self) (rows other : List Row) → holds keeper rows → holds keeper other → rows ≡ other };

    /// The rows that a keeper holds are in rising order of their keys.
    ghost rising: { (keeper : Self) (rows : List Row) → holds keeper rows → Rises rows };
}
