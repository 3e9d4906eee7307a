ghost use Rattle.std.specs.Prelude.{◌≡◌, ◌≢◌, ◌↔◌, ◌<◌, ◌⊎◌, [], List, IfOk, IfErr, IfSome, OnOk, OnErr, IsTrue};
ghost use Rattle.book_keeper.specs.Keeping.{HasKeepCause};
ghost use Rattle.book_keeper.specs.Rows.{Rises, do_rise, rank, after_changes, first_after};

use book_commodity::Many;
use book_keeper::{Change, KeepError, Keeper, MemKeeper, Row, RowKey};
use std::alloc::Global;
use std::marker::Model;

/// A keeper in memory that never fails. All its calls may be out of memory.
#[derive(Drop)]
pub struct NoFailKeeper {
    keeper: MemKeeper,
}

impl Model for NoFailKeeper {
    ghost use Rattle.std.specs.Prelude.{◌≡◌, []};
    ghost use Rattle.book_complete.specs.NoFail.{RowsKept};

    ghost Value = { RowsKept };

    ghost view = { λ k. record { rows = k.keeper.rows; path = k.keeper.path } };

    ghost invariant = { λ k. k.keeper.fail ≡ [] };
}

impl NoFailKeeper {
    /// A keeper of these rows. It takes no memory.
    pub fn new(alloc: Global, rows: Many<Row>) -> NoFailKeeper
        requires { Rises rows }
        ensures { result ≡ record { rows = rows; path = [] } }
    {
        NoFailKeeper {
            keeper: MemKeeper::new(rows, Many::new(alloc)),
        }
    }

    /// Its rows.
    pub fn rows(&self) -> &[Row]
        ensures rows { result.now ≡ self.now.rows }
        ensures rises { Rises self.now.rows }
    {
        self.keeper.rows()
    }
}

impl Keeper for NoFailKeeper {
    ghost use Rattle.std.specs.Prelude.{refl};
    ghost use Rattle.book_keeper.specs.Rows.{Rises, do_rise};
    ghost use Rattle.book_keeper.specs.RisingRows.{rises_where, same_rows};

    ghost path_given = { λ keeper. keeper.path };

    ghost honest = { λ keeper. do_rise keeper.rows };

    ghost sure = { λ keeper. do_rise keeper.rows };

    ghost holds = { λ keeper rows. (keeper.rows ≡ rows) × Rises rows };

    ghost may_leave = { λ keeper rows. (keeper.rows ≡ rows) × Rises rows };

    ghost faults = { λ keeper. 0 };

    ghost trusted = { λ keeper sure. sure };

    ghost told = { λ keeper sure. (keeper.rows, (refl, rises_where keeper.rows sure)) };

    ghost one = { λ keeper rows other first second. same_rows keeper.rows rows other first.0 second.0 };

    ghost rising = { λ keeper rows held. held.1 };

    /// Keeps the path. Without memory it fails by OutOfMemory.
    fn open(&mut self, path: &str) -> Result<(), KeepError>
        ensures opened { OnOk result (self.new ≡ record self.old { path = path.now }) }
        ensures unchanged { OnErr result (self.new ≡ self.old) }
        ensures fails { IfErr result (λ error. error ≡ KeepError.OutOfMemory) }
        ensures path { OnOk result (self.new.path ≡ path.now) }
        ensures path_kept { OnErr result (self.new.path ≡ self.old.path) }
        ensures sure { IsTrue (do_rise self.new.rows) → IsTrue (do_rise self.old.rows) }
        ensures honest { IsTrue (do_rise self.new.rows) → IsTrue (do_rise self.old.rows) }
        ensures known { OnOk result (IsTrue (do_rise self.new.rows) → IsTrue (do_rise self.new.rows)) }
        ensures left { IsTrue (do_rise self.new.rows) → (rows : List Row) → (self.new.rows ≡ rows) × Rises rows
            → (self.old.rows ≡ rows) × Rises rows }
        ensures settled { OnOk result (IsTrue (do_rise self.new.rows) → (rows : List Row)
            → (self.new.rows ≡ rows) × Rises rows ↔ (self.new.rows ≡ rows) × Rises rows) }
        ensures rows { IsTrue (do_rise self.new.rows) → (rows : List Row) → (self.old.rows ≡ rows) × Rises rows
            → (self.new.rows ≡ rows) × Rises rows }
        ensures cause { HasKeepCause 0 0 result }
    {
        self.keeper.open(path)
    }

    /// Makes all the changes or, out of memory, none.
    fn commit(&mut self, changes: &[Change]) -> Result<(), KeepError>
        ensures done { OnOk result (self.new ≡ record self.old { rows = after_changes changes.now self.old.rows }) }
        ensures kept { OnErr result (self.new ≡ self.old) }
        ensures fails { IfErr result (λ error. error ≡ KeepError.OutOfMemory) }
        ensures path { self.new.path ≡ self.old.path }
        ensures sure { IsTrue (do_rise self.new.rows) → IsTrue (do_rise self.old.rows) }
        ensures honest { IsTrue (do_rise self.new.rows) → IsTrue (do_rise self.old.rows) }
        ensures known { OnOk result (IsTrue (do_rise self.new.rows) → IsTrue (do_rise self.new.rows)) }
        ensures left { IsTrue (do_rise self.new.rows) → changes.now ≢ [] → (rows : List Row)
            → (self.new.rows ≡ rows) × Rises rows → ((self.old.rows ≡ rows) × Rises rows)
            ⊎ (IsTrue (do_rise self.old.rows) × ((held : List Row) → (self.old.rows ≡ held) × Rises held
            → rows ≡ after_changes changes.now held)) }
        ensures settled { OnOk result (IsTrue (do_rise self.new.rows) → (rows : List Row)
            → (self.new.rows ≡ rows) × Rises rows ↔ (self.new.rows ≡ rows) × Rises rows) }
        ensures made { OnOk result (IsTrue (do_rise self.new.rows) → (rows : List Row)
            → (self.old.rows ≡ rows) × Rises rows
            → (self.new.rows ≡ after_changes changes.now rows) × Rises (after_changes changes.now rows)) }
        ensures unchanged { OnErr result (IsTrue (do_rise self.new.rows) → (rows : List Row)
            → (self.old.rows ≡ rows) × Rises rows → (self.new.rows ≡ rows) × Rises rows) }
        ensures cause { HasKeepCause 0 0 result }
    {
        self.keeper.commit(changes)
    }

    /// Gives a copy of the row. Without memory it fails by OutOfMemory.
    fn next_row(&mut self, after: Option<RowKey>) -> Result<Option<Row>, KeepError>
        ensures row { IfOk result (λ found. found ≡ first_after after self.old.rows) }
        ensures fails { IfErr result (λ error. error ≡ KeepError.OutOfMemory) }
        ensures kept { self.new ≡ self.old }
        ensures path { self.new.path ≡ self.old.path }
        ensures sure { IsTrue (do_rise self.new.rows) → IsTrue (do_rise self.old.rows) }
        ensures honest { IsTrue (do_rise self.new.rows) → IsTrue (do_rise self.old.rows) }
        ensures known { OnOk result (IsTrue (do_rise self.new.rows) → IsTrue (do_rise self.old.rows)
            → IsTrue (do_rise self.new.rows)) }
        ensures left { IsTrue (do_rise self.new.rows) → (rows : List Row) → (self.new.rows ≡ rows) × Rises rows
            → (self.old.rows ≡ rows) × Rises rows }
        ensures rows { IsTrue (do_rise self.new.rows) → (rows : List Row) → (self.old.rows ≡ rows) × Rises rows
            → (self.new.rows ≡ rows) × Rises rows }
        ensures found { IfOk result (λ found. IsTrue (do_rise self.new.rows) → (rows : List Row)
            → (self.old.rows ≡ rows) × Rises rows → found ≡ first_after after rows) }
        ensures above { IfOk result (λ found. IfSome found (λ row. IfSome after (λ key. rank key < rank row.key))) }
        ensures cause { HasKeepCause 0 0 result }
    {
        self.keeper.next_row(after)
    }
}
