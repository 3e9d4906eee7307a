ghost use Rattle.std.specs.Prelude.{◌≡◌, ◌≢◌, ◌↔◌, ◌<◌, ◌⊎◌, [], true, List, Err, IfOk, IfErr, IfSome, OnOk, OnErr, IsTrue};
ghost use Rattle.book_keeper.specs.Calls.{FailsNext};
ghost use Rattle.book_keeper.specs.Keeping.{HasKeepCause};
ghost use Rattle.book_keeper.specs.KeeperInMemory.{after_commit, after_refusal};
ghost use Rattle.book_keeper.specs.Rows.{Rises, do_rise, rank, after_changes, first_after};

use crate::calls::Calls;
use crate::mem_rows::MemRows;
use crate::{Change, KeepError, Keeper, Row, RowKey};
use book_commodity::{Many, OutOfMemory, Text};
use std::alloc::Global;
use std::marker::Model;

/// A keeper in memory, which reports its rows and fails at chosen commits. All its calls may be out of memory.
#[derive(Drop)]
pub struct MemKeeper {
    rows: MemRows,
    path: Text,
    calls: Calls,
    faults: u64,
}

impl Model for MemKeeper {
    ghost use Rattle.book_keeper.specs.KeeperInMemory.{KeeperInMemory};
    ghost use Rattle.book_keeper.specs.Rows.{Rises};

    ghost Value = { KeeperInMemory };

    ghost view = { λ k. record {
      rows = k.rows.rows;
      path = k.path;
      fail = k.calls.fail;
      commits = k.calls.made;
      faults = k.faults;
    } };

    ghost invariant = { λ k. Rises k.rows.rows };
}

impl MemKeeper {
    /// A keeper of these rows. The commits whose numbers, counted from 1, stand in `fail` are to fail, and no
    /// others.
    pub fn new(rows: Many<Row>, fail: Many<u64>) -> MemKeeper
        requires { Rises rows }
        ensures { result ≡ record { rows = rows; path = []; fail = fail; commits = 0; faults = 0 } }
    {
        let rows = rows.into_vec();
        let path = Text::new(*rows.allocator());
        MemKeeper {
            rows: MemRows::of(Many::of(rows)),
            path,
            calls: Calls::new(fail),
            faults: 0,
        }
    }

    /// Its rows.
    pub fn rows(&self) -> &[Row]
        ensures rows { result.now ≡ self.now.rows }
        ensures rises { Rises self.now.rows }
    {
        self.rows.as_slice()
    }

    /// Makes all the changes or, out of memory, none.
    #[tactic(auto, using(crate::proofs::RowLemmas::rises_after_all))]
    fn make_all(&mut self, changes: &[Change]) -> Result<(), OutOfMemory>
        ensures made { OnOk result (self.new ≡ record self.old { rows = after_changes changes.now self.old.rows }) }
        ensures unchanged { OnErr result (self.new ≡ self.old) }
    {
        let copies = copies_of(self.rows.allocator(), changes)?;
        self.rows.reserve(copies.len())?;
        self.rows.make_all(copies);
        Ok(())
    }
}

/// Equal changes with memory of their own.
fn copies_of(alloc: Global, changes: &[Change]) -> Result<Many<Change>, OutOfMemory>
    ensures { IfOk result (λ copies. copies ≡ changes.now) }
{
    let mut copies = Many::new(alloc);
    for change in changes {
        copies.push(change.copy()?)?;
    }
    Ok(copies)
}

/// The text of these characters.
fn text_of(alloc: Global, path: &str) -> Result<Text, OutOfMemory>
    ensures { IfOk result (λ text. text ≡ path.now) }
{
    let mut text = String::new(alloc);
    text.push_str(path)?;
    Ok(Text::of(text))
}

impl Keeper for MemKeeper {
    ghost use Rattle.std.specs.Prelude.{refl};
    ghost use Rattle.book_keeper.specs.Rows.{do_rise};
    ghost use Rattle.book_keeper.specs.RisingRows.{rises_where, same_rows};

    ghost path_given = { λ keeper. keeper.path };

    ghost honest = { λ keeper. do_rise keeper.rows };

    ghost sure = { λ keeper. do_rise keeper.rows };

    ghost holds = { λ keeper rows. (keeper.rows ≡ rows) × Rises rows };

    ghost may_leave = { λ keeper rows. (keeper.rows ≡ rows) × Rises rows };

    ghost faults = { λ keeper. keeper.faults };

    ghost trusted = { λ keeper sure. sure };

    ghost told = { λ keeper sure. (keeper.rows, (refl, rises_where keeper.rows sure)) };

    ghost one = { λ keeper rows other first second. same_rows keeper.rows rows other first.0 second.0 };

    ghost rising = { λ keeper rows held. held.1 };

    /// Keeps the path.
    fn open(&mut self, path: &str) -> Result<(), KeepError>
        ensures opened { OnOk result (self.new ≡ record self.old { path = path.now }) }
        ensures unchanged { OnErr result (self.new ≡ self.old) }
        ensures fails { IfErr result (λ error. error ≡ KeepError.OutOfMemory) }
        ensures path { OnOk result (self.new.path ≡ path.now) }
        ensures path_kept { OnErr result (self.new.path ≡ self.old.path) }
        ensures sure { IsTrue (do_rise self.new.rows) → IsTrue (do_rise self.old.rows) }
        ensures honest { IsTrue (do_rise self.new.rows) → IsTrue (do_rise self.old.rows) }
        ensures known { OnOk result (IsTrue (do_rise self.new.rows) → IsTrue (do_rise self.new.rows)) }
        ensures left { IsTrue (do_rise self.new.rows) → (rows : List Row) → (self.new.rows ≡ rows) × Rises rows
            → (self.old.rows ≡ rows) × Rises rows }
        ensures settled { OnOk result (IsTrue (do_rise self.new.rows) → (rows : List Row)
            → (self.new.rows ≡ rows) × Rises rows ↔ (self.new.rows ≡ rows) × Rises rows) }
        ensures rows { IsTrue (do_rise self.new.rows) → (rows : List Row) → (self.old.rows ≡ rows) × Rises rows
            → (self.new.rows ≡ rows) × Rises rows }
        ensures cause { HasKeepCause self.old.faults self.new.faults result }
    {
        match text_of(self.rows.allocator(), path) {
            Ok(text) => {
                self.path = text;
                Ok(())
            }
            Err(OutOfMemory) => Err(KeepError::OutOfMemory),
        }
    }

    /// Fails exactly at the commits that are to fail.
    #[tactic(auto, using(crate::proofs::RowLemmas::rises_after_all))]
    fn commit(&mut self, changes: &[Change]) -> Result<(), KeepError>
        ensures fails { (result ≡ Err KeepError.Failed) ↔ FailsNext self.old.fail self.old.commits }
        ensures done { OnOk result (self.new ≡ after_commit changes.now self.old) }
        ensures failed { IfErr result (λ error. self.new ≡ after_refusal error self.old) }
        ensures path { self.new.path ≡ self.old.path }
        ensures sure { IsTrue (do_rise self.new.rows) → IsTrue (do_rise self.old.rows) }
        ensures honest { IsTrue (do_rise self.new.rows) → IsTrue (do_rise self.old.rows) }
        ensures known { OnOk result (IsTrue (do_rise self.new.rows) → IsTrue (do_rise self.new.rows)) }
        ensures left { IsTrue (do_rise self.new.rows) → changes.now ≢ [] → (rows : List Row)
            → (self.new.rows ≡ rows) × Rises rows → ((self.old.rows ≡ rows) × Rises rows)
            ⊎ (IsTrue (do_rise self.old.rows) × ((held : List Row) → (self.old.rows ≡ held) × Rises held
            → rows ≡ after_changes changes.now held)) }
        ensures settled { OnOk result (IsTrue (do_rise self.new.rows) → (rows : List Row)
            → (self.new.rows ≡ rows) × Rises rows ↔ (self.new.rows ≡ rows) × Rises rows) }
        ensures made { OnOk result (IsTrue (do_rise self.new.rows) → (rows : List Row)
            → (self.old.rows ≡ rows) × Rises rows
            → (self.new.rows ≡ after_changes changes.now rows) × Rises (after_changes changes.now rows)) }
        ensures unchanged { OnErr result (IsTrue (do_rise self.new.rows) → (rows : List Row)
            → (self.old.rows ≡ rows) × Rises rows → (self.new.rows ≡ rows) × Rises rows) }
        ensures cause { HasKeepCause self.old.faults self.new.faults result }
    {
        if self.calls.begin() {
            self.faults = self.faults.saturating_add(1);
            return Err(KeepError::Failed);
        }
        match self.make_all(changes) {
            Ok(()) => Ok(()),
            Err(OutOfMemory) => Err(KeepError::OutOfMemory),
        }
    }

    /// Never fails.
    #[tactic(auto, using(crate::proofs::RowLemmas::after_is_above))]
    fn next_row(&mut self, after: Option<RowKey>) -> Result<Option<Row>, KeepError>
        ensures row { IfOk result (λ found. found ≡ first_after after self.old.rows) }
        ensures fails { IfErr result (λ error. error ≡ KeepError.OutOfMemory) }
        ensures kept { self.new ≡ self.old }
        ensures path { self.new.path ≡ self.old.path }
        ensures sure { IsTrue (do_rise self.new.rows) → IsTrue (do_rise self.old.rows) }
        ensures honest { IsTrue (do_rise self.new.rows) → IsTrue (do_rise self.old.rows) }
        ensures known { OnOk result (IsTrue (do_rise self.new.rows) → IsTrue (do_rise self.old.rows)
            → IsTrue (do_rise self.new.rows)) }
        ensures left { IsTrue (do_rise self.new.rows) → (rows : List Row) → (self.new.rows ≡ rows) × Rises rows
            → (self.old.rows ≡ rows) × Rises rows }
        ensures rows { IsTrue (do_rise self.new.rows) → (rows : List Row) → (self.old.rows ≡ rows) × Rises rows
            → (self.new.rows ≡ rows) × Rises rows }
        ensures found { IfOk result (λ found. IsTrue (do_rise self.new.rows) → (rows : List Row)
            → (self.old.rows ≡ rows) × Rises rows → found ≡ first_after after rows) }
        ensures above { IfOk result (λ found. IfSome found (λ row. IfSome after (λ key. rank key < rank row.key))) }
        ensures cause { HasKeepCause self.old.faults self.new.faults result }
    {
        let Some(row) = self.rows.after(after) else {
            return Ok(None);
        };
        match row.copy() {
            Ok(copy) => Ok(Some(copy)),
            Err(OutOfMemory) => Err(KeepError::OutOfMemory),
        }
    }
}
