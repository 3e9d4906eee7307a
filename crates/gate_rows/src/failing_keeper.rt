ghost use Rattle.std.specs.Prelude.{◌≡◌, ◌≤◌, true, false};
ghost use Rattle.book_keeper.specs.Faults.{Rose};

use book_commodity::Many;
use book_keeper::{Change, KeepError, Keeper, MemKeeper, Row, RowKey};

/// Calls of which some fail: the numbers of those, counted from 1, and how many calls were made.
#[derive(Drop)]
pub struct Numbered {
    failing: Many<u64>,
    made: u64,
}

impl Numbered {
    /// The calls of these numbers fail.
    pub fn new(failing: Many<u64>) -> Numbered
        ensures { result ≡ record { failing = failing; made = 0 } }
    {
        Numbered { failing, made: 0 }
    }

    /// Counts a call, and says whether it fails.
    fn begin(&mut self) -> bool {
        self.made = self.made.saturating_add(1);
        self.failing.as_slice().contains(&self.made)
    }
}

/// A keeper in memory whose calls may fail, whichever they are: those of these numbers among all calls, and those
/// among the commits.
#[derive(Drop)]
pub struct FailingKeeper {
    keeper: MemKeeper,
    calls: Numbered,
    commits: Numbered,
    faults: u64,
}

impl FailingKeeper {
    /// The keeper, of which these calls and commits fail.
    pub fn new(keeper: MemKeeper, calls: Many<u64>, commits: Many<u64>) -> FailingKeeper
        ensures { result ≡ record {
          keeper = keeper;
          calls = record { failing = calls; made = 0 };
          commits = record { failing = commits; made = 0 };
          faults = 0;
        } }
    {
        FailingKeeper {
            keeper,
            calls: Numbered::new(calls),
            commits: Numbered::new(commits),
            faults: 0,
        }
    }

    /// The keeper in memory.
    pub fn into_keeper(self) -> MemKeeper
        ensures { result ≡ self.keeper }
    {
        self.keeper
    }

    /// Begins a call. Whether it fails; then a fault is counted.
    fn begin_call(&mut self, is_commit: bool) -> bool
        ensures kept { self.new.keeper ≡ self.old.keeper }
        ensures later { self.old.faults ≤ self.new.faults }
        ensures fine { result ≡ false → self.new.faults ≡ self.old.faults }
        ensures failed { result ≡ true → Rose self.old.faults self.new.faults }
    {
        let mut fails = self.calls.begin();
        if is_commit && self.commits.begin() {
            fails = true;
        }
        if fails {
            self.faults = self.faults.saturating_add(1);
        }
        fails
    }
}

impl Keeper for FailingKeeper {
    ghost use Rattle.book_keeper.specs.Rows.{Rises, do_rise};
    ghost use Rattle.book_keeper.specs.RisingRows.{same_rows};
    ghost use Rattle.gate_rows.specs.KeptRows.{held_where};

    ghost path_given = { λ it. it.keeper.path };

    ghost honest = { λ it. do_rise it.keeper.rows };

    ghost sure = { λ it. do_rise it.keeper.rows };

    ghost holds = { λ it rows. (it.keeper.rows ≡ rows) × Rises rows };

    ghost may_leave = { λ it rows. (it.keeper.rows ≡ rows) × Rises rows };

    ghost faults = { λ it. it.faults };

    ghost trusted = { λ it sure. sure };

    ghost told = { λ it sure. held_where it.keeper.rows sure };

    ghost one = { λ it rows other first second. same_rows it.keeper.rows rows other first.0 second.0 };

    ghost rising = { λ it rows held. held.1 };

    fn open(&mut self, path: &str) -> Result<(), KeepError> {
        if self.begin_call(false) {
            return Err(KeepError::Failed);
        }
        match self.keeper.open(path) {
            Ok(()) => Ok(()),
            Err(_) => Err(KeepError::OutOfMemory),
        }
    }

    fn commit(&mut self, changes: &[Change]) -> Result<(), KeepError> {
        if self.begin_call(true) {
            return Err(KeepError::Failed);
        }
        match self.keeper.commit(changes) {
            Ok(()) => Ok(()),
            Err(_) => Err(KeepError::OutOfMemory),
        }
    }

    fn next_row(&mut self, after: Option<RowKey>) -> Result<Option<Row>, KeepError> {
        if self.begin_call(false) {
            return Err(KeepError::Failed);
        }
        match self.keeper.next_row(after) {
            Ok(found) => Ok(found),
            Err(_) => Err(KeepError::OutOfMemory),
        }
    }
}
