use crate::each::check_each;
use crate::making::{made, made_in_memory};
use book_app::named_book;
use book_commodity::discard;
use book_keeper::{Keeper, MemKeeper};
use book_sqlite::{FileKeeper, SqliteKeeper};
use gate_rows::{Case, Report, Run, compare, no_rows, put_all, rows_in, take_out, unread};
use sqlite::{Connection, MemStore, Unknown};
use std::alloc::Global;
use std::{fs, io, mem};

/// Where the rows of a case are kept between its runs.
#[derive(Clone, Copy, PartialEq, Eq)]
enum Place {
    /// In memory, as they are.
    Memory,
    /// In a database in memory.
    Database,
    /// In the file that the words name.
    File,
}

/// The place that a word names.
fn place_of(word: &str) -> io::Result<Place> {
    match word {
        "memory" => Ok(Place::Memory),
        "database" => Ok(Place::Database),
        "file" => Ok(Place::File),
        _ => Err(unread()),
    }
}

/// The rows of a case between its runs: those in memory, or the database. There is none where it has no table of rows,
/// or where it failed.
#[derive(Drop)]
pub(crate) struct Store {
    place: Place,
    rows: MemKeeper,
    database: Option<Connection<MemStore>>,
}

impl Store {
    /// A store in memory without rows.
    pub(crate) fn new(alloc: Global) -> Store {
        Store {
            place: Place::Memory,
            rows: no_rows(alloc),
            database: None,
        }
    }

    /// From now on the rows are kept in the place that a word names, which has none yet.
    pub(crate) fn choose(&mut self, alloc: Global, word: &str) -> io::Result<()> {
        self.place = place_of(word)?;
        self.rows = no_rows(alloc);
        if self.place == Place::Database {
            self.database = Some(Connection::open_in_memory(alloc)?);
        }
        Ok(())
    }

    /// Makes a run over the rows, and compares. They are those that the run leaves, from then on.
    pub(crate) fn check(
        &mut self,
        report: &mut Report<'_>,
        case: Case<'_>,
        run: &Run,
    ) -> io::Result<()> {
        if run.is_killed && self.place != Place::File {
            return Err(unread());
        }
        match self.place {
            Place::Memory => self.check_in_memory(report, case, run),
            Place::Database => self.check_in_database(report, case, run),
            Place::File => check_in_file(report, case, run),
        }
    }

    /// Makes a run over the rows in memory, over all calls that are to fail each in turn where it says so.
    fn check_in_memory(
        &mut self,
        report: &mut Report<'_>,
        case: Case<'_>,
        run: &Run,
    ) -> io::Result<()> {
        if let Some(each) = run.each {
            return check_each(report, case, run, &self.rows, each);
        }
        let alloc = report.alloc();
        let keeper = mem::replace(&mut self.rows, no_rows(alloc));
        let (outcome, keeper) = made_in_memory(alloc, run, keeper, run.read_input(), None)?;
        self.rows = keeper;
        compare(report, case, run, &outcome, Some(self.rows.rows()))
    }

    /// Makes a run over the database.
    fn check_in_database(
        &mut self,
        report: &mut Report<'_>,
        case: Case<'_>,
        run: &Run,
    ) -> io::Result<()> {
        let Some(connection) = self.database.take() else {
            return Err(unread());
        };
        let mut keeper = SqliteKeeper::over(report.alloc(), connection);
        let checked = check_over(report, case, run, &mut keeper);
        self.database = keeper.into_connection();
        checked
    }

    /// Does what a line says that changes the rows between two runs: a row is put or taken out, a statement changes the
    /// database, a file is copied or emptied; or that two files have the same bytes, or that there is no such file.
    /// Whether it is such a line.
    pub(crate) fn change(&mut self, rt: &HostRuntime, mark: &str, rest: &str) -> io::Result<bool> {
        match self.place {
            Place::Memory => self.change_rows(rt.alloc(), mark, rest),
            Place::Database => self.change_database(mark, rest),
            Place::File => change_files(rt, mark, rest),
        }
    }

    /// Puts a row in memory, or takes one out. Whether the line says so.
    fn change_rows(&mut self, alloc: Global, mark: &str, rest: &str) -> io::Result<bool> {
        match mark {
            "put" => put_all(alloc, &mut self.rows, rest)?,
            "gone" => take_out(alloc, &mut self.rows, rest)?,
            _ => return Ok(false),
        }
        Ok(true)
    }

    /// Does what a statement of the database says. Whether the line is one.
    fn change_database(&mut self, mark: &str, rest: &str) -> io::Result<bool> {
        if mark == "sql" {
            self.execute(rest)?;
        }
        Ok(mark == "sql")
    }

    /// Does what a statement of the database says.
    fn execute(&mut self, statement: &str) -> io::Result<()> {
        let Some(connection) = &mut self.database else {
            return Err(unread());
        };
        match connection.execute(statement, &[]) {
            Ok(_) => Ok(()),
            Err(_) => Err(unread()),
        }
    }
}

/// Copies or empties a file, or checks that two have the same bytes, or that there is none. Whether the line says so.
fn change_files(rt: &HostRuntime, mark: &str, rest: &str) -> io::Result<bool> {
    match mark {
        "copy" => copy(rt, rest)?,
        "empty" => fs::write(rt, rest, "")?,
        "same" => check_same(rt, rest)?,
        "absent" => check_absent(rt, rest)?,
        _ => return Ok(false),
    }
    Ok(true)
}

/// Copies the file that the first word names to the second.
fn copy(rt: &HostRuntime, words: &str) -> io::Result<()> {
    let (from, to) = words.split_once(' ').unwrap_or((words, ""));
    fs::copy(rt, from, to)?;
    Ok(())
}

/// Checks that the files which the two words name have the same bytes.
fn check_same(rt: &HostRuntime, words: &str) -> io::Result<()> {
    let (one, other) = words.split_once(' ').unwrap_or((words, ""));
    let bytes = fs::read(rt, one)?;
    let others = fs::read(rt, other)?;
    if bytes.is_empty() || bytes.as_slice() != others.as_slice() {
        return Err(unread());
    }
    Ok(())
}

/// Checks that there is no file of this name.
fn check_absent(rt: &HostRuntime, name: &str) -> io::Result<()> {
    if fs::exists(rt, name)? {
        return Err(unread());
    }
    Ok(())
}

/// Makes a run over a keeper, and compares. Calls of the keeper that fail, and calls that fail each in turn, are for
/// one in memory.
fn check_over<K: Keeper>(
    report: &mut Report<'_>,
    case: Case<'_>,
    run: &Run,
    keeper: &mut K,
) -> io::Result<()> {
    if run.each.is_some() || run.has_keeper_fault() {
        return Err(unread());
    }
    let alloc = report.alloc();
    let outcome = made(alloc, run, keeper, run.read_input(), None)?;
    let rows = rows_in(alloc, keeper)?;
    compare(report, case, run, &outcome, rows.as_deref())
}

/// Makes a run over the file that the words name, as the program does: over whatever the file held before, and then
/// closes it, unless the run is one that is killed.
fn check_in_file(report: &mut Report<'_>, case: Case<'_>, run: &Run) -> io::Result<()> {
    let mut keeper = FileKeeper::at(report.rt(), named_book(run.words.as_slice()), Unknown);
    let checked = check_over(report, case, run, &mut keeper);
    if !leave(keeper, run.is_killed) {
        report.fail(case.at(run.line), "a file that is closed", "an error")?;
    }
    checked
}

/// Closes the file of a keeper, or leaves it as where the program is killed. Whether no error came.
fn leave(keeper: FileKeeper<Unknown>, is_killed: bool) -> bool {
    if is_killed {
        discard(keeper, true)
    } else {
        keeper.close().is_ok()
    }
}
