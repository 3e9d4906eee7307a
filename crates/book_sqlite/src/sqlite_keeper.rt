ghost use Rattle.std.specs.Prelude.{◌≡◌, ◌≢◌, ◌↔◌, ◌<◌, ◌≤◌, ◌⊎◌, false, [], List, Some, None, IsTrue};
ghost use Rattle.std.specs.Prelude.{IfOk, IfErr, IfSome, IsSome, OnOk, OnErr};
ghost use Rattle.sqlite_value.specs.Order.{Row as Entry};
ghost use Rattle.sqlite.specs.State.{HasCleanDisk, IsLive, Opens};
ghost use Rattle.sqlite.specs.Held.{state};
ghost use Rattle.book_keeper.specs.Faults.{Rose};
ghost use Rattle.book_keeper.specs.Keeping.{HasKeepCause};
ghost use Rattle.book_keeper.specs.Rows.{AreRising, rank, after_changes, first_after, first_row};
ghost use Rattle.book_sqlite.specs.Content.{rows_of};
ghost use Rattle.book_sqlite.specs.RowsDatabase.{HasRowids, ListsNothing, ListsRows};
ghost use Rattle.book_sqlite.specs.RowCalls.{IsSure, PassesNone};
ghost use Rattle.book_sqlite.specs.KeeperInSqlite.{is_sure, HoldsRows, HasEntries, MayLeave, has_clean_store};

use crate::commit::make_all;
use crate::opening::{checked_again, prepared};
use crate::read_ahead::ReadAhead;
use crate::selects::rows_after;
use book_commodity::Text;
use book_keeper::{Change, KeepError, Keeper, Row, RowKey};
use sqlite::{Alter, Connection, Error, ErrorCode};
use std::alloc::Global;
use std::marker::Model;

/// A keeper of rows in the one table of a SQLite database, over any store. It knows its rows while the store is clean
/// and the connection open.
#[derive(Drop)]
pub struct SqliteKeeper<S: Alter> {
    connection: Option<Connection<S>>,
    ahead: ReadAhead,
    lacked_memory: bool,
    alloc: Global,
    path: Text,
    faults: u64,
}

impl<S: Alter> Model for SqliteKeeper<S> {
    ghost use Rattle.book_sqlite.specs.KeeperInSqlite.{SqliteKept, kept_code, IsKept, AreAhead};
    ghost use Rattle.book_sqlite.specs.RowCalls.{AreAbove};

    ghost Value = { SqliteKept S };

    ghost coded = { kept_code S.code };

    ghost view = { λ k. record { connection = k.connection; path = k.path; faults = k.faults } };

    ghost invariant = { λ k. IsKept S.Store k.connection
        × (AreAbove k.ahead.after k.ahead.rows.items
        × AreAhead S.Store k.connection k.ahead.after k.ahead.rows.items) };
}

impl<S: Alter + Drop> SqliteKeeper<S> {
    ghost use Rattle.book_keeper.specs.declared.row.Row.{Row};
    ghost use Rattle.book_sqlite.specs.KeeperInSqlite.{AreAhead};
    ghost use Rattle.book_sqlite.specs.RowCalls.{AreAbove};

    /// A keeper over this connection, whose database is checked once more. Where the database has nothing yet, it makes
    /// the table of rows, and the keeper holds none. Where it has the table, the keeper holds the rows of the last
    /// commit. Another schema is left as it is, and `open` fails.
    pub fn over(alloc: Global, connection: Connection<S>) -> SqliteKeeper<S>
        ensures clean { IsTrue (is_sure S.Store result) → HasCleanDisk (state S.Store connection) }
        ensures known { IsTrue (has_clean_store S.Store result) → IsTrue (is_sure S.Store result) }
        ensures settled { IsTrue (is_sure S.Store result) → (rows : List Row)
            → MayLeave S.Store result rows ↔ HoldsRows S.Store result rows }
        ensures rows { IsTrue (is_sure S.Store result) → ListsRows (state S.Store connection).committed.trees
            → HoldsRows S.Store result (rows_of ((state S.Store connection).committed.trees 0)) }
        ensures empty { IsTrue (is_sure S.Store result) → ListsNothing (state S.Store connection).committed.trees
            → HoldsRows S.Store result [] }
        ensures path { result.path ≡ [] }
        ensures faults { result.faults ≡ 0 }
    {
        match checked_again(alloc, connection) {
            Ok(connection) => SqliteKeeper::over_opened(alloc, connection),
            Err(error) => SqliteKeeper::unopened(alloc, is_want_of_memory(error)),
        }
    }

    /// A keeper as `over` makes it, over a connection that was just opened, which checked the database.
    pub(crate) fn over_opened(alloc: Global, connection: Connection<S>) -> SqliteKeeper<S>
        requires autocommit { connection.in_transaction ≡ false }
        requires opened { HasCleanDisk (state S.Store connection)
            → Opens (state S.Store connection) × IsLive (state S.Store connection) }
        requires rowids { IsSure (state S.Store connection) → HasRowids (state S.Store connection).now }
        ensures clean { IsTrue (is_sure S.Store result) → HasCleanDisk (state S.Store connection) }
        ensures known { IsTrue (has_clean_store S.Store result) → IsTrue (is_sure S.Store result) }
        ensures settled { IsTrue (is_sure S.Store result) → (rows : List Row)
            → MayLeave S.Store result rows ↔ HoldsRows S.Store result rows }
        ensures rows { IsTrue (is_sure S.Store result) → ListsRows (state S.Store connection).committed.trees
            → HoldsRows S.Store result (rows_of ((state S.Store connection).committed.trees 0)) }
        ensures empty { IsTrue (is_sure S.Store result) → ListsNothing (state S.Store connection).committed.trees
            → HoldsRows S.Store result [] }
        ensures path { result.path ≡ [] }
        ensures faults { result.faults ≡ 0 }
    {
        match prepared(connection) {
            Ok(connection) => SqliteKeeper {
                connection: Some(connection),
                ahead: ReadAhead::none(alloc),
                lacked_memory: false,
                alloc,
                path: Text::new(alloc),
                faults: 0,
            },
            Err(error) => SqliteKeeper::unopened(alloc, is_want_of_memory(error)),
        }
    }

    /// A keeper without a connection: `open` fails, or is out of memory where that was why there is none.
    pub(crate) fn unopened(alloc: Global, lacked_memory: bool) -> SqliteKeeper<S>
        ensures connection { result.connection ≡ None }
        ensures path { result.path ≡ [] }
        ensures faults { result.faults ≡ 0 }
    {
        SqliteKeeper {
            connection: None,
            ahead: ReadAhead::none(alloc),
            lacked_memory,
            alloc,
            path: Text::new(alloc),
            faults: 0,
        }
    }

    /// Gives the connection back. None where the keeper has none, since the database has another schema, or failed.
    pub fn into_connection(self) -> Option<Connection<S>>
        ensures { result ≡ self.connection }
    {
        self.connection
    }

    /// Reads ahead, in the store, the rows behind the key, or the first of all. What was read before is forgotten.
    /// Fails where the keeper has no connection, is out of memory where that was why there is none, and passes on what
    /// the store fails at.
    fn read_ahead(&mut self, after: Option<RowKey>) -> Result<ReadAhead, KeepError>
        ensures key { IfOk result (λ ahead. ahead.after ≡ after) }
        ensures next { IfOk result (λ ahead. AreAhead S.Store self.new.connection after ahead.rows.items) }
        ensures rising { IfOk result (λ ahead. AreAbove after ahead.rows.items) }
        ensures found { IfOk result (λ ahead. IsTrue (is_sure S.Store self.new) → (rows : List Row)
            → HoldsRows S.Store self.old rows → first_row ahead.rows.items ≡ first_after after rows) }
        ensures none_passed { IfOk result (λ ahead. IsTrue (is_sure S.Store self.new) → (entries : List Entry)
            → HasEntries S.Store self.old entries → PassesNone after entries (first_row ahead.rows.items)) }
        ensures honest { IsTrue (has_clean_store S.Store self.new) → IsTrue (has_clean_store S.Store self.old) }
        ensures sure { IsTrue (is_sure S.Store self.new) → IsTrue (is_sure S.Store self.old) }
        ensures known { OnOk result (IsTrue (has_clean_store S.Store self.new) → IsTrue (is_sure S.Store self.new)) }
        ensures left { IsTrue (has_clean_store S.Store self.new) → (rows : List Row) → MayLeave S.Store self.new rows
            → MayLeave S.Store self.old rows }
        ensures settled { OnOk result (IsTrue (is_sure S.Store self.new) → (rows : List Row)
            → MayLeave S.Store self.new rows ↔ HoldsRows S.Store self.new rows) }
        ensures rows { IsTrue (is_sure S.Store self.new) → (rows : List Row)
            → HoldsRows S.Store self.old rows → HoldsRows S.Store self.new rows }
        ensures there { OnOk result (IsSome self.new.connection) }
        ensures connection { IsSome self.old.connection → IsSome self.new.connection }
        ensures path { self.new.path ≡ self.old.path }
        ensures cause { HasKeepCause self.old.faults self.new.faults result }
    {
        self.ahead = ReadAhead::none(self.alloc);
        let Some(connection) = &mut self.connection else {
            let lacked_memory = self.lacked_memory;
            return Err(self.fail(lacked_memory));
        };
        match rows_after(self.alloc, connection, after) {
            Ok(rows) => Ok(ReadAhead::behind(after, rows)),
            Err(error) => Err(self.fail(is_want_of_memory(error))),
        }
    }

    /// Counts a fault, unless the call was out of memory.
    fn fail(&mut self, lacked_memory: bool) -> KeepError
        ensures connection { self.new.connection ≡ self.old.connection }
        ensures path { self.new.path ≡ self.old.path }
        ensures later { self.old.faults ≤ self.new.faults }
        ensures cause { result ≡ KeepError.Failed → Rose self.old.faults self.new.faults }
        ensures memory { result ≡ KeepError.OutOfMemory → IsTrue lacked_memory }
    {
        if lacked_memory {
            return KeepError::OutOfMemory;
        }
        self.faults = self.faults.saturating_add(1);
        KeepError::Failed
    }
}

/// Whether a call of the kit's was out of memory.
pub(crate) fn is_want_of_memory(error: Error) -> bool
    ensures { IsTrue result ↔ (error ≡ Error.SqliteFailure ErrorCode.OutOfMemory) }
{
    matches!(error, Error::SqliteFailure(ErrorCode::OutOfMemory))
}

/// The text of these characters.
fn text_of(alloc: Global, path: &str) -> Result<Text, KeepError>
    ensures value { IfOk result (λ text. text ≡ path.now) }
    ensures memory { IfErr result (λ error. error ≡ KeepError.OutOfMemory) }
{
    let mut text = String::new(alloc);
    match text.push_str(path) {
        Ok(()) => Ok(Text::of(text)),
        Err(_) => Err(KeepError::OutOfMemory),
    }
}

impl<S: Alter + Drop> Keeper for SqliteKeeper<S> {
    ghost use Rattle.book_keeper.specs.declared.row.Row.{Row};
    ghost use Rattle.book_sqlite.specs.KnownRows.{told_rows, only_rows, rising_rows, trusted_store};

    ghost path_given = { λ keeper. keeper.path };

    ghost honest = { has_clean_store S.Store };

    ghost sure = { is_sure S.Store };

    ghost holds = { HoldsRows S.Store };

    ghost may_leave = { MayLeave S.Store };

    ghost faults = { λ keeper. keeper.faults };

    ghost trusted = { λ keeper sure. trusted_store (record {
      view = S.Store.view;
      faults = S.Store.faults;
      recovers = S.Store.recovers;
      is_shielded = S.Store.is_shielded;
      is_step = S.Store.is_step;
      blamed = S.Store.blamed;
      names = S.Store.names;
    }) keeper sure };

    ghost told = { λ keeper sure. told_rows (record {
      view = S.Store.view;
      faults = S.Store.faults;
      recovers = S.Store.recovers;
      is_shielded = S.Store.is_shielded;
      is_step = S.Store.is_step;
      blamed = S.Store.blamed;
      names = S.Store.names;
    }) keeper sure };

    ghost one = { λ keeper rows other first second. only_rows (record {
      view = S.Store.view;
      faults = S.Store.faults;
      recovers = S.Store.recovers;
      is_shielded = S.Store.is_shielded;
      is_step = S.Store.is_step;
      blamed = S.Store.blamed;
      names = S.Store.names;
    }) keeper rows other first second };

    ghost rising = { λ keeper rows held. rising_rows (record {
      view = S.Store.view;
      faults = S.Store.faults;
      recovers = S.Store.recovers;
      is_shielded = S.Store.is_shielded;
      is_step = S.Store.is_step;
      blamed = S.Store.blamed;
      names = S.Store.names;
    }) keeper rows held };

    /// Reads the first rows ahead, so that a keeper whose store an earlier error has shut fails, and keeps the path;
    /// which store it is was said as the keeper was made. The first call of `next_row` for the first row of all then
    /// needs no second select. Fails where the keeper has no file of rows.
    fn open(&mut self, path: &str) -> Result<(), KeepError>
        ensures there { OnOk result (IsSome self.new.connection) }
        ensures connection { IsSome self.old.connection → IsSome self.new.connection }
        ensures path { OnOk result (self.new.path ≡ path.now) }
        ensures path_kept { OnErr result (self.new.path ≡ self.old.path) }
        ensures honest { IsTrue (has_clean_store S.Store self.new) → IsTrue (has_clean_store S.Store self.old) }
        ensures sure { IsTrue (is_sure S.Store self.new) → IsTrue (is_sure S.Store self.old) }
        ensures known { OnOk result (IsTrue (has_clean_store S.Store self.new) → IsTrue (is_sure S.Store self.new)) }
        ensures left { IsTrue (has_clean_store S.Store self.new) → (rows : List Row) → MayLeave S.Store self.new rows
            → MayLeave S.Store self.old rows }
        ensures settled { OnOk result (IsTrue (is_sure S.Store self.new) → (rows : List Row)
            → MayLeave S.Store self.new rows ↔ HoldsRows S.Store self.new rows) }
        ensures rows { IsTrue (is_sure S.Store self.new) → (rows : List Row)
            → HoldsRows S.Store self.old rows → HoldsRows S.Store self.new rows }
        ensures cause { HasKeepCause self.old.faults self.new.faults result }
    {
        let text = text_of(self.alloc, path)?;
        self.ahead = self.read_ahead(None)?;
        self.path = text;
        Ok(())
    }

    /// Makes all the changes in one transaction or, at an error, none, as far as it still knows its rows. At each exit,
    /// an error's too, a crash leaves the rows before the call or those after all the changes; after Ok, with the
    /// connection open, those after them alone. Where an earlier error shut the connection, it leaves only what it
    /// could leave before.
    fn commit(&mut self, changes: &[Change]) -> Result<(), KeepError>
        requires { AreRising changes.now }
        ensures crash { IsTrue (is_sure S.Store self.old) → IsTrue (has_clean_store S.Store self.new)
            → (rows held : List Row) → HoldsRows S.Store self.old held → MayLeave S.Store self.new rows
            → (rows ≡ held) ⊎ (rows ≡ after_changes changes.now held) }
        ensures left { IsTrue (has_clean_store S.Store self.new) → changes.now ≢ [] → (rows : List Row)
            → MayLeave S.Store self.new rows → MayLeave S.Store self.old rows
            ⊎ (IsTrue (is_sure S.Store self.old) × ((held : List Row) → HoldsRows S.Store self.old held
            → rows ≡ after_changes changes.now held)) }
        ensures settled { OnOk result (IsTrue (is_sure S.Store self.new) → (rows : List Row)
            → MayLeave S.Store self.new rows ↔ HoldsRows S.Store self.new rows) }
        ensures honest { IsTrue (has_clean_store S.Store self.new) → IsTrue (has_clean_store S.Store self.old) }
        ensures known { OnOk result (IsTrue (has_clean_store S.Store self.new) → IsTrue (is_sure S.Store self.new)) }
        ensures path { self.new.path ≡ self.old.path }
        ensures sure { IsTrue (is_sure S.Store self.new) → IsTrue (is_sure S.Store self.old) }
        ensures made { OnOk result (IsTrue (is_sure S.Store self.new) → (rows : List Row)
            → HoldsRows S.Store self.old rows → HoldsRows S.Store self.new (after_changes changes.now rows)) }
        ensures unchanged { OnErr result (IsTrue (is_sure S.Store self.new) → (rows : List Row)
            → HoldsRows S.Store self.old rows → HoldsRows S.Store self.new rows) }
        ensures there { OnOk result (IsSome self.new.connection) }
        ensures connection { IsSome self.old.connection → IsSome self.new.connection }
        ensures cause { HasKeepCause self.old.faults self.new.faults result }
    {
        self.ahead.forget();
        let Some(connection) = &mut self.connection else {
            return Err(self.fail(false));
        };
        match make_all(connection, changes) {
            Ok(()) => Ok(()),
            Err(error) => Err(self.fail(is_want_of_memory(error))),
        }
    }

    /// The row behind the key. It was read ahead, or else one select within the kind and, where that shows none, one
    /// over the greater kinds reads at most 64 rows. Fails at an entry that is no row of a book; it passes none over.
    fn next_row(&mut self, after: Option<RowKey>) -> Result<Option<Row>, KeepError>
        ensures none_passed { IfOk result (λ found. IsTrue (is_sure S.Store self.new) → (entries : List Entry)
            → HasEntries S.Store self.old entries → PassesNone after entries found) }
        ensures path { self.new.path ≡ self.old.path }
        ensures honest { IsTrue (has_clean_store S.Store self.new) → IsTrue (has_clean_store S.Store self.old) }
        ensures sure { IsTrue (is_sure S.Store self.new) → IsTrue (is_sure S.Store self.old) }
        ensures known { OnOk result (IsTrue (has_clean_store S.Store self.new) → IsTrue (is_sure S.Store self.old)
            → IsTrue (is_sure S.Store self.new)) }
        ensures left { IsTrue (has_clean_store S.Store self.new) → (rows : List Row) → MayLeave S.Store self.new rows
            → MayLeave S.Store self.old rows }
        ensures rows { IsTrue (is_sure S.Store self.new) → (rows : List Row)
            → HoldsRows S.Store self.old rows → HoldsRows S.Store self.new rows }
        ensures found { IfOk result (λ found. IsTrue (is_sure S.Store self.new) → (rows : List Row)
            → HoldsRows S.Store self.old rows → found ≡ first_after after rows) }
        ensures above { IfOk result (λ found. IfSome found (λ row. IfSome after (λ key. rank key < rank row.key))) }
        ensures there { OnOk result (IsSome self.new.connection) }
        ensures connection { IsSome self.old.connection → IsSome self.new.connection }
        ensures cause { HasKeepCause self.old.faults self.new.faults result }
    {
        if let Some(row) = self.ahead.take_behind(after) {
            return Ok(Some(row));
        }
        self.ahead = self.read_ahead(after)?;
        Ok(self.ahead.take_behind(after))
    }
}
