ghost use Rattle.std.specs.Prelude.{◌≡◌, ◌≢◌, [], false, IsTrue, OnOk, IfOk};
ghost use Rattle.sqlite.specs.State.{HasCleanDisk, IsLive, Opens};
ghost use Rattle.sqlite.specs.Held.{state};
ghost use Rattle.book_sqlite.specs.RowsSchema.{no_schema};
ghost use Rattle.book_sqlite.specs.RowsDatabase.{HasRowids, ListsRows};
ghost use Rattle.book_sqlite.specs.RowCalls.{IsSure, IsReady};

use crate::schema_test::{is_empty, is_of_rows};
use sqlite::{Alter, Connection, Error, ErrorCode};
use std::alloc::Global;

/// Makes the table of rows in a database that has nothing yet.
fn make_table<S: Alter>(conn: &mut Connection<S>) -> Result<(), Error>
    requires autocommit { conn.old.in_transaction ≡ false }
    requires empty { (state S.Store conn.old).now.schema ≡ no_schema }
    ensures ready { OnOk result (IsReady (state S.Store conn.new)) }
    ensures empty { OnOk result (HasCleanDisk (state S.Store conn.new)
        → (state S.Store conn.new).now.trees 0 ≡ []) }
    ensures clean { HasCleanDisk (state S.Store conn.new) → HasCleanDisk (state S.Store conn.old) }
    ensures open { OnOk result (HasCleanDisk (state S.Store conn.new) → IsTrue (state S.Store conn.new).is_open) }
{
    conn.execute(
        "CREATE TABLE bk_rows(kind INTEGER, id INTEGER, body BLOB, PRIMARY KEY(kind, id)) STRICT",
        &[],
    )?;
    if conn.is_autocommit() {
        Ok(())
    } else {
        Err(Error::SqliteFailure(ErrorCode::TransactionState))
    }
}

/// Makes the table of rows where the database has nothing yet. Refuses another schema than that of a file of rows. A
/// database that has something is left as it is.
fn with_table<S: Alter>(conn: &mut Connection<S>) -> Result<(), Error>
    requires autocommit { conn.old.in_transaction ≡ false }
    requires settled { IsSure (state S.Store conn.old)
        → (state S.Store conn.old).now ≡ (state S.Store conn.old).committed }
    requires rowids { IsSure (state S.Store conn.old) → HasRowids (state S.Store conn.old).now }
    ensures ready { OnOk result (IsReady (state S.Store conn.new)) }
    ensures empty { OnOk result (HasCleanDisk (state S.Store conn.new)
        → (state S.Store conn.old).now.schema ≡ no_schema → (state S.Store conn.new).now.trees 0 ≡ []) }
    ensures clean { HasCleanDisk (state S.Store conn.new) → HasCleanDisk (state S.Store conn.old) }
    ensures open { OnOk result (HasCleanDisk (state S.Store conn.new) → IsTrue (state S.Store conn.old).is_open
        → IsTrue (state S.Store conn.new).is_open) }
    ensures left { (state S.Store conn.old).now.schema ≢ no_schema → conn.new ≡ conn.old }
{
    let schema = conn.schema();
    if is_of_rows(schema) {
        return Ok(());
    }
    if !is_empty(schema) {
        return Err(Error::SqliteFailure(ErrorCode::NotADatabase));
    }
    make_table(conn)
}

/// The connection, over a file of rows: where the database has nothing yet, the table is made. Where it has the table,
/// the rows are those of its last commit.
pub fn prepared<S: Alter + Drop>(connection: Connection<S>) -> Result<Connection<S>, Error>
    requires autocommit { connection.in_transaction ≡ false }
    requires opened { HasCleanDisk (state S.Store connection)
        → Opens (state S.Store connection) × IsLive (state S.Store connection) }
    requires rowids { IsSure (state S.Store connection) → HasRowids (state S.Store connection).now }
    ensures ready { IfOk result (λ c. IsReady (state S.Store c)) }
    ensures empty { IfOk result (λ c. HasCleanDisk (state S.Store c)
        → (state S.Store connection).now.schema ≡ no_schema → (state S.Store c).now.trees 0 ≡ []) }
    ensures clean { IfOk result (λ c. HasCleanDisk (state S.Store c) → HasCleanDisk (state S.Store connection)) }
    ensures open { IfOk result (λ c. HasCleanDisk (state S.Store c) → IsTrue (state S.Store c).is_open) }
    ensures rows { IfOk result (λ c. HasCleanDisk (state S.Store c)
        → ListsRows (state S.Store connection).committed.trees
        → (state S.Store c).committed.trees ≡ (state S.Store connection).committed.trees) }
{
    let mut connection = connection;
    with_table(&mut connection)?;
    Ok(connection)
}

/// The connection, whose database is checked once more: no clause of the kit says of a connection that was used since
/// it was opened that the rowids of its table rise.
pub fn checked_again<S: Alter + Drop>(
    alloc: Global,
    connection: Connection<S>,
) -> Result<Connection<S>, Error>
    ensures autocommit { IfOk result (λ c. c.in_transaction ≡ false) }
    ensures opened { IfOk result (λ c. HasCleanDisk (state S.Store c)
        → Opens (state S.Store c) × IsLive (state S.Store c)) }
    ensures rowids { IfOk result (λ c. IsSure (state S.Store c) → HasRowids (state S.Store c).now) }
    ensures clean { IfOk result (λ c. HasCleanDisk (state S.Store c) → HasCleanDisk (state S.Store connection)) }
    ensures trees { IfOk result (λ c. HasCleanDisk (state S.Store c)
        → (state S.Store c).committed.trees ≡ (state S.Store connection).committed.trees) }
{
    let store = connection.into_store();
    if store.is_broken() {
        return Err(Error::SqliteFailure(ErrorCode::Closed));
    }
    match Connection::over(alloc, store) {
        Ok(connection) => Ok(connection),
        Err((error, _)) => Err(error),
    }
}
