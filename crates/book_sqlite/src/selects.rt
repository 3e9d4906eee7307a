ghost use Rattle.std.specs.Prelude.{◌≡◌, ◌↔◌, ◌<◌, ◌^◌, ◌++◌, ◌∷◌, [], pos, IsTrue, List, Some};
ghost use Rattle.std.specs.Prelude.{IfOk, IfSome, OnOk, OnErr};
ghost use Rattle.sqlite_value.specs.declared.value.Value.TheVariants.{Int};
ghost use Rattle.sqlite_value.specs.Order.{column};
ghost use Rattle.sqlite_value.specs.Value.{owned};
ghost use Rattle.sqlite.specs.State.{HasCleanDisk, Survives};
ghost use Rattle.sqlite.specs.Held.{state};
ghost use Rattle.book_keeper.specs.declared.row.Row.{Row as HeldRow};
ghost use Rattle.book_keeper.specs.Rows.{rank, first_row, first_after};
ghost use Rattle.book_sqlite.specs.Content.{row_made};
ghost use Rattle.book_sqlite.specs.RowsDatabase.{rows_in};
ghost use Rattle.book_sqlite.specs.RowCalls.{IsReady, StaysCommitted, Shows, Behind, From, kinds_behind};
ghost use Rattle.book_sqlite.specs.RowCalls.{ReadsFrom, ReadsOn, IsFound, NoneBefore, PassesNone};
ghost use Rattle.book_sqlite.specs.RowCalls.{AreNextOn, AreAbove, AreAboveOn};

use crate::statements::{kind_value, number};
use book_commodity::Bytes;
use book_keeper::{Row, RowKey};
use sqlite::types::ValueRef;
use sqlite::{Alter, Connection, Error, ErrorCode, Row as Shown};
use std::alloc::Global;

/// The greatest number that SQL has.
const GREATEST: u64 = 0x7fff_ffff_ffff_ffff;

/// The least kind behind this one as SQL has it, or the least of all.
fn kind_behind(kind: Option<u8>) -> ValueRef<'static>
    ensures { owned result ≡ Int (kinds_behind kind) }
{
    match kind {
        Some(kind) => number(u64::from(kind) + 1),
        None => ValueRef::Int(i64::MIN),
    }
}

/// The first rows of this kind behind the number.
fn shown_behind<S: Alter>(conn: &mut Connection<S>, kind: u8, id: u64) -> Result<Vec<Shown>, Error>
    requires ready { IsReady (state S.Store conn.old) }
    requires fits { id < 2 ^ 63 }
    ensures ready { IsReady (state S.Store conn.new) }
    ensures clean { HasCleanDisk (state S.Store conn.new) → HasCleanDisk (state S.Store conn.old) }
    ensures open { OnOk result (HasCleanDisk (state S.Store conn.new) → IsTrue (state S.Store conn.new).is_open) }
    ensures survives { Survives (state S.Store conn.old) (state S.Store conn.new) (λ _. ⊥) }
    ensures stays { HasCleanDisk (state S.Store conn.new)
        → StaysCommitted (state S.Store conn.old) (state S.Store conn.new) }
    ensures shown { IfOk result (λ rows. HasCleanDisk (state S.Store conn.new)
        → IsTrue (state S.Store conn.new).is_open
        → Shows (Behind (pos kind) (pos id)) ((state S.Store conn.old).now.trees 0) rows.items) }
{
    conn.query_all(
        "SELECT kind, id, body FROM bk_rows WHERE kind = ?1 AND id > ?2 ORDER BY kind, id LIMIT 64",
        &[kind_value(kind), number(id)],
    )
}

/// The first rows of the greater kinds, or of all.
fn shown_from<S: Alter>(conn: &mut Connection<S>, kind: Option<u8>) -> Result<Vec<Shown>, Error>
    requires { IsReady (state S.Store conn.old) }
    ensures ready { IsReady (state S.Store conn.new) }
    ensures clean { HasCleanDisk (state S.Store conn.new) → HasCleanDisk (state S.Store conn.old) }
    ensures open { OnOk result (HasCleanDisk (state S.Store conn.new) → IsTrue (state S.Store conn.new).is_open) }
    ensures survives { Survives (state S.Store conn.old) (state S.Store conn.new) (λ _. ⊥) }
    ensures stays { HasCleanDisk (state S.Store conn.new)
        → StaysCommitted (state S.Store conn.old) (state S.Store conn.new) }
    ensures shown { IfOk result (λ rows. HasCleanDisk (state S.Store conn.new)
        → IsTrue (state S.Store conn.new).is_open
        → Shows (From (kinds_behind kind)) ((state S.Store conn.old).now.trees 0) rows.items) }
{
    conn.query_all(
        "SELECT kind, id, body FROM bk_rows WHERE kind >= ?1 ORDER BY kind, id LIMIT 64",
        &[kind_behind(kind)],
    )
}

/// The row that is shown, where it is one of a book: a kind of one byte, a number that is not negative, and bytes.
fn row_of(shown: &Shown) -> Result<Row, Error>
    ensures { IfOk result (λ row. row_made (column shown.now 0) (column shown.now 1) (column shown.now 2) ≡ Some row) }
{
    let kind: u64 = shown.get(0)?;
    let Ok(kind) = u8::try_from(kind) else {
        return Err(Error::IntegralValueOutOfRange(0));
    };
    let id: u64 = shown.get(1)?;
    let body: Vec<u8> = shown.get(2)?;
    Ok(Row {
        key: RowKey { kind, id },
        body: Bytes::of(body),
    })
}

/// Whether the second key is above the first.
fn is_above(low: RowKey, high: RowKey) -> bool
    ensures { IsTrue result ↔ (rank low < rank high) }
{
    high.kind > low.kind || high.kind == low.kind && high.id > low.id
}

/// Adds a row, or says as SQLite does that the program is out of memory.
fn push(rows: &mut Vec<Row>, row: Row) -> Result<(), Error>
    ensures added { OnOk result (rows.new.items ≡ rows.old.items ++ row ∷ []) }
    ensures kept { OnErr result (rows.new.items ≡ rows.old.items) }
{
    match rows.push(row) {
        Ok(()) => Ok(()),
        Err(_) => Err(Error::SqliteFailure(ErrorCode::OutOfMemory)),
    }
}

/// Adds the rows that are shown behind a key, as long as they rise. It ends before an entry that is no row of a book,
/// and where it is out of memory; the select for what is left out then says why.
fn read_on(rows: &mut Vec<Row>, key: RowKey, shown: &[Shown])
    ensures { (more : List HeldRow) × (rows.new.items ≡ rows.old.items ++ more) × ReadsOn key shown.now more }
{
    let mut last = key;
    for shown in shown {
        let Ok(row) = row_of(shown) else {
            return;
        };
        let key = row.key;
        if !is_above(last, key) {
            return;
        }
        if let Err(_) = push(rows, row) {
            return;
        }
        last = key;
    }
}

/// The rows that are shown: none where nothing is, else the first, which has to be a row of a book, and those that
/// `read_on` adds.
fn read_rows(alloc: Global, shown: &[Shown]) -> Result<Vec<Row>, Error>
    ensures { IfOk result (λ rows. ReadsFrom shown.now rows.items) }
{
    let mut rows = Vec::new(alloc);
    if let Some((first, more)) = shown.split_first() {
        let row = row_of(first)?;
        let key = row.key;
        push(&mut rows, row)?;
        read_on(&mut rows, key, more);
    }
    Ok(rows)
}

/// The first rows of the book of this kind behind the number.
fn rows_behind<S: Alter>(
    alloc: Global,
    conn: &mut Connection<S>,
    kind: u8,
    id: u64,
) -> Result<Vec<Row>, Error>
    requires ready { IsReady (state S.Store conn.old) }
    requires fits { id < 2 ^ 63 }
    ensures ready { IsReady (state S.Store conn.new) }
    ensures clean { HasCleanDisk (state S.Store conn.new) → HasCleanDisk (state S.Store conn.old) }
    ensures open { OnOk result (HasCleanDisk (state S.Store conn.new) → IsTrue (state S.Store conn.new).is_open) }
    ensures survives { Survives (state S.Store conn.old) (state S.Store conn.new) (λ _. ⊥) }
    ensures stays { HasCleanDisk (state S.Store conn.new)
        → StaysCommitted (state S.Store conn.old) (state S.Store conn.new) }
    ensures found { IfOk result (λ rows. HasCleanDisk (state S.Store conn.new)
        → IsTrue (state S.Store conn.new).is_open
        → IsFound (Behind (pos kind) (pos id)) (rows_in (state S.Store conn.old).now) (first_row rows.items)) }
    ensures none_before { IfOk result (λ rows. HasCleanDisk (state S.Store conn.new)
        → IsTrue (state S.Store conn.new).is_open
        → NoneBefore (Behind (pos kind) (pos id)) ((state S.Store conn.old).now.trees 0) (first_row rows.items)) }
    ensures next { IfOk result (λ rows. HasCleanDisk (state S.Store conn.new)
        → IsTrue (state S.Store conn.new).is_open → AreNextOn rows.items ((state S.Store conn.old).now.trees 0)) }
    ensures above { IfOk result (λ rows. AreAboveOn rows.items) }
{
    let shown = shown_behind(conn, kind, id)?;
    read_rows(alloc, shown.as_slice())
}

/// The first rows of the book of the greater kinds, or of all.
fn rows_from<S: Alter>(
    alloc: Global,
    conn: &mut Connection<S>,
    kind: Option<u8>,
) -> Result<Vec<Row>, Error>
    requires { IsReady (state S.Store conn.old) }
    ensures ready { IsReady (state S.Store conn.new) }
    ensures clean { HasCleanDisk (state S.Store conn.new) → HasCleanDisk (state S.Store conn.old) }
    ensures open { OnOk result (HasCleanDisk (state S.Store conn.new) → IsTrue (state S.Store conn.new).is_open) }
    ensures survives { Survives (state S.Store conn.old) (state S.Store conn.new) (λ _. ⊥) }
    ensures stays { HasCleanDisk (state S.Store conn.new)
        → StaysCommitted (state S.Store conn.old) (state S.Store conn.new) }
    ensures found { IfOk result (λ rows. HasCleanDisk (state S.Store conn.new)
        → IsTrue (state S.Store conn.new).is_open
        → IsFound (From (kinds_behind kind)) (rows_in (state S.Store conn.old).now) (first_row rows.items)) }
    ensures none_before { IfOk result (λ rows. HasCleanDisk (state S.Store conn.new)
        → IsTrue (state S.Store conn.new).is_open
        → NoneBefore (From (kinds_behind kind)) ((state S.Store conn.old).now.trees 0) (first_row rows.items)) }
    ensures next { IfOk result (λ rows. HasCleanDisk (state S.Store conn.new)
        → IsTrue (state S.Store conn.new).is_open → AreNextOn rows.items ((state S.Store conn.old).now.trees 0)) }
    ensures above { IfOk result (λ rows. AreAboveOn rows.items) }
{
    let shown = shown_from(conn, kind)?;
    read_rows(alloc, shown.as_slice())
}

/// The first rows of the book behind the key, where the first of them is above the key.
fn rows_next<S: Alter>(
    alloc: Global,
    conn: &mut Connection<S>,
    key: RowKey,
) -> Result<Vec<Row>, Error>
    requires { IsReady (state S.Store conn.old) }
    ensures ready { IsReady (state S.Store conn.new) }
    ensures clean { HasCleanDisk (state S.Store conn.new) → HasCleanDisk (state S.Store conn.old) }
    ensures open { OnOk result (HasCleanDisk (state S.Store conn.new) → IsTrue (state S.Store conn.new).is_open) }
    ensures survives { Survives (state S.Store conn.old) (state S.Store conn.new) (λ _. ⊥) }
    ensures stays { HasCleanDisk (state S.Store conn.new)
        → StaysCommitted (state S.Store conn.old) (state S.Store conn.new) }
    ensures found { IfOk result (λ rows. HasCleanDisk (state S.Store conn.new)
        → IsTrue (state S.Store conn.new).is_open
        → IfSome (first_row rows.items) (λ row. rank key < rank row.key)
        → first_row rows.items ≡ first_after (Some key) (rows_in (state S.Store conn.old).now)) }
    ensures none_passed { IfOk result (λ rows. HasCleanDisk (state S.Store conn.new)
        → IsTrue (state S.Store conn.new).is_open
        → PassesNone (Some key) ((state S.Store conn.old).now.trees 0) (first_row rows.items)) }
    ensures next { IfOk result (λ rows. HasCleanDisk (state S.Store conn.new)
        → IsTrue (state S.Store conn.new).is_open → AreNextOn rows.items ((state S.Store conn.old).now.trees 0)) }
    ensures above { IfOk result (λ rows. AreAboveOn rows.items) }
{
    let rows = rows_behind(alloc, conn, key.kind, key.id.min(GREATEST))?;
    if !rows.is_empty() {
        return Ok(rows);
    }
    rows_from(alloc, conn, Some(key.kind))
}

/// The first rows of the book behind the key, or the first of all.
pub fn rows_after<S: Alter>(
    alloc: Global,
    conn: &mut Connection<S>,
    after: Option<RowKey>,
) -> Result<Vec<Row>, Error>
    requires { IsReady (state S.Store conn.old) }
    ensures ready { IsReady (state S.Store conn.new) }
    ensures clean { HasCleanDisk (state S.Store conn.new) → HasCleanDisk (state S.Store conn.old) }
    ensures open { OnOk result (HasCleanDisk (state S.Store conn.new) → IsTrue (state S.Store conn.new).is_open) }
    ensures survives { Survives (state S.Store conn.old) (state S.Store conn.new) (λ _. ⊥) }
    ensures stays { HasCleanDisk (state S.Store conn.new)
        → StaysCommitted (state S.Store conn.old) (state S.Store conn.new) }
    ensures found { IfOk result (λ rows. HasCleanDisk (state S.Store conn.new)
        → IsTrue (state S.Store conn.new).is_open
        → first_row rows.items ≡ first_after after (rows_in (state S.Store conn.old).now)) }
    ensures none_passed { IfOk result (λ rows. HasCleanDisk (state S.Store conn.new)
        → IsTrue (state S.Store conn.new).is_open
        → PassesNone after ((state S.Store conn.old).now.trees 0) (first_row rows.items)) }
    ensures next { IfOk result (λ rows. HasCleanDisk (state S.Store conn.new)
        → IsTrue (state S.Store conn.new).is_open → AreNextOn rows.items ((state S.Store conn.old).now.trees 0)) }
    ensures above { IfOk result (λ rows. AreAbove after rows.items) }
{
    let Some(key) = after else {
        return rows_from(alloc, conn, None);
    };
    let rows = rows_next(alloc, conn, key)?;
    match rows.first() {
        Some(first) if !is_above(key, first.key) => Err(Error::InvalidQuery),
        _ => Ok(rows),
    }
}
