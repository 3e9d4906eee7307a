ghost use Rattle.std.specs.Prelude.{◌≡◌, ◌<◌, ◌^◌, false, [], pos, IsTrue, OnOk, OnErr, IfOk};
ghost use Rattle.sqlite_value.specs.declared.value.Value.TheVariants.{Int, Blob};
ghost use Rattle.sqlite_value.specs.Value.{owned};
ghost use Rattle.sqlite.specs.State.{HasCleanDisk, KeepsCommit, Survives};
ghost use Rattle.sqlite.specs.Held.{state};
ghost use Rattle.book_keeper.specs.Rows.{with_row, without_row, after_change, changed_key};
ghost use Rattle.book_sqlite.specs.RowsSchema.{no_schema};
ghost use Rattle.book_sqlite.specs.RowsDatabase.{IsRowsDatabase};
ghost use Rattle.book_sqlite.specs.RowCalls.{ChangesInside};

use book_keeper::{Change, RowKey};
use sqlite::types::ValueRef;
use sqlite::{Alter, Error, Transaction};

/// A kind as SQL has it.
pub fn kind_value(kind: u8) -> ValueRef<'static>
    ensures { owned result ≡ Int (pos kind) }
{
    ValueRef::Int(i64::from(kind))
}

/// A number as SQL has it.
pub fn number(n: u64) -> ValueRef<'static>
    requires { n < 2 ^ 63 }
    ensures { owned result ≡ Int (pos n) }
{
    let Ok(n) = i64::try_from(n) else {
        unreachable!()
    };
    ValueRef::Int(n)
}

/// Bytes as SQL has them.
fn blob(bytes: &[u8]) -> ValueRef<'_>
    ensures { owned result ≡ Blob bytes.now }
{
    ValueRef::Blob(bytes)
}

/// Puts a row of these bytes under the key, in place of the one with the key if there is one.
fn put_row<S: Alter>(tx: &mut Transaction<'_, S>, key: RowKey, body: &[u8]) -> Result<usize, Error>
    requires { key.id < 2 ^ 62 }
    ensures same_reference { tx.new.conn.ghost_name ≡ tx.old.conn.ghost_name }
    ensures made { OnOk result (HasCleanDisk (state S.Store tx.new.conn.now) → IsTrue tx.old.conn.now.in_transaction
        → ChangesInside (state S.Store tx.old.conn.now) (state S.Store tx.new.conn.now)
        (with_row (record { key = key; body = body.now }))) }
    ensures kept { OnErr result (HasCleanDisk (state S.Store tx.new.conn.now) → IsTrue tx.old.conn.now.in_transaction
        → KeepsCommit (state S.Store tx.old.conn.now) (state S.Store tx.new.conn.now)) }
    ensures survives { Survives (state S.Store tx.old.conn.now) (state S.Store tx.new.conn.now) (λ _. ⊥) }
{
    tx.execute(
        "INSERT OR REPLACE INTO bk_rows(kind, id, body) VALUES (?1, ?2, ?3)",
        &[kind_value(key.kind), number(key.id), blob(body)],
    )
}

/// Deletes the row with the key, if there is one.
fn take_row<S: Alter>(tx: &mut Transaction<'_, S>, key: RowKey) -> Result<usize, Error>
    requires { key.id < 2 ^ 62 }
    ensures same_reference { tx.new.conn.ghost_name ≡ tx.old.conn.ghost_name }
    ensures made { OnOk result (HasCleanDisk (state S.Store tx.new.conn.now) → IsTrue tx.old.conn.now.in_transaction
        → ChangesInside (state S.Store tx.old.conn.now) (state S.Store tx.new.conn.now) (without_row key)) }
    ensures kept { OnErr result (HasCleanDisk (state S.Store tx.new.conn.now) → IsTrue tx.old.conn.now.in_transaction
        → KeepsCommit (state S.Store tx.old.conn.now) (state S.Store tx.new.conn.now)) }
    ensures survives { Survives (state S.Store tx.old.conn.now) (state S.Store tx.new.conn.now) (λ _. ⊥) }
{
    tx.execute(
        "DELETE FROM bk_rows WHERE kind = ?1 AND id = ?2",
        &[kind_value(key.kind), number(key.id)],
    )
}

/// Makes one change.
pub fn make<S: Alter>(tx: &mut Transaction<'_, S>, change: &Change) -> Result<usize, Error>
    requires { (changed_key change.now).id < 2 ^ 62 }
    ensures same_reference { tx.new.conn.ghost_name ≡ tx.old.conn.ghost_name }
    ensures made { OnOk result (HasCleanDisk (state S.Store tx.new.conn.now) → IsTrue tx.old.conn.now.in_transaction
        → ChangesInside (state S.Store tx.old.conn.now) (state S.Store tx.new.conn.now) (after_change change.now)) }
    ensures kept { OnErr result (HasCleanDisk (state S.Store tx.new.conn.now) → IsTrue tx.old.conn.now.in_transaction
        → KeepsCommit (state S.Store tx.old.conn.now) (state S.Store tx.new.conn.now)) }
    ensures survives { Survives (state S.Store tx.old.conn.now) (state S.Store tx.new.conn.now) (λ _. ⊥) }
{
    match change {
        Change::Put(row) => put_row(tx, row.key, row.body.as_slice()),
        Change::Gone(key) => take_row(tx, *key),
    }
}
