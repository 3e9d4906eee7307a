ghost use Rattle.std.specs.Prelude.{◌≡◌, ◌≢◌, [], false, IsTrue, OnOk, OnErr};
ghost use Rattle.sqlite.specs.State.{HasCleanDisk, Survives};
ghost use Rattle.sqlite.specs.Held.{state};
ghost use Rattle.book_keeper.specs.Rows.{AreRising, after_changes};
ghost use Rattle.book_sqlite.specs.Content.{rows_of};
ghost use Rattle.book_sqlite.specs.RowsDatabase.{IsRowsDatabase, rows_in};
ghost use Rattle.book_sqlite.specs.RowCalls.{Committed, StaysCommitted};

use crate::statements::make;
use book_keeper::Change;
use sqlite::{Alter, Connection, Error};

/// Makes all the changes in one transaction or, at an error, none.
pub fn make_all<S: Alter>(conn: &mut Connection<S>, changes: &[Change]) -> Result<(), Error>
    requires autocommit { conn.old.in_transaction ≡ false }
    requires rising { AreRising changes.now }
    ensures autocommit { conn.new.in_transaction ≡ false }
    ensures made { OnOk result (HasCleanDisk (state S.Store conn.new)
        → Committed (state S.Store conn.old) (state S.Store conn.new) (after_changes changes.now)) }
    ensures unchanged { OnErr result (HasCleanDisk (state S.Store conn.new)
        → StaysCommitted (state S.Store conn.old) (state S.Store conn.new)) }
    ensures survives { Survives (state S.Store conn.old) (state S.Store conn.new)
        (λ db. (changes.now ≢ [] → IsTrue (state S.Store conn.old).is_open)
        × (IsRowsDatabase (state S.Store conn.old).now
        → rows_of (db 0) ≡ after_changes changes.now (rows_in (state S.Store conn.old).now))) }
{
    let mut tx = conn.transaction();
    for change in changes {
        make(&mut tx, change)?;
    }
    tx.commit()
}
