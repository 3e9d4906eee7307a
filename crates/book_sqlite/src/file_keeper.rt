ghost use Rattle.std.specs.Prelude.{◌≡◌, ◌↔◌, [], List, IsTrue, IfErr};
ghost use Rattle.sqlite_trees.specs.declared.error.StoreError.{StoreError};
ghost use Rattle.sqlite.specs.State.{store_error};
ghost use Rattle.sqlite_trees.specs.Tree.{Trees};
ghost use Rattle.sqlite.specs.WalFiles.{image_at};
ghost use Rattle.sqlite.specs.Files.{over_files, HoldsDatabase};
ghost use Rattle.book_keeper.specs.declared.row.Row.{Row};
ghost use Rattle.book_sqlite.specs.Content.{rows_of};
ghost use Rattle.book_sqlite.specs.RowsDatabase.{ListsRows};
ghost use Rattle.book_sqlite.specs.NewFiles.{HoldNothing};
ghost use Rattle.book_sqlite.specs.KeeperInSqlite.{is_sure, has_clean_store, HoldsRows, MayLeave};

use crate::SqliteKeeper;
use crate::orphan::usable_path;
use crate::sqlite_keeper::is_want_of_memory;
use sqlite::{Connection, Error, FileFrom, FileStore, Leftover, Start};
use std::rt::HostRuntime;

/// A keeper of rows in a SQLite file. `T` stands for what the file and its log held before: what is proved over every
/// `T` is proved of every file.
pub type FileKeeper<T> = SqliteKeeper<FileStore<FileFrom<T>>>;

/// Whether a file was not opened for want of memory. What is left of it is dropped.
fn lacked_memory<T: Start>(refused: (Error, Option<Leftover<FileFrom<T>>>)) -> bool {
    let (error, left) = refused;
    drop(left);
    is_want_of_memory(error)
}

impl<T: Start> SqliteKeeper<FileStore<FileFrom<T>>> {
    /// A keeper over the file at the path, which is made where there is none. Without a path, and where the file can't
    /// be opened or has another schema, `open` fails. So it does where a log that may hold commits stands beside a file
    /// that is missing or empty: the two are left as they are.
    pub fn at(rt: &HostRuntime, path: Option<&str>, start: T) -> FileKeeper<T>
        ensures found { IsTrue (is_sure over_files result) → (db : Trees) → HoldsDatabase (image_at T.Start) db
            → ListsRows db → HoldsRows over_files result (rows_of (db 0)) }
        ensures empty { IsTrue (is_sure over_files result) → HoldNothing (image_at T.Start)
            → HoldsRows over_files result [] }
        ensures known { IsTrue (has_clean_store over_files result) → IsTrue (is_sure over_files result) }
        ensures settled { IsTrue (is_sure over_files result) → (rows : List Row)
            → MayLeave over_files result rows ↔ HoldsRows over_files result rows }
        ensures path { result.path ≡ [] }
        ensures faults { result.faults ≡ 0 }
    {
        match usable_path(rt, path) {
            Ok(path) => SqliteKeeper::over_file(rt, path, start),
            Err(lacked_memory) => SqliteKeeper::unopened(rt.alloc(), lacked_memory),
        }
    }

    /// The same, over a file that no log stands beside alone.
    fn over_file(rt: &HostRuntime, path: &str, start: T) -> FileKeeper<T>
        ensures found { IsTrue (is_sure over_files result) → (db : Trees) → HoldsDatabase (image_at T.Start) db
            → ListsRows db → HoldsRows over_files result (rows_of (db 0)) }
        ensures empty { IsTrue (is_sure over_files result) → HoldNothing (image_at T.Start)
            → HoldsRows over_files result [] }
        ensures known { IsTrue (has_clean_store over_files result) → IsTrue (is_sure over_files result) }
        ensures settled { IsTrue (is_sure over_files result) → (rows : List Row)
            → MayLeave over_files result rows ↔ HoldsRows over_files result rows }
        ensures path { result.path ≡ [] }
        ensures faults { result.faults ≡ 0 }
    {
        match Connection::open_from(rt, path, false, start) {
            Ok(connection) => SqliteKeeper::over_opened(rt.alloc(), connection),
            Err(refused) => SqliteKeeper::unopened(rt.alloc(), lacked_memory(refused)),
        }
    }

    /// Closes the file, so that it alone holds the rows: the log beside it is copied into it. Where this fails, as on a
    /// full disk, the rows stay in the two files together, and the next keeper finds them there.
    /// An error is one of the store's. That the file alone then holds the rows has no clause, since the kit says
    /// nothing of it.
    pub fn close(self) -> Result<(), Error>
        ensures { IfErr result (λ error. (cause : StoreError) × (error ≡ store_error cause)) }
    {
        match self.into_connection() {
            Some(connection) => connection.close(),
            None => Ok(()),
        }
    }
}
