//! The rows of a book in SQLite: `SqliteKeeper` keeps them in the one table `bk_rows` of a database, over any store of
//! the kit's `sqlite`; `FileKeeper` is this keeper over a file. A commit is one transaction. Public are these two.
#![tactic(auto)]

mod commit;
mod file_keeper;
mod opening;
mod orphan;
mod read_ahead;
mod schema_test;
mod selects;
mod sqlite_keeper;
mod statements;

pub use file_keeper::FileKeeper;
pub use sqlite_keeper::SqliteKeeper;
