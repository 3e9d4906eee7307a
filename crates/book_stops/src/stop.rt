use crate::disk::{Ending, FusedFiles, Fuses, first_files, next_files};
use crate::making::{Progress, made};
use crate::start::{Found, Start};
use book_commodity::discard;
use book_keeper::{Keeper, Row};
use book_sqlite::SqliteKeeper;
use gate_rows::{rows_in, unread};
use sqlite::{Connection, FileStore, Options};
use sqlite_disk::{Fuse, Memory};
use std::alloc::Global;
use std::io;

type Store = FileStore<Fuse<Memory>>;

/// A small book needs few pages, and a run that makes room for few takes less time.
const FEW_PAGES: Options = Options {
    cache_pages: 40,
    spill_pages: 40,
    checkpoint_frames: 1_000,
    seed: 7,
};

/// A run that ended: what it came to, whether its files were closed without an error, and the files.
#[derive(Drop)]
struct Ended {
    made: Progress,
    is_closed: bool,
    files: FusedFiles,
}

/// The connection to the files, or what is left of them.
fn opened(alloc: Global, files: FusedFiles) -> Result<Connection<Store>, FusedFiles> {
    if !files.may_be_used() {
        return Err(files);
    }
    match Connection::open_files(alloc, files, FEW_PAGES) {
        Ok(connection) => Ok(connection),
        Err((_, left)) => Err(left.into_files()),
    }
}

/// The connection with the table of rows, as the keeper would make it; made here, since the keeper does not give back a
/// connection in which it can't make it.
fn with_table(mut connection: Connection<Store>) -> Result<Connection<Store>, FusedFiles> {
    if make_table(&mut connection) {
        Ok(connection)
    } else {
        Err(connection.into_store().close())
    }
}

/// Makes the table of rows. Whether that succeeded.
fn make_table(connection: &mut Connection<Store>) -> bool {
    let made = connection.execute(
        "CREATE TABLE bk_rows(kind INTEGER, id INTEGER, body BLOB, PRIMARY KEY(kind, id)) STRICT",
        &[],
    );
    made.is_ok()
}

/// The connection to the files that a run begins with; where they are new, the table of rows is made in them. Or what
/// is left of the files.
fn begun(alloc: Global, files: FusedFiles, is_new: bool) -> Result<Connection<Store>, FusedFiles> {
    match opened(alloc, files) {
        Ok(connection) if is_new => with_table(connection),
        ended => ended,
    }
}

/// The files after they were closed, and whether that succeeded.
fn closed(connection: Connection<Store>) -> (bool, FusedFiles) {
    match connection.close_files() {
        Ok(files) => (true, files),
        Err((_, store)) => (false, store.close()),
    }
}

/// Runs the lines over the connection. An error where the keeper does not give it back.
fn run_over(alloc: Global, connection: Connection<Store>, lines: &[&str]) -> io::Result<Ended> {
    let mut keeper = SqliteKeeper::over(alloc, connection);
    let made = made(alloc, &mut keeper, lines);
    match keeper.into_connection() {
        Some(connection) => close_after(made, connection),
        None => Err(io::Error::other("there is no connection")),
    }
}

/// Closes the connection after a run. How the run ended.
fn close_after(made: io::Result<Progress>, connection: Connection<Store>) -> io::Result<Ended> {
    let (is_closed, files) = closed(connection);
    match made {
        Ok(made) => Ok(Ended {
            made,
            is_closed,
            files,
        }),
        Err(error) => Err(discard(files, error)),
    }
}

/// Runs the lines over files, in which the table of rows is made first where they are new.
fn run_on(alloc: Global, files: FusedFiles, is_new: bool, lines: &[&str]) -> io::Result<Ended> {
    match begun(alloc, files, is_new) {
        Ok(connection) => run_over(alloc, connection, lines),
        Err(files) => Ok(unopened(files)),
    }
}

/// The run that ended before its first line.
fn unopened(files: FusedFiles) -> Ended {
    Ended {
        made: Progress {
            done: Some(0),
            is_whole: false,
        },
        is_closed: false,
        files,
    }
}

/// The rows of the book in the files, or none where it can't be opened.
fn rows_again(alloc: Global, files: FusedFiles) -> io::Result<Option<Vec<Row>>> {
    match opened(alloc, files) {
        Ok(connection) => rows_over(alloc, connection),
        Err(files) => Ok(discard(files, None)),
    }
}

/// The rows that a keeper over the connection holds, or none where it can't be opened.
fn rows_over(alloc: Global, connection: Connection<Store>) -> io::Result<Option<Vec<Row>>> {
    let mut keeper = SqliteKeeper::over(alloc, connection);
    rows_held(alloc, &mut keeper)
}

/// The rows of a keeper that is opened, or none where it can't be.
fn rows_held<K: Keeper>(alloc: Global, keeper: &mut K) -> io::Result<Option<Vec<Row>>> {
    if keeper.open("a.book").is_ok() {
        rows_in(alloc, keeper)
    } else {
        Ok(None)
    }
}

/// The rows of a book whose file has these bytes, or none where it can't be opened.
pub(crate) fn rows_at_first(alloc: Global, book: &[u8]) -> io::Result<Option<Vec<Row>>> {
    rows_again(alloc, first_files(alloc, book, Fuses::none())?)
}

/// The rows of the book in the files after one more run of these lines, or none where one was not done.
fn rows_after_next(
    alloc: Global,
    files: FusedFiles,
    lines: &[&str],
) -> io::Result<Option<Vec<Row>>> {
    let Ended {
        made,
        is_closed,
        files,
    } = run_on(alloc, files, false, lines)?;
    if made.is_whole && is_closed {
        rows_again(alloc, files)
    } else {
        Ok(discard(files, None))
    }
}

/// Whether one more run over the files leaves the rows after all lines, of which so many are done.
fn goes_on(alloc: Global, files: FusedFiles, start: Start<'_>, done: usize) -> io::Result<bool> {
    match rows_after_next(alloc, files, start.left(done))? {
        Some(rows) => start.leaves(alloc, rows.as_slice(), start.lines.len()),
        None => Ok(false),
    }
}

/// What the book holds that is opened again after a run with these fuses.
pub(crate) fn found_after(
    alloc: Global,
    fuses: Fuses,
    ending: Ending,
    start: Start<'_>,
) -> io::Result<Found> {
    let files = first_files(alloc, start.book, fuses)?;
    let mut ended = run_on(alloc, files, start.is_new(), start.lines)?;
    let found = found_in(alloc, &mut ended, ending, start);
    discard(ended, found)
}

/// What the book holds that is opened again after this run. An error where the run was not stopped, and does not leave
/// all rows.
fn found_in(
    alloc: Global,
    ended: &mut Ended,
    ending: Ending,
    start: Start<'_>,
) -> io::Result<Found> {
    let found = known_in(alloc, ended, ending, start)?;
    if !(ended.made.is_whole && ended.is_closed) {
        return Ok(found);
    }
    match found {
        Found::Other => Err(unread()),
        _ => Ok(Found::All),
    }
}

/// Which rows the book holds that is opened again after this run. They are others where one more run does not go on.
fn known_in(
    alloc: Global,
    ended: &mut Ended,
    ending: Ending,
    start: Start<'_>,
) -> io::Result<Found> {
    let files = next_files(alloc, &mut ended.files, ending)?;
    let Some(rows) = rows_again(alloc, files)? else {
        return Ok(Found::Other);
    };
    let Some((found, done)) = start.found(alloc, rows.as_slice(), ended.made)? else {
        return Ok(Found::Other);
    };
    let files = next_files(alloc, &mut ended.files, ending)?;
    if goes_on(alloc, files, start, done)? {
        Ok(found)
    } else {
        Ok(Found::Other)
    }
}
