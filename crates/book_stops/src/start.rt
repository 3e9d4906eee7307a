use crate::making::{Progress, made};
use book_keeper::{Change, Keeper, MemKeeper, Row};
use gate_rows::{are_same, copy_of, memory, no_rows, unread};
use std::alloc::Global;
use std::io;

/// The numbers of rows that are given to a keeper are below this one.
const NUMBERS: u64 = 1 << 62;

/// What a book holds that is opened again.
#[derive(Clone, Copy)]
pub(crate) enum Found {
    /// The rows before the commit that was stopped.
    Before,
    /// The rows after it.
    After,
    /// All rows, and no call was stopped.
    All,
    /// Other rows, or none could be read, or the next run did not go on, or the run said that it lacked memory.
    Other,
}

/// What runs begin with, and their lines.
#[derive(Clone, Copy)]
pub(crate) struct Start<'a> {
    /// The bytes of the book's file; where there are none, the table of rows is made before the lines.
    pub(crate) book: &'a [u8],
    /// The rows of that file.
    pub(crate) held: &'a MemKeeper,
    pub(crate) lines: &'a [&'a str],
}

impl<'a> Start<'a> {
    /// Whether the book's file is empty at first.
    pub(crate) fn is_new(self) -> bool {
        self.book.is_empty()
    }

    /// The lines behind the first ones, so many of them.
    pub(crate) fn left(self, done: usize) -> &'a [&'a str] {
        self.lines.get(done..).unwrap_or(&[])
    }

    /// Whether the rows are those that a run of the first lines leaves in memory, so many of them.
    pub(crate) fn leaves(self, alloc: Global, rows: &[Row], done: usize) -> io::Result<bool> {
        let Some(lines) = self.lines.get(..done) else {
            return Ok(false);
        };
        let mut keeper = copy_of(alloc, self.held)?;
        made(alloc, &mut keeper, lines)?;
        Ok(are_same(rows, keeper.rows()))
    }

    /// Which rows these are after a run that was stopped, and how many lines are done in them.
    pub(crate) fn found(
        self,
        alloc: Global,
        rows: &[Row],
        made: Progress,
    ) -> io::Result<Option<(Found, usize)>> {
        match made.done {
            Some(done) if self.is_new() => self.found_in_new(alloc, rows, done),
            Some(_) => self.found_in_old(alloc, rows, made.is_whole),
            None => Ok(None),
        }
    }

    /// The same of a book that was empty at first: the rows are those after the lines that were done, or after one
    /// more.
    fn found_in_new(
        self,
        alloc: Global,
        rows: &[Row],
        done: usize,
    ) -> io::Result<Option<(Found, usize)>> {
        let more = done.saturating_add(1);
        if self.leaves(alloc, rows, done)? {
            Ok(Some((Found::Before, done)))
        } else if self.leaves(alloc, rows, more)? {
            Ok(Some((Found::After, more)))
        } else {
            Ok(None)
        }
    }

    /// The same of a book that had rows at first: they are still there, unless the run said that all was done, or those
    /// after all lines are.
    fn found_in_old(
        self,
        alloc: Global,
        rows: &[Row],
        is_whole: bool,
    ) -> io::Result<Option<(Found, usize)>> {
        let count = self.lines.len();
        if !is_whole && are_same(rows, self.held.rows()) {
            Ok(Some((Found::Before, 0)))
        } else if self.leaves(alloc, rows, count)? {
            Ok(Some((Found::After, count)))
        } else {
            Ok(None)
        }
    }
}

/// A keeper in memory with copies of these rows.
pub(crate) fn kept(alloc: Global, rows: &[Row]) -> io::Result<MemKeeper> {
    let mut keeper = no_rows(alloc);
    for row in rows {
        put(alloc, &mut keeper, row)?;
    }
    Ok(keeper)
}

/// Puts a copy of a row.
fn put(alloc: Global, keeper: &mut MemKeeper, row: &Row) -> io::Result<()> {
    if row.key.id >= NUMBERS {
        return Err(unread());
    }
    let Ok(row) = row.copy() else {
        return Err(memory());
    };
    let changes = vec![in alloc; Change::Put(row)]?;
    match keeper.commit(changes.as_slice()) {
        Ok(()) => Ok(()),
        Err(_) => Err(memory()),
    }
}
