ghost use Rattle.std.specs.Prelude.{◌≡◌, ◌↔◌, ◌==◌, [], IfNone, IfOk, IfSome, IsTrue, List, OnErr, OnOk};
ghost use Rattle.std.specs.List.{before_first};
ghost use Rattle.hex.specs.Hex.{decode_of};
ghost use Rattle.book_keeper.specs.Faults.{Rose};
ghost use Rattle.book_keeper.specs.Rows.{after_change, with_row, without_row};
ghost use Rattle.book_keeper.specs.declared.row.Row.{Row};
ghost use Rattle.book_keeper.specs.declared.row.RowKey.{RowKey};
ghost use Rattle.gate_rows.specs.RowWords.{behind_word, digits_in, first_word, id_in, kind_in, number_of};

use crate::counters::{memory, number, unread};
use book_commodity::{Bytes, Many, OutOfMemory};
use book_keeper::{Change, KeepError, Keeper, MemKeeper, Row, RowKey};
use std::alloc::Global;
use std::io;

/// The numbers of rows that are given to a keeper are below this one.
const NUMBERS: u64 = 1 << 62;

/// Rows of a kind and of the numbers from a first to a last one, as a line spells them: `KIND ID HEX`, or
/// `KIND FIRST-LAST HEX`. The body may be empty.
#[derive(Drop)]
struct Spelled {
    kind: u8,
    first: u64,
    last: u64,
    body: Vec<u8>,
}

/// The rows that a line spells.
fn rows_of(alloc: Global, text: &str) -> io::Result<Spelled>
    ensures kind { IfOk result (λ rows. rows.kind ≡ kind_in text.now) }
    ensures first { IfOk result (λ rows. rows.first ≡ id_in text.now) }
    ensures body { IfOk result (λ rows. decode_of (digits_in text.now) ≡ Ok rows.body.items) }
{
    let (kind, rest) = word_and_rest(text);
    let Ok(kind) = u8::try_from(number(kind)?) else {
        return Err(unread());
    };
    let (ids, digits) = word_and_rest(rest);
    let (first, last) = first_and_last(ids)?;
    let Ok(body) = hex::decode(alloc, digits) else {
        return Err(unread());
    };
    if last < first {
        return Err(unread());
    }
    Ok(Spelled {
        kind,
        first,
        last,
        body,
    })
}

/// What stands before the first blank of a text and what stands behind it; the whole text and nothing where it has no
/// blank.
fn word_and_rest(text: &str) -> (&str, &str)
    ensures word { result.0.now ≡ first_word text.now }
    ensures rest { result.1.now ≡ behind_word text.now }
{
    match text.split_once(' ') {
        Some((word, rest)) => (word, rest),
        None => (text, ""),
    }
}

/// The numbers of a word `FIRST-LAST`, or of a word that is one number, which is the last one too.
fn first_and_last(word: &str) -> io::Result<(u64, u64)>
    ensures { IfOk result (λ numbers. numbers.0 ≡ number_of (before_first (λ byte. byte == 45) word.now)) }
{
    match word.split_once('-') {
        Some((first, last)) => Ok((number(first)?, number(last)?)),
        None => {
            let only = number(word)?;
            Ok((only, only))
        }
    }
}

/// The key and the body of the one row that a line spells, as `KIND ID HEX`.
pub fn row_of(alloc: Global, text: &str) -> io::Result<(RowKey, Vec<u8>)>
    ensures kind { IfOk result (λ row. row.0.kind ≡ kind_in text.now) }
    ensures id { IfOk result (λ row. row.0.id ≡ id_in text.now) }
    ensures body { IfOk result (λ row. decode_of (digits_in text.now) ≡ Ok row.1.items) }
{
    let Spelled {
        kind,
        first,
        last,
        body,
    } = rows_of(alloc, text)?;
    if first != last {
        return Err(unread());
    }
    Ok((RowKey { kind, id: first }, body))
}

/// A keeper in memory without rows.
pub fn no_rows(alloc: Global) -> MemKeeper
    ensures { result.rows ≡ [] }
{
    MemKeeper::new(Many::new(alloc), Many::new(alloc))
}

/// A keeper in memory with equal rows.
#[tactic(auto, using(crate::proofs::KeptLemmas::put_next))]
pub fn copy_of(alloc: Global, keeper: &MemKeeper) -> io::Result<MemKeeper>
    ensures { IfOk result (λ copy. copy.rows ≡ keeper.now.rows) }
{
    let mut copy = no_rows(alloc);
    for row in keeper.rows() {
        match row.copy() {
            Ok(row) => change(alloc, &mut copy, Change::Put(row))?,
            Err(OutOfMemory) => return Err(memory()),
        }
    }
    Ok(copy)
}

/// Puts the rows that a line spells. One whose number is too great to be given to a keeper can only be its first.
pub fn put_all(alloc: Global, keeper: &mut MemKeeper, text: &str) -> io::Result<()> {
    let Spelled {
        kind,
        first,
        last,
        body,
    } = rows_of(alloc, text)?;
    for id in first..=last {
        let row = Row {
            key: RowKey { kind, id },
            body: Bytes::of(body.as_slice().to_vec(alloc)?),
        };
        put(alloc, keeper, row)?;
    }
    Ok(())
}

/// Puts a row.
fn put(alloc: Global, keeper: &mut MemKeeper, row: Row) -> io::Result<()>
    ensures put { OnOk result (keeper.new.rows ≡ with_row row keeper.old.rows) }
    ensures kept { OnErr result (keeper.new.rows ≡ keeper.old.rows) }
{
    if row.key.id < NUMBERS {
        return change(alloc, keeper, Change::Put(row));
    }
    if !keeper.rows().is_empty() {
        return Err(unread());
    }
    *keeper = MemKeeper::new(Many::of(vec![in alloc; row]?), Many::new(alloc));
    Ok(())
}

/// Takes out the row whose key a line spells.
pub fn take_out(alloc: Global, keeper: &mut MemKeeper, text: &str) -> io::Result<()>
    ensures taken { OnOk result ((key : RowKey) × (keeper.new.rows ≡ without_row key keeper.old.rows)) }
    ensures kept { OnErr result (keeper.new.rows ≡ keeper.old.rows) }
{
    let (key, _) = row_of(alloc, text)?;
    change(alloc, keeper, Change::Gone(key))
}

/// Makes a change of a row, whose number is not too great to be given to a keeper.
fn change(alloc: Global, keeper: &mut MemKeeper, change: Change) -> io::Result<()>
    ensures made { OnOk result (keeper.new.rows ≡ after_change change keeper.old.rows) }
    ensures kept { OnErr result (keeper.new.rows ≡ keeper.old.rows) }
{
    let id = match &change {
        Change::Put(row) => row.key.id,
        Change::Gone(key) => key.id,
    };
    if id >= NUMBERS {
        return Err(unread());
    }
    let changes = vec![in alloc; change]?;
    match keeper.commit(changes.as_slice()) {
        Ok(()) => Ok(()),
        Err(_) => Err(memory()),
    }
}

/// Whether the rows are the same.
pub fn are_same(rows: &[Row], others: &[Row]) -> bool
    ensures { IsTrue result ↔ (rows.now ≡ others.now) }
{
    let (mut left, mut right) = (rows, others);
    'rows: while let Some((row, more)) = left.split_first() {
        let Some((other, rest)) = right.split_first() else {
            return false;
        };
        if !is_same(row, other) {
            return false;
        }
        left = more;
        right = rest;
    }
    right.is_empty()
}

/// Whether the two rows are the same.
fn is_same(row: &Row, other: &Row) -> bool
    ensures { IsTrue result ↔ (row.now ≡ other.now) }
{
    row.key == other.key && row.body.as_slice() == other.body.as_slice()
}

/// The rows that a keeper gives one after another, which are all that it holds. None where it fails.
pub fn rows_in<K: Keeper>(alloc: Global, keeper: &mut K) -> io::Result<Option<Vec<Row>>>
    ensures path { K.path_given keeper.new ≡ K.path_given keeper.old }
    ensures sure { IsTrue (K.sure keeper.new) → IsTrue (K.sure keeper.old) }
    ensures kept { IsTrue (K.sure keeper.new) → (held : List Row) → K.holds keeper.old held → K.holds keeper.new held }
    ensures read { IfOk result (λ found. IfSome found (λ rows. IsTrue (K.sure keeper.new) → (held : List Row)
        → K.holds keeper.old held → rows.items ≡ held)) }
    ensures fault { IfOk result (λ found. IfNone found (Rose (K.faults keeper.old) (K.faults keeper.new))) }
{
    let mut rows = Vec::new(alloc);
    let mut last: Option<RowKey> = None;
    'rows: loop {
        let row = match keeper.next_row(last) {
            Ok(Some(row)) => row,
            Ok(None) => return Ok(Some(rows)),
            Err(KeepError::Failed) => return Ok(None),
            Err(KeepError::OutOfMemory) => return Err(memory()),
        };
        last = Some(row.key);
        let Ok(()) = rows.push(row) else {
            return Err(memory());
        };
    }
}
