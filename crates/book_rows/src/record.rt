ghost use Rattle.std.specs.Prelude.{◌≡◌, ◌∷◌, IfOk, IfErr};
ghost use Rattle.std.specs.Bool.{Decides};
ghost use Rattle.book_codec.specs.Read.{Gives};
ghost use Rattle.book_rows.specs.Format.{format_byte};
ghost use Rattle.book_rows.specs.HeadBytes.{IsHead, head_bytes};
ghost use Rattle.book_rows.specs.Row.{IsBounded, IsErrorAt, IsReadAs, IsRecord, IsSpelledBy};
ghost use Rattle.book_rows.specs.Row.{IsWithin, StandsFor, body_of, error_at, kind_of};

use crate::edit::{read_edit, write_edit};
use crate::format::{WRITTEN_FORMAT, format_byte};
use crate::thing::{read_thing_body, thing_kind_of, write_thing};
use crate::{Head, RowFormat, Rows};
use book_codec::{DecodeError, read_whole, write_whole};
use book_commodity::{Bytes, OutOfMemory};
use book_keeper::RowKey;
use book_undo::{Edit, Thing};
use std::alloc::Global;

/// The bound of ids and of the numbers of a head, 2^62.
const LIMIT: u64 = 0x4000_0000_0000_0000;

/// What a row of a book stands for.
#[derive(Drop)]
pub enum Record {
    Head(Head),
    Thing(Thing),
    /// Leads from the book at the position that is the row's id to the book before.
    Back(Edit),
    /// Leads to the book at the position that is the row's id from the book before.
    Forth(Edit),
}

/// Why a row is not read: its body is no spelling of a record of its kind in the format, or its key is that of no
/// record; or the program is out of memory.
#[derive(Clone, Copy, Debug, PartialEq, Eq)]
pub enum RowError {
    Bad { kind: u8, id: u64 },
    OutOfMemory,
}

/// The body of the record's row, in format 2. The numbers of a head are below 2^62, and at most eight lists of an edit
/// stand in one another.
pub fn write_row(alloc: Global, what: &Record) -> Result<Bytes, OutOfMemory>
    requires { IsBounded what.now }
    ensures body { IfOk result (λ body. body ≡ body_of RowFormat.Two what.now) }
    ensures fits { IfOk result (λ body. IsRecord RowFormat.Two what.now) }
{
    match what {
        Record::Head(it) => write_whole::<Rows, Head>(alloc, WRITTEN_FORMAT, it),
        Record::Thing(it) => write_thing(alloc, it),
        Record::Back(it) | Record::Forth(it) => write_edit(alloc, it),
    }
}

/// The record that the row stands for in the format.
/// Bad: it stands for none; the error names the row.
pub fn read_row(
    alloc: Global,
    format: RowFormat,
    key: RowKey,
    body: &[u8],
) -> Result<Record, RowError>
    ensures found { IfOk result (λ it. IsSpelledBy format key body.now it) }
    ensures fits { IfOk result (IsRecord format) }
    ensures again { (it : Record) → StandsFor format key body.now it → IsReadAs result it }
    ensures error { IfErr result (IsErrorAt key) }
{
    if key.id >= LIMIT || (key.kind == 1 && key.id != 0) {
        return Err(bad(key));
    }
    match read_body(alloc, format, key.kind, body) {
        Ok(it) => Ok(it),
        Err(error) => Err(row_error(key, error)),
    }
}

/// The record whose row has this kind and, in the format, this body.
/// Bad: it is the body of none.
fn read_body(alloc: Global, format: RowFormat, kind: u8, body: &[u8]) -> Result<Record, DecodeError>
    ensures kind { IfOk result (λ it. kind_of it ≡ kind) }
    ensures found { IfOk result (λ it. body.now ≡ body_of format it) }
    ensures fits { IfOk result (IsRecord format) }
    ensures bounded { IfOk result IsBounded }
    ensures again { (it : Record) → kind_of it ≡ kind → IsRecord format it → body.now ≡ body_of format it
        → Gives (λ x. x) result it }
{
    match kind {
        1 => Ok(Record::Head(read_head(alloc, format, body)?)),
        11 => Ok(Record::Back(read_edit(alloc, format, body)?)),
        12 => Ok(Record::Forth(read_edit(alloc, format, body)?)),
        _ => match thing_kind_of(kind) {
            Some(kind) => Ok(Record::Thing(read_thing_body(alloc, format, kind, body)?)),
            None => Err(DecodeError::Bad),
        },
    }
}

/// That the row is bad.
fn bad(key: RowKey) -> RowError
    ensures { result ≡ RowError.Bad key.kind key.id }
{
    RowError::Bad {
        kind: key.kind,
        id: key.id,
    }
}

/// The head whose body in the format these bytes are.
/// Bad: they are no head's body, or its numbers are too large for a row.
fn read_head(alloc: Global, format: RowFormat, body: &[u8]) -> Result<Head, DecodeError>
    ensures found { IfOk result (λ it. body.now ≡ format_byte format ∷ head_bytes it) }
    ensures fits { IfOk result (λ it. IsHead it × IsWithin it) }
    ensures again { (it : Head) → IsHead it × IsWithin it → body.now ≡ format_byte format ∷ head_bytes it
        → Gives (λ x. x) result it }
{
    let head = read_whole::<Rows, Head>(alloc, format_byte(format), body)?;
    if !is_within(&head) {
        return Err(DecodeError::Bad);
    }
    Ok(head)
}

/// Whether a row can hold the numbers of the head.
fn is_within(head: &Head) -> bool
    ensures { Decides result (IsWithin head.now) }
{
    head.next < LIMIT && head.version < LIMIT && head.position < LIMIT
}

/// Why the row is not read, by why its body is not.
fn row_error(key: RowKey, error: DecodeError) -> RowError
    ensures { result ≡ error_at key error }
{
    match error {
        DecodeError::Bad => bad(key),
        DecodeError::OutOfMemory => RowError::OutOfMemory,
    }
}
