ghost use Rattle.std.specs.Prelude.{◌≡◌, ◌<◌};
ghost use Rattle.book_verdict.specs.Head.{byte_at, fault_of_head, has_no_table, has_other_things, is_database};
ghost use Rattle.book_verdict.specs.Head.{page_bytes, page_count, pair_at};

use crate::FileFault;

/// How many bytes the head of a SQLite database has, with the head of its first page behind it.
pub const HEAD: usize = 108;

/// How many of them are the head of the database.
const DATABASE_HEAD: usize = 100;

/// How the head of a SQLite database begins.
const MAGIC: &[u8] = b"SQLite format 3\0";

/// What the first bytes of a file and its length say of it: that it is no SQLite database, or one that is cut short, or
/// one without a table, or one that lists more or less than a book does.
pub fn fault_of_head(head: &[u8], length: u64) -> Option<FileFault>
    ensures { result ≡ fault_of_head head.now length }
{
    if !is_database(head) {
        return Some(FileFault::NoDatabase);
    }
    if length < page_bytes(head) * page_count(head) {
        return Some(FileFault::CutShort);
    }
    if has_no_table(head) {
        return Some(FileFault::NoTable);
    }
    if has_other_things(head) {
        return Some(FileFault::OtherDatabase);
    }
    None
}

/// Whether a head is that of a SQLite database.
fn is_database(head: &[u8]) -> bool
    ensures { result ≡ is_database head.now }
{
    head.len() >= DATABASE_HEAD && &head[..MAGIC.len()] == MAGIC
}

/// Whether the first page of a SQLite database lists nothing: it is a leaf without a cell.
fn has_no_table(head: &[u8]) -> bool
    ensures { result ≡ has_no_table head.now }
{
    byte_at(head, DATABASE_HEAD) == 13 && pair_at(head, DATABASE_HEAD + 3) == 0
}

/// Whether the first page of a SQLite database lists another number of things than a book, which has a table and the
/// index of its keys: it is a leaf with other than two cells, or no leaf.
fn has_other_things(head: &[u8]) -> bool
    ensures { result ≡ has_other_things head.now }
{
    match byte_at(head, DATABASE_HEAD) {
        5 => true,
        13 => pair_at(head, DATABASE_HEAD + 3) != 2,
        _ => false,
    }
}

/// How many bytes a page has.
fn page_bytes(head: &[u8]) -> u64
    ensures value { result ≡ page_bytes head.now }
    ensures small { result < 65_537 }
{
    match pair_at(head, 16) {
        1 => 65_536,
        bytes => bytes,
    }
}

/// How many pages the file has.
fn page_count(head: &[u8]) -> u64
    ensures value { result ≡ page_count head.now }
    ensures small { result < 4_294_967_296 }
{
    pair_at(head, 28) * 65_536 + pair_at(head, 30)
}

/// The number that two bytes spell, the greater first; 0 where there are none.
fn pair_at(head: &[u8], place: usize) -> u64
    requires { place < 1000 }
    ensures value { result ≡ pair_at place head.now }
    ensures small { result < 65_536 }
{
    byte_at(head, place) * 256 + byte_at(head, place + 1)
}

/// The byte at a place; 0 where there is none.
fn byte_at(head: &[u8], place: usize) -> u64
    ensures value { result ≡ byte_at place head.now }
    ensures small { result < 256 }
{
    match head.get(place) {
        Some(byte) => u64::from(*byte),
        None => 0,
    }
}
