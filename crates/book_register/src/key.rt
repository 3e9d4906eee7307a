ghost use Rattle.std.specs.Prelude.{◌≡◌, ◌+◌, ◌≤◌, ◌+ℤ◌, length, pos, position, true};
ghost use Rattle.book_register.specs.Register.{IsBound, IsSorted, has_key as is_at, key_at as spelled_key};
ghost use Rattle.book_register.specs.Register.{key_of as entry_key, precedes as comes_before};

use crate::Entry;
use book_commodity::{Day, Steps};
use book_seq::{Seq, Test};

/// Where a row stands: its day as a number, the number of its transaction, and its place there.
#[derive(Clone, Copy)]
pub(crate) struct Key {
    pub(crate) day: i32,
    pub(crate) txn: u64,
    pub(crate) place: u32,
}

/// The key of a day, a transaction's number and a place in it.
pub(crate) fn key_at(day: Day, txn: u64, place: u32) -> Key
    ensures { result ≡ spelled_key day txn place }
{
    Key {
        day: day.number(),
        txn,
        place,
    }
}

/// The first key past a day: it comes behind all rows on or before the day, and before all others.
pub(crate) fn key_past(day: Day) -> Key
    ensures { result ≡ spelled_key (day +ℤ pos 1) 0 0 }
{
    Key {
        day: day.number() + 1,
        txn: 0,
        place: 0,
    }
}

/// The key of an entry.
pub(crate) fn key_of(entry: &Entry) -> Key
    ensures { result ≡ entry_key entry.now }
{
    key_at(entry.day, entry.txn, entry.place)
}

/// Whether one key comes before another.
fn precedes(one: Key, other: Key) -> bool
    ensures { result ≡ comes_before one other }
{
    if one.day != other.day {
        return one.day < other.day;
    }
    if one.txn != other.txn {
        return one.txn < other.txn;
    }
    one.place < other.place
}

/// Whether the entry stands at the key.
fn has_key(entry: &Entry, key: Key) -> bool
    ensures { result ≡ is_at key entry.now }
{
    entry.day.number() == key.day && entry.txn == key.txn && entry.place == key.place
}

/// The rows that stand before a key.
#[derive(Clone, Copy)]
struct Before {
    key: Key,
}

impl Test<Entry> for Before {
    ghost is_passed = { λ test entry. comes_before (entry_key entry) test.key };

    fn passes(&self, entry: &Entry) -> bool {
        precedes(key_of(entry), self.key)
    }
}

/// How many rows stand before a key: at most 65 steps.
pub(crate) fn count_before<L>(rows: &Seq<Entry>, key: Key, steps: &mut Steps<L>) -> usize
    requires { IsSorted rows.now.list }
    ensures bound { IsBound key rows.now.list result }
    ensures steps { steps.new ≤ steps.old + 65 }
{
    rows.cut(&Before { key }, steps)
}

/// The place of the row at a key; `None` exactly where no row stands there. At most 66 steps.
pub(crate) fn place_of<L>(rows: &Seq<Entry>, key: Key, steps: &mut Steps<L>) -> Option<usize>
    requires { IsSorted rows.now.list }
    ensures place { result ≡ position (is_at key) rows.now.list }
    ensures steps { steps.new ≤ steps.old + 66 }
{
    let place = count_before(rows, key, steps);
    let len = rows.len();
    if place == len {
        return None;
    }
    if has_key(rows.get(place, steps), key) {
        return Some(place);
    }
    None
}
