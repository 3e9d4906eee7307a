ghost use Rattle.std.specs.Prelude.{◌≡◌, ◌≤◌};
ghost use Rattle.book_commodity.specs.Table.{Rises};
ghost use Rattle.book_rows.specs.Row.{IsWithin};
ghost use Rattle.book_opening.specs.FirstOdd.{IsFirstOdd, IsFirstOff};
ghost use Rattle.book_opening.specs.State.{head_of, state_of};
ghost use Rattle.book_opening.specs.Steps.{counts_fit};

use crate::Saved;
use book_keeper::RowKey;
use book_undo::Edit;

/// The kind of the rows of steps back.
pub(crate) const BACK: u8 = 11;

/// The kind of the rows of steps forth.
pub(crate) const FORTH: u8 = 12;

/// How many steps are kept in all.
const STEPS_LIMIT: u64 = 256;

/// The first step that is missing, or that the head doesn't count; None where the counts of the head don't fit.
pub(crate) fn first_odd(saved: &Saved) -> Option<RowKey>
    requires { IsWithin (head_of (state_of saved.now)) }
    ensures { IsFirstOdd (state_of saved.now) result }
{
    if !do_counts_fit(saved) {
        return None;
    }
    let now = saved.position + 1;
    let _ = (saved.back.len(), saved.forth.len());
    if let Some(id) = first_off(saved.back.as_slice(), now - saved.past, now) {
        return Some(RowKey { kind: BACK, id });
    }
    match first_off(saved.forth.as_slice(), now, now + saved.later) {
        Some(id) => Some(RowKey { kind: FORTH, id }),
        None => None,
    }
}

/// Whether the head counts no more steps back than lead to the present book, and at most 256 steps in all.
fn do_counts_fit(saved: &Saved) -> bool
    requires { IsWithin (head_of (state_of saved.now)) }
    ensures { result ≡ counts_fit (head_of (state_of saved.now)) }
{
    saved.past <= saved.position
        && saved.later <= STEPS_LIMIT
        && saved.past + saved.later <= STEPS_LIMIT
}

/// The first number that the entries have outside of these bounds or haven't within them, if there is one.
fn first_off(entries: &[(u64, Edit)], from: u64, end: u64) -> Option<u64>
    requires rises { Rises entries.now }
    requires bounds { from ≤ end }
    ensures { IsFirstOff entries.now from end result }
{
    let mut expected = from;
    for entry in entries {
        if expected == end || entry.0 < expected {
            return Some(entry.0);
        }
        if entry.0 > expected {
            return Some(expected);
        }
        expected += 1;
    }
    if expected < end { Some(expected) } else { None }
}
