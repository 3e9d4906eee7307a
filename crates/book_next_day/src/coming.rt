ghost use Rattle.std.specs.Prelude.{◌≡◌, ◌↔◌, All, IfOk, IsTrue};
ghost use Rattle.std.specs.Int.{IsInRange};
ghost use Rattle.book_next_day.specs.Ahead.{HasMore, IsNextDay, first_of, last_asked, with_one};

use book_commodity::{Day, Many, OutOfMemory};
use book_schedule::{DueError, End, Timing, due};
use std::alloc::Global;

/// The last day of a book, 2199-12-31, as the number of days since 1970-01-01.
const LAST_DAY: i32 = 84_005;

/// The day for which a schedule posts next, of all days of a book; None where it has ended.
pub fn next_day(alloc: Global, timing: &Timing) -> Result<Option<Day>, OutOfMemory>
    requires { All (λ recurrence. IsInRange 1 10_000 recurrence.every) timing.now.recurrences }
    ensures { IfOk result (IsNextDay timing.now) }
{
    if !has_more(timing) {
        return Ok(None);
    }
    let one = with_one(alloc, timing)?;
    match due(alloc, &one, last_asked(timing.end)) {
        Ok(days) => Ok(first_of(days.as_slice())),
        Err(DueError::Limit) => unreachable!(),
        Err(DueError::OutOfMemory) => Err(OutOfMemory),
    }
}

/// Whether the end allows one more occurrence.
fn has_more(timing: &Timing) -> bool
    ensures { IsTrue result ↔ HasMore timing.now.end timing.now.made }
{
    match timing.end {
        End::After(count) => timing.made < count,
        End::Never | End::Until(_) => true,
    }
}

/// The first of the days; None where there is none.
fn first_of(days: &[Day]) -> Option<Day>
    ensures { result ≡ first_of days.now }
{
    match days {
        [] => None,
        [day, ..] => Some(*day),
    }
}

/// The timing that allows one more occurrence and no other, and makes none in advance.
fn with_one(alloc: Global, timing: &Timing) -> Result<Timing, OutOfMemory>
    ensures { IfOk result (λ one. one ≡ with_one timing.now) }
{
    Ok(Timing {
        recurrences: Many::of(Vec::from_slice(alloc, timing.recurrences.as_slice())?),
        end: End::After(1),
        advance: 0,
        last: timing.last,
        made: 0,
    })
}

/// The last day that is asked for: that of an end by date, or the last day of a book.
fn last_asked(end: End) -> Day
    ensures { result ≡ last_asked end }
{
    match end {
        End::Until(last) => last,
        End::Never | End::After(_) => {
            let Some(day) = Day::of_number(LAST_DAY) else {
                unreachable!()
            };
            day
        }
    }
}
