ghost use Rattle.std.specs.Prelude.{◌≡◌, ℕ, ◌+◌, ◌≤◌, All, IfOk, Err, length};
ghost use Rattle.std.specs.Int.{IsInRange};
ghost use Rattle.book_schedule.specs.DueDays.{HasAtLeast, IsDue, IsPlanned, Lists};
ghost use Rattle.book_schedule.specs.NextDay.{AreFirst, kept_at_most};

use crate::next_day::next_planned;
use crate::{End, Timing};
use book_commodity::{Day, Many, OutOfMemory};
use std::alloc::Global;

/// How many days may be due of one schedule.
const MOST_DAYS: usize = 1000;

/// Why the due days are not given.
#[derive(Clone, Copy, Debug, PartialEq, Eq)]
pub enum DueError {
    /// There are more than 1,000.
    Limit,
    /// Memory was refused.
    OutOfMemory,
}

impl From<OutOfMemory> for DueError {
    ghost use Rattle.book_schedule.specs.declared.due_days.DueError.TheVariants.{OutOfMemory};

    ghost from_gives = { λ _ given. given ≡ OutOfMemory };

    fn from(_error: OutOfMemory) -> DueError {
        DueError::OutOfMemory
    }
}

/// The days of a schedule that are due up to a day, in order and each once: those of its recurrences that are later
/// than the last day made, not later than the day and the days in advance, and allowed by the end.
/// `Limit` where there are more than 1,000 of them.
pub fn due(alloc: Global, timing: &Timing, upto: Day) -> Result<Many<Day>, DueError>
    requires { All (λ recurrence. IsInRange 1 10_000 recurrence.every) timing.now.recurrences }
    ensures days { IfOk result (Lists (IsDue timing.now upto)) }
    ensures at_most { IfOk result (λ days. length days ≤ 1000) }
    ensures limit { result ≡ Err DueError.Limit → HasAtLeast 1001 (IsDue timing.now upto) }
{
    let days = first_open(alloc, timing, upto, kept_at_most(timing))?;
    if days.len() > MOST_DAYS {
        return Err(DueError::Limit);
    }
    Ok(Many::of(days))
}

/// How many days the end still allows, counted up to one more than may be due.
fn kept_at_most(timing: &Timing) -> usize
    ensures { result ≡ kept_at_most timing.now.end timing.now.made }
{
    match timing.end {
        End::After(count) => count.saturating_sub(timing.made).min(MOST_DAYS as u64 + 1) as usize,
        End::Never | End::Until(_) => MOST_DAYS + 1,
    }
}

/// The first days that are still to be made, so many at most.
fn first_open(
    alloc: Global,
    timing: &Timing,
    upto: Day,
    most: usize,
) -> Result<Vec<Day>, OutOfMemory>
    requires { All (λ recurrence. IsInRange 1 10_000 recurrence.every) timing.now.recurrences }
    ensures { IfOk result (λ days. AreFirst (IsPlanned timing.now upto) timing.now.last most days.items) }
{
    let mut days = Vec::new(alloc);
    let mut last = timing.last;
    while days.len() < most {
        let Some(day) = next_planned(timing, upto, &last) else {
            return Ok(days);
        };
        days.push(day)?;
        last = Some(day);
    }
    Ok(days)
}
