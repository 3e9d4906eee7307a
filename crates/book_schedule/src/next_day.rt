ghost use Rattle.std.specs.Prelude.{◌≡◌, ℕ, ◌+◌, ◌*◌, ◌/◌, ◌-◌, ◌<◌, ◌≤◌, ◌↔◌, ℤ, pos, ◌+ℤ◌, All, IsTrue, MatchOption};
ghost use Rattle.std.specs.Int.{IsInRange};
ghost use Rattle.book_commodity.specs.Day.{IsDay, month_count};
ghost use Rattle.book_schedule.specs.DueDays.{IsAfter, IsOnSome, IsPlanned, IsUpTo, IsWithin};
ghost use Rattle.book_schedule.specs.NextDay.{ArePassed, IsNext, earlier_of};
ghost use Rattle.book_schedule.specs.Recurrence.{OccursOn};

use crate::month::Month;
use crate::{End, Recurrence, RecurrenceKind, Timing, occurrence};
use book_commodity::Day;

/// How many days the range has: no recurrence has more occurrences.
const DAYS: u32 = 109_573;

/// The first planned day after a given one, or the first of all where none is given; `None` where there is none up to
/// the day and the days in advance.
pub(crate) fn next_planned(timing: &Timing, upto: Day, after: &Option<Day>) -> Option<Day>
    requires { All (λ recurrence. IsInRange 1 10_000 recurrence.every) timing.now.recurrences }
    ensures { IsNext (IsPlanned timing.now upto) after.now result }
{
    let next = next_on_some(timing.recurrences.as_slice(), after)?;
    if is_within(timing, upto, next) {
        Some(next)
    } else {
        None
    }
}

/// Whether a day is not later than the given one and the days in advance, nor than the end.
fn is_within(timing: &Timing, upto: Day, day: Day) -> bool
    ensures { IsTrue result ↔ IsWithin timing.now upto day }
{
    i64::from(day.number()) <= i64::from(upto.number()) + i64::from(timing.advance)
        && is_up_to(&timing.end, day)
}

/// Whether an end by date comes no earlier than the day.
fn is_up_to(end: &End, day: Day) -> bool
    ensures { IsTrue result ↔ IsUpTo end.now day }
{
    match end {
        End::Until(last) => day <= *last,
        End::Never | End::After(_) => true,
    }
}

/// The first day after a given one on which some of the recurrences has an occurrence.
fn next_on_some(recurrences: &[Recurrence], after: &Option<Day>) -> Option<Day>
    requires { All (λ recurrence. IsInRange 1 10_000 recurrence.every) recurrences.now }
    ensures { IsNext (IsOnSome recurrences.now) after.now result }
{
    let mut next = None;
    for recurrence in recurrences {
        next = earlier(next, next_occurrence(recurrence, after));
    }
    next
}

/// The earlier of two days, where both are given.
fn earlier(one: Option<Day>, other: Option<Day>) -> Option<Day>
    ensures { result ≡ earlier_of one other }
{
    let Some(day) = one else {
        return other;
    };
    match other {
        Some(earlier) if earlier < day => Some(earlier),
        _ => Some(day),
    }
}

/// The day of the recurrence's first occurrence after a given one: each occurrence is counted from the start, and
/// those that months or days show to be passed are left out.
fn next_occurrence(recurrence: &Recurrence, after: &Option<Day>) -> Option<Day>
    requires { IsInRange 1 10_000 recurrence.now.every }
    ensures { IsNext (OccursOn recurrence.now) after.now result }
{
    for k in passed(recurrence, after)..DAYS {
        let day = occurrence(recurrence, k)?;
        if is_after(after, day) {
            return Some(day);
        }
    }
    None
}

/// Whether the day lies after the given one.
fn is_after(given: &Option<Day>, day: Day) -> bool
    ensures { IsTrue result ↔ IsAfter given.now day }
{
    match given {
        Some(given) => *given < day,
        None => true,
    }
}

/// So many occurrences from the first on that are not later than the day, at most a few less than all of them.
fn passed(recurrence: &Recurrence, after: &Option<Day>) -> u32
    requires { IsInRange 1 10_000 recurrence.now.every }
    ensures start { IsDay recurrence.now.start }
    ensures passed { ArePassed recurrence.now after.now result }
{
    let days = days_before(recurrence.start, after);
    let months = months_before(recurrence.start, after);
    match recurrence.kind {
        RecurrenceKind::Once => 0,
        RecurrenceKind::Daily => days / recurrence.every,
        RecurrenceKind::Weekly => days / (7 * recurrence.every),
        RecurrenceKind::Yearly => months / (12 * recurrence.every),
        _ => months / recurrence.every,
    }
}

/// How many days the start lies before a given day, and 0 where it does not or none is given.
fn days_before(start: Day, given: &Option<Day>) -> u32
    ensures start { IsDay start }
    ensures days { MatchOption given.now (result ≡ 0) (λ day. 0 < result → start +ℤ pos result ≡ day) }
{
    match given {
        Some(day) => (day.number() - start.number()).max(0) as u32,
        None => 0,
    }
}

/// How many months lie wholly between the start and a given day, and 0 where none is given.
fn months_before(start: Day, given: &Option<Day>) -> u32
    ensures { MatchOption given.now (result ≡ 0)
        (λ day. IsDay day × (result ≡ month_count day 0 - (month_count start 0 + 1))) }
{
    match given {
        Some(day) => Month::of(start).months_before(Month::of(*day)),
        None => 0,
    }
}
