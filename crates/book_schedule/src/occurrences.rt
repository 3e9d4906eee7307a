ghost use Rattle.std.specs.Prelude.{◌≡◌, ◌+◌, ◌*◌, ◌<◌, ◌≤◌, ◌^◌, ◌↔◌, ℤ, pos, ◌+ℤ◌, ◌-ℤ◌, IsSome, IfSome};
ghost use Rattle.std.specs.Int.{IsInRange};
ghost use Rattle.book_commodity.specs.Day.{IsDay, day_of_month, month_count};
ghost use Rattle.book_schedule.specs.Recurrence.{adjusted, adjustment, day_after, last_of_month, last_weekday};
ghost use Rattle.book_schedule.specs.Recurrence.{nth_weekday, numbered_day, weekday_from, weekday_up_to, nth_day};
ghost use Rattle.book_schedule.specs.Recurrence.{HasOccurrence};

use crate::month::Month;
use crate::{Adjust, Recurrence, RecurrenceKind};
use book_commodity::Day;

/// The day of the occurrence with number `k`, from 0, moved off the weekend as the recurrence says; `None` past the
/// range, and for `Once` past 0.
pub fn occurrence(recurrence: &Recurrence, k: u32) -> Option<Day>
    requires { IsInRange 1 10_000 recurrence.now.every }
    ensures some { IsSome result ↔ HasOccurrence recurrence.now k }
    ensures day { IfSome result (λ day. day ≡ nth_day recurrence.now k) }
{
    if k > 0 && recurrence.kind == RecurrenceKind::Once {
        return None;
    }
    let steps = u64::from(k) * u64::from(recurrence.every);
    let day = day_after(recurrence.kind, recurrence.start, steps)?;
    moved(adjustment(recurrence), day)
}

/// The day so many steps of the kind after the start; `None` past the range.
fn day_after(kind: RecurrenceKind, start: Day, steps: u64) -> Option<Day>
    requires { steps < 2 ^ 48 }
    ensures start { IsDay start }
    ensures some { IsSome result ↔ IsDay (day_after kind start steps) }
    ensures day { IfSome result (λ day. day ≡ day_after kind start steps) }
{
    match kind {
        RecurrenceKind::Once => Some(start),
        RecurrenceKind::Daily => start.plus(steps as i64),
        RecurrenceKind::Weekly => start.plus(7 * steps as i64),
        RecurrenceKind::Monthly => same_day(start, steps),
        RecurrenceKind::EndOfMonth => end_of_month(start, steps),
        RecurrenceKind::NthWeekday => nth_weekday(start, steps),
        RecurrenceKind::LastWeekday => last_weekday(start, steps),
        RecurrenceKind::Yearly => same_day(start, 12 * steps),
    }
}

/// The day with the start's number so many months later, or the last day of a shorter month; `None` past the range.
fn same_day(start: Day, months: u64) -> Option<Day>
    requires { months < 2 ^ 63 }
    ensures some { IsSome result ↔ IsDay (numbered_day (month_count start months) (day_of_month start)) }
    ensures day { IfSome result (λ day. day ≡ numbered_day (month_count start months) (day_of_month start)) }
{
    let (_, _, number) = start.parts();
    let month = Month::of(start).later(months)?;
    Some(month.day(number))
}

/// The last day of the month so many months later; `None` past the range.
fn end_of_month(start: Day, months: u64) -> Option<Day>
    requires { months < 2 ^ 63 }
    ensures some { IsSome result ↔ IsDay (last_of_month (month_count start months)) }
    ensures day { IfSome result (λ day. day ≡ last_of_month (month_count start months)) }
{
    let month = Month::of(start).later(months)?;
    Some(month.last())
}

/// The day with the start's weekday and ordinal so many months later, the last such weekday for a start after the
/// 28th; `None` past the range.
#[tactic(auto, using(crate::proofs::Weekdays::weekdays), unfolding(crate::specs::Recurrence::weekday_from))]
fn nth_weekday(start: Day, months: u64) -> Option<Day>
    requires { months < 2 ^ 63 }
    ensures some { IsSome result ↔ IsDay (nth_weekday start (month_count start months)) }
    ensures day { IfSome result (λ day. day ≡ nth_weekday start (month_count start months)) }
{
    let (_, _, number) = start.parts();
    if number > 28 {
        return last_weekday(start, months);
    }
    let month = Month::of(start).later(months)?;
    let first = month.first();
    let days = (start.weekday() + 7 - first.weekday()) % 7;
    first.plus(i64::from(days + 7 * ((number + 6) / 7 - 1)))
}

/// The last day with the start's weekday in the month so many months later; `None` past the range.
#[tactic(auto, using(crate::proofs::Weekdays::weekdays), unfolding(crate::specs::Recurrence::weekday_up_to))]
fn last_weekday(start: Day, months: u64) -> Option<Day>
    requires { months < 2 ^ 63 }
    ensures some { IsSome result ↔ IsDay (last_weekday start (month_count start months)) }
    ensures day { IfSome result (λ day. day ≡ last_weekday start (month_count start months)) }
{
    let last = Month::of(start).later(months)?.last();
    let days = (last.weekday() + 7 - start.weekday()) % 7;
    last.plus(-i64::from(days))
}

/// Where the recurrence moves a day of the weekend: not at all unless it goes by the days of months or years.
fn adjustment(recurrence: &Recurrence) -> Adjust
    ensures { result ≡ adjustment recurrence.now.kind recurrence.now.adjust }
{
    match recurrence.kind {
        RecurrenceKind::Monthly | RecurrenceKind::EndOfMonth | RecurrenceKind::Yearly => {
            recurrence.adjust
        }
        _ => Adjust::Nothing,
    }
}

/// The day, moved from the weekend to the Friday before or to the Monday after; `None` past the range.
#[tactic(auto, using(crate::proofs::Weekdays::weekdays), unfolding(crate::specs::Recurrence::adjusted))]
fn moved(adjust: Adjust, day: Day) -> Option<Day>
    ensures some { IsSome result ↔ IsDay (adjusted adjust day) }
    ensures day { IfSome result (λ moved. moved ≡ adjusted adjust day) }
{
    let weekday = day.weekday();
    match adjust {
        Adjust::Nothing => Some(day),
        Adjust::Back => day.plus(-i64::from(weekday.saturating_sub(4))),
        Adjust::Forward if weekday > 4 => day.plus(i64::from(7 - weekday)),
        Adjust::Forward => Some(day),
    }
}
