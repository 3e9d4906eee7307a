ghost use Rattle.std.specs.Prelude.{◌≡◌, ◌+◌, ◌-◌, ◌^◌, ◌≤◌, ◌<◌, ◌↔◌, IsSome, IfSome};
ghost use Rattle.book_commodity.specs.Day.{IsDay, month_count};
ghost use Rattle.book_schedule.specs.Recurrence.{first_of_month, last_of_month, numbered_day};

use book_commodity::Day;
use jiff_core::civil;
use std::marker::Model;

/// The number of January 2200, with twelve months a year.
const END: u32 = 26_400;

/// A month of the years 1900 to 2199, which contracts see as its number: twelve times the year, and 0 for January.
#[derive(Clone, Copy)]
pub(crate) struct Month {
    number: u32,
}

impl Model for Month {
    ghost use Rattle.std.specs.Prelude.{ℕ, ◌≤◌, ◌<◌};

    ghost Value = { ℕ };

    ghost view = { λ month. month.number };

    ghost invariant = { λ month. (22_800 ≤ month.number) × (month.number < 26_400) };

    ghost inverse = { λ n. record { number = n } };
}

impl Month {
    /// The month of a day.
    pub(crate) fn of(day: Day) -> Month
        ensures day { IsDay day }
        ensures month { result ≡ month_count day 0 }
    {
        let (year, month, _) = day.parts();
        Month {
            number: year.unsigned_abs() * 12 + (month - 1),
        }
    }

    /// The month that comes so many months later; `None` past the range.
    pub(crate) fn later(self, months: u64) -> Option<Month>
        requires { months < 2 ^ 63 }
        ensures some { IsSome result ↔ (self + months < 26_400) }
        ensures month { IfSome result (λ later. later ≡ self + months) }
    {
        let number = u64::from(self.number) + months;
        if number >= u64::from(END) {
            return None;
        }
        Some(Month {
            number: number as u32,
        })
    }

    /// How many months lie wholly between the two, and 0 where this one is not the earlier.
    pub(crate) fn months_before(self, later: Month) -> u32
        ensures { result ≡ later - (self + 1) }
    {
        later.number.saturating_sub(self.number + 1)
    }

    /// The month's first day.
    pub(crate) fn first(self) -> Day
        ensures { result ≡ first_of_month self }
    {
        self.day(1)
    }

    /// The month's last day.
    pub(crate) fn last(self) -> Day
        ensures { result ≡ last_of_month self }
    {
        self.day(31)
    }

    /// The day of the month with this number, or the month's last day where it is shorter.
    pub(crate) fn day(self, number: u32) -> Day
        requires { 1 ≤ number }
        ensures { result ≡ numbered_day self number }
    {
        let year = self.number / 12;
        let month = self.number % 12 + 1;
        let last = civil::days_in_month(year as i16, month as u8) as u32;
        let Some(day) = Day::of_parts(year as i32, month, number.min(last)) else {
            unreachable!()
        };
        day
    }
}
