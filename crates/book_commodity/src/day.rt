ghost use Rattle.std.specs.Prelude.{◌≡◌, ◌+◌, ◌<◌, ◌≤◌, ◌↔◌, ℕ, ℤ, pos, ◌+ℤ◌, [], ◌∷◌, IsSome, IfSome, IfNone};
ghost use Rattle.std.specs.Int.{IsInRange};
ghost use Rattle.jiff_core.specs.Calendar.{days_from_civil, weekday_number};
ghost use Rattle.book_commodity.specs.Day.{IsDay, IsBookDate, year_of, month_of, day_of_month, two_digits};
ghost use Rattle.book_commodity.specs.Day.{date_text, IsSpelled, day_text, clipped_day, months_later};

use jiff_core::civil::{self, Date};
use std::marker::Model;

/// The number of 1900-01-01.
const FIRST: i32 = -25_567;

/// The number of 2199-12-31.
const LAST: i32 = 84_005;

/// A day from 1900-01-01 to 2199-12-31, which contracts see as the number of days since 1970-01-01.
#[derive(Clone, Copy, Debug, PartialEq, Eq, PartialOrd, Ord)]
pub struct Day {
    number: i32,
}

impl Model for Day {
    ghost use Rattle.std.specs.Prelude.{ℤ};
    ghost use Rattle.book_commodity.specs.Day.{IsDay};

    ghost Value = { ℤ };

    ghost view = { λ d. d.number };

    ghost invariant = { λ d. IsDay d.number };

    ghost inverse = { λ n. record { number = n } };
}

impl Day {
    /// The day that lies so many days after 1970-01-01, before it for a negative number; `None` outside the range.
    pub fn of_number(number: i32) -> Option<Day>
        ensures some { IsSome result ↔ IsDay number }
        ensures day { IfSome result (λ day. day ≡ number) }
    {
        if number < FIRST || number > LAST {
            return None;
        }
        Some(Day { number })
    }

    /// The day of this date; `None` where the calendar has no such date, or its year is not from 1900 to 2199.
    pub fn of_parts(year: i32, month: u32, day: u32) -> Option<Day>
        ensures some { IsSome result ↔ IsBookDate year month day }
        ensures day { IfSome result (λ found. found ≡ days_from_civil year month day) }
    {
        if year < 1900 || year > 2199 || month > 12 || day > 31 {
            return None;
        }
        let Ok(date) = Date::new(year as i16, month as i8, day as i8) else {
            return None;
        };
        Some(Day {
            number: date.to_unix_epoch_day(),
        })
    }

    /// The day that the ten bytes `YYYY-MM-DD` name; `None` for all other bytes.
    pub fn of_text(text: &[u8]) -> Option<Day>
        ensures day { IfSome result (λ day. IsDay day × (text.now ≡ day_text day)) }
        ensures none { IfNone result ((day : ℤ) → IsDay day → text.now ≡ day_text day → ⊥) }
    {
        let (year, month, day) = date_of_text(text)?;
        Day::of_parts(year as i32, month, day)
    }

    /// The text `YYYY-MM-DD`.
    pub fn text(self) -> [u8; 10]
        ensures { result ≡ day_text self }
    {
        let (year, month, day) = self.parts();
        text_of_date(year.unsigned_abs(), month, day)
    }

    /// The number of days since 1970-01-01, from -25567 to 84005.
    pub fn number(self) -> i32
        ensures value { result ≡ self }
        ensures range { IsDay result }
    {
        self.number
    }

    /// The year, the month from 1 to 12 and the day of the month from 1.
    pub fn parts(self) -> (i32, u32, u32)
        ensures year { result.0 ≡ year_of self }
        ensures month { result.1 ≡ month_of self }
        ensures day { result.2 ≡ day_of_month self }
        ensures date { IsBookDate result.0 result.1 result.2 }
        ensures number { days_from_civil result.0 result.1 result.2 ≡ self }
    {
        let Ok(date) = Date::from_unix_epoch_day(self.number as i64) else {
            unreachable!()
        };
        (date.year as i32, date.month as u32, date.day as u32)
    }

    /// The day of the week, from 0 for Monday to 6 for Sunday.
    pub fn weekday(self) -> u32
        ensures { result ≡ weekday_number self }
    {
        let Ok(date) = Date::from_unix_epoch_day(self.number as i64) else {
            unreachable!()
        };
        date.weekday().index() as u32
    }

    /// The day that lies so many days later, earlier for a negative number; `None` past the range.
    pub fn plus(self, days: i64) -> Option<Day>
        ensures some { IsSome result ↔ IsDay (self +ℤ days) }
        ensures day { IfSome result (λ day. day ≡ self +ℤ days) }
    {
        let number = (self.number as i64).checked_add(days)?;
        match i32::try_from(number) {
            Ok(number) => Day::of_number(number),
            Err(_) => None,
        }
    }

    /// The day of the same number in the month that is so many months later, or the last of a shorter month;
    /// `None` past the range.
    pub fn add_months_clipped(self, months: u32) -> Option<Day>
        ensures some { IsSome result ↔ IsDay (months_later self months) }
        ensures day { IfSome result (λ day. day ≡ months_later self months) }
    {
        let (year, month, day) = self.parts();
        let count = year.unsigned_abs() as u64 * 12 + (month as u64 - 1) + months as u64;
        Day::clipped(count / 12, (count % 12 + 1) as u32, day)
    }

    /// The day of that number in the month, or the month's last day where it has fewer; `None` past the range.
    #[tactic(auto, unfolding(crate::specs::Day::clipped_day))]
    fn clipped(year: u64, month: u32, day: u32) -> Option<Day>
        requires year { 1900 ≤ year }
        requires month { IsInRange 1 12 month }
        requires day { 1 ≤ day }
        ensures some { IsSome result ↔ IsDay (clipped_day (pos year) month day) }
        ensures day { IfSome result (λ found. found ≡ clipped_day (pos year) month day) }
    {
        if year > 2199 {
            return None;
        }
        let last = civil::days_in_month(year as i16, month as u8) as u32;
        Day::of_parts(year as i32, month, day.min(last))
    }
}

/// The text `YYYY-MM-DD` of a date.
fn text_of_date(year: u32, month: u32, day: u32) -> [u8; 10]
    requires year { year < 10000 }
    requires month { month < 100 }
    requires day { day < 100 }
    ensures { result ≡ date_text year month day }
{
    let (century, year) = (year / 100, year % 100);
    [
        digit(century / 10),
        digit(century % 10),
        digit(year / 10),
        digit(year % 10),
        b'-',
        digit(month / 10),
        digit(month % 10),
        b'-',
        digit(day / 10),
        digit(day % 10),
    ]
}

/// The year, month and day that the text `YYYY-MM-DD` spells, of whatever calendar; `None` for all other bytes.
fn date_of_text(text: &[u8]) -> Option<(u32, u32, u32)>
    ensures found { IfSome result (IsSpelled text.now) }
    ensures none { IfNone result ((date : ℕ × ℕ × ℕ) → IsSpelled text.now date → ⊥) }
{
    if text.len() != 10 || text[4] != b'-' || text[7] != b'-' {
        return None;
    }
    let century = value_of_digits(text[0], text[1])?;
    let year = value_of_digits(text[2], text[3])?;
    let month = value_of_digits(text[5], text[6])?;
    let day = value_of_digits(text[8], text[9])?;
    Some((century * 100 + year, month, day))
}

/// The decimal digit of a number below 10.
fn digit(number: u32) -> u8
    requires { number < 10 }
    ensures { result ≡ 48 + number }
{
    b'0' + number as u8
}

/// The number that two decimal digits spell; `None` where one of them is none.
fn value_of_digits(tens: u8, ones: u8) -> Option<u32>
    ensures found { IfSome result (λ n. (n < 100) × (tens ∷ ones ∷ [] ≡ two_digits n)) }
    ensures none { IfNone result ((n : ℕ) → n < 100 → tens ∷ ones ∷ [] ≡ two_digits n → ⊥) }
{
    if !tens.is_ascii_digit() || !ones.is_ascii_digit() {
        return None;
    }
    Some((tens - b'0') as u32 * 10 + (ones - b'0') as u32)
}
