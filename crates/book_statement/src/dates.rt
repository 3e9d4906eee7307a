ghost use Rattle.std.specs.Prelude.{◌≡◌, ◌<◌};
ghost use Rattle.book_statement.specs.Dates.{date, short_date, year_of_two};

use crate::numbers::{has_digits, number};
use book_commodity::Day;

/// The day of a date; `None` where the calendar has no such date, or its year is not from 1900 to 2199.
pub fn day_of_date(year: u16, month: u32, day: u32) -> Option<Day>
    ensures { result ≡ date year month day }
{
    Day::of_parts(year as i32, month, day)
}

/// The day that six digits YYMMDD name, where 80 to 99 are the years 1980 to 1999, others 2000 to 2079; `None` for any
/// other bytes.
pub fn short_date(text: &[u8]) -> Option<Day>
    ensures { result ≡ short_date text.now }
{
    if !has_digits(text, 6, 6) {
        return None;
    }
    let year = year_of_two(number(&text[..2]) as u16);
    day_of_date(year, number(&text[2..4]) as u32, number(&text[4..6]) as u32)
}

/// The year that two digits stand for.
pub fn year_of_two(digits: u16) -> u16
    requires { digits < 100 }
    ensures { result ≡ year_of_two digits }
{
    if digits < 80 {
        2000 + digits
    } else {
        1900 + digits
    }
}
