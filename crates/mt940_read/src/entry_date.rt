ghost use Rattle.std.specs.Prelude.{◌≡◌, ◌<◌, ◌≤◌, IsTrue};
ghost use Rattle.book_statement.specs.Numbers.{has_digits};
ghost use Rattle.mt940_read.specs.EntryDate.{distance, entry_date, entry_day, nearer};

use book_commodity::Day;
use book_statement::{day_of_date, number, year_of_two};

/// The day that four digits MMDD name beside a value date YYMMDD: in its year or one of the two neighbours, whichever
/// brings it nearest to the value date, the earlier at a tie; `None` where none of the three years has the date.
#[tactic(auto, unfolding(crate::specs::EntryDate::entry_date))]
pub fn entry_date(value_date: &[u8], value: Day, text: &[u8]) -> Option<Day>
    requires value { IsTrue (has_digits 6 6 value_date.now) }
    requires entry { IsTrue (has_digits 4 4 text.now) }
    ensures { result ≡ entry_date value_date.now value text.now }
{
    let year = year_of_two(number(&value_date[..2]) as u16);
    let month = number(&text[..2]) as u32;
    let day = number(&text[2..4]) as u32;
    entry_day(year, value, month, day)
}

/// The day of a month and a day of the month, in the year or one of its two neighbours, that lies nearest to a day;
/// the earlier one at a tie; `None` where none of the three years has it.
#[tactic(auto, unfolding(crate::specs::EntryDate::entry_day))]
fn entry_day(year: u16, value: Day, month: u32, day: u32) -> Option<Day>
    requires low { 1 ≤ year }
    requires high { year < 10000 }
    ensures { result ≡ entry_day year value month day }
{
    let before = day_of_date(year - 1, month, day);
    let within = day_of_date(year, month, day);
    let behind = day_of_date(year + 1, month, day);
    nearer(value, nearer(value, before, within), behind)
}

/// Of two days the one that lies nearer to a day, the first one at a tie.
fn nearer(to: Day, first: Option<Day>, second: Option<Day>) -> Option<Day>
    ensures { result ≡ nearer to first second }
{
    match (first, second) {
        (None, second) => second,
        (Some(first), None) => Some(first),
        (Some(first), Some(second)) => {
            if distance(second, to) < distance(first, to) {
                Some(second)
            } else {
                Some(first)
            }
        }
    }
}

/// How many days lie between two days.
fn distance(first: Day, second: Day) -> u32
    ensures { result ≡ distance first second }
{
    (first.number() - second.number()).unsigned_abs()
}
