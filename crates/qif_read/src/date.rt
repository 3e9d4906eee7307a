ghost use Rattle.std.specs.Prelude.{◌≡◌, ◌≤◌, ◌==◌, drop, length, slice_index, IsTrue};
ghost use Rattle.std.specs.Char.{is_ascii_digit};
ghost use Rattle.std.specs.List.{prefix_len};
ghost use Rattle.book_statement.specs.Numbers.{has_digits, number};
ghost use Rattle.qif_read.specs.QifDate.{behind_spaces, numeral, behind_numeral, is_mark, is_year_mark, is_year};
ghost use Rattle.qif_read.specs.QifDate.{parts_of, is_date_form, year_said, day_in, day_of_parts, day_named};

use crate::DateOrder;
use book_commodity::Day;
use book_statement::{day_of_date, has_digits, number, year_of_two};

/// The day that a text names, as `1/15'24` or `15.01.2024`; `None` where it has not the form of a date or the calendar
/// has no such day from 1900 to 2199.
#[tactic(auto, unfolding(crate::specs::QifDate::day_named))]
pub fn read_date(order: DateOrder, text: &[u8]) -> Option<Day>
    ensures { result ≡ day_named order text.now }
{
    let (first, rest) = split_numeral(text);
    let (mark, rest) = split_mark(rest);
    let (second, rest) = split_numeral(rest);
    let (year_mark, rest) = split_mark(rest);
    let year = behind_spaces(rest);
    day_of_parts(order, first, mark, second, year_mark, year)
}

/// The day that parts name, where they have the form of a date.
fn day_of_parts(
    order: DateOrder,
    first: &[u8],
    mark: u8,
    second: &[u8],
    year_mark: u8,
    year: &[u8],
) -> Option<Day>
    ensures { result ≡ day_of_parts order (parts_of first.now mark second.now year_mark year.now) }
{
    if !is_date_form(first, mark, second, year_mark, year) {
        return None;
    }
    let year = year_said(year_mark, year);
    day_in(order, year, number_of_two(first), number_of_two(second))
}

/// Whether the parts have the form of a date.
#[tactic(auto, unfolding(crate::specs::QifDate::is_date_form))]
fn is_date_form(first: &[u8], mark: u8, second: &[u8], year_mark: u8, year: &[u8]) -> bool
    ensures { result ≡ is_date_form (parts_of first.now mark second.now year_mark year.now) }
{
    has_digits(first, 1, 2)
        && is_mark(mark)
        && has_digits(second, 1, 2)
        && is_year_mark(year_mark)
        && is_year(year)
}

/// Whether it is a slash, a hyphen or a point.
fn is_mark(byte: u8) -> bool
    ensures { result ≡ is_mark byte }
{
    byte == b'/' || byte == b'-' || byte == b'.'
}

/// Whether it is a mark or an apostrophe.
fn is_year_mark(byte: u8) -> bool
    ensures { result ≡ is_year_mark byte }
{
    is_mark(byte) || byte == b'\''
}

/// Whether it is one, two or four digits.
fn is_year(text: &[u8]) -> bool
    ensures { result ≡ is_year text.now }
{
    has_digits(text, 1, 2) || has_digits(text, 4, 4)
}

/// The year that the digits behind a mark stand for.
#[tactic(auto, unfolding(crate::specs::QifDate::year_said))]
fn year_said(mark: u8, digits: &[u8]) -> u16
    requires { IsTrue (is_year digits.now) }
    ensures { result ≡ year_said mark digits.now }
{
    let year = number(digits) as u16;
    if digits.len() == 4 {
        return year;
    }
    if mark == b'\'' {
        return 2000 + year;
    }
    year_of_two(year)
}

/// The number of one or two digits.
fn number_of_two(digits: &[u8]) -> u32
    requires { IsTrue (has_digits 1 2 digits.now) }
    ensures { result ≡ number digits.now }
{
    number(digits) as u32
}

/// The day of a year that two numbers name, in the order of month and day.
fn day_in(order: DateOrder, year: u16, first: u32, second: u32) -> Option<Day>
    ensures { result ≡ day_in order year first second }
{
    match order {
        DateOrder::MonthDay => day_of_date(year, first, second),
        DateOrder::DayMonth => day_of_date(year, second, first),
    }
}

/// The digits behind the spaces in front, and what stands behind them.
#[tactic(auto, unfolding(crate::specs::QifDate::numeral, crate::specs::QifDate::behind_numeral))]
fn split_numeral(text: &[u8]) -> (&[u8], &[u8])
    ensures numeral { result.0.now ≡ numeral text.now }
    ensures rest { result.1.now ≡ behind_numeral text.now }
{
    let text = behind_spaces(text);
    text.split_at(digits_len(text))
}

/// The first byte, 0 where there is none, and what stands behind it.
fn split_mark(text: &[u8]) -> (u8, &[u8])
    ensures mark { result.0 ≡ slice_index text.now 0 }
    ensures rest { result.1.now ≡ drop 1 text.now }
{
    match text {
        [] => (0, text),
        [mark, rest @ ..] => (*mark, rest),
    }
}

/// What stands behind the spaces in front.
#[tactic(auto, unfolding(crate::specs::QifDate::behind_spaces))]
fn behind_spaces(text: &[u8]) -> &[u8]
    ensures { result.now ≡ behind_spaces text.now }
{
    &text[spaces_len(text)..]
}

/// How many spaces stand in front.
fn spaces_len(text: &[u8]) -> usize
    ensures count { result ≡ prefix_len (λ b. b == 32) text.now }
    ensures within { result ≤ length text.now }
{
    for (i, byte) in text.iter().enumerate() {
        if *byte != b' ' {
            return i;
        }
    }
    text.len()
}

/// How many digits stand in front.
pub fn digits_len(text: &[u8]) -> usize
    ensures count { result ≡ prefix_len is_ascii_digit text.now }
    ensures within { result ≤ length text.now }
{
    for (i, byte) in text.iter().enumerate() {
        if !byte.is_ascii_digit() {
            return i;
        }
    }
    text.len()
}
