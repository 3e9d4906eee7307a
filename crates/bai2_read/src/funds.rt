ghost use Rattle.std.specs.Prelude.{◌≡◌, ◌<◌};
ghost use Rattle.bai2_read.specs.Fields.{funds_date, funds_form, field, funds_of, further, value_date, value_day};

use crate::amounts::{count, is_count};
use crate::fields::{field, has_fields};
use book_commodity::Day;
use book_statement::short_date;

/// The funds types of BAI2, which say when an amount is available.
#[derive(Clone, Copy, Debug, PartialEq, Eq)]
pub enum Funds {
    /// Empty, 0, 1, 2 or Z: nothing more is said.
    Simple,
    /// S: the amounts available at once, in one day and later.
    Distributed,
    /// V: the date and the time from which the amount is available.
    ValueDated,
    /// D: a count of pairs of days and amounts.
    Spread,
    /// No funds type.
    Strange,
}

/// The funds type that a text names.
fn funds_of(text: &[u8]) -> Funds
    ensures { result ≡ funds_of text.now }
{
    if text.is_empty() {
        return Funds::Simple;
    }
    if text.len() > 1 {
        return Funds::Strange;
    }
    match text[0] {
        b'0' | b'1' | b'2' | b'Z' => Funds::Simple,
        b'S' => Funds::Distributed,
        b'V' => Funds::ValueDated,
        b'D' => Funds::Spread,
        _ => Funds::Strange,
    }
}

/// How many fields follow the funds type that is the first field.
#[tactic(auto, unfolding(crate::specs::Fields::further))]
pub fn further(from: &[u8]) -> usize
    ensures value { result ≡ further from.now }
    ensures bound { result < 2_000_000_000 }
{
    match funds_of(field(from, 0)) {
        Funds::Simple | Funds::Strange => 0,
        Funds::Distributed => 3,
        Funds::ValueDated => 2,
        Funds::Spread => 1 + 2 * count(field(from, 1)) as usize,
    }
}

/// Whether the first field is a funds type whose fields are there.
#[tactic(auto, unfolding(crate::specs::Fields::funds_form))]
pub fn funds_form(from: &[u8]) -> bool
    ensures { result ≡ funds_form from.now }
{
    match funds_of(field(from, 0)) {
        Funds::Simple | Funds::ValueDated => true,
        Funds::Distributed => has_fields(from, 4),
        Funds::Spread => {
            let pairs = field(from, 1);
            is_count(pairs) && has_fields(from, 2 + 2 * count(pairs) as usize)
        }
        Funds::Strange => false,
    }
}

/// The text of the value date; empty where the funds type has none.
fn value_date(from: &[u8]) -> &[u8]
    ensures { result.now ≡ value_date (funds_of (field 0 from.now)) from.now }
{
    match funds_of(field(from, 0)) {
        Funds::ValueDated => field(from, 1),
        _ => &from[..0],
    }
}

/// Whether the value date is empty or a date.
#[tactic(auto, unfolding(crate::specs::Fields::funds_date))]
pub fn funds_date(from: &[u8]) -> bool
    ensures { result ≡ funds_date from.now }
{
    let text = value_date(from);
    text.is_empty() || short_date(text).is_some()
}

/// The value day: the date of the funds type, or else the day given.
#[tactic(auto, unfolding(crate::specs::Fields::value_day))]
pub fn value_day(day: Day, from: &[u8]) -> Day
    ensures { result ≡ value_day day from.now }
{
    short_date(value_date(from)).unwrap_or(day)
}
