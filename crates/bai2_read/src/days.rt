ghost use Rattle.std.specs.Prelude.{◌≡◌, pos};
ghost use Rattle.bai2_read.specs.Statements.{day_in};

use crate::fields::field;
use book_commodity::Day;
use book_statement::short_date;

/// 1970-01-01.
pub fn first_day() -> Day
    ensures { result ≡ pos 0 }
{
    let Some(day) = Day::of_number(0) else {
        unreachable!()
    };
    day
}

/// The as-of date of a group's header; 1970-01-01 where it is none.
pub fn day_in(body: &[u8]) -> Day
    ensures { result ≡ day_in body.now }
{
    short_date(field(body, 3)).unwrap_or(first_day())
}
