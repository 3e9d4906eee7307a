ghost use Rattle.std.specs.Prelude.{◌≡◌};
ghost use Rattle.book_listings.specs.Journal.{is_within};

use book_commodity::Day;

/// The days from one to another; none, where the last is before the first.
#[derive(Clone, Copy, Debug, PartialEq, Eq)]
pub struct Days {
    pub from: Day,
    pub to: Day,
}

/// Whether a day is one of these, or there are none given.
pub(crate) fn is_within(days: &Option<Days>, day: Day) -> bool
    ensures { result ≡ is_within days.now day }
{
    match days {
        Some(days) => days.from.number() <= day.number() && day.number() <= days.to.number(),
        None => true,
    }
}
