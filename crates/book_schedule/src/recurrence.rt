use book_commodity::Day;

/// By what a recurrence steps on from its start.
#[derive(Clone, Copy, Debug, PartialEq, Eq)]
pub enum RecurrenceKind {
    /// Not at all: it has the start alone.
    Once,
    Daily,
    Weekly,
    /// By months, to the day with the start's number, or a shorter month's last day.
    Monthly,
    /// By months, to the last day.
    EndOfMonth,
    /// By months, to the day with the start's weekday and ordinal, as the second Tuesday; the last such weekday
    /// for a start on days 29 to 31.
    NthWeekday,
    /// By months, to the last day with the start's weekday.
    LastWeekday,
    /// By years, as `Monthly` with twelve months each.
    Yearly,
}

/// Where a day of the weekend is moved, for the kinds `Monthly`, `EndOfMonth` and `Yearly` alone.
#[derive(Clone, Copy, Debug, PartialEq, Eq)]
pub enum Adjust {
    Nothing,
    /// To the Friday before.
    Back,
    /// To the Monday after.
    Forward,
}

/// What comes again every so many steps of its kind, from 1 to 10,000, counted from the start.
#[derive(Clone, Copy, Debug, PartialEq, Eq)]
pub struct Recurrence {
    pub kind: RecurrenceKind,
    pub every: u32,
    pub start: Day,
    pub adjust: Adjust,
}
