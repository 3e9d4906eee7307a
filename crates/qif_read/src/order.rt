/// Which of the first two numbers of a date is the month: QIF files do not say it themselves.
#[derive(Clone, Copy, Debug, PartialEq, Eq)]
pub enum DateOrder {
    /// The first number is the month, as in 1/15/24.
    MonthDay,
    /// The first number is the day, as in 15/1/24.
    DayMonth,
}
