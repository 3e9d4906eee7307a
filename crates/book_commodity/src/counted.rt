/// What has a stated limit: an amount, a count of things in the book, days, a window, or the numbers given to things.
#[derive(Clone, Copy, Debug, PartialEq, Eq)]
pub enum Counted {
    Amount,
    Transactions,
    Splits,
    Accounts,
    Commodities,
    Prices,
    Schedules,
    Lines,
    Statements,
    Bindings,
    Recons,
    Days,
    Window,
    Numbers,
}
