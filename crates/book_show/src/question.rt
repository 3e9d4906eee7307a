use book_commodity::Text;
use book_listings::Days;

/// What is asked of a book.
#[derive(Drop)]
pub enum Question {
    /// All accounts, in the order of their tree.
    Accounts,
    /// All commodities, by number.
    Commodities,
    /// All prices, by number.
    Prices,
    /// All schedules, by number.
    Schedules,
    /// The transactions by day: those of these days or, where none are given, all.
    Journal(Option<Days>),
    /// The register of the account with this number.
    Account(u64),
    /// The transactions in whose num, description or memos this text stands, by day.
    Find(Text),
    /// The line of the command `edit` of the transaction with this number.
    Command(u64),
    /// The whole book as a journal that ledger and hledger read.
    Export,
    /// That the book is sound, and how much of each kind it has.
    Check,
}
