use book_accounts::Account;
use book_commodity::{Commodity, Day, Many, Text};
use book_prices::Price;
use book_schedule::{End, Recurrence};
use book_statement::Binding;

/// What one line asks, and at which version, where that is given.
#[derive(Drop)]
pub struct Command {
    pub at: Option<u64>,
    pub what: What,
}

/// What one line asks.
#[derive(Drop)]
pub enum What {
    /// A change of the book.
    Update(Update),
    /// The book before the last change that was not undone becomes the present one.
    Undo,
    /// The change that was undone last is made again.
    Redo,
    /// What one unit of the commodity is worth in the currency on the day.
    Price {
        commodity: u64,
        currency: u64,
        day: Day,
    },
    /// A report on the present book.
    Report(Report),
    /// The lines of the account's bank statements.
    Lines {
        account: u64,
    },
    /// The account's bank statements.
    Statements {
        account: u64,
    },
    /// The account's reconciliations.
    Recons {
        account: u64,
    },
    /// The account's splits of voided transactions.
    Voided {
        account: u64,
    },
    /// Which days of the schedules are due up to the day.
    Due {
        upto: Day,
    },
    /// How much of each kind the book has, and how many steps can be undone and redone.
    Status,
}

/// A report on the present book, by the command's word: a text in columns for a person or, where `csv` is true,
/// comma-separated values. Gains are one sum.
#[derive(Drop)]
pub enum Report {
    /// The rows of the account from one day to another, with the balance after each. A day that isn't given is the
    /// first or the last of all.
    Register {
        account: u64,
        from: Option<Day>,
        to: Option<Day>,
        csv: bool,
    },
    /// The trial balance up to the day.
    Trial {
        day: Day,
        csv: bool,
    },
    /// The balance sheet on the day.
    Sheet {
        day: Day,
        csv: bool,
    },
    /// The lots of the account: what was bought and what was sold, paired first in first out.
    Lots {
        account: u64,
        csv: bool,
    },
    /// What sales gained on the account from one day to another.
    Gains {
        account: u64,
        from: Day,
        to: Day,
    },
    /// Income and expenses from one day to another.
    Income {
        from: Day,
        to: Day,
        csv: bool,
    },
}

/// A change of the book, by the command's word.
#[derive(Drop)]
pub enum Update {
    /// The book's currency becomes this commodity.
    BookCurrency {
        commodity: u64,
    },
    /// A new commodity.
    CommodityAdd {
        commodity: Commodity,
    },
    /// A new account.
    AccountAdd {
        account: Account,
    },
    /// The account of this number has from now on what is given.
    AccountEdit {
        account: u64,
        given: GivenAccount,
    },
    /// The account of this number is deleted.
    AccountDrop {
        account: u64,
    },
    /// A new transaction on the day.
    Post {
        day: Day,
        given: GivenTxn,
    },
    /// The transaction of this number has from now on this day and what is given. Reconciled splits are removed or
    /// changed only with force.
    Edit {
        transaction: u64,
        force: bool,
        day: Day,
        given: GivenTxn,
    },
    /// The transaction of this number is deleted. One with reconciled splits is deleted only with force.
    Drop {
        transaction: u64,
        force: bool,
    },
    /// The transaction of this number is voided for the reason: its amounts become zero, and what they were is kept.
    /// One with reconciled splits is voided only with force.
    Void {
        transaction: u64,
        reason: Text,
        force: bool,
    },
    /// The voided transaction of this number is brought back, with the amounts that were kept of it.
    Unvoid {
        transaction: u64,
    },
    /// The split of this number is cleared, or it is new again. The mark of a reconciled one changes only with force.
    Mark {
        split: u64,
        cleared: bool,
        force: bool,
    },
    /// The price of the commodity in the currency on the day, in the place of the one that is there.
    PriceSet {
        price: Price,
    },
    /// The price of this number is deleted.
    PriceDrop {
        price: u64,
    },
    /// A new schedule.
    ScheduleAdd {
        given: GivenSchedule,
    },
    /// The schedule of this number is deleted.
    ScheduleDrop {
        schedule: u64,
    },
    /// The transactions that are due up to the day are made, of all schedules or of the one of this number.
    ScheduleRun {
        upto: Day,
        schedule: Option<u64>,
    },
    /// The account text of the binding stands for its account from now on, also where it stood for another.
    Bind {
        binding: Binding,
    },
    /// The statements of a file that are not in the book, and their lines that are not, are added. They go to the
    /// account, or where none is given, to those that their account texts stand for.
    Import {
        format: Format,
        text: Text,
        account: Option<u64>,
    },
    /// The open line of this number is matched with the split, which is cleared where it was new.
    LineMatch {
        line: u64,
        split: u64,
    },
    /// A transaction is posted for the open line of this number, on its day and with its amount, and the line is
    /// matched with its first split. Where no description is given it is the line's text.
    LineAdd {
        line: u64,
        others: Many<GivenOther>,
        description: Option<Text>,
    },
    /// The open line of this number is dismissed.
    LineDismiss {
        line: u64,
    },
    /// The line of this number is open again.
    LineReopen {
        line: u64,
    },
    /// Each open line of the account is matched with the nearest of its splits that has the line's amount and is at
    /// most so many days away, where one is left.
    MatchAuto {
        account: u64,
        window: u64,
    },
    /// The cleared splits of the account on or before the day are reconciled, if with those that are they sum to the
    /// closing balance, in smallest units of the account's commodity.
    Reconcile {
        account: u64,
        day: Day,
        closing: i64,
    },
    /// The same for the account of the statement of this number, at its day and with its closing balance.
    ReconcileStatement {
        statement: u64,
    },
}

/// The format of a statement file. A QIF file names no currency, so the commodity in which it is comes with it; the
/// name says whether the month or the day stands first in its dates.
#[derive(Clone, Copy, Debug, PartialEq, Eq)]
pub enum Format {
    Mt940,
    Bai2,
    QifMonthFirst { currency: u64 },
    QifDayFirst { currency: u64 },
}

/// What stands against a line of a statement in the transaction that is posted for it: an account, and a value in
/// smallest units of its commodity.
#[derive(Drop)]
pub struct GivenOther {
    pub account: u64,
    pub value: i64,
    pub memo: Text,
}

/// What an account is to have from now on; what isn't given stays as it is.
#[derive(Drop)]
pub struct GivenAccount {
    pub name: Option<Text>,
    pub parent: Option<u64>,
    pub code: Option<Text>,
    pub note: Option<Text>,
    pub hidden: Option<bool>,
    pub placeholder: Option<bool>,
}

/// A transaction as a command gives it, but for its day.
#[derive(Drop)]
pub struct GivenTxn {
    pub currency: u64,
    pub num: Text,
    pub description: Text,
    pub splits: Many<GivenSplit>,
}

/// A split as a command gives it: its value is in smallest units of the transaction's currency, its quantity in
/// smallest units of the account's commodity. Only an edit of a transaction gives a number, that of a split that
/// stays.
#[derive(Drop)]
pub struct GivenSplit {
    pub account: u64,
    pub value: i64,
    pub quantity: i64,
    pub memo: Text,
    pub action: Text,
    pub id: Option<u64>,
}

/// A schedule as a command gives it: its name, its recurrences and its end, how many days in advance its transactions
/// are made, and the transaction that is made.
#[derive(Drop)]
pub struct GivenSchedule {
    pub name: Text,
    pub recurrences: Many<Recurrence>,
    pub end: End,
    pub advance: u32,
    pub template: GivenTxn,
}
