use book_commodity::{Day, Many, Text};
use book_match::Matched;
use book_statement::{Held, Line};

/// What one whole unit of a commodity is worth: num / denom whole units of a currency.
#[derive(Clone, Copy, Debug, PartialEq, Eq)]
pub struct Ratio {
    pub num: u64,
    pub denom: u64,
}

/// A day on which a transaction of a schedule is due, by the schedule's number.
#[derive(Clone, Copy, Debug, PartialEq, Eq)]
pub struct DueDay {
    pub schedule: u64,
    pub day: Day,
}

/// A line of a bank statement, with its number.
#[derive(Drop)]
pub struct LineShown {
    pub id: u64,
    pub line: Line,
}

/// A bank statement without its lines, with its number.
#[derive(Drop)]
pub struct HeldShown {
    pub id: u64,
    pub held: Held,
}

/// A reconciliation, with its number: its day, its opening and its closing balance in smallest units of the account's
/// commodity, how many splits it marked, and whether each of these still is as it was then.
#[derive(Clone, Copy, Debug, PartialEq, Eq)]
pub struct ReconShown {
    pub id: u64,
    pub day: Day,
    pub opening: i128,
    pub closing: i64,
    pub marked: u64,
    pub intact: bool,
}

/// A split of a voided transaction, by the transaction's number and its own: the value that was kept of it, in smallest
/// units of the transaction's currency, the quantity, in smallest units of the account's commodity, and the reason.
#[derive(Drop)]
pub struct VoidedShown {
    pub transaction: u64,
    pub split: u64,
    pub value: i64,
    pub quantity: i64,
    pub reason: Text,
}

/// What an accepted command is answered, by the command's word.
#[derive(Drop)]
pub enum Answer {
    BookCurrency,
    /// The number of the new commodity.
    CommodityAdd {
        commodity: u64,
    },
    /// The number of the new account.
    AccountAdd {
        account: u64,
    },
    AccountEdit,
    AccountDrop,
    /// The number of the new transaction, the numbers of its splits by place, and for each split the balance
    /// of its account after the post, in smallest units of the account's commodity.
    Post {
        transaction: u64,
        splits: Many<u64>,
        balances: Many<i128>,
    },
    /// The number of the transaction, which isn't written in the answer's line, the numbers of its splits by place,
    /// and for each split the balance of its account after the edit, in smallest units of the account's commodity.
    Edit {
        transaction: u64,
        splits: Many<u64>,
        balances: Many<i128>,
    },
    Drop,
    Void,
    Unvoid,
    Mark,
    /// The number of the price, which is new, or that of the one in whose place it stands.
    PriceSet {
        price: u64,
    },
    PriceDrop,
    /// What one unit of the commodity is worth in the currency; none where no price says so.
    Price {
        rate: Option<Ratio>,
    },
    /// The text of the account's register.
    Register {
        text: Text,
    },
    /// The text of the trial balance.
    Trial {
        text: Text,
    },
    /// The text of the balance sheet.
    Sheet {
        text: Text,
    },
    /// The text of the account's lots.
    Lots {
        text: Text,
    },
    /// What sales gained, in smallest units of the account's basis.
    Gains {
        gain: i128,
    },
    /// The text of the report of income and expenses.
    Income {
        text: Text,
    },
    /// The number of the new schedule.
    ScheduleAdd {
        schedule: u64,
    },
    ScheduleDrop,
    /// The numbers of the new transactions, in order of their schedules and days.
    ScheduleRun {
        transactions: Many<u64>,
    },
    Bind,
    /// The numbers of the statements and of the lines that were added, in the file's order, and how many of its lines
    /// were in the book already, or earlier in the file.
    Import {
        statements: Many<u64>,
        lines: Many<u64>,
        seen: u64,
    },
    LineMatch,
    /// The number of the new transaction, and those of its splits by place.
    LineAdd {
        transaction: u64,
        splits: Many<u64>,
    },
    LineDismiss,
    LineReopen,
    /// The lines that were matched, each with its split, by day and number of the lines.
    MatchAuto {
        pairs: Many<Matched>,
    },
    /// The number of the new reconciliation, and the numbers of the splits that it marked, in the order of the
    /// register.
    Reconcile {
        reconciliation: u64,
        marked: Many<u64>,
    },
    /// The same.
    ReconcileStatement {
        reconciliation: u64,
        marked: Many<u64>,
    },
    /// The lines of the account, by number.
    Lines {
        lines: Many<LineShown>,
    },
    /// The statements of the account, by number.
    Statements {
        statements: Many<HeldShown>,
    },
    /// The reconciliations of the account, by number.
    Recons {
        recons: Many<ReconShown>,
    },
    /// The splits of the account whose transactions are voided, by the transactions' numbers and by place.
    Voided {
        voided: Many<VoidedShown>,
    },
    /// The days that are due, in order of their schedules and days.
    Due {
        due: Many<DueDay>,
    },
    Undo,
    Redo,
    /// The counts of the present book's accounts, the root among them, of its lines of statements, reconciliations,
    /// splits and transactions; and how many books came before it and can come back (`past`), and how many were undone
    /// and can come again (`later`).
    Status {
        accounts: u64,
        later: u64,
        lines: u64,
        past: u64,
        recons: u64,
        splits: u64,
        transactions: u64,
    },
}
