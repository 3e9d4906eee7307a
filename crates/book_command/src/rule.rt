ghost use Rattle.std.specs.Prelude.{◌≡◌};

use book_accounts::TreeRule;
use book_commodity::{Counted, Kind, Text};
use book_splits::TxnRule;
use book_statement::StatementFault;

/// A rule of the book that a command would break.
#[derive(Drop)]
pub enum Rule {
    /// The command is for another version than this one, which is the present one.
    Stale { now: u64 },
    /// The book has no thing of this kind under this number.
    Unknown { kind: Kind, id: u64 },
    /// The thing with this number has the name already.
    NameTaken { id: u64 },
    /// The new parent is the account itself or stands under it.
    Cycle,
    /// The parent is in another group, or the account is a root.
    ParentKind,
    /// The root stays as it is.
    Root,
    /// This account is a placeholder, which takes no splits.
    Placeholder { account: u64 },
    /// This account has an account under it, or a split.
    NotEmpty { account: u64 },
    /// This schedule, statement, line, binding or reconciliation names the account.
    InUse { kind: Kind, id: u64 },
    /// One unit of a commodity is not made of 1 to 10^9 smallest units.
    FractionShape,
    /// A security account has no currency as its basis, or another account has a basis.
    BasisShape,
    /// The transaction has no split, or more than 500: so many.
    SplitCount { count: u64 },
    /// This commodity is no currency.
    WrongCurrency { commodity: u64 },
    /// This security account has another basis than the transaction's currency.
    Basis { account: u64 },
    /// The split at this place, counted from 0, is in the transaction's currency, and its value isn't its quantity.
    ValueNotQuantity { place: u64 },
    /// The values of the splits sum to this and not to zero.
    Unbalanced { sum: i128 },
    /// This split is reconciled with a statement, and would be removed, or have another account, quantity or mark.
    Reconciled { split: u64 },
    /// This transaction is voided.
    Voided { transaction: u64 },
    /// This transaction is not voided.
    NotVoided { transaction: u64 },
    /// The statement file is broken at a line of it.
    BadStatement { fault: StatementFault },
    /// No account is given, and this account text of a statement stands for none.
    Unbound { text: Text },
    /// This line is not open, or it is matched with the split.
    LineTaken { line: u64 },
    /// The split doesn't stand in the account of this line, or hasn't its amount as quantity.
    LineAmount { line: u64 },
    /// This statement has no closing balance.
    NoClosing { statement: u64 },
    /// The closing balance is so much above what would be reconciled, in smallest units of the account's commodity.
    Difference { by: i128 },
    /// A number of a price is not 1 to 10^9, or its commodity and its currency are one.
    PriceShape,
    /// The first day of a period comes after its last.
    DayRange,
    /// The recurrence at this place, counted from 0, steps on by none or by more than 10,000 at a time. Or the place is
    /// the count of the recurrences, and that isn't 1 to 12, or the end leaves room for none, or the days in advance
    /// are more than 366.
    RecurrenceShape { place: u64 },
    /// There is no change that could be undone.
    NothingToUndo,
    /// There is no undone change that could be made again.
    NothingToRedo,
    /// What is counted would pass its limit, which is `at`.
    Limit { which: Counted, at: u64 },
}

impl From<TreeRule> for Rule {
    ghost use Rattle.book_command.specs.Lifted.{of_tree_rule};

    ghost from_gives = { λ rule result. result ≡ of_tree_rule rule };

    fn from(rule: TreeRule) -> Rule {
        match rule {
            TreeRule::UnknownAccount { id } => Rule::Unknown {
                kind: Kind::Account,
                id,
            },
            TreeRule::NameTaken { id } => Rule::NameTaken { id },
            TreeRule::Cycle => Rule::Cycle,
            TreeRule::ParentKind => Rule::ParentKind,
        }
    }
}

impl From<TxnRule> for Rule {
    ghost use Rattle.book_command.specs.Lifted.{of_txn_rule};

    ghost from_gives = { λ rule result. result ≡ of_txn_rule rule };

    fn from(rule: TxnRule) -> Rule {
        match rule {
            TxnRule::SplitCount { count } => Rule::SplitCount { count },
            TxnRule::Unknown { kind, id } => Rule::Unknown { kind, id },
            TxnRule::WrongCurrency { commodity } => Rule::WrongCurrency { commodity },
            TxnRule::Placeholder { account } => Rule::Placeholder { account },
            TxnRule::Limit { which, at } => Rule::Limit { which, at },
            TxnRule::Basis { account } => Rule::Basis { account },
            TxnRule::ValueNotQuantity { place } => Rule::ValueNotQuantity { place },
            TxnRule::Unbalanced { sum } => Rule::Unbalanced { sum },
        }
    }
}
