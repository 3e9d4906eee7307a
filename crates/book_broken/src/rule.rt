ghost use Rattle.std.specs.Prelude.{◌≡◌};
ghost use Rattle.book_broken.specs.Words.{number_words, restored_words, transaction_words, words_on};

use book_commodity::Kind;
use book_splits::TxnRule;

/// A rule of a sound book that the row of a key breaks.
#[derive(Clone, Copy, Debug, PartialEq, Eq)]
pub enum BrokenRule {
    /// The position of the head is above its version.
    PositionAboveVersion,
    /// The head counts more steps back than its position, or more than 256 steps in all.
    StepCounts,
    /// The currency isn't in the book, or is no currency.
    CurrencyIsNone,
    /// No account is the root.
    NoRoot,
    /// The number of a thing of this kind isn't below the next number of the head.
    NumberNotDrawn(Kind),
    /// The number of a marked split isn't below the next number of the head.
    MarkedNotDrawn,
    /// The count that a schedule has made isn't below the next number of the head.
    MadeNotDrawn,
    /// A commodity before it has its space and its name.
    SameCommodity,
    /// Its fraction is not from 1 to 10^9.
    Fraction,
    /// Its commodity isn't in the book.
    UnknownCommodity,
    /// It is a security account without a currency as its basis, or another account with a basis.
    Basis,
    /// It has no parent and isn't the root, or is a root and has one.
    Parent,
    /// It is a root and takes splits.
    RootTakesSplits,
    /// It is a root, and another account is the root.
    SecondRoot,
    /// Its parent isn't in the book, or of a kind that may not be above.
    ParentKind,
    /// An account before it has its parent and its name.
    SameName,
    /// Its parents don't lead up to the root.
    NotUnderRoot,
    /// It breaks this rule of a transaction, or its template does.
    Transaction(TxnRule),
    /// It is voided, and breaks this rule of a transaction as it would be brought back.
    Restored(TxnRule),
    /// Two of its splits have one number.
    SplitTwice,
    /// A transaction before it has a split with the number of one of its splits.
    SplitElsewhere,
    /// One of its splits is reconciled, and no reconciliation has marked it so; or it isn't, and names one; or it is
    /// voided, and the transaction isn't; or the transaction is, and the split isn't rightly so.
    Mark,
    /// It is voided, and what is kept isn't one value and one quantity for each of its splits.
    Kept,
    /// Its numbers are not from 1 to 10^9.
    Ratio,
    /// Its commodity is its currency.
    OneCommodity,
    /// A price before it has its commodity, its currency and its day.
    SameDay,
    /// One of its recurrences isn't every 1 to 10,000.
    Multiplier,
    /// It has no recurrence, or more than 12.
    RecurrenceCount,
    /// It ends after no occurrence.
    NoOccurrence,
    /// It is made more than 366 days in advance.
    Advance,
    /// A split of its template has a number, a mark or a reconciliation.
    TemplateSplit,
    /// Its template is voided.
    TemplateVoided,
    /// Its account isn't in the book.
    UnknownAccount,
    /// A statement before it is equal in all fields.
    SameStatement,
    /// Its statement isn't in the book.
    UnknownStatement,
    /// Its amount is above 10^12 in size.
    Amount,
    /// A line before it has its key.
    SameKey,
    /// The split that it is matched with isn't in the book, is of another account or quantity, or is voided.
    MatchedSplit,
    /// A line before it is matched with the same split.
    MatchedTwice,
    /// A binding before it has its text.
    SameText,
    /// Its account isn't in the book, or takes no splits.
    AccountTakesNone,
    /// A split stands twice in its list.
    MarkedTwice,
    /// Its opening balance and the marked quantities don't sum to its closing balance.
    NotClosed,
    /// The step back can't be taken, or leads to a book that isn't sound.
    StepBack,
    /// The step forth can't be taken, or leads to a book that isn't sound.
    StepForth,
    /// There are more of its kind than a book may have, or more splits.
    TooMany,
}

impl BrokenRule {
    /// The words for a person: which rule is broken, behind a colon. Each line ends by a line feed.
    #[tactic(auto, unfolding(crate::specs::Words::words_on))]
    pub fn words(self) -> &'static str
        ensures { result.now ≡ words_on self }
    {
        match self {
            BrokenRule::PositionAboveVersion => { "its position is above its version.\n" }
            BrokenRule::StepCounts => {
                "it counts more steps before than its position, or more than 256 steps in all.\n"
            }
            BrokenRule::CurrencyIsNone => {
                "its currency is not in the book, or is no currency.\n"
            }
            BrokenRule::NoRoot => { "no account is the root.\n" }
            BrokenRule::NumberNotDrawn(kind) => number_words(kind),
            BrokenRule::MarkedNotDrawn => {
                "the number of a marked split is not below the next number.\n"
            }
            BrokenRule::MadeNotDrawn => {
                "the number made of a schedule is not below the next number.\n"
            }
            BrokenRule::SameCommodity => { "another commodity has its space and its name.\n" }
            BrokenRule::Fraction => { "its fraction is not from 1 to 1,000,000,000.\n" }
            BrokenRule::UnknownCommodity => { "its commodity is not in the book.\n" }
            BrokenRule::Basis => {
                "it is a security account without a currency as its basis, or another account with a basis.\n"
            }
            BrokenRule::Parent => {
                "it has no parent and is not the root, or is a root and has a parent.\n"
            }
            BrokenRule::RootTakesSplits => { "it is a root, and takes splits.\n" }
            BrokenRule::SecondRoot => { "it is a root, and another account is the root.\n" }
            BrokenRule::ParentKind => {
                "its parent is not in the book, or is of a kind that may not be above it.\n"
            }
            BrokenRule::SameName => { "another account under the same parent has its name.\n" }
            BrokenRule::NotUnderRoot => { "its parents do not lead up to the root.\n" }
            BrokenRule::Transaction(rule) => transaction_words(rule),
            BrokenRule::Restored(rule) => restored_words(rule),
            BrokenRule::SplitTwice => { "two of its splits have the same number.\n" }
            BrokenRule::SplitElsewhere => {
                "a split of another transaction has the number of one of its splits.\n"
            }
            BrokenRule::Mark => {
                "one of its splits is reconciled, and no reconciliation of its account has marked it so;\n\
                or it is not reconciled, and names a reconciliation; or it is voided, and the transaction is not;\n\
                or the transaction is voided, and the split is not, or has amounts or a reconciliation.\n"
            }
            BrokenRule::Kept => {
                "it is voided, and what is kept is not one value and one quantity for each of its splits.\n"
            }
            BrokenRule::Ratio => { "its num or its denom is not from 1 to 1,000,000,000.\n" }
            BrokenRule::OneCommodity => { "its commodity is its currency.\n" }
            BrokenRule::SameDay => {
                "another price has its commodity, its currency and its day.\n"
            }
            BrokenRule::Multiplier => { "one of its recurrences is not every 1 to 10,000.\n" }
            BrokenRule::RecurrenceCount => { "it has no recurrence, or more than 12.\n" }
            BrokenRule::NoOccurrence => { "it ends after no occurrence.\n" }
            BrokenRule::Advance => { "it is made more than 366 days in advance.\n" }
            BrokenRule::TemplateSplit => {
                "a split of its template has a number, is not new, or names a reconciliation.\n"
            }
            BrokenRule::TemplateVoided => { "its template is voided.\n" }
            BrokenRule::UnknownAccount => { "its account is not in the book.\n" }
            BrokenRule::SameStatement => { "another statement is equal to it in all fields.\n" }
            BrokenRule::UnknownStatement => { "its statement is not in the book.\n" }
            BrokenRule::Amount => { "its amount is above 1,000,000,000,000 in size.\n" }
            BrokenRule::SameKey => {
                "another line has its key: its account, day, amount, type, references, text and ordinal.\n"
            }
            BrokenRule::MatchedSplit => {
                "the split that it is matched with is not in the book, has another account or quantity, or is voided.\n"
            }
            BrokenRule::MatchedTwice => { "another line is matched with the same split.\n" }
            BrokenRule::SameText => { "another binding has its text.\n" }
            BrokenRule::AccountTakesNone => {
                "its account is not in the book, or takes no splits.\n"
            }
            BrokenRule::MarkedTwice => { "a split stands twice in its list.\n" }
            BrokenRule::NotClosed => {
                "its opening balance and the marked quantities do not sum to its closing balance.\n"
            }
            BrokenRule::StepBack => {
                "from the book after it the step back can't be taken, or leads to a book that is not sound.\n"
            }
            BrokenRule::StepForth => {
                "from the book before it the step forth can't be taken, or leads to a book that is not sound.\n"
            }
            BrokenRule::TooMany => {
                "a book has no more of its kind, or no more splits, than stand before it.\n"
            }
        }
    }
}

/// The words where the number of a thing of the kind isn't below the next number.
#[tactic(auto, unfolding(crate::specs::Words::number_words))]
fn number_words(kind: Kind) -> &'static str
    ensures { result.now ≡ number_words kind }
{
    match kind {
        Kind::Commodity => "the number of a commodity is not below the next number.\n",
        Kind::Account => "the number of an account is not below the next number.\n",
        Kind::Transaction => "the number of a transaction is not below the next number.\n",
        Kind::Split => "the number of a split is not below the next number.\n",
        Kind::Price => "the number of a price is not below the next number.\n",
        Kind::Schedule => "the number of a schedule is not below the next number.\n",
        Kind::Statement => "the number of a statement is not below the next number.\n",
        Kind::Line => "the number of a line is not below the next number.\n",
        Kind::Binding => "the number of a binding is not below the next number.\n",
        Kind::Reconciliation => "the number of a reconciliation is not below the next number.\n",
    }
}

/// The words where a transaction, or a template, breaks the rule of transactions.
#[tactic(auto, unfolding(crate::specs::Words::transaction_words))]
fn transaction_words(rule: TxnRule) -> &'static str
    ensures { result.now ≡ transaction_words rule }
{
    match rule {
        TxnRule::SplitCount { .. } => { "it has no split, or more than 500.\n" }
        TxnRule::Unknown { .. } => {
            "its currency or the account of one of its splits is not in the book.\n"
        }
        TxnRule::WrongCurrency { .. } => { "its currency is no currency.\n" }
        TxnRule::Placeholder { .. } => { "one of its splits is on an account that takes none.\n" }
        TxnRule::Limit { .. } => {
            "the value or the quantity of one of its splits is above 10,000,000,000,000 in size.\n"
        }
        TxnRule::Basis { .. } => {
            "one of its splits is on a security account whose basis is not its currency.\n"
        }
        TxnRule::ValueNotQuantity { .. } => {
            "one of its splits is on an account in its currency, and its value is not its quantity.\n"
        }
        TxnRule::Unbalanced { .. } => { "the values of its splits do not sum to zero.\n" }
    }
}

/// The words where a voided transaction, as it would be brought back, breaks the rule of transactions.
#[tactic(auto, unfolding(crate::specs::Words::restored_words))]
fn restored_words(rule: TxnRule) -> &'static str
    ensures { result.now ≡ restored_words rule }
{
    match rule {
        TxnRule::SplitCount { .. } => {
            "as it would be brought back, it has no split, or more than 500.\n"
        }
        TxnRule::Unknown { .. } => {
            "as it would be brought back, its currency or the account of one of its splits is not in the book.\n"
        }
        TxnRule::WrongCurrency { .. } => {
            "as it would be brought back, its currency is no currency.\n"
        }
        TxnRule::Placeholder { .. } => {
            "as it would be brought back, one of its splits is on an account that takes none.\n"
        }
        TxnRule::Limit { .. } => {
            "as it would be brought back, the value or the quantity of one of its splits is above 10,000,000,000,000 in size.\n"
        }
        TxnRule::Basis { .. } => {
            "as it would be brought back, one of its splits is on a security account whose basis is not its currency.\n"
        }
        TxnRule::ValueNotQuantity { .. } => {
            "as it would be brought back, one of its splits is on an account in its currency, and its value is not its quantity.\n"
        }
        TxnRule::Unbalanced { .. } => {
            "as it would be brought back, the values of its splits do not sum to zero.\n"
        }
    }
}
