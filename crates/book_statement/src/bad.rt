use crate::{CountOf, Level};

/// What is wrong at a place of a statement file. Amounts are in smallest units: `said` is what the file says,
/// `reckoned` what its other parts give.
#[derive(Clone, Copy, Debug, PartialEq, Eq)]
pub enum Bad {
    /// In MT940 no line begins with `:20:`. In BAI2 no line has content, or the first that has is no record 01. In QIF
    /// no section that is read has a record.
    NoStatement,
    /// A field of MT940 that may not stand there.
    FieldOrder,
    /// A record of BAI2 that may not stand there.
    RecordOrder,
    /// A form that is broken elsewhere than in a date or an amount.
    FieldForm,
    /// A broken date, or one that the calendar does not have.
    DateForm,
    /// A broken amount, or one above 10^12 in size.
    AmountForm,
    /// An amount of MT940 or QIF that is no whole number of smallest units.
    TooManyDecimals,
    /// A currency that is not among the commodities.
    UnknownCurrency,
    /// In MT940, another currency than that of the opening balance.
    CurrencyDiffers,
    /// In MT940, two pages of a statement that do not go on from one another.
    PageOrder,
    /// A BAI2 file of another version than 2.
    Version,
    /// A BAI2 group of another status than 1, update.
    GroupStatus,
    /// In MT940, a closing balance that is not the opening balance with the lines of its message.
    BalanceMismatch {
        said: i128,
        reckoned: i128,
    },
    /// In BAI2, a control total that is not the sum of what it is the total of.
    ControlTotal {
        level: Level,
        said: i128,
        reckoned: i128,
    },
    /// In BAI2, a count of a trailer that is not the number of what it counts.
    Count {
        what: CountOf,
        said: i128,
        reckoned: i128,
    },
    /// In QIF, an amount that is not the sum of its parts.
    SplitSum {
        said: i128,
        reckoned: i128,
    },
    /// The file, a message of MT940 or a record of QIF ends too early.
    CutOff,
    /// More than 10,000 lines of a statement, or more than 1,000 statements.
    TooMany,
}
