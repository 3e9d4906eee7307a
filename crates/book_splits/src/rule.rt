use book_commodity::{Counted, Kind};

/// A rule that a transaction would break.
#[derive(Clone, Copy, Debug, PartialEq, Eq)]
pub enum TxnRule {
    /// It has no split, or more than 500.
    SplitCount { count: u64 },
    /// The book has no thing of this kind under this number.
    Unknown { kind: Kind, id: u64 },
    /// Its currency is a commodity that isn't in the space `CURRENCY`.
    WrongCurrency { commodity: u64 },
    /// This account is a placeholder, which takes no splits.
    Placeholder { account: u64 },
    /// An amount is above this size, in smallest units.
    Limit { which: Counted, at: u64 },
    /// This security account has another basis than the transaction's currency.
    Basis { account: u64 },
    /// The split at this place, counted from 0, is in the transaction's currency, and its value isn't its quantity.
    ValueNotQuantity { place: u64 },
    /// The values of the splits sum to this and not to zero.
    Unbalanced { sum: i128 },
}
