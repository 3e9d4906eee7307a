/// What a header begins (Quicken's description of QIF, headers).
#[derive(Clone, Copy, Debug, PartialEq, Eq)]
pub enum Topic {
    /// The transactions of an account of a bank, of cash, of a credit card, or of another asset or liability.
    Register,
    /// A list of accounts.
    Accounts,
    /// Any other list, and what stands before the first header.
    Passed,
}

/// What a line of an entry gives, by its first character (Quicken's description of QIF, codes of a register).
#[derive(Clone, Copy, Debug, PartialEq, Eq)]
pub enum Code {
    /// `D`, the day.
    Date,
    /// `T`, the amount.
    Total,
    /// `U`, the amount as newer programs write it beside the `T`.
    OtherTotal,
    /// `N`, the number of a check, or the name in a list of accounts.
    Number,
    /// `P`, the payee.
    Payee,
    /// `M`, the memo.
    Memo,
    /// `L`, the category, or an account in brackets.
    Category,
    /// `S`, the category of a part.
    Split,
    /// `E`, the memo of a part.
    SplitMemo,
    /// `$`, the amount of a part.
    SplitAmount,
    /// Any other code.
    Other,
}

/// What a line of the file is.
#[derive(Clone, Copy, Debug, PartialEq, Eq)]
pub enum LineKind {
    /// A header that begins a list.
    Header(Topic),
    /// A header that leaves the list as it is.
    Switch,
    /// The end of an entry.
    End,
    /// A line without a character.
    Empty,
    /// A line of an entry.
    Field(Code),
}
