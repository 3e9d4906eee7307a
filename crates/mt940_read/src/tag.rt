/// The fields of a message that say something, by their tags.
#[derive(Clone, Copy, PartialEq, Eq)]
pub enum Tag {
    /// 20, the reference that begins a message.
    Reference,
    /// 21, a related reference.
    Related,
    /// 25 or 25P, the account.
    Account,
    /// 28 or 28C, the number of the statement.
    Number,
    /// 60F or 60M, the opening balance; with M the page goes on with the statement of the page before.
    Opening { goes_on: bool },
    /// 61, a line of the statement.
    Line,
    /// 86, a text.
    Text,
    /// 62F or 62M, the closing balance; with M the statement goes on with the next page.
    Closing { goes_on: bool },
    /// 64, the closing balance that is available.
    Available,
    /// 65, a balance that will be available.
    Forward,
}

/// What a line of a message is.
#[derive(Clone, Copy, PartialEq, Eq)]
pub enum Kind {
    /// It begins a message.
    Begins,
    /// It begins a field.
    Field(Tag),
    /// It begins a field that is passed over.
    Passed,
    /// It ends the message.
    Ends,
    /// It goes on with the field before.
    More,
}
