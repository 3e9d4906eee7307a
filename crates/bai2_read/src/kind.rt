/// What a line of a BAI2 file is, by the code of its record.
#[derive(Clone, Copy, Debug, PartialEq, Eq)]
pub enum Kind {
    /// An empty line. It also stands for what is before the first record.
    Blank,
    /// 01
    FileHeader,
    /// 02
    GroupHeader,
    /// 03, account identifier and summary status
    AccountHeader,
    /// 16, transaction detail
    Detail,
    /// 49
    AccountTrailer,
    /// 88
    Continuation,
    /// 98
    GroupTrailer,
    /// 99
    FileTrailer,
    /// A record of another code.
    Unknown,
    /// A line that is no record.
    NoRecord,
}
