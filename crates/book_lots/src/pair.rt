use book_commodity::Day;

/// Units of a split that buys and of one that sells, as many of both, with the day of the later split and the gain in
/// smallest units of the currency.
#[derive(Clone, Copy, Debug, PartialEq, Eq)]
pub struct Pair {
    pub plus: u64,
    pub minus: u64,
    pub units: i64,
    pub day: Day,
    pub gain: i128,
}
