/// The balances of a register: over all entries, over those that are cleared or reconciled, and over those reconciled.
#[derive(Clone, Copy, Debug, PartialEq, Eq)]
pub struct Balances {
    pub all: i128,
    pub cleared: i128,
    pub reconciled: i128,
}
