/// Units of a split that no split of the other sign is paired with, and their part of its value. The units of a short
/// lot, which were sold and not yet bought, are negative.
#[derive(Clone, Copy, Debug, PartialEq, Eq)]
pub struct OpenLot {
    pub split: u64,
    pub units: i64,
    pub cost: i128,
}
