//! A list that is kept in chunks of at most 512 entries, with the sums of the entries' weights kept for each chunk. So
//! an entry is put in or taken out by moving the entries of a chunk or two and not all behind it, and the sums of the
//! first entries are found by reading the sums of chunks and the entries of one chunk. Public are `Weigh`, what an
//! entry weighs, `Test`, by which entries are searched for, and the list `Seq`, which contracts see as its entries, the
//! number of its chunks and its room.
#![tactic(auto)]

mod chunk;
mod seq;
mod spot;
mod sums;
mod test;
mod weigh;

pub use seq::Seq;
pub use test::Test;
pub use weigh::Weigh;
