//! Numerals as people write them outside of JSON: in the words of the program and in the targets of requests. Decimal
//! digits alone, without sign and without leading zeros, of a number below 2^62. Public is `number_of`.
#![tactic(auto)]

mod numeral;

pub use numeral::number_of;
