//! The values that every other crate of the book stands on: text, bytes and lists with a plain meaning, days of the
//! calendar, commodities with their amounts and rates, tables of numbered values, and the words for kinds and limits.
//! Contracts see a `Text` and a `Bytes` as the list of its bytes, a `Many` as the list of its items, a `Day` as its
//! number and a `Table` as its entries by rising number. Amounts are whole counts of the smallest unit of a commodity.
#![tactic(auto)]

mod amount;
mod bytes;
mod commodity;
mod counted;
mod day;
mod discarding;
mod kind;
mod many;
mod memory;
mod rate;
mod table;
mod text;

pub use amount::amount_text;
pub use bytes::Bytes;
pub use commodity::{Commodities, Commodity};
pub use counted::Counted;
pub use day::Day;
pub use discarding::discard;
pub use kind::Kind;
pub use many::Many;
pub use memory::OutOfMemory;
pub use rate::{Rate, scale};
pub use step_counter::Steps;
pub use table::Table;
pub use text::Text;
