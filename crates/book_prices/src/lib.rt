//! Prices and the rates that follow from them: what one commodity is worth in another on a day, and the worth of a
//! balance (GnuCash Concepts Guide, the price database). There is one price per commodity, currency and day.
//! Public are `Price`, the table `Prices` with its two look-ups `price_at` and `same`, and `worth`.
#![tactic(auto)]

mod price;
mod prices;
mod valuation;

pub use price::Price;
pub use prices::Prices;
pub use valuation::{Valuation, worth};
