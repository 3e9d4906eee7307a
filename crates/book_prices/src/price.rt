ghost use Rattle.std.specs.Prelude.{◌≡◌, ℕ, List, ◌∷◌, [], ◌++◌, Option, Some, None};
ghost use Rattle.std.specs.Bool.{Decides};
ghost use Rattle.book_prices.specs.Rate.{IsBest, IsOf, IsRatio, IsSound, is_same};

use book_commodity::{Day, Rate};

/// A price: on the day one whole unit of the commodity is worth num / denom whole units of the currency, both
/// numbers from 1 to 10^9.
#[derive(Clone, Copy, Debug, PartialEq, Eq)]
pub struct Price {
    pub commodity: u64,
    pub currency: u64,
    pub day: Day,
    pub num: u64,
    pub denom: u64,
}

/// The rate that the price gives.
pub(crate) fn rate_of(price: &Price) -> Rate
    requires { IsSound price.now }
    ensures { IsRatio price.now.num price.now.denom result }
{
    Rate {
        num: price.num,
        denom: price.denom,
    }
}

/// The rate that the price gives between its currency and its commodity.
pub(crate) fn turned_rate_of(price: &Price) -> Rate
    requires { IsSound price.now }
    ensures { IsRatio price.now.denom price.now.num result }
{
    Rate {
        num: price.denom,
        denom: price.num,
    }
}

/// Whether the price is of the pair, and on or before the day.
fn is_of(price: &Price, commodity: u64, currency: u64, day: Day) -> bool
    ensures { Decides result (IsOf commodity currency day price.now) }
{
    price.commodity == commodity && price.currency == currency && price.day.number() <= day.number()
}

/// The later of the best price so far and this one, where this one is of the pair and on or before the day.
pub(crate) fn last_of(
    best: Option<Price>,
    price: &Price,
    commodity: u64,
    currency: u64,
    day: Day,
) -> Option<Price>
    ensures { (prices : List (ℕ × Price)) (number : ℕ) → IsBest prices commodity currency day best
        → IsBest (prices ++ (number, price.now) ∷ []) commodity currency day result }
{
    if !is_of(price, commodity, currency, day) {
        return best;
    }
    let Some(found) = best else {
        return Some(*price);
    };
    if found.day.number() > price.day.number() {
        return Some(found);
    }
    Some(*price)
}

/// Whether the two are of one commodity, one currency and one day.
pub(crate) fn are_same(one: &Price, other: &Price) -> bool
    ensures { result ≡ is_same one.now other.now }
{
    one.commodity == other.commodity
        && one.currency == other.currency
        && one.day.number() == other.day.number()
}
