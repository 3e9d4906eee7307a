ghost use Rattle.std.specs.Prelude.{◌≡◌, ◌<◌, ◌&&◌, Some, length, nat_lt, option_map, slice_get};
ghost use Rattle.book_commodity.specs.Rules.{stands_before};
ghost use Rattle.book_prices.specs.Rate.{is_same};
ghost use Rattle.book_sound.specs.PriceRules.{has_ratio, price_rules};
ghost use Rattle.book_broken.specs.Broken.{broken_in, first_failing};
ghost use Rattle.book_broken.specs.Names.{price_names};

use crate::BrokenRule;
use crate::commodities::is_currency;
use book_commodity::Commodities;
use book_prices::{Price, Prices};

/// The rule that the price under the number breaks, if a price is there.
pub(crate) fn in_prices(
    commodities: &Commodities,
    prices: &Prices,
    number: u64,
) -> Option<BrokenRule>
    ensures { result ≡ broken_in (price_rules commodities.now.entries prices.now.entries) (λ _. price_names) number
        prices.now.entries }
{
    match prices.find(number) {
        Some(price) => Some(rule_of(commodities, prices, number, price)),
        None => None,
    }
}

/// The first rule that a price breaks; where it breaks none, it is one too many.
fn rule_of(commodities: &Commodities, prices: &Prices, number: u64, price: &Price) -> BrokenRule
    ensures { result ≡ first_failing (price_rules commodities.now.entries prices.now.entries number price.now)
        price_names }
{
    if commodities.find(price.commodity).is_none() {
        return BrokenRule::UnknownCommodity;
    }
    if !is_currency(commodities, price.currency) {
        return BrokenRule::CurrencyIsNone;
    }
    if !has_ratio(price) {
        return BrokenRule::Ratio;
    }
    if price.commodity == price.currency {
        return BrokenRule::OneCommodity;
    }
    if has_same_before(prices, number, price) {
        return BrokenRule::SameDay;
    }
    BrokenRule::TooMany
}

/// Whether both numbers are from 1 to 10^9.
fn has_ratio(price: &Price) -> bool
    ensures { result ≡ has_ratio price.now }
{
    price.num >= 1 && price.num <= 1_000_000_000 && price.denom >= 1 && price.denom <= 1_000_000_000
}

/// Whether a price with a smaller number is of the same commodity, currency and day.
fn has_same_before(prices: &Prices, number: u64, price: &Price) -> bool
    ensures { result ≡ stands_before (is_same price.now) number prices.now.entries }
{
    for place in 0..prices.len() {
        if is_same_before(prices, place, number, price) {
            return true;
        }
    }
    false
}

/// Whether the price at a place has a smaller number, and is of the same commodity, currency and day.
fn is_same_before(prices: &Prices, place: usize, number: u64, price: &Price) -> bool
    requires { place < length prices.now.entries }
    ensures { option_map (λ entry. nat_lt entry.0 number && is_same price.now entry.1)
        (slice_get prices.now.entries place) ≡ Some result }
{
    prices.number_at(place) < number && are_same(price, prices.value_at(place))
}

/// Whether two prices are of one commodity, one currency and one day.
fn are_same(price: &Price, other: &Price) -> bool
    ensures { result ≡ is_same price.now other.now }
{
    price.commodity == other.commodity
        && price.currency == other.currency
        && price.day.number() == other.day.number()
}
