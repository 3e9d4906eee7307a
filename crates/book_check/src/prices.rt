ghost use Rattle.std.specs.Prelude.{◌≡◌, IfOk, [], ◌∷◌};
ghost use Rattle.book_commodity.specs.Currency.{is_currency_of};
ghost use Rattle.book_commodity.specs.Table.{value_of};
ghost use Rattle.book_sound.specs.PriceRules.{has_pair, has_ratio, price_rules};
ghost use Rattle.book_sound.specs.Tests.{is_live};
ghost use Rattle.book_check.specs.FirstUnsound.{all_hold, first_of_table};
ghost use Rattle.book_check.specs.Keys.{price_keys};

use crate::commodities::is_currency;
use crate::seen::Seen;
use crate::walk::{Checked, first_broken};
use book_commodity::{Commodities, OutOfMemory};
use book_prices::{Price, Prices};
use std::alloc::Global;

/// How many prices a book has at most.
const MOST: usize = 1_000_000;

/// A walk over prices, and the keys of those that were asked.
#[derive(Drop)]
struct PriceWalk<'a> {
    commodities: &'a Commodities,
    prices: &'a Prices,
    keys: Seen<(u64, u64, i32)>,
}

impl<'a> Checked for PriceWalk<'a> {
    ghost use Rattle.std.specs.Prelude.{take};
    ghost use Rattle.book_check.specs.Keys.{price_keys};
    ghost use Rattle.book_check.specs.Walk.{HasKeys};

    type Thing = Price;

    ghost entries = { λ w. w.prices.now.entries };

    ghost rules = { λ w. price_rules w.commodities.now.entries w.prices.now.entries };

    ghost knows = { λ w place. HasKeys price_keys w.keys (take place w.prices.now.entries) };

    fn count(&self) -> usize {
        self.prices.len()
    }

    fn number_at(&self, place: usize) -> u64 {
        self.prices.number_at(place)
    }

    fn keeps(&mut self, place: usize) -> Result<bool, OutOfMemory> {
        let price = self.prices.value_at(place);
        if !keeps_rules(self.commodities, price) {
            return Ok(false);
        }
        let is_taken = self.keys.insert(key_of(price))?;
        Ok(!is_taken)
    }
}

/// The first number at which a price breaks a rule of its kind, or is one too many.
pub(crate) fn first_price(
    alloc: Global,
    commodities: &Commodities,
    prices: &Prices,
) -> Result<Option<u64>, OutOfMemory>
    ensures { IfOk result (λ found. found ≡ first_of_table
        (price_rules commodities.now.entries prices.now.entries) 1000000 prices.now.entries) }
{
    let keys = Seen::new(alloc);
    let walk = PriceWalk {
        commodities,
        prices,
        keys,
    };
    first_broken(walk, MOST)
}

/// The commodity, the currency and the day of the price.
fn key_of(price: &Price) -> (u64, u64, i32)
    ensures { price_keys.shown result ≡ price_keys.parts price.now }
{
    (price.commodity, price.currency, price.day.number())
}

/// Whether the price is of a commodity and a currency of the book that differ, and its numbers are in range.
fn keeps_rules(commodities: &Commodities, price: &Price) -> bool
    ensures { result ≡ all_hold (is_live commodities.now.entries price.now.commodity
        ∷ is_currency_of (value_of price.now.currency commodities.now.entries)
        ∷ has_ratio price.now ∷ has_pair price.now ∷ []) }
{
    commodities.find(price.commodity).is_some()
        && is_currency(commodities, price.currency)
        && has_ratio(price)
        && price.commodity != price.currency
}

/// Whether both numbers are from 1 to 10^9.
fn has_ratio(price: &Price) -> bool
    ensures { result ≡ has_ratio price.now }
{
    price.num >= 1 && price.num <= 1_000_000_000 && price.denom >= 1 && price.denom <= 1_000_000_000
}
