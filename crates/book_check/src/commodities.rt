ghost use Rattle.std.specs.Prelude.{◌≡◌, IfOk};
ghost use Rattle.book_commodity.specs.CommodityRules.{commodity_rules, has_fraction};
ghost use Rattle.book_commodity.specs.Currency.{is_currency_of};
ghost use Rattle.book_commodity.specs.Table.{value_of};
ghost use Rattle.book_check.specs.FirstUnsound.{first_of_table};
ghost use Rattle.book_check.specs.Keys.{commodity_keys};

use crate::seen::Seen;
use crate::walk::{Checked, first_broken};
use book_commodity::{Commodities, Commodity, OutOfMemory};
use std::alloc::Global;

/// How many commodities a book has at most.
const MOST: usize = 10_000;

/// A walk over commodities, and the keys of those that were asked.
#[derive(Drop)]
struct CommodityWalk<'a> {
    commodities: &'a Commodities,
    keys: Seen<(&'a str, &'a str)>,
}

impl<'a> Checked for CommodityWalk<'a> {
    ghost use Rattle.std.specs.Prelude.{take};
    ghost use Rattle.book_check.specs.Keys.{commodity_keys};
    ghost use Rattle.book_check.specs.Walk.{HasKeys};

    type Thing = Commodity;

    ghost entries = { λ w. w.commodities.now.entries };

    ghost rules = { λ w. commodity_rules w.commodities.now.entries };

    ghost knows = { λ w place. HasKeys commodity_keys w.keys (take place w.commodities.now.entries) };

    fn count(&self) -> usize {
        self.commodities.len()
    }

    fn number_at(&self, place: usize) -> u64 {
        self.commodities.number_at(place)
    }

    fn keeps(&mut self, place: usize) -> Result<bool, OutOfMemory> {
        let commodity = self.commodities.value_at(place);
        if !has_fraction(commodity) {
            return Ok(false);
        }
        let is_taken = self.keys.insert(key_of(commodity))?;
        Ok(!is_taken)
    }
}

/// The first number at which a commodity breaks a rule of its kind, or is one too many.
pub(crate) fn first_commodity(
    alloc: Global,
    commodities: &Commodities,
) -> Result<Option<u64>, OutOfMemory>
    ensures { IfOk result (λ found. found ≡ first_of_table
        (commodity_rules commodities.now.entries) 10000 commodities.now.entries) }
{
    let keys = Seen::new(alloc);
    first_broken(CommodityWalk { commodities, keys }, MOST)
}

/// The space and the name of the commodity.
fn key_of(commodity: &Commodity) -> (&str, &str)
    ensures { commodity_keys.shown result ≡ commodity_keys.parts commodity.now }
{
    (commodity.space.as_str(), commodity.name.as_str())
}

/// Whether the commodity is there, and is a currency.
pub(crate) fn is_currency(commodities: &Commodities, number: u64) -> bool
    ensures { result ≡ is_currency_of (value_of number commodities.now.entries) }
{
    match commodities.find(number) {
        Some(commodity) => commodity.is_currency(),
        None => false,
    }
}

/// Whether one unit is made of 1 to 10^9 smallest units.
fn has_fraction(commodity: &Commodity) -> bool
    ensures { result ≡ has_fraction commodity.now }
{
    commodity.fraction >= 1 && commodity.fraction <= 1_000_000_000
}
