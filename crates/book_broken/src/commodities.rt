ghost use Rattle.std.specs.Prelude.{◌≡◌, ◌&&◌, nat_lt};
ghost use Rattle.std.specs.List.{list_any};
ghost use Rattle.book_commodity.specs.CommodityRules.{commodity_rules, has_fraction, has_same_pair};
ghost use Rattle.book_commodity.specs.Currency.{is_currency_of};
ghost use Rattle.book_commodity.specs.Rules.{stands_before};
ghost use Rattle.book_commodity.specs.Table.{value_of};
ghost use Rattle.book_broken.specs.Broken.{broken_in, first_failing};
ghost use Rattle.book_broken.specs.Names.{commodity_names};

use crate::BrokenRule;
use book_commodity::{Commodities, Commodity};

/// The rule that the commodity under the number breaks, if a commodity is there.
pub(crate) fn in_commodities(commodities: &Commodities, number: u64) -> Option<BrokenRule>
    ensures { result ≡ broken_in (commodity_rules commodities.now.entries) (λ _. commodity_names) number
        commodities.now.entries }
{
    match commodities.find(number) {
        Some(commodity) => Some(rule_of(commodities, number, commodity)),
        None => None,
    }
}

/// The first rule that a commodity breaks; where it breaks none, it is one too many.
fn rule_of(commodities: &Commodities, number: u64, commodity: &Commodity) -> BrokenRule
    ensures { result ≡ first_failing (commodity_rules commodities.now.entries number commodity.now) commodity_names }
{
    if has_same_before(commodities.as_slice(), number, commodity) {
        return BrokenRule::SameCommodity;
    }
    if !has_fraction(commodity) {
        return BrokenRule::Fraction;
    }
    BrokenRule::TooMany
}

/// Whether a commodity with a smaller number has the same space and name.
fn has_same_before(commodities: &[(u64, Commodity)], number: u64, commodity: &Commodity) -> bool
    ensures { result ≡ stands_before (has_same_pair commodity.now) number commodities.now }
{
    let mut entries = commodities.iter();
    entries.any(|(other, thing)| *other < number && has_same_pair(commodity, thing))
}

/// Whether another commodity has the same space and name.
fn has_same_pair(commodity: &Commodity, other: &Commodity) -> bool
    ensures { result ≡ has_same_pair commodity.now other.now }
{
    other.space.as_str() == commodity.space.as_str()
        && other.name.as_str() == commodity.name.as_str()
}

/// Whether one unit is made of 1 to 10^9 smallest units.
fn has_fraction(commodity: &Commodity) -> bool
    ensures { result ≡ has_fraction commodity.now }
{
    commodity.fraction >= 1 && commodity.fraction <= 1_000_000_000
}

/// Whether the commodity is there, and is a currency.
pub(crate) fn is_currency(commodities: &Commodities, number: u64) -> bool
    ensures { result ≡ is_currency_of (value_of number commodities.now.entries) }
{
    match commodities.find(number) {
        Some(commodity) => commodity.is_currency(),
        None => false,
    }
}
