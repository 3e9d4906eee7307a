ghost use Rattle.std.specs.Prelude.{◌≡◌, ◌*◌, ◌%◌, ◌^◌, ◌==◌, ◌++◌, OnOk, IfOk, find};
ghost use Rattle.std.specs.Int.{IsInRange};
ghost use Rattle.book_export.specs.Prices.{power_for, price_line, price_number, price_of, price_start, quotient_line};
ghost use Rattle.book_export.specs.Symbols.{AreInRange};
ghost use Rattle.book_prices.specs.Rate.{IsSound};

use crate::symbols::{POWERS_OF_TEN, push_symbol, units};
use book_commodity::{Commodities, Commodity, Day, OutOfMemory, amount_text};
use book_prices::Price;
use std::alloc::Global;

/// The line of a price.
#[tactic(auto, unfolding(crate::specs::Prices::price_line))]
pub(crate) fn price_line(
    alloc: Global,
    commodities: &Commodities,
    price: &Price,
) -> Result<Vec<u8>, OutOfMemory>
    requires fractions { AreInRange commodities.now.entries }
    requires sound { IsSound price.now }
    ensures { IfOk result (λ line. line.items ≡ price_line commodities.now.entries price.now) }
{
    let Some(commodity) = commodities.find(price.commodity) else {
        return Ok(Vec::new(alloc));
    };
    let Some(currency) = commodities.find(price.currency) else {
        return Ok(Vec::new(alloc));
    };
    price_of(alloc, commodity, currency, price)
}

/// The line of a price of a commodity in a currency.
fn price_of(
    alloc: Global,
    commodity: &Commodity,
    currency: &Commodity,
    price: &Price,
) -> Result<Vec<u8>, OutOfMemory>
    requires commodity_in { IsInRange 1 1_000_000_000 commodity.now.fraction }
    requires currency_in { IsInRange 1 1_000_000_000 currency.now.fraction }
    requires sound { IsSound price.now }
    ensures { IfOk result (λ line. line.items ≡ price_of commodity.now currency.now price.now) }
{
    let num = product(price.num, units(currency.fraction));
    let denom = product(price.denom, units(commodity.fraction));
    quotient_line(alloc, commodity, currency, price.day, num, denom)
}

/// The product of two numbers from 1 to 10^9.
fn product(one: u64, other: u64) -> u128
    requires one_in { IsInRange 1 1_000_000_000 one }
    requires other_in { IsInRange 1 1_000_000_000 other }
    ensures product { result ≡ one * other }
    ensures range { IsInRange 1 (10 ^ 18) result }
{
    u128::from(one) * u128::from(other)
}

/// The line with a quotient.
fn quotient_line(
    alloc: Global,
    commodity: &Commodity,
    currency: &Commodity,
    day: Day,
    num: u128,
    denom: u128,
) -> Result<Vec<u8>, OutOfMemory>
    requires num_in { IsInRange 1 (10 ^ 18) num }
    requires denom_in { IsInRange 1 (10 ^ 18) denom }
    ensures { IfOk result (λ line. line.items ≡ quotient_line commodity.now currency.now day num denom) }
{
    let power = power_for(num, denom);
    let mut line = Vec::new(alloc);
    line.extend_from_slice(price_start(power))?;
    line.extend_from_slice(&day.text())?;
    line.push(b' ')?;
    push_symbol(alloc, &mut line, commodity)?;
    line.push(b' ')?;
    push_number(alloc, &mut line, power, num, denom)?;
    line.push(b' ')?;
    push_symbol(alloc, &mut line, currency)?;
    line.push(b'\n')?;
    Ok(line)
}

/// How the line of a price begins.
fn price_start(power: Option<u64>) -> &'static [u8]
    ensures { result.now ≡ price_start power }
{
    match power {
        Some(_) => b"P ".as_slice(),
        None => b"; P ".as_slice(),
    }
}

/// Adds a quotient: as a decimal number, by the power of ten that makes it whole, or else as it is.
fn push_number(
    alloc: Global,
    out: &mut Vec<u8>,
    power: Option<u64>,
    num: u128,
    denom: u128,
) -> Result<(), OutOfMemory>
    requires num_in { IsInRange 1 (10 ^ 18) num }
    requires denom_in { IsInRange 1 (10 ^ 18) denom }
    ensures { OnOk result (out.new.items ≡ out.old.items ++ price_number power num denom) }
{
    match power {
        Some(power) => {
            let number = num * u128::from(power) / denom;
            let text = amount_text(alloc, number as i128, power)?;
            out.extend_from_slice(text.as_str().as_bytes())?;
        }
        None => out.extend_from_slice(format!(in alloc; "{num}/{denom}")?.as_bytes())?,
    }
    Ok(())
}

/// The least power of ten that makes a quotient whole; `None` where it has more than 19 decimals.
#[tactic(auto, unfolding(crate::specs::Prices::power_for))]
fn power_for(num: u128, denom: u128) -> Option<u64>
    requires num_in { IsInRange 1 (10 ^ 18) num }
    requires denom_in { IsInRange 1 (10 ^ 18) denom }
    ensures { result ≡ power_for num denom }
{
    power_among(&POWERS_OF_TEN, num, denom)
}

/// The first of some numbers by which a quotient becomes whole.
fn power_among(powers: &[u64], num: u128, denom: u128) -> Option<u64>
    requires num_in { IsInRange 1 (10 ^ 18) num }
    requires denom_in { IsInRange 1 (10 ^ 18) denom }
    ensures { result ≡ find (λ power. num * power % denom == 0) powers.now }
{
    let mut left = powers;
    while let Some((power, rest)) = left.split_first() {
        if num * u128::from(*power) % denom == 0 {
            return Some(*power);
        }
        left = rest;
    }
    None
}
