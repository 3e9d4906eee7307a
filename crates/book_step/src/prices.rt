ghost use Rattle.std.specs.Prelude.{◌≡◌, ◌^◌, ◌&&◌, ◌∷◌, ◌++◌, [], None, Some, IfOk};
ghost use Rattle.book_command.specs.declared.answer.Answer.TheVariants.{Price as PriceAnswer};
ghost use Rattle.book_commodity.specs.Rules.{ReportsFirst};
ghost use Rattle.book_commodity.specs.Table.{value_of};
ghost use Rattle.book_prices.specs.Rate.{AreKept, AreOnce};
ghost use Rattle.book_sound.specs.PriceRules.{has_pair, has_ratio};
ghost use Rattle.book_sound.specs.Soundness.{IsSoundBook};
ghost use Rattle.book_sound.specs.Tests.{is_within};
ghost use Rattle.book_step.specs.Outcome.{StepsTo};
ghost use Rattle.book_step.specs.Prices.{has_numbers, price_drop, price_of_day, price_rules, price_set, price_set_at};
ghost use Rattle.book_command.specs.Rates.{rate_on};
ghost use Rattle.book_step.specs.Prices.{rate_rules, too_many_prices, unknown_price};
ghost use Rattle.book_undo.specs.Book.{book_of};

use crate::commodities::{check_currency, check_known};
use crate::present::Present;
use crate::{Answer, Refusal, Rule, Step};
use book_command::Ratio;
use book_commodity::{Counted, Day, Kind};
use book_prices::{Price, Prices};
use book_undo::{Edit, Plain, Thing, ThingKind};

const MAX_PRICES: usize = 1_000_000;

const MAX_NUMBER: u64 = 1_000_000_000;

/// The price stands in the book: under the next number where none of its commodity, currency and day does, else in the
/// place of that one.
pub(crate) fn price_set(present: &Present, price: Price) -> Result<Step, Refusal>
    ensures { StepsTo present.now (price_set present.now price) result }
{
    match price_of_day(&present.plain.prices, &price) {
        None => new_price(present, price),
        Some((number, old)) => price_again(present, number, old, price),
    }
}

/// The price of the same commodity, currency and day, with its number.
fn price_of_day(prices: &Prices, price: &Price) -> Option<(u64, Price)>
    requires { AreOnce prices.now.entries }
    ensures { result ≡ price_of_day prices.now.entries price.now }
{
    let number = prices.same(price)?;
    let found = prices.find(number)?;
    Some((number, *found))
}

/// The price stands in the book, under the next number.
fn new_price(present: &Present, price: Price) -> Result<Step, Refusal>
    ensures { StepsTo present.now (price_set_at present.now price None) result }
{
    check_new(present, &price)?;
    let number = present.next;
    let edit = Edit::Put(number, Thing::Price(price));
    Step::changing(present, 1, edit, Answer::PriceSet { price: number })
}

/// The price stands in the book, in the place of the one under the number.
fn price_again(present: &Present, number: u64, old: Price, price: Price) -> Result<Step, Refusal>
    requires { value_of number present.now.book.prices ≡ Some old }
    ensures { StepsTo present.now (price_set_at present.now price (Some (number, old))) result }
{
    check_price(present, &price)?;
    let answer = Answer::PriceSet { price: number };
    if has_numbers(&old, &price) {
        return Ok(Step::leaving(present, answer));
    }
    let edit = Edit::Put(number, Thing::Price(price));
    Step::changing(present, 0, edit, answer)
}

/// Whether the two have the same numbers.
fn has_numbers(one: &Price, other: &Price) -> bool
    ensures { result ≡ has_numbers one.now other.now }
{
    one.num == other.num && one.denom == other.denom
}

/// The price keeps its rules, and the book has room for it.
fn check_new(present: &Present, price: &Price) -> Result<(), Rule>
    ensures { ReportsFirst (price_rules present.now.book price.now ++ too_many_prices present.now.book.prices ∷ [])
        result }
{
    check_price(present, price)?;
    check_room(&present.plain.prices)
}

/// The price keeps its rules.
fn check_price(present: &Present, price: &Price) -> Result<(), Rule>
    ensures { ReportsFirst (price_rules present.now.book price.now) result }
{
    check_known(&present.plain.commodities, price.commodity)?;
    check_currency(present, price.currency)?;
    if !has_shape(price) {
        return Err(Rule::PriceShape);
    }
    Ok(())
}

/// Whether both numbers are in their range, and the price is of two commodities.
fn has_shape(price: &Price) -> bool
    ensures { result ≡ (has_ratio price.now && has_pair price.now) }
{
    is_in_range(price.num) && is_in_range(price.denom) && price.commodity != price.currency
}

/// Whether a number of a price is in its range.
fn is_in_range(number: u64) -> bool
    ensures { result ≡ is_within 1 (10 ^ 9) number }
{
    number >= 1 && number <= MAX_NUMBER
}

/// There is room for one more price.
fn check_room(prices: &Prices) -> Result<(), Rule>
    ensures { ReportsFirst (too_many_prices prices.now.entries ∷ []) result }
{
    if prices.len() >= MAX_PRICES {
        return Err(Rule::Limit {
            which: Counted::Prices,
            at: MAX_PRICES as u64,
        });
    }
    Ok(())
}

/// The price of this number is deleted.
pub(crate) fn price_drop(present: &Present, number: u64) -> Result<Step, Refusal>
    ensures { StepsTo present.now (price_drop present.now number) result }
{
    check_there(&present.plain.prices, number)?;
    let edit = Edit::Gone(ThingKind::Price, number);
    Step::changing(present, 0, edit, Answer::PriceDrop)
}

/// The price of this number is one of the book's.
fn check_there(prices: &Prices, number: u64) -> Result<(), Rule>
    ensures { ReportsFirst (unknown_price prices.now.entries number ∷ []) result }
{
    match prices.find(number) {
        Some(_) => Ok(()),
        None => Err(Rule::Unknown {
            kind: Kind::Price,
            id: number,
        }),
    }
}

/// The answer that says what one unit of the commodity is worth in the currency on a day, in a sound book. Broken where
/// the book has no commodity of one of the two numbers.
pub fn rate_answer(plain: &Plain, commodity: u64, currency: u64, day: Day) -> Result<Answer, Rule>
    requires { IsSoundBook (book_of plain.now) }
    ensures rules { ReportsFirst (rate_rules (book_of plain.now) commodity currency) result }
    ensures answer { IfOk result (λ answer. answer
        ≡ PriceAnswer (rate_on (book_of plain.now).prices commodity currency day)) }
{
    check_known(&plain.commodities, commodity)?;
    check_known(&plain.commodities, currency)?;
    let rate = rate_on(&plain.prices, commodity, currency, day);
    Ok(Answer::Price { rate })
}

/// The rate on a day, of the prices of a sound book.
fn rate_on(prices: &Prices, commodity: u64, currency: u64, day: Day) -> Option<Ratio>
    requires { AreKept prices.now.entries }
    ensures { result ≡ rate_on prices.now.entries commodity currency day }
{
    let rate = prices.price_at(commodity, currency, day)?;
    Some(Ratio {
        num: rate.num,
        denom: rate.denom,
    })
}
