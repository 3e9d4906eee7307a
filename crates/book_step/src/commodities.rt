ghost use Rattle.std.specs.Prelude.{◌≡◌, ◌<◌, [], ◌∷◌, Some, find, length, option_map, slice_get};
ghost use Rattle.book_commodity.specs.Rules.{ReportsFirst};
ghost use Rattle.book_commodity.specs.Table.{value_of};
ghost use Rattle.book_step.specs.Commodities.{add_rules, book_currency, commodity_add, currency_rules};
ghost use Rattle.book_step.specs.Commodities.{is_currency_of, is_namesake, unknown_commodity};
ghost use Rattle.book_step.specs.Outcome.{StepsTo};

use crate::present::Present;
use crate::{Answer, Refusal, Rule, Step};
use book_commodity::{Commodities, Commodity, Counted, Kind};
use book_undo::{Edit, Thing};

const MAX_COMMODITIES: usize = 10_000;

const MAX_FRACTION: u64 = 1_000_000_000;

/// The book's currency becomes the commodity of this number, where that is a currency of the book.
pub(crate) fn book_currency(present: &Present, commodity: u64) -> Result<Step, Refusal>
    ensures { StepsTo present.now (book_currency present.now commodity) result }
{
    check_currency(present, commodity)?;
    if commodity == present.plain.currency {
        return Ok(Step::leaving(present, Answer::BookCurrency));
    }
    Step::changing(present, 0, Edit::Currency(commodity), Answer::BookCurrency)
}

/// The commodity stands in the book, under the next number.
pub(crate) fn commodity_add(present: &Present, commodity: Commodity) -> Result<Step, Refusal>
    ensures { StepsTo present.now (commodity_add present.now commodity) result }
{
    check_new(present, &commodity)?;
    let number = present.next;
    let edit = Edit::Put(number, Thing::Commodity(commodity));
    Step::changing(present, 1, edit, Answer::CommodityAdd { commodity: number })
}

/// The commodity of this number is one of the book's.
pub(crate) fn check_known(commodities: &Commodities, number: u64) -> Result<(), Rule>
    ensures { ReportsFirst (unknown_commodity commodities.now.entries number ∷ []) result }
{
    match commodities.find(number) {
        Some(_) => Ok(()),
        None => Err(Rule::Unknown {
            kind: Kind::Commodity,
            id: number,
        }),
    }
}

/// Whether the commodity of this number is one of the book's and a currency.
pub(crate) fn is_currency(commodities: &Commodities, number: u64) -> bool
    ensures { result ≡ is_currency_of (value_of number commodities.now.entries) }
{
    match commodities.find(number) {
        Some(commodity) => commodity.is_currency(),
        None => false,
    }
}

/// The commodity of this number is one of the book's, and a currency.
pub(crate) fn check_currency(present: &Present, number: u64) -> Result<(), Rule>
    ensures { ReportsFirst (currency_rules present.now.book number) result }
{
    let commodities = &present.plain.commodities;
    check_known(commodities, number)?;
    if !is_currency(commodities, number) {
        return Err(Rule::WrongCurrency { commodity: number });
    }
    Ok(())
}

/// A new commodity has a space and a name that no other has, and a fraction within its limits; and the book has room
/// for it.
fn check_new(present: &Present, commodity: &Commodity) -> Result<(), Rule>
    ensures { ReportsFirst (add_rules present.now.book commodity.now) result }
{
    let commodities = &present.plain.commodities;
    if let Some(id) = namesake(commodities, commodity) {
        return Err(Rule::NameTaken { id });
    }
    if commodity.fraction < 1 || commodity.fraction > MAX_FRACTION {
        return Err(Rule::FractionShape);
    }
    if commodities.len() >= MAX_COMMODITIES {
        return Err(Rule::Limit {
            which: Counted::Commodities,
            at: MAX_COMMODITIES as u64,
        });
    }
    Ok(())
}

/// The least number of a commodity that has the space and the name of this one.
fn namesake(commodities: &Commodities, commodity: &Commodity) -> Option<u64>
    ensures { result ≡ option_map (λ entry. entry.0) (find (is_namesake commodity.now) commodities.now.entries) }
{
    for place in 0..commodities.len() {
        if is_namesake(commodities, place, commodity) {
            return Some(commodities.number_at(place));
        }
    }
    None
}

/// Whether the commodity at a place has the space and the name of this one.
fn is_namesake(commodities: &Commodities, place: usize, commodity: &Commodity) -> bool
    requires { place < length commodities.now.entries }
    ensures { option_map (is_namesake commodity.now) (slice_get commodities.now.entries place) ≡ Some result }
{
    let other = commodities.value_at(place);
    other.space.as_str() == commodity.space.as_str()
        && other.name.as_str() == commodity.name.as_str()
}
