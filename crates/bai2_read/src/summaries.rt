ghost use Rattle.std.specs.Prelude.{◌≡◌, ◌<◌, ◌∷◌, length};
ghost use Rattle.std.specs.List.{list_all};
ghost use Rattle.bai2_read.specs.Amounts.{IsSmall};
ghost use Rattle.bai2_read.specs.Summaries.{BeginsField, balance, closing, given_amount, has_amount, has_date};
ghost use Rattle.bai2_read.specs.Summaries.{has_form, is_passed, item_amount, items, items_after, opening};
ghost use Rattle.bai2_read.specs.Summaries.{sum_of_items, width};

use crate::amounts::{amount, is_amount, is_count};
use crate::fields::{after_fields, field};
use crate::funds::{funds_date, funds_form, further};

/// Whether an item is passed over: its type is empty.
fn is_passed(item: &[u8]) -> bool
    ensures { result ≡ is_passed item.now }
{
    field(item, 0).is_empty()
}

/// How many fields an item has.
#[tactic(auto, unfolding(crate::specs::Summaries::width))]
fn width(item: &[u8]) -> usize
    ensures value { result ≡ width item.now }
    ensures some { 0 < result }
{
    if is_passed(item) {
        return 4;
    }
    4 + further(after_fields(item, 3))
}

/// What stands behind an item: the next item, or nothing.
fn behind(item: &[u8]) -> &[u8]
    requires some { 0 < length item.now }
    requires comma { BeginsField item.now }
    ensures rest { items_after 0 item.now ≡ item.now ∷ items_after 0 result.now }
    ensures shorter { length result.now < length item.now }
    ensures comma { BeginsField result.now }
{
    after_fields(item, width(item))
}

/// Whether an item's count is a count or empty, and its funds type has its fields.
#[tactic(auto, unfolding(crate::specs::Summaries::has_form))]
fn has_form(item: &[u8]) -> bool
    ensures { result ≡ has_form item.now }
{
    if is_passed(item) {
        return true;
    }
    let count = field(item, 2);
    (count.is_empty() || is_count(count)) && funds_form(after_fields(item, 3))
}

#[tactic(auto, unfolding(crate::specs::Summaries::has_date))]
fn has_date(item: &[u8]) -> bool
    ensures { result ≡ has_date item.now }
{
    is_passed(item) || funds_date(after_fields(item, 3))
}

#[tactic(auto, unfolding(crate::specs::Summaries::has_amount))]
fn has_amount(item: &[u8]) -> bool
    ensures { result ≡ has_amount item.now }
{
    is_passed(item) || is_amount(field(item, 1))
}

/// The amount of an item; 0 where it is passed over.
#[tactic(auto, unfolding(crate::specs::Summaries::item_amount))]
fn item_amount(item: &[u8]) -> i64
    ensures value { result ≡ item_amount item.now }
    ensures size { IsSmall result }
{
    if is_passed(item) {
        return 0;
    }
    amount(field(item, 1))
}

/// The amount of an item where it is given.
#[tactic(auto, unfolding(crate::specs::Summaries::given_amount))]
fn given_amount(item: &[u8]) -> Option<i64>
    ensures { result ≡ given_amount item.now }
{
    let text = field(item, 1);
    if text.is_empty() {
        return None;
    }
    Some(amount(text))
}

/// Whether each item of an account's header has its form.
pub fn have_forms(body: &[u8]) -> bool
    ensures { result ≡ list_all has_form (items body.now) }
{
    let mut rest = after_fields(body, 2);
    while !rest.is_empty() {
        if !has_form(rest) {
            return false;
        }
        rest = behind(rest);
    }
    true
}

/// Whether the value date of each item is empty or a date.
pub fn have_dates(body: &[u8]) -> bool
    ensures { result ≡ list_all has_date (items body.now) }
{
    let mut rest = after_fields(body, 2);
    while !rest.is_empty() {
        if !has_date(rest) {
            return false;
        }
        rest = behind(rest);
    }
    true
}

/// Whether the amount of each item is an amount.
pub fn have_amounts(body: &[u8]) -> bool
    ensures { result ≡ list_all has_amount (items body.now) }
{
    let mut rest = after_fields(body, 2);
    while !rest.is_empty() {
        if !has_amount(rest) {
            return false;
        }
        rest = behind(rest);
    }
    true
}

/// The sum of the items' amounts.
pub fn sum_of_items(body: &[u8]) -> i128
    ensures { result ≡ sum_of_items (items body.now) }
{
    let mut sum = 0i128;
    let mut rest = after_fields(body, 2);
    while !rest.is_empty() {
        sum += item_amount(rest) as i128;
        rest = behind(rest);
    }
    sum
}

/// The amount of the first item of this type; `None` where there is none, or its amount is empty.
fn balance(body: &[u8], item_type: &[u8]) -> Option<i64>
    ensures { result ≡ balance item_type.now (items body.now) }
{
    let mut rest = after_fields(body, 2);
    while !rest.is_empty() {
        if field(rest, 0) == item_type {
            return given_amount(rest);
        }
        rest = behind(rest);
    }
    None
}

/// The opening ledger balance of an account's header.
pub fn opening(body: &[u8]) -> Option<i64>
    ensures { result ≡ opening body.now }
{
    balance(body, b"010".as_slice())
}

/// The closing ledger balance of an account's header.
pub fn closing(body: &[u8]) -> Option<i64>
    ensures { result ≡ closing body.now }
{
    balance(body, b"015".as_slice())
}
