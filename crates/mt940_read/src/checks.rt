ghost use Rattle.std.specs.Prelude.{◌≡◌, ◌||◌, not, nat_lt, is_some, None, pos};
ghost use Rattle.book_statement.specs.Checks.{Tells, first_bad};
ghost use Rattle.std.specs.Ordering.{int_eq};
ghost use Rattle.book_statement.specs.Currencies.{HaveFractions, fraction_of};
ghost use Rattle.book_statement.specs.Keys.{same_text};
ghost use Rattle.mt940_read.specs.Balances.{balance, balance_currency, balance_form};
ghost use Rattle.mt940_read.specs.Entries.{fraction_in};
ghost use Rattle.mt940_read.specs.FieldChecks.{
  lines_before,
  amount_in,
  closing_checks,
  field_checks,
  later_checks,
  later_currency_checks,
  line_amount_checks,
  line_checks,
  opening_checks,
  opening_currency_checks,
  own_checks,
  page_checks,
  reckoned_checks,
  room_checks,
  some_checks,
};
ghost use Rattle.mt940_read.specs.LineField.{line_amount, line_form};
ghost use Rattle.mt940_read.specs.Pages.{agrees, joins_page};

use crate::balance::{balance, balance_currency, check_balance_form};
use crate::fraction::Fraction;
use crate::line_field::{check_line_form, line_amount};
use crate::message::Message;
use crate::order::may_follow;
use crate::page::Page;
use crate::tag::Tag;
use book_commodity::Commodities;
use book_statement::{Bad, MAX_LINES, MAX_STATEMENTS, fraction_of};

/// The checks of a field behind the fields of a message, in their order; the amount of the field where all hold,
/// 0 for a field without an amount. `page`, `statements` and `last_lines` are what stands before the message: the
/// message before it, how many statements there are, and how many lines the last of them has.
pub fn check_field(
    known: &Commodities,
    page: &Option<Page>,
    statements: u64,
    last_lines: u64,
    message: &Message,
    tag: Tag,
    text: &[u8],
) -> Result<i64, Bad>
    requires { HaveFractions known.now.entries }
    ensures { Tells (field_checks known.now.entries
        (record { page = page.now; statements = statements; lines = last_lines }) message.now tag text.now)
        (amount_in known.now.entries message.now tag text.now) result }
{
    if !may_follow(message.last, message.closing.is_some(), tag) {
        return Err(Bad::FieldOrder);
    }
    check_own(known, page, statements, last_lines, message, tag, text)
}

/// The checks of a field behind that of the order.
fn check_own(
    known: &Commodities,
    page: &Option<Page>,
    statements: u64,
    last_lines: u64,
    message: &Message,
    tag: Tag,
    text: &[u8],
) -> Result<i64, Bad>
    requires { HaveFractions known.now.entries }
    ensures { Tells (own_checks known.now.entries
        (record { page = page.now; statements = statements; lines = last_lines }) message.now tag text.now)
        (amount_in known.now.entries message.now tag text.now) result }
{
    match tag {
        Tag::Reference | Tag::Related | Tag::Text => Ok(0),
        Tag::Account | Tag::Number => check_some(text),
        Tag::Opening { goes_on } => {
            check_opening(known, page, statements, message, goes_on, text)
        }
        Tag::Line => check_line(page, last_lines, message, text),
        Tag::Closing { .. } => check_closing(known, message, text),
        Tag::Available | Tag::Forward => check_later(known, message, text),
    }
}

/// The check of a 25 and a 28: the text is not empty.
fn check_some(text: &[u8]) -> Result<i64, Bad>
    ensures { Tells (some_checks text.now) (pos 0) result }
{
    if text.is_empty() {
        return Err(Bad::FieldForm);
    }
    Ok(0)
}

/// The fraction of a currency; 1 where the book has no such currency.
pub fn fraction_in(known: &Commodities, code: &[u8]) -> Fraction
    requires { HaveFractions known.now.entries }
    ensures { result ≡ fraction_in known.now.entries code.now }
{
    match given_fraction(code, known) {
        Some(fraction) => fraction,
        None => Fraction::of(1),
    }
}

/// The fraction of the currency with this code; `None` where the book has no such currency.
fn given_fraction(code: &[u8], known: &Commodities) -> Option<Fraction>
    requires { HaveFractions known.now.entries }
    ensures { result ≡ fraction_of code.now known.now.entries }
{
    match fraction_of(code, known) {
        Some(number) => Some(Fraction::of(number)),
        None => None,
    }
}

/// The checks of a 60.
fn check_opening(
    known: &Commodities,
    page: &Option<Page>,
    statements: u64,
    message: &Message,
    goes_on: bool,
    text: &[u8],
) -> Result<i64, Bad>
    requires { HaveFractions known.now.entries }
    ensures { Tells (opening_checks known.now.entries page.now statements message.now goes_on text.now)
        (balance (fraction_in known.now.entries (balance_currency text.now)) text.now) result }
{
    match check_balance_form(text) {
        Err(bad) => Err(bad),
        Ok(()) => check_opening_currency(known, page, statements, message, goes_on, text),
    }
}

/// The checks of a 60 behind those of its form.
fn check_opening_currency(
    known: &Commodities,
    page: &Option<Page>,
    statements: u64,
    message: &Message,
    goes_on: bool,
    text: &[u8],
) -> Result<i64, Bad>
    requires fractions { HaveFractions known.now.entries }
    requires form { first_bad (balance_form text.now) ≡ None }
    ensures { Tells (opening_currency_checks known.now.entries page.now statements message.now goes_on text.now)
        (balance (fraction_in known.now.entries (balance_currency text.now)) text.now) result }
{
    let currency = balance_currency(text);
    match given_fraction(currency, known) {
        None => Err(Bad::UnknownCurrency),
        Some(fraction) => match balance(text, fraction) {
            Err(bad) => Err(bad),
            Ok(opening) => check_page(page, statements, message, goes_on, currency, opening),
        },
    }
}

/// The checks of a 60 behind those of its balance: its page and the count of statements.
fn check_page(
    page: &Option<Page>,
    statements: u64,
    message: &Message,
    goes_on: bool,
    currency: &[u8],
    opening: i64,
) -> Result<i64, Bad>
    ensures { Tells (page_checks page.now statements message.now goes_on currency.now opening) opening result }
{
    if !fits_page(page, message, goes_on, currency, opening) {
        return Err(Bad::PageOrder);
    }
    if !has_room_for_statement(page, statements, message, goes_on) {
        return Err(Bad::TooMany);
    }
    Ok(opening)
}

/// Whether a message that opens so goes on with the message before it, or the two do not belong together.
fn fits_page(
    page: &Option<Page>,
    message: &Message,
    goes_on: bool,
    currency: &[u8],
    opening: i64,
) -> bool
    ensures { result ≡ (not (joins_page page.now message.now.account goes_on) || agrees page.now currency.now opening
        goes_on) }
{
    !joins_page(page, message.account.as_str().as_bytes(), goes_on)
        || agrees(page, currency, opening, goes_on)
}

/// Whether a message that opens so is a page, or a statement for which there is room.
fn has_room_for_statement(
    page: &Option<Page>,
    statements: u64,
    message: &Message,
    goes_on: bool,
) -> bool
    ensures { result ≡ (joins_page page.now message.now.account goes_on || nat_lt statements 1000) }
{
    joins_page(page, message.account.as_str().as_bytes(), goes_on) || statements < MAX_STATEMENTS
}

/// The checks of a 64 and a 65, and those of a 62 but the last.
fn check_later(known: &Commodities, message: &Message, text: &[u8]) -> Result<i64, Bad>
    ensures { Tells (later_checks known.now.entries message.now text.now) (balance message.now.fraction text.now)
        result }
{
    match check_balance_form(text) {
        Err(bad) => Err(bad),
        Ok(()) => check_later_currency(known, message, text),
    }
}

/// The checks of a 62, 64 and 65 behind those of its form.
fn check_later_currency(known: &Commodities, message: &Message, text: &[u8]) -> Result<i64, Bad>
    requires { first_bad (balance_form text.now) ≡ None }
    ensures { Tells (later_currency_checks known.now.entries message.now text.now)
        (balance message.now.fraction text.now) result }
{
    if !is_known(known, text) {
        return Err(Bad::UnknownCurrency);
    }
    if !has_currency(message, text) {
        return Err(Bad::CurrencyDiffers);
    }
    balance(text, message.fraction)
}

/// Whether a balance has the currency of the message.
fn has_currency(message: &Message, text: &[u8]) -> bool
    ensures { result ≡ same_text (balance_currency text.now) message.now.currency }
{
    balance_currency(text) == message.currency.as_str().as_bytes()
}

/// Whether a balance has one of the book's currencies.
fn is_known(known: &Commodities, text: &[u8]) -> bool
    ensures { result ≡ is_some (fraction_of (balance_currency text.now) known.now.entries) }
{
    fraction_of(balance_currency(text), known).is_some()
}

/// The checks of a 62.
fn check_closing(known: &Commodities, message: &Message, text: &[u8]) -> Result<i64, Bad>
    ensures { Tells (closing_checks known.now.entries message.now text.now) (balance message.now.fraction text.now)
        result }
{
    match check_later(known, message, text) {
        Err(bad) => Err(bad),
        Ok(closing) => check_reckoned(message, closing),
    }
}

/// The closing balance is the one that the opening balance and the lines make.
fn check_reckoned(message: &Message, closing: i64) -> Result<i64, Bad>
    ensures { Tells (reckoned_checks message.now closing) closing result }
{
    let reckoned = message.lines.from_opening(message.opening);
    if !is_equal(closing, reckoned) {
        return Err(Bad::BalanceMismatch {
            said: closing as i128,
            reckoned,
        });
    }
    Ok(closing)
}

/// Whether two balances are one.
fn is_equal(closing: i64, reckoned: i128) -> bool
    ensures { result ≡ int_eq closing reckoned }
{
    closing as i128 == reckoned
}

/// The checks of a 61.
fn check_line(
    page: &Option<Page>,
    last_lines: u64,
    message: &Message,
    text: &[u8],
) -> Result<i64, Bad>
    ensures { Tells (line_checks page.now last_lines message.now text.now)
        (line_amount message.now.fraction text.now) result }
{
    match check_line_form(text) {
        Err(bad) => Err(bad),
        Ok(()) => check_line_amount(page, last_lines, message, text),
    }
}

/// The checks of a 61 behind those of its form: its amount, and the room of the statement.
fn check_line_amount(
    page: &Option<Page>,
    last_lines: u64,
    message: &Message,
    text: &[u8],
) -> Result<i64, Bad>
    requires { first_bad (line_form text.now) ≡ None }
    ensures { Tells (line_amount_checks page.now last_lines message.now text.now)
        (line_amount message.now.fraction text.now) result }
{
    match line_amount(text, message.fraction) {
        Err(bad) => Err(bad),
        Ok(amount) => check_room(page, last_lines, message, amount),
    }
}

/// The statement has room for a line more, over all its pages.
fn check_room(
    page: &Option<Page>,
    last_lines: u64,
    message: &Message,
    amount: i64,
) -> Result<i64, Bad>
    ensures { Tells (room_checks page.now last_lines message.now) amount result }
{
    if !has_room_for_line(page, last_lines, message) {
        return Err(Bad::TooMany);
    }
    Ok(amount)
}

/// Whether the statement has fewer than 10,000 lines, over all its pages.
fn has_room_for_line(page: &Option<Page>, last_lines: u64, message: &Message) -> bool
    ensures { result ≡ nat_lt (lines_before page.now last_lines message.now) 10000 }
{
    // The account texts are compared only where the answer depends on them.
    let own = message.lines.len() as u64;
    own < MAX_LINES && (last_lines < MAX_LINES - own || !message.joins(page))
}

/// Whether a message of this account belongs to the statement of the message before it.
pub fn joins_page(page: &Option<Page>, account: &[u8], opens_page: bool) -> bool
    ensures { result ≡ joins_page page.now account.now opens_page }
{
    match page {
        Some(page) => {
            (page.closes_page || opens_page) && page.account.as_str().as_bytes() == account
        }
        None => false,
    }
}

/// Whether a message that opens so goes on with the message before it.
fn agrees(page: &Option<Page>, currency: &[u8], opening: i64, opens_page: bool) -> bool
    ensures { result ≡ agrees page.now currency.now opening opens_page }
{
    match page {
        Some(page) => {
            page.closes_page
                && opens_page
                && page.closing == opening
                && page.currency.as_str().as_bytes() == currency
        }
        None => true,
    }
}
