ghost use Rattle.std.specs.Prelude.{◌≡◌, IsTrue, None};
ghost use Rattle.std.specs.Char.{is_ascii_uppercase};
ghost use Rattle.std.specs.List.{list_all};
ghost use Rattle.book_statement.specs.Checks.{Tells, first_bad};
ghost use Rattle.mt940_read.specs.Amounts.{amount_checks, is_amount};
ghost use Rattle.mt940_read.specs.Balances.{
  balance,
  balance_amount,
  balance_currency,
  balance_date,
  balance_day,
  balance_form,
  balance_mark,
  is_code,
  is_credit,
  is_debit,
};

use crate::amount::{amount, is_amount};
use crate::fraction::Fraction;
use book_commodity::Day;
use book_statement::{Bad, after_chars, first_chars, short_date};

/// The mark of a balance, its first character.
#[tactic(auto, unfolding(crate::specs::Balances::balance_mark))]
fn balance_mark(text: &[u8]) -> &[u8]
    ensures { result.now ≡ balance_mark text.now }
{
    first_chars(text, 1)
}

/// The date of a balance, six characters.
#[tactic(auto, unfolding(crate::specs::Balances::balance_date))]
fn balance_date(text: &[u8]) -> &[u8]
    ensures { result.now ≡ balance_date text.now }
{
    first_chars(after_chars(text, 1), 6)
}

/// The currency of a balance, three characters.
#[tactic(auto, unfolding(crate::specs::Balances::balance_currency))]
pub fn balance_currency(text: &[u8]) -> &[u8]
    ensures { result.now ≡ balance_currency text.now }
{
    first_chars(after_chars(after_chars(text, 1), 6), 3)
}

/// The amount of a balance, the rest of it.
#[tactic(auto, unfolding(crate::specs::Balances::balance_amount))]
fn balance_amount(text: &[u8]) -> &[u8]
    ensures { result.now ≡ balance_amount text.now }
{
    after_chars(after_chars(after_chars(text, 1), 6), 3)
}

/// Whether a balance is a debit, `D`.
#[tactic(auto, unfolding(crate::specs::Balances::is_debit))]
fn is_debit(text: &[u8]) -> bool
    ensures { result ≡ is_debit text.now }
{
    balance_mark(text) == b"D".as_slice()
}

/// Whether a balance is a credit, `C`.
fn is_credit(text: &[u8]) -> bool
    ensures { result ≡ is_credit text.now }
{
    balance_mark(text) == b"C".as_slice()
}

/// Whether the text is three capital letters.
fn is_code(text: &[u8]) -> bool
    ensures { result ≡ is_code text.now }
{
    text.len() == 3 && are_capitals(text)
}

/// Whether a text has only capital letters.
fn are_capitals(text: &[u8]) -> bool
    ensures { result ≡ list_all is_ascii_uppercase text.now }
{
    text.iter().all(|byte| byte.is_ascii_uppercase())
}

/// The form of a balance: `FieldForm`, then `DateForm`, then `AmountForm`.
#[tactic(auto, unfolding(crate::specs::Balances::balance_form))]
pub fn check_balance_form(text: &[u8]) -> Result<(), Bad>
    ensures { Tells (balance_form text.now) tt result }
{
    if !((is_credit(text) || is_debit(text)) && is_code(balance_currency(text))) {
        return Err(Bad::FieldForm);
    }
    if short_date(balance_date(text)).is_none() {
        return Err(Bad::DateForm);
    }
    if !is_amount(balance_amount(text)) {
        return Err(Bad::AmountForm);
    }
    Ok(())
}

/// The balance in smallest units of its currency, negative for a debit.
#[tactic(auto, unfolding(crate::specs::Balances::balance, crate::specs::Balances::balance_form))]
pub fn balance(text: &[u8], fraction: Fraction) -> Result<i64, Bad>
    requires { first_bad (balance_form text.now) ≡ None }
    ensures { Tells (amount_checks fraction (balance_amount text.now)) (balance fraction text.now) result }
{
    amount(balance_amount(text), fraction, is_debit(text))
}

/// The day of a balance; `day` where it has none.
#[tactic(auto, unfolding(crate::specs::Balances::balance_day, crate::specs::Balances::balance_form))]
pub fn balance_day(text: &[u8], day: Day) -> Day
    requires { first_bad (balance_form text.now) ≡ None }
    ensures { result ≡ balance_day text.now }
{
    short_date(balance_date(text)).unwrap_or(day)
}
