ghost use Rattle.std.specs.Prelude.{◌≡◌, IsTrue, MatchOption, None, position, pos};
ghost use Rattle.book_statement.specs.Checks.{Tells};
ghost use Rattle.mt940_read.specs.Amounts.{IsParted, amount, amount_checks, is_amount, is_comma, signed};

use crate::fraction::Fraction;
use book_statement::{Bad, has_digits, units_of};

/// The place of the first comma.
fn comma(text: &[u8]) -> Option<usize>
    ensures { result ≡ position is_comma text.now }
{
    text.iter().position(|byte| *byte == b',')
}

/// What stands before and behind the first comma; `None` where there is no comma.
fn parted(text: &[u8]) -> Option<(&[u8], &[u8])>
    ensures { MatchOption result (position is_comma text.now ≡ None)
        (λ parts. IsParted text.now parts.0.now parts.1.now) }
{
    match comma(text) {
        Some(place) => Some((&text[..place], &text[place + 1..])),
        None => None,
    }
}

/// Whether the text is an amount: 1 to 12 digits, a comma, at most 9 digits.
#[tactic(auto, unfolding(crate::specs::Amounts::is_amount))]
pub fn is_amount(text: &[u8]) -> bool
    ensures { result ≡ is_amount text.now }
{
    match parted(text) {
        Some((whole, decimals)) => has_digits(whole, 1, 12) && has_digits(decimals, 0, 9),
        None => false,
    }
}

/// An amount in smallest units of a currency, negative where it is a debit; `TooManyDecimals` where it is no whole
/// number of them, then `AmountForm` where it is above 10^12.
pub fn amount(text: &[u8], fraction: Fraction, negative: bool) -> Result<i64, Bad>
    requires { IsTrue (is_amount text.now) }
    ensures { Tells (amount_checks fraction text.now) (signed negative (amount fraction text.now)) result }
{
    let size = size(text, fraction)?;
    if negative { Ok(-size) } else { Ok(size) }
}

/// The size of an amount in smallest units.
#[tactic(auto, unfolding(crate::specs::Amounts::amount, crate::specs::Amounts::amount_checks))]
fn size(text: &[u8], fraction: Fraction) -> Result<i64, Bad>
    requires { IsTrue (is_amount text.now) }
    ensures { Tells (amount_checks fraction text.now) (pos (amount fraction text.now)) result }
{
    let Some((whole, decimals)) = parted(text) else {
        unreachable!()
    };
    units_of(whole, decimals, fraction.number())
}
