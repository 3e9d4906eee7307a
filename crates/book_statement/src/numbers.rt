ghost use Rattle.std.specs.Prelude.{◌≡◌, ◌<◌, ◌≤◌, ◌^◌, IsTrue, length, pos};
ghost use Rattle.std.specs.Char.{is_ascii_digit};
ghost use Rattle.std.specs.List.{list_all};
ghost use Rattle.book_statement.specs.Checks.{Tells};
ghost use Rattle.book_statement.specs.Currencies.{IsFraction};
ghost use Rattle.book_statement.specs.Numbers.{has_digits, number, units, unit_checks};

use crate::Bad;

/// The largest size of an amount, in smallest units: a limit of this project.
pub const LARGEST_AMOUNT: u64 = 1_000_000_000_000;

/// Whether the text is only digits, from `least` to `most` of them.
pub fn has_digits(text: &[u8], least: usize, most: usize) -> bool
    ensures { result ≡ has_digits least most text.now }
{
    least <= text.len() && text.len() <= most && are_digits(text)
}

fn are_digits(text: &[u8]) -> bool
    ensures { result ≡ list_all is_ascii_digit text.now }
{
    text.iter().all(|byte| byte.is_ascii_digit())
}

/// The number that at most 19 digits spell.
pub fn number(digits: &[u8]) -> u64
    requires digits { IsTrue (list_all is_ascii_digit digits.now) }
    requires few { length digits.now ≤ 19 }
    ensures value { result ≡ number digits.now }
    ensures bound { result < 10 ^ length digits.now }
{
    let mut number = 0;
    for digit in digits {
        number = number * 10 + (*digit - b'0') as u64;
    }
    number
}

/// The amount in smallest units of a commodity with this fraction that a decimal number has, given by its digits
/// before and behind the mark. `TooManyDecimals` where it is no whole number of them, then `AmountForm` where it is
/// above 10^12.
pub fn units_of(whole: &[u8], decimals: &[u8], fraction: u64) -> Result<i64, Bad>
    requires whole { IsTrue (has_digits 0 12 whole.now) }
    requires decimals { IsTrue (has_digits 0 9 decimals.now) }
    requires fraction { IsFraction fraction }
    ensures { Tells (unit_checks whole.now decimals.now fraction) (pos (units whole.now decimals.now fraction))
        result }
{
    let scale = 10u128.pow(decimals.len() as u32);
    let numeral = number(whole) as u128 * scale + number(decimals) as u128;
    let fine = numeral * fraction as u128;
    if fine % scale != 0 {
        return Err(Bad::TooManyDecimals);
    }
    let units = fine / scale;
    if units > LARGEST_AMOUNT as u128 {
        return Err(Bad::AmountForm);
    }
    Ok(units as i64)
}
