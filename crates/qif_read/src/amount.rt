ghost use Rattle.std.specs.Prelude.{◌≡◌, ◌≤◌, ◌<◌, ◌==◌, length, take, pos, MatchOption};
ghost use Rattle.std.specs.List.{before_first, after_first};
ghost use Rattle.book_statement.specs.Checks.{Tells};
ghost use Rattle.book_statement.specs.Currencies.{IsFraction};
ghost use Rattle.book_statement.specs.Numbers.{units};
ghost use Rattle.qif_read.specs.QifAmount.{is_negative, unsigned, is_number, are_commas_placed, without_commas};
ghost use Rattle.qif_read.specs.QifAmount.{number_checks, amount_checks, amount};

use crate::date::digits_len;
use book_statement::{Bad, has_digits, units_of};

/// The most digits of the whole part of an amount.
const MOST_DIGITS: usize = 12;

/// The amount that a text gives, as `-1,234.50`, in smallest units of a commodity with this fraction. `AmountForm`
/// where it is no amount, `TooManyDecimals` where it is no whole number of smallest units, then `AmountForm` above
/// 10^12 in size.
pub fn read_amount(fraction: u64, text: &[u8]) -> Result<i64, Bad>
    requires { IsFraction fraction }
    ensures { Tells (amount_checks fraction text.now) (amount fraction text.now) result }
{
    let (whole, decimals) = split_point(unsigned(text));
    match read_units(fraction, whole, decimals) {
        Ok(units) => Ok(if is_negative(text) { -units } else { units }),
        Err(bad) => Err(bad),
    }
}

/// The smallest units of a number, given by its whole part and its decimals.
fn read_units(fraction: u64, whole: &[u8], decimals: &[u8]) -> Result<i64, Bad>
    requires { IsFraction fraction }
    ensures { Tells (number_checks fraction whole.now decimals.now)
        (pos (units (without_commas whole.now) decimals.now fraction)) result }
{
    let mut buffer = [0; MOST_DIGITS];
    let Some(count) = copy_digits(whole, &mut buffer) else {
        return Err(Bad::AmountForm);
    };
    let digits = &buffer[..count];
    if !is_number(whole, digits, decimals) {
        return Err(Bad::AmountForm);
    }
    units_of(digits, decimals, fraction)
}

/// Whether a minus stands in front.
fn is_negative(text: &[u8]) -> bool
    ensures { result ≡ is_negative text.now }
{
    !text.is_empty() && text[0] == b'-'
}

/// What stands behind the sign, if there is one.
#[tactic(auto, unfolding(crate::specs::QifAmount::unsigned))]
fn unsigned(text: &[u8]) -> &[u8]
    ensures { result.now ≡ unsigned text.now }
{
    match text {
        [b'+' | b'-', rest @ ..] => rest,
        _ => text,
    }
}

/// What stands before the point, and what stands behind it.
fn split_point(text: &[u8]) -> (&[u8], &[u8])
    ensures whole { result.0.now ≡ before_first (λ b. b == 46) text.now }
    ensures decimals { result.1.now ≡ after_first (λ b. b == 46) text.now }
{
    for (i, byte) in text.iter().enumerate() {
        if *byte == b'.' {
            return (&text[..i], &text[i + 1..]);
        }
    }
    (text, &text[text.len()..])
}

/// Copies the bytes that are no commas to the front of a buffer, and gives their number; `None` where they are more.
fn copy_digits(whole: &[u8], buffer: &mut [u8]) -> Option<usize>
    ensures { MatchOption result (length buffer.old < length (without_commas whole.now))
        (λ count. (count ≤ length buffer.new) × (take count buffer.new ≡ without_commas whole.now)) }
{
    let mut count = 0;
    for byte in whole {
        if *byte != b',' {
            if count == buffer.len() {
                return None;
            }
            buffer[count] = *byte;
            count += 1;
        }
    }
    Some(count)
}

/// Whether a whole part with these digits and these decimals are a number.
#[tactic(auto, unfolding(crate::specs::QifAmount::is_number))]
fn is_number(whole: &[u8], digits: &[u8], decimals: &[u8]) -> bool
    requires { digits.now ≡ without_commas whole.now }
    ensures { result ≡ is_number whole.now decimals.now }
{
    are_commas_placed(whole)
        && has_digits(digits, 0, MOST_DIGITS)
        && has_digits(decimals, 0, 9)
        && !(digits.is_empty() && decimals.is_empty())
}

/// Whether exactly three digits follow each comma, up to the next comma or the end.
fn are_commas_placed(whole: &[u8]) -> bool
    ensures { result ≡ are_commas_placed whole.now }
{
    for (i, byte) in whole.iter().enumerate() {
        if *byte == b',' && digits_len(&whole[i + 1..]) != 3 {
            return false;
        }
    }
    true
}
