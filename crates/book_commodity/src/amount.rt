ghost use Rattle.std.specs.Prelude.{◌≡◌, ◌++◌, ◌^◌, ◌<◌, ◌≤◌, IfOk, IfSome, string_bytes};
ghost use Rattle.book_commodity.specs.Amount.{decimals_of, lowest_digits, decimal_amount, amount_text};

use crate::{OutOfMemory, Text};
use std::alloc::{AllocError, Global};

/// The powers of ten that a fraction can be.
const POWERS_OF_TEN: [u64; 20] = [
    1,
    10,
    100,
    1_000,
    10_000,
    100_000,
    1_000_000,
    10_000_000,
    100_000_000,
    1_000_000_000,
    10_000_000_000,
    100_000_000_000,
    1_000_000_000_000,
    10_000_000_000_000,
    100_000_000_000_000,
    1_000_000_000_000_000,
    10_000_000_000_000_000,
    100_000_000_000_000_000,
    1_000_000_000_000_000_000,
    10_000_000_000_000_000_000,
];

/// The text of an amount of a commodity with this fraction: for a fraction 10^k the decimal number with k decimals, as
/// `-12.05`, for another one the count of smallest units, a slash and the fraction.
#[tactic(auto, unfolding(crate::specs::Amount::amount_text))]
pub fn amount_text(alloc: Global, amount: i128, fraction: u64) -> Result<Text, OutOfMemory>
    ensures { IfOk result (λ text. text ≡ amount_text amount fraction) }
{
    match decimals_of(fraction) {
        Some(places) => {
            let text = decimal_amount(alloc, amount, places)?;
            Ok(Text::of(text))
        }
        None => {
            let text = format!(in alloc; "{amount}/{fraction}")?;
            Ok(Text::of(text))
        }
    }
}

/// How many decimals a fraction stands for; `None` where it is no power of ten.
#[tactic(auto, unfolding(crate::specs::Amount::decimals_of))]
fn decimals_of(fraction: u64) -> Option<usize>
    ensures places { result ≡ decimals_of fraction }
    ensures few { IfSome result (λ places. places < 20) }
{
    POWERS_OF_TEN.iter().position(|power| *power == fraction)
}

/// An amount as a decimal number of whole units, with so many decimals.
fn decimal_amount(alloc: Global, amount: i128, places: usize) -> Result<String, AllocError>
    requires { places < 20 }
    ensures { IfOk result (λ text. string_bytes text ≡ decimal_amount amount places) }
{
    let size = amount.unsigned_abs();
    let sign = if amount < 0 { "-" } else { "" };
    let whole = size / power_of_ten(places);
    let mut text = format!(in alloc; "{sign}{whole}")?;
    if places > 0 {
        text.push('.')?;
        push_lowest_digits(&mut text, size, places)?;
    }
    Ok(text)
}

/// Appends the lowest digits of a number, so many of them.
fn push_lowest_digits(text: &mut String, number: u128, places: usize) -> Result<(), AllocError>
    requires { places ≤ 20 }
    ensures { IfOk result (λ _. string_bytes text.new ≡ string_bytes text.old ++ lowest_digits places number) }
{
    for place in (0..places).rev() {
        let digit = (number / power_of_ten(place) % 10) as u8;
        text.push((b'0' + digit) as char)?;
    }
    Ok(())
}

/// The power of ten with this exponent.
fn power_of_ten(exponent: usize) -> u128
    requires { exponent < 20 }
    ensures power { result ≡ 10 ^ exponent }
    ensures positive { 0 < result }
{
    POWERS_OF_TEN[exponent] as u128
}
