ghost use Rattle.std.specs.Prelude.{◌≡◌, ◌++◌, OnOk, IfOk};
ghost use Rattle.std.specs.List.{list_all};
ghost use Rattle.book_export.specs.Symbols.{amount_in, amount_of, commodity_lines, counted, currency_symbol};
ghost use Rattle.book_export.specs.Symbols.{exponent_of};
ghost use Rattle.book_export.specs.Symbols.{format_line, is_capital, is_decimal, long_symbol, part_of_unit, symbol};
ghost use Rattle.book_export.specs.Symbols.{units};

use crate::names::push_written;
use book_commodity::{Commodities, Commodity, OutOfMemory, amount_text};
use std::alloc::Global;

/// The powers of ten that a fraction can be.
pub(crate) const POWERS_OF_TEN: [u64; 20] = [
    1,
    10,
    100,
    1_000,
    10_000,
    100_000,
    1_000_000,
    10_000_000,
    100_000_000,
    1_000_000_000,
    10_000_000_000,
    100_000_000_000,
    1_000_000_000_000,
    10_000_000_000_000,
    100_000_000_000_000,
    1_000_000_000_000_000,
    10_000_000_000_000_000,
    100_000_000_000_000_000,
    1_000_000_000_000_000_000,
    10_000_000_000_000_000_000,
];

/// The lines of a commodity: its directive, and how its amounts are written.
#[tactic(auto, unfolding(crate::specs::Symbols::commodity_lines))]
pub(crate) fn commodity_lines(alloc: Global, commodity: &Commodity) -> Result<Vec<u8>, OutOfMemory>
    ensures { IfOk result (λ lines. lines.items ≡ commodity_lines commodity.now) }
{
    let mut lines = Vec::new(alloc);
    lines.extend_from_slice(b"commodity ")?;
    push_symbol(alloc, &mut lines, commodity)?;
    lines.push(b'\n')?;
    push_format(alloc, &mut lines, commodity)?;
    Ok(lines)
}

/// Adds the line that says how amounts of a commodity are written; nothing where they have no decimals.
fn push_format(alloc: Global, out: &mut Vec<u8>, commodity: &Commodity) -> Result<(), OutOfMemory>
    ensures { OnOk result (out.new.items ≡ out.old.items ++ format_line commodity.now) }
{
    if counted(commodity.fraction) == 1 {
        return Ok(());
    }
    out.extend_from_slice(b"  format ")?;
    push_amount_of(alloc, out, commodity, 1000 * i128::from(commodity.fraction))?;
    out.push(b'\n')?;
    Ok(())
}

/// Adds an amount of the commodity with a number, in smallest units; nothing where there is no such commodity.
#[tactic(auto, unfolding(crate::specs::Symbols::amount_in))]
pub(crate) fn push_amount(
    alloc: Global,
    out: &mut Vec<u8>,
    commodities: &Commodities,
    number: u64,
    amount: i128,
) -> Result<(), OutOfMemory>
    ensures { OnOk result (out.new.items ≡ out.old.items ++ amount_in commodities.now.entries number amount) }
{
    match commodities.find(number) {
        Some(commodity) => push_amount_of(alloc, out, commodity, amount),
        None => Ok(()),
    }
}

/// Adds an amount of a commodity, in smallest units, with its symbol.
fn push_amount_of(
    alloc: Global,
    out: &mut Vec<u8>,
    commodity: &Commodity,
    amount: i128,
) -> Result<(), OutOfMemory>
    ensures { OnOk result (out.new.items ≡ out.old.items ++ amount_of commodity.now amount) }
{
    let number = amount_text(alloc, amount, counted(commodity.fraction))?;
    out.extend_from_slice(number.as_str().as_bytes())?;
    out.push(b' ')?;
    push_symbol(alloc, out, commodity)
}

/// Adds the symbol of a commodity.
pub(crate) fn push_symbol(
    alloc: Global,
    out: &mut Vec<u8>,
    commodity: &Commodity,
) -> Result<(), OutOfMemory>
    ensures { OnOk result (out.new.items ≡ out.old.items ++ symbol commodity.now) }
{
    if is_decimal(commodity.fraction) && commodity.is_currency() {
        push_currency_symbol(out, commodity.name.as_str().as_bytes())
    } else {
        push_long_symbol(alloc, out, commodity)
    }
}

/// Adds the symbol of a currency with this name.
fn push_currency_symbol(out: &mut Vec<u8>, name: &[u8]) -> Result<(), OutOfMemory>
    ensures { OnOk result (out.new.items ≡ out.old.items ++ currency_symbol name.now) }
{
    if are_capitals(name) {
        out.extend_from_slice(name)?;
        return Ok(());
    }
    out.push(b'"')?;
    push_written(out, true, name)?;
    out.push(b'"')?;
    Ok(())
}

/// Whether a name has capital letters of ASCII alone.
fn are_capitals(name: &[u8]) -> bool
    ensures { result ≡ list_all is_capital name.now }
{
    let mut left = name;
    while let Some((byte, rest)) = left.split_first() {
        if !is_capital(*byte) {
            return false;
        }
        left = rest;
    }
    true
}

/// Whether a byte is a capital letter of ASCII.
fn is_capital(byte: u8) -> bool
    ensures { result ≡ is_capital byte }
{
    b'A' <= byte && byte <= b'Z'
}

/// Adds the symbol of a commodity that is named by its space and its name.
fn push_long_symbol(
    alloc: Global,
    out: &mut Vec<u8>,
    commodity: &Commodity,
) -> Result<(), OutOfMemory>
    ensures { OnOk result (out.new.items ≡ out.old.items ++ long_symbol commodity.now) }
{
    out.push(b'"')?;
    push_written(out, true, commodity.space.as_str().as_bytes())?;
    out.push(b':')?;
    push_written(out, true, commodity.name.as_str().as_bytes())?;
    push_part(alloc, out, commodity.fraction)?;
    out.push(b'"')?;
    Ok(())
}

/// Adds what is counted of a whole unit, where it isn't that.
fn push_part(alloc: Global, out: &mut Vec<u8>, fraction: u64) -> Result<(), OutOfMemory>
    ensures { OnOk result (out.new.items ≡ out.old.items ++ part_of_unit fraction) }
{
    if is_decimal(fraction) {
        return Ok(());
    }
    out.extend_from_slice(format!(in alloc; ":1/{fraction}")?.as_bytes())?;
    Ok(())
}

/// Whether amounts with this fraction are decimal numbers of whole units.
fn is_decimal(fraction: u64) -> bool
    ensures { result ≡ is_decimal fraction }
{
    exponent_of(fraction).is_some()
}

/// The exponent of a power of ten; `None` for another number.
#[tactic(auto, unfolding(crate::specs::Symbols::exponent_of))]
fn exponent_of(fraction: u64) -> Option<usize>
    ensures { result ≡ exponent_of fraction }
{
    POWERS_OF_TEN.iter().position(|power| *power == fraction)
}

/// How many smallest units make one of the units that the journal counts.
fn counted(fraction: u64) -> u64
    ensures { result ≡ counted fraction }
{
    if is_decimal(fraction) { fraction } else { 1 }
}

/// How many of the units that the journal counts make one whole unit.
pub(crate) fn units(fraction: u64) -> u64
    ensures { result ≡ units fraction }
{
    if is_decimal(fraction) { 1 } else { fraction }
}
