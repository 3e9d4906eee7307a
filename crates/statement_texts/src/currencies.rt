ghost use Rattle.std.specs.Prelude.{◌≡◌, [], IfOk, OnOk, length, map};
ghost use Rattle.book_commodity.specs.Table.{with_entry};
ghost use Rattle.book_statement.specs.Currencies.{HaveFractions, IsFraction};
ghost use Rattle.statement_texts.specs.Answers.{currency};
ghost use Rattle.statement_texts.specs.Usual.{usual, with_codes};

use book_commodity::{Commodities, Commodity, OutOfMemory, Text};
use std::alloc::Global;
use std::marker::Model;

/// Currencies with cents (ISO 4217: two decimals).
const WITH_CENTS: [&str; 14] = [
    "AUD", "CAD", "CHF", "CNY", "CZK", "DKK", "EUR", "GBP", "HUF", "NOK", "NZD", "PLN", "SEK",
    "USD",
];

/// Currencies without decimals (ISO 4217).
const WHOLE: [&str; 5] = ["CLP", "ISK", "JPY", "KRW", "VND"];

/// Currencies with three decimals (ISO 4217).
const WITH_MILS: [&str; 5] = ["BHD", "JOD", "KWD", "OMR", "TND"];

/// Currencies with their codes and fractions. Contracts see them as commodities of a book.
#[derive(Drop)]
pub struct Currencies {
    known: Commodities,
}

impl Model for Currencies {
    ghost use Rattle.std.specs.Prelude.{ℕ, List};
    ghost use Rattle.book_commodity.specs.declared.commodity.Commodity.{Commodity};
    ghost use Rattle.book_statement.specs.Currencies.{HaveFractions};

    ghost Value = { List (ℕ × Commodity) };

    ghost view = { λ c. c.known.entries };

    ghost invariant = { λ c. HaveFractions c.known.entries };
}

impl Currencies {
    /// No currencies.
    pub fn new(alloc: Global) -> Currencies
        ensures { result ≡ [] }
    {
        Currencies {
            known: Commodities::new(alloc),
        }
    }

    /// The currencies that are known where no book says which ones are.
    pub fn usual(alloc: Global) -> Result<Currencies, OutOfMemory>
        ensures { IfOk result (λ known. known ≡ usual) }
    {
        let mut known = Currencies::new(alloc);
        known.add_all(alloc, &WITH_CENTS, 100)?;
        known.add_all(alloc, &WHOLE, 1)?;
        known.add_all(alloc, &WITH_MILS, 1_000)?;
        Ok(known)
    }

    /// Adds currencies with this fraction.
    fn add_all(&mut self, alloc: Global, codes: &[&str], fraction: u64) -> Result<(), OutOfMemory>
        requires { IsFraction fraction }
        ensures { OnOk result (self.new ≡ with_codes fraction (map (λ code. code.now) codes.now) self.old) }
    {
        for code in codes {
            self.add(alloc, code, fraction)?;
        }
        Ok(())
    }

    /// Adds a currency with this code, of which so many smallest units make one unit.
    pub fn add(&mut self, alloc: Global, code: &str, fraction: u64) -> Result<(), OutOfMemory>
        requires { IsFraction fraction }
        ensures { OnOk result
            (self.new ≡ with_entry (length self.old) (currency code.now fraction) self.old) }
    {
        let number = self.known.len() as u64;
        let added = currency(alloc, code, fraction)?;
        self.known.reserve(1)?;
        self.known.put(number, added);
        Ok(())
    }

    /// The currencies as commodities of a book.
    pub fn commodities(&self) -> &Commodities
        ensures entries { result.now.entries ≡ self.now }
        ensures fractions { HaveFractions self.now }
    {
        &self.known
    }
}

/// A currency with this code, of which so many smallest units make one unit.
pub(crate) fn currency(alloc: Global, code: &str, fraction: u64) -> Result<Commodity, OutOfMemory>
    ensures { IfOk result (λ made. made ≡ currency code.now fraction) }
{
    Ok(Commodity {
        space: Text::of(String::from_str(alloc, "CURRENCY")?),
        name: Text::of(String::from_str(alloc, code)?),
        full_name: Text::new(alloc),
        fraction,
    })
}
