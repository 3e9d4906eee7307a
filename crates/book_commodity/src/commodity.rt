ghost use Rattle.std.specs.Prelude.{◌≡◌, IfOk};
ghost use Rattle.book_commodity.specs.Currency.{is_currency};

use crate::{OutOfMemory, Table, Text};

/// A currency or a security. It is named by its space and its name; currencies stand in the space `CURRENCY`.
#[derive(Drop)]
pub struct Commodity {
    pub space: Text,
    pub name: Text,
    pub full_name: Text,
    /// How many of its smallest units make one unit, from 1 to 10^9.
    pub fraction: u64,
}

/// The commodities of a book by their numbers.
pub type Commodities = Table<Commodity>;

impl Commodity {
    /// An equal commodity with texts of its own.
    pub fn copy(&self) -> Result<Commodity, OutOfMemory>
        ensures { IfOk result (λ copy. copy ≡ self.now) }
    {
        Ok(Commodity {
            space: self.space.copy()?,
            name: self.name.copy()?,
            full_name: self.full_name.copy()?,
            fraction: self.fraction,
        })
    }

    /// Whether it is a currency.
    pub fn is_currency(&self) -> bool
        ensures { result ≡ is_currency self.now }
    {
        self.space.as_str() == "CURRENCY"
    }
}
