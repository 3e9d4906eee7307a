ghost use Rattle.std.specs.Prelude.{◌≡◌, ◌++◌, OnOk};
ghost use Rattle.book_rows.specs.PriceBytes.{IsPrice, price_bytes, price_made};

use crate::Rows;
use book_codec::{DecodeError, Field};
use book_commodity::{Day, OutOfMemory};
use book_prices::Price;
use std::alloc::Global;

/// The fields of a price, in the order of their bytes.
type PriceFields = (u64, (u64, (Day, (u64, u64))));

/// A price: its commodity, its currency, its day, and its two numbers.
impl Field<Rows> for Price {
    ghost fits = { IsPrice };

    ghost spelling = { price_bytes };

    fn spell(&self, out: &mut Vec<u8>) -> Result<(), OutOfMemory> {
        Field::<Rows>::spell(&self.commodity, out)?;
        Field::<Rows>::spell(&self.currency, out)?;
        Field::<Rows>::spell(&self.day, out)?;
        Field::<Rows>::spell(&self.num, out)?;
        Field::<Rows>::spell(&self.denom, out)
    }

    fn read(alloc: Global, bytes: &[u8]) -> Result<(Price, &[u8]), DecodeError> {
        let (fields, rest) = match <PriceFields as Field<Rows>>::read(alloc, bytes) {
            Ok(found) => found,
            Err(error) => return Err(error),
        };
        Ok((price_of(fields), rest))
    }
}

/// The price whose fields these are.
fn price_of(fields: PriceFields) -> Price
    ensures { result ≡ price_made fields }
{
    let (commodity, (currency, (day, (num, denom)))) = fields;
    Price {
        commodity,
        currency,
        day,
        num,
        denom,
    }
}
