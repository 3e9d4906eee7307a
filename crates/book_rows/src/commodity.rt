ghost use Rattle.std.specs.Prelude.{◌≡◌, ◌++◌, OnOk};
ghost use Rattle.book_rows.specs.CommodityBytes.{IsCommodity, commodity_bytes, commodity_made};

use crate::Rows;
use book_codec::{DecodeError, Field};
use book_commodity::{Commodity, OutOfMemory, Text};
use std::alloc::Global;

/// The fields of a commodity, in the order of their bytes.
type CommodityFields = (Text, (Text, (Text, u64)));

/// A commodity: its space, its name, its full name and its fraction.
impl Field<Rows> for Commodity {
    ghost fits = { IsCommodity };

    ghost spelling = { commodity_bytes };

    fn spell(&self, out: &mut Vec<u8>) -> Result<(), OutOfMemory> {
        Field::<Rows>::spell(&self.space, out)?;
        Field::<Rows>::spell(&self.name, out)?;
        Field::<Rows>::spell(&self.full_name, out)?;
        Field::<Rows>::spell(&self.fraction, out)
    }

    fn read(alloc: Global, bytes: &[u8]) -> Result<(Commodity, &[u8]), DecodeError> {
        let (fields, rest) = match <CommodityFields as Field<Rows>>::read(alloc, bytes) {
            Ok(found) => found,
            Err(error) => return Err(error),
        };
        Ok((commodity_of(fields), rest))
    }
}

/// The commodity whose fields these are.
fn commodity_of(fields: CommodityFields) -> Commodity
    ensures { result ≡ commodity_made fields }
{
    let (space, (name, (full_name, fraction))) = fields;
    Commodity {
        space,
        name,
        full_name,
        fraction,
    }
}
