ghost use Rattle.std.specs.Prelude.{◌≡◌, IfOk};
ghost use Rattle.book_texts.specs.Commodities.{commodity_add};
ghost use Rattle.book_texts.specs.Fields.{members_of};

use crate::fields::Fields;
use book_command::Word;
use std::alloc::{AllocError, Global};

/// The answer of `commodity_add`.
pub(crate) fn commodity_add(
    alloc: Global,
    commodity: u64,
    version: u64,
) -> Result<Fields, AllocError>
    ensures { IfOk result (λ fields. members_of fields ≡ commodity_add commodity version) }
{
    let fields = Fields::answered(alloc, Word::CommodityAdd, version)?;
    Ok(fields.with("commodity", &commodity)?)
}
