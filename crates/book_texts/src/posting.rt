ghost use Rattle.std.specs.Prelude.{◌≡◌, IfOk};
ghost use Rattle.book_texts.specs.Fields.{members_of};
ghost use Rattle.book_texts.specs.Posting.{edit, post};

use crate::fields::Fields;
use book_command::Word;
use book_commodity::Many;
use std::alloc::{AllocError, Global};

/// The answer of `post`.
pub(crate) fn post(
    alloc: Global,
    transaction: u64,
    splits: &Many<u64>,
    balances: &Many<i128>,
    version: u64,
) -> Result<Fields, AllocError>
    ensures { IfOk result (λ fields. members_of fields ≡ post transaction splits.now balances.now version) }
{
    let fields = Fields::answered(alloc, Word::Post, version)?;
    let fields = fields.with("balances", balances)?;
    let fields = fields.with("splits", splits)?;
    Ok(fields.with("transaction", &transaction)?)
}

/// The answer of `edit`.
pub(crate) fn edit(
    alloc: Global,
    splits: &Many<u64>,
    balances: &Many<i128>,
    version: u64,
) -> Result<Fields, AllocError>
    ensures { IfOk result (λ fields. members_of fields ≡ edit splits.now balances.now version) }
{
    let edited = Fields::answered(alloc, Word::Edit, version)?;
    let edited = edited.with("balances", balances)?;
    Ok(edited.with("splits", splits)?)
}
