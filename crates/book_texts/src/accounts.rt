ghost use Rattle.std.specs.Prelude.{◌≡◌, IfOk};
ghost use Rattle.book_texts.specs.Accounts.{account_add};
ghost use Rattle.book_texts.specs.Fields.{members_of};

use crate::fields::Fields;
use book_command::Word;
use std::alloc::{AllocError, Global};

/// The answer of `account_add`.
pub(crate) fn account_add(alloc: Global, account: u64, version: u64) -> Result<Fields, AllocError>
    ensures { IfOk result (λ fields. members_of fields ≡ account_add account version) }
{
    let fields = Fields::answered(alloc, Word::AccountAdd, version)?;
    Ok(fields.with("account", &account)?)
}
