ghost use Rattle.std.specs.Prelude.{◌≡◌, IfOk};
ghost use Rattle.book_texts.specs.Fields.{members_of};
ghost use Rattle.book_texts.specs.Reports.{gains, report};

use crate::fields::Fields;
use book_command::Word;
use book_commodity::Text;
use std::alloc::{AllocError, Global};

/// The answer of a command that asks for a report.
pub(crate) fn report(
    alloc: Global,
    word: Word,
    text: &Text,
    version: u64,
) -> Result<Fields, AllocError>
    ensures { IfOk result (λ fields. members_of fields ≡ report word text.now version) }
{
    let fields = Fields::answered(alloc, word, version)?;
    Ok(fields.with_text("text", text.as_str())?)
}

/// The answer of `gains`.
pub(crate) fn gains(alloc: Global, gain: i128, version: u64) -> Result<Fields, AllocError>
    ensures { IfOk result (λ fields. members_of fields ≡ gains gain version) }
{
    let fields = Fields::answered(alloc, Word::Gains, version)?;
    Ok(fields.with("gain", &gain)?)
}
