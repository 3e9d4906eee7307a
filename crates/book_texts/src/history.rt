ghost use Rattle.std.specs.Prelude.{◌≡◌, IfOk, map};
ghost use Rattle.book_command.specs.declared.word.Word.TheVariants as word;
ghost use Rattle.book_texts.specs.Fields.{answered, members_of};
ghost use Rattle.book_texts.specs.Shown.{number_data};

use crate::fields::Fields;
use book_command::Word;
use std::alloc::{AllocError, Global};

/// The answer of `status`, which has these counts.
pub(crate) fn status(
    alloc: Global,
    counts: &[(&str, u64)],
    version: u64,
) -> Result<Fields, AllocError>
    ensures { IfOk result (λ fields. members_of fields
        ≡ answered word.Status (map (λ count. (count.0.now, number_data count.1)) counts.now) version) }
{
    let mut fields = Fields::answered(alloc, Word::Status, version)?;
    for count in counts {
        fields = fields.with(count.0, &count.1)?;
    }
    Ok(fields)
}
