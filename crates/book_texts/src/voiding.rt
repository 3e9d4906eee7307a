ghost use Rattle.std.specs.Prelude.{◌≡◌, IfOk};
ghost use Rattle.book_texts.specs.Fields.{members_of};
ghost use Rattle.book_texts.specs.Voiding.{voided, voided_data, voided-plain};

use crate::fields::Fields;
use crate::shown::Shown;
use book_command::{VoidedShown, Word};
use book_commodity::Many;
use serde_json::Value;
use std::alloc::{AllocError, Global};

/// The answer of `voided`.
pub(crate) fn listed_voided(
    alloc: Global,
    shown: &Many<VoidedShown>,
    version: u64,
) -> Result<Fields, AllocError>
    ensures { IfOk result (λ fields. members_of fields ≡ voided shown.now version) }
{
    let fields = Fields::answered(alloc, Word::Voided, version)?;
    Ok(fields.with("voided", shown)?)
}

/// A split of a voided transaction, as the numbers of the two, what was kept of it, and the reason.
impl Shown for VoidedShown {
    ghost shown = { voided_data };

    ghost plain = { voided-plain };

    fn value(&self, alloc: Global) -> Result<Value, AllocError> {
        let mut split = Vec::new(alloc);
        split.push(Value::from(self.transaction))?;
        split.push(Value::from(self.split))?;
        split.push(Value::from(self.value))?;
        split.push(Value::from(self.quantity))?;
        split.push(self.reason.value(alloc)?)?;
        Ok(Value::Array(split))
    }
}
