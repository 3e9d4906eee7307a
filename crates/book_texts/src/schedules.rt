ghost use Rattle.std.specs.Prelude.{◌≡◌, IfOk};
ghost use Rattle.book_texts.specs.Fields.{members_of};
ghost use Rattle.book_texts.specs.Schedules.{due, due_data, due-plain, schedule_add, schedule_run};

use crate::fields::Fields;
use crate::shown::Shown;
use book_command::{DueDay, Word};
use book_commodity::Many;
use serde_json::Value;
use std::alloc::{AllocError, Global};

/// The answer of `schedule_add`.
pub(crate) fn schedule_add(alloc: Global, schedule: u64, version: u64) -> Result<Fields, AllocError>
    ensures { IfOk result (λ fields. members_of fields ≡ schedule_add schedule version) }
{
    let fields = Fields::answered(alloc, Word::ScheduleAdd, version)?;
    Ok(fields.with("schedule", &schedule)?)
}

/// The answer of `schedule_run`.
pub(crate) fn schedule_run(
    alloc: Global,
    transactions: &Many<u64>,
    version: u64,
) -> Result<Fields, AllocError>
    ensures { IfOk result (λ fields. members_of fields ≡ schedule_run transactions.now version) }
{
    let fields = Fields::answered(alloc, Word::ScheduleRun, version)?;
    Ok(fields.with("transactions", transactions)?)
}

/// The answer of `due`.
pub(crate) fn due(alloc: Global, days: &Many<DueDay>, version: u64) -> Result<Fields, AllocError>
    ensures { IfOk result (λ fields. members_of fields ≡ due days.now version) }
{
    let fields = Fields::answered(alloc, Word::Due, version)?;
    Ok(fields.with("due", days)?)
}

/// A day that is due, as the number of its schedule and the text of the day.
impl Shown for DueDay {
    ghost shown = { due_data };

    ghost plain = { due-plain };

    fn value(&self, alloc: Global) -> Result<Value, AllocError> {
        let mut pair = Vec::new(alloc);
        pair.push(Value::from(self.schedule))?;
        pair.push(self.day.value(alloc)?)?;
        Ok(Value::Array(pair))
    }
}
