ghost use Rattle.std.specs.Prelude.{◌≡◌, [], ◌∷◌, ◌++◌, not, None, Some, is_some, IsOk, MatchResult};
ghost use Rattle.std.specs.Option.{option_or};
ghost use Rattle.book_statement.specs.Checks.{check};
ghost use Rattle.book_statement.specs.Currencies.{IsFraction};
ghost use Rattle.book_statement.specs.Lists.{on_last};
ghost use Rattle.book_statement.specs.Texts.{is_nothing};
ghost use Rattle.qif_read.specs.QifAmount.{amount, amount_checks};
ghost use Rattle.qif_read.specs.QifDate.{day_named, day_read};
ghost use Rattle.qif_read.specs.Steps.{Takes, begun_split, fault_in, with_memo, with_amount};

use crate::Form;
use crate::amount::read_amount;
use crate::date::read_date;
use crate::splits::Splits;
use book_commodity::{Day, OutOfMemory, Text};
use book_statement::{Bad, ReadError, StatementFault};
use std::alloc::Global;

/// A fault at a line.
pub fn fault(line: u64, bad: Bad) -> ReadError
    ensures { result ≡ ReadError.Fault (record { line = line; bad = bad }) }
{
    ReadError::Fault(StatementFault { line, bad })
}

/// What a step that only needs memory answers, as a reader answers it.
pub fn in_memory(given: Result<(), OutOfMemory>) -> Result<(), ReadError>
    ensures { MatchResult result (λ _. IsOk given) (λ error. error ≡ ReadError.OutOfMemory) }
{
    match given {
        Ok(()) => Ok(()),
        Err(OutOfMemory) => Err(ReadError::OutOfMemory),
    }
}

/// Keeps the day of a line `D`, where none is kept yet.
pub fn keep_date(
    kept: &mut Option<Day>,
    form: &Form,
    line: u64,
    text: &str,
) -> Result<(), ReadError>
    ensures { Takes (fault_in line (check (is_some (day_named form.now.order text.now)) Bad.DateForm ∷ []))
        (option_or kept.old (Some (day_read form.now.order text.now))) kept.new result }
{
    let Some(day) = read_date(form.order, text.as_bytes()) else {
        return Err(fault(line, Bad::DateForm));
    };
    if kept.is_none() {
        *kept = Some(day);
    }
    Ok(())
}

/// Keeps the amount of a line `T` or `U`, where none is kept yet.
pub fn keep_amount(
    kept: &mut Option<i64>,
    form: &Form,
    line: u64,
    text: &str,
) -> Result<(), ReadError>
    requires { IsFraction form.now.fraction }
    ensures { Takes (fault_in line (amount_checks form.now.fraction text.now))
        (option_or kept.old (Some (amount form.now.fraction text.now))) kept.new result }
{
    match read_amount(form.fraction, text.as_bytes()) {
        Ok(amount) => {
            if kept.is_none() {
                *kept = Some(amount);
            }
            Ok(())
        }
        Err(bad) => Err(fault(line, bad)),
    }
}

/// Keeps the text of a line, where none is kept yet.
pub fn keep_text(kept: &mut Option<Text>, alloc: Global, text: &str) -> Result<(), ReadError>
    ensures { Takes None (option_or kept.old (Some text.now)) kept.new result }
{
    if kept.is_some() {
        return Ok(());
    }
    let Ok(text) = String::from_str(alloc, text) else {
        return Err(ReadError::OutOfMemory);
    };
    *kept = Some(Text::of(text));
    Ok(())
}

/// Begins a part at a line `S`.
pub fn begin_split(splits: &mut Splits, alloc: Global, category: &str) -> Result<(), ReadError>
    ensures { Takes None (splits.old ++ begun_split category.now ∷ []) splits.new result }
{
    let Ok(category) = String::from_str(alloc, category) else {
        return Err(ReadError::OutOfMemory);
    };
    in_memory(splits.begin(Text::of(category)))
}

/// Takes the memo of a part, at a line `E`.
pub fn add_memo(splits: &mut Splits, alloc: Global, line: u64, text: &str) -> Result<(), ReadError>
    ensures { Takes (fault_in line (check (not (is_nothing splits.old)) Bad.FieldForm ∷ []))
        (on_last (with_memo text.now) splits.old) splits.new result }
{
    if splits.is_empty() {
        return Err(fault(line, Bad::FieldForm));
    }
    in_memory(splits.add_memo(alloc, text))
}

/// Takes the amount of a part, at a line `$`.
pub fn add_amount(splits: &mut Splits, form: &Form, line: u64, text: &str) -> Result<(), ReadError>
    requires { IsFraction form.now.fraction }
    ensures { Takes
        (fault_in line (check (not (is_nothing splits.old)) Bad.FieldForm ∷ amount_checks form.now.fraction text.now))
        (on_last (with_amount (amount form.now.fraction text.now)) splits.old) splits.new result }
{
    if splits.is_empty() {
        return Err(fault(line, Bad::FieldForm));
    }
    match read_amount(form.fraction, text.as_bytes()) {
        Ok(amount) => in_memory(splits.add_amount(amount)),
        Err(bad) => Err(fault(line, bad)),
    }
}
