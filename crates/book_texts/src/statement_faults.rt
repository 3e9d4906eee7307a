ghost use Rattle.std.specs.Prelude.{◌≡◌, IfOk, refl};
ghost use Rattle.book_texts.specs.Fields.{members_of, with_all};
ghost use Rattle.book_texts.specs.StatementFaults.{bad_members, bad_statement, bad_word, count_data, count_word};
ghost use Rattle.book_texts.specs.StatementFaults.{level_data, level_word, sums};

use crate::fields::Fields;
use crate::shown::Shown;
use book_statement::{Bad, CountOf, Level, StatementFault};
use serde_json::Value;
use std::alloc::{AllocError, Global};

/// The rule that a broken statement file breaks.
pub(crate) fn bad_statement(
    alloc: Global,
    fault: StatementFault,
    version: u64,
) -> Result<Fields, AllocError>
    ensures { IfOk result (λ fields. members_of fields ≡ bad_statement fault version) }
{
    let fields = Fields::broken(alloc, "BadStatement", version)?;
    let fields = fields.with_text("bad", bad_word(fault.bad))?;
    let fields = fields.with("line", &fault.line)?;
    with_bad(fields, fault.bad)
}

/// The members, and those of what is wrong.
fn with_bad(fields: Fields, bad: Bad) -> Result<Fields, AllocError>
    ensures { IfOk result (λ all. members_of all ≡ with_all (members_of fields) (bad_members bad)) }
{
    match bad {
        Bad::BalanceMismatch { said, reckoned } => with_sums(fields, said, reckoned),
        Bad::ControlTotal {
            level,
            said,
            reckoned,
        } => with_sums(fields.with("level", &level)?, said, reckoned),
        Bad::Count {
            what,
            said,
            reckoned,
        } => with_sums(fields.with("what", &what)?, said, reckoned),
        Bad::SplitSum { said, reckoned } => with_sums(fields, said, reckoned),
        _ => Ok(fields),
    }
}

/// The members, and what the file says with what its other parts give.
fn with_sums(fields: Fields, said: i128, reckoned: i128) -> Result<Fields, AllocError>
    ensures { IfOk result (λ all. members_of all ≡ with_all (members_of fields) (sums said reckoned)) }
{
    let fields = fields.with("said", &said)?;
    Ok(fields.with("reckoned", &reckoned)?)
}

/// What a control total is the total of, by its word.
impl Shown for Level {
    ghost shown = { level_data };

    ghost plain = { λ level. refl };

    fn value(&self, alloc: Global) -> Result<Value, AllocError> {
        Ok(Value::String(String::from_str(alloc, level_word(*self))?))
    }
}

/// What a count counts, by its word.
impl Shown for CountOf {
    ghost shown = { count_data };

    ghost plain = { λ what. refl };

    fn value(&self, alloc: Global) -> Result<Value, AllocError> {
        Ok(Value::String(String::from_str(alloc, count_word(*self))?))
    }
}

fn level_word(level: Level) -> &'static str
    ensures { result.now ≡ level_word level }
{
    match level {
        Level::Account => "Account",
        Level::Group => "Group",
        Level::File => "File",
    }
}

fn count_word(what: CountOf) -> &'static str
    ensures { result.now ≡ count_word what }
{
    match what {
        CountOf::AccountRecords => "AccountRecords",
        CountOf::GroupAccounts => "GroupAccounts",
        CountOf::GroupRecords => "GroupRecords",
        CountOf::FileGroups => "FileGroups",
        CountOf::FileRecords => "FileRecords",
    }
}

/// The word for what is wrong.
fn bad_word(bad: Bad) -> &'static str
    ensures { result.now ≡ bad_word bad }
{
    match bad {
        Bad::NoStatement => "NoStatement",
        Bad::FieldOrder => "FieldOrder",
        Bad::RecordOrder => "RecordOrder",
        Bad::FieldForm => "FieldForm",
        Bad::DateForm => "DateForm",
        Bad::AmountForm => "AmountForm",
        Bad::TooManyDecimals => "TooManyDecimals",
        Bad::UnknownCurrency => "UnknownCurrency",
        Bad::CurrencyDiffers => "CurrencyDiffers",
        Bad::PageOrder => "PageOrder",
        Bad::Version => "Version",
        Bad::GroupStatus => "GroupStatus",
        Bad::BalanceMismatch { .. } => "BalanceMismatch",
        Bad::ControlTotal { .. } => "ControlTotal",
        Bad::Count { .. } => "Count",
        Bad::SplitSum { .. } => "SplitSum",
        Bad::CutOff => "CutOff",
        Bad::TooMany => "TooMany",
    }
}
