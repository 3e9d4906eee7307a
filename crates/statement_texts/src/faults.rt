ghost use Rattle.std.specs.Fmt.{signed_decimal};
ghost use Rattle.std.specs.Prelude.{◌≡◌, ◌++◌, OnOk};
ghost use Rattle.statement_texts.specs.Faults.{count_name, details, fault_row, level_name, name_of, sums};

use book_statement::{Bad, CountOf, Level, StatementFault};
use std::alloc::{AllocError, Global};

/// Adds the row of a fault: its line, its name, and what the file says and what is reckoned.
pub fn add_fault(alloc: Global, out: &mut Vec<u8>, fault: StatementFault) -> Result<(), AllocError>
    ensures { OnOk result (out.new.items ≡ out.old.items ++ fault_row fault) }
{
    let line = fault.line;
    out.extend_from_slice(b"line ")?;
    out.extend_from_slice(format!(in alloc; "{line}")?.as_bytes())?;
    out.extend_from_slice(b": ")?;
    out.extend_from_slice(name_of(fault.bad).as_bytes())?;
    add_details(alloc, out, fault.bad)?;
    out.push(b'\n')?;
    Ok(())
}

/// Adds what stands behind the name.
fn add_details(alloc: Global, out: &mut Vec<u8>, bad: Bad) -> Result<(), AllocError>
    ensures { OnOk result (out.new.items ≡ out.old.items ++ details bad) }
{
    match bad {
        Bad::BalanceMismatch { said, reckoned } => add_sums(alloc, out, "", said, reckoned),
        Bad::ControlTotal {
            level,
            said,
            reckoned,
        } => add_sums(alloc, out, level_name(level), said, reckoned),
        Bad::Count {
            what,
            said,
            reckoned,
        } => add_sums(alloc, out, count_name(what), said, reckoned),
        Bad::SplitSum { said, reckoned } => add_sums(alloc, out, "", said, reckoned),
        _ => Ok(()),
    }
}

/// Adds what is said and what is reckoned, behind what they are of.
fn add_sums(
    alloc: Global,
    out: &mut Vec<u8>,
    of: &str,
    said: i128,
    reckoned: i128,
) -> Result<(), AllocError>
    ensures { OnOk result (out.new.items ≡ out.old.items ++ (of.now ++ sums said reckoned)) }
{
    out.extend_from_slice(of.as_bytes())?;
    add_sum(alloc, out, b" said ", said)?;
    add_sum(alloc, out, b" reckoned ", reckoned)
}

/// Adds a sum behind a word.
fn add_sum(alloc: Global, out: &mut Vec<u8>, word: &[u8], sum: i128) -> Result<(), AllocError>
    ensures { OnOk result (out.new.items ≡ out.old.items ++ (word.now ++ signed_decimal sum)) }
{
    out.extend_from_slice(word)?;
    out.extend_from_slice(format!(in alloc; "{sum}")?.as_bytes())
}

/// The name of what is wrong.
fn name_of(bad: Bad) -> &'static str
    ensures { result.now ≡ name_of bad }
{
    match bad {
        Bad::NoStatement => "NoStatement",
        Bad::FieldOrder => "FieldOrder",
        Bad::RecordOrder => "RecordOrder",
        Bad::FieldForm => "FieldForm",
        Bad::DateForm => "DateForm",
        Bad::AmountForm => "AmountForm",
        Bad::TooManyDecimals => "TooManyDecimals",
        Bad::UnknownCurrency => "UnknownCurrency",
        Bad::CurrencyDiffers => "CurrencyDiffers",
        Bad::PageOrder => "PageOrder",
        Bad::Version => "Version",
        Bad::GroupStatus => "GroupStatus",
        Bad::BalanceMismatch { .. } => "BalanceMismatch",
        Bad::ControlTotal { .. } => "ControlTotal",
        Bad::Count { .. } => "Count",
        Bad::SplitSum { .. } => "SplitSum",
        Bad::CutOff => "CutOff",
        Bad::TooMany => "TooMany",
    }
}

/// The name of what a total is of, behind a space.
fn level_name(level: Level) -> &'static str
    ensures { result.now ≡ level_name level }
{
    match level {
        Level::Account => " Account",
        Level::Group => " Group",
        Level::File => " File",
    }
}

/// The name of what is counted, behind a space.
fn count_name(what: CountOf) -> &'static str
    ensures { result.now ≡ count_name what }
{
    match what {
        CountOf::AccountRecords => " AccountRecords",
        CountOf::GroupAccounts => " GroupAccounts",
        CountOf::GroupRecords => " GroupRecords",
        CountOf::FileGroups => " FileGroups",
        CountOf::FileRecords => " FileRecords",
    }
}
