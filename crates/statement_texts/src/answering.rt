ghost use Rattle.std.specs.Prelude.{◌≡◌, ◌++◌, IfOk, OnOk};
ghost use Rattle.book_statement.specs.Checks.{Gives};
ghost use Rattle.statement_texts.specs.Answers.{answer_of, rows_or_counts, said};
ghost use Rattle.statement_texts.specs.Words.{HasFraction};

use crate::asked::{Asked, Format};
use crate::currencies::{Currencies, currency};
use crate::faults::add_fault;
use crate::rows::{add_counts, add_statements};
use bai2_read::read_bai2;
use book_commodity::{Many, OutOfMemory};
use book_statement::{ReadError, Statement, as_text};
use mt940_read::read_mt940;
use qif_read::read_qif;
use std::alloc::{AllocError, Global};

/// What a file says, read in the format that is asked for, with these currencies.
fn read(
    alloc: Global,
    format: &Format,
    known: &Currencies,
    bytes: &[u8],
) -> Result<Many<Statement>, ReadError>
    requires { HasFraction format.now }
    ensures { Gives (said format.now known.now bytes.now) result }
{
    let text = as_text(alloc, bytes)?;
    match format {
        Format::Mt940 => read_mt940(alloc, &text, known.commodities()),
        Format::Bai2 => read_bai2(alloc, &text, known.commodities()),
        Format::Qif(order, code, fraction) => {
            let currency = currency(alloc, code, *fraction)?;
            read_qif(alloc, &text, &currency, *order)
        }
    }
}

/// Adds the rows of statements, or the row of their counts alone.
fn add_rows(
    alloc: Global,
    out: &mut Vec<u8>,
    counts: bool,
    statements: &[Statement],
) -> Result<(), AllocError>
    ensures { OnOk result (out.new.items ≡ out.old.items ++ rows_or_counts counts statements.now) }
{
    if counts {
        add_counts(alloc, out, statements)
    } else {
        add_statements(alloc, out, statements)
    }
}

/// The text that answers a file: the rows of its statements, or how many there are, or the row of its fault.
pub fn answer(
    alloc: Global,
    asked: &Asked,
    known: &Currencies,
    bytes: &[u8],
) -> Result<Vec<u8>, OutOfMemory>
    requires { HasFraction asked.now.format }
    ensures { IfOk result (λ out. out.items ≡ answer_of asked.now.counts (said asked.now.format known.now bytes.now)) }
{
    let mut out = Vec::new(alloc);
    match read(alloc, &asked.format, known, bytes) {
        Ok(statements) => add_rows(alloc, &mut out, asked.counts, statements.as_slice())?,
        Err(ReadError::Fault(fault)) => add_fault(alloc, &mut out, fault)?,
        Err(ReadError::OutOfMemory) => return Err(OutOfMemory),
    }
    Ok(out)
}
