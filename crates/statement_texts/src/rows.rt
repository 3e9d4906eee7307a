ghost use Rattle.std.specs.Prelude.{◌≡◌, ◌++◌, OnOk};
ghost use Rattle.statement_texts.specs.Rows.{
  amount_or_none,
  balances,
  category_row,
  count_of_lines,
  counts,
  field,
  line_row,
  line_rows,
  part_row,
  part_rows,
  rows_of_line,
  rows_of,
  statement_rows,
  ties_or_none,
};

use book_statement::{Part, Statement, StatementLine};
use std::alloc::{AllocError, Global};

/// Adds the rows of statements, each with those of its lines.
pub fn add_statements(
    alloc: Global,
    out: &mut Vec<u8>,
    statements: &[Statement],
) -> Result<(), AllocError>
    ensures { OnOk result (out.new.items ≡ out.old.items ++ statement_rows statements.now) }
{
    for statement in statements {
        add_statement(alloc, out, statement)?;
    }
    Ok(())
}

/// Adds the row of a statement and those of its lines.
#[tactic(auto, unfolding(crate::specs::Rows::rows_of))]
fn add_statement(alloc: Global, out: &mut Vec<u8>, statement: &Statement) -> Result<(), AllocError>
    ensures { OnOk result (out.new.items ≡ out.old.items ++ rows_of statement.now) }
{
    out.extend_from_slice(b"statement")?;
    add_field(out, statement.account_text.as_str().as_bytes())?;
    add_field(out, statement.number.as_str().as_bytes())?;
    add_field(out, statement.currency.as_str().as_bytes())?;
    add_balances(alloc, out, statement)?;
    add_lines(alloc, out, statement.lines.as_slice())
}

/// Adds the balances of a statement, its day, whether the balances tie, and how many lines it has.
fn add_balances(alloc: Global, out: &mut Vec<u8>, statement: &Statement) -> Result<(), AllocError>
    ensures { OnOk result (out.new.items ≡ out.old.items ++ balances statement.now) }
{
    add_amount(alloc, out, statement.opening)?;
    add_amount(alloc, out, statement.closing)?;
    add_field(out, &statement.day.text())?;
    add_field(out, ties(statement.ties))?;
    let count = statement.lines.len();
    add_field(out, format!(in alloc; "{count}")?.as_bytes())?;
    out.push(b'\n')?;
    Ok(())
}

/// Adds the rows of lines.
fn add_lines(alloc: Global, out: &mut Vec<u8>, lines: &[StatementLine]) -> Result<(), AllocError>
    ensures { OnOk result (out.new.items ≡ out.old.items ++ line_rows lines.now) }
{
    for line in lines {
        add_line(alloc, out, line)?;
    }
    Ok(())
}

/// Adds the row of a line, and those of its category and its parts.
fn add_line(alloc: Global, out: &mut Vec<u8>, line: &StatementLine) -> Result<(), AllocError>
    ensures { OnOk result (out.new.items ≡ out.old.items ++ rows_of_line line.now) }
{
    add_line_row(alloc, out, line)?;
    add_category(out, line.category.as_str())?;
    add_parts(alloc, out, line.parts.as_slice())
}

/// Adds the row of a line.
#[tactic(auto, unfolding(crate::specs::Rows::line_row))]
fn add_line_row(alloc: Global, out: &mut Vec<u8>, line: &StatementLine) -> Result<(), AllocError>
    ensures { OnOk result (out.new.items ≡ out.old.items ++ line_row line.now) }
{
    out.extend_from_slice(b"line")?;
    add_field(out, &line.day.text())?;
    add_field(out, &line.value_day.text())?;
    add_amount(alloc, out, Some(line.amount))?;
    add_field(out, line.kind.as_str().as_bytes())?;
    add_field(out, line.ref_own.as_str().as_bytes())?;
    add_field(out, line.ref_bank.as_str().as_bytes())?;
    add_field(out, line.text.as_str().as_bytes())?;
    out.push(b'\n')?;
    Ok(())
}

/// Adds the row of a category, where there is one.
#[tactic(auto, unfolding(crate::specs::Rows::category_row))]
fn add_category(out: &mut Vec<u8>, category: &str) -> Result<(), AllocError>
    ensures { OnOk result (out.new.items ≡ out.old.items ++ category_row category.now) }
{
    if category.is_empty() {
        return Ok(());
    }
    out.extend_from_slice(b"category")?;
    add_field(out, category.as_bytes())?;
    out.push(b'\n')?;
    Ok(())
}

/// Adds the rows of the parts of a line.
fn add_parts(alloc: Global, out: &mut Vec<u8>, parts: &[Part]) -> Result<(), AllocError>
    ensures { OnOk result (out.new.items ≡ out.old.items ++ part_rows parts.now) }
{
    for part in parts {
        add_part(alloc, out, part)?;
    }
    Ok(())
}

/// Adds the row of a part of a line.
fn add_part(alloc: Global, out: &mut Vec<u8>, part: &Part) -> Result<(), AllocError>
    ensures { OnOk result (out.new.items ≡ out.old.items ++ part_row part.now) }
{
    out.extend_from_slice(b"part")?;
    add_field(out, part.category.as_str().as_bytes())?;
    add_field(out, part.memo.as_str().as_bytes())?;
    add_amount(alloc, out, Some(part.amount))?;
    out.push(b'\n')?;
    Ok(())
}

/// Adds a field behind a bar.
fn add_field(out: &mut Vec<u8>, text: &[u8]) -> Result<(), AllocError>
    ensures { OnOk result (out.new.items ≡ out.old.items ++ field text.now) }
{
    out.extend_from_slice(b" | ")?;
    out.extend_from_slice(text)
}

/// Adds an amount in smallest units behind a bar.
fn add_amount(alloc: Global, out: &mut Vec<u8>, amount: Option<i64>) -> Result<(), AllocError>
    ensures { OnOk result (out.new.items ≡ out.old.items ++ field (amount_or_none amount)) }
{
    match amount {
        Some(amount) => add_field(out, format!(in alloc; "{amount}")?.as_bytes()),
        None => add_field(out, b"-"),
    }
}

/// Whether the balances tie, in words.
fn ties(ties: Option<bool>) -> &'static [u8]
    ensures { result.now ≡ ties_or_none ties }
{
    match ties {
        Some(true) => b"ties".as_slice(),
        Some(false) => b"does not tie".as_slice(),
        None => b"-".as_slice(),
    }
}

/// Adds how many statements there are, and how many lines they have together.
pub fn add_counts(
    alloc: Global,
    out: &mut Vec<u8>,
    statements: &[Statement],
) -> Result<(), AllocError>
    ensures { OnOk result (out.new.items ≡ out.old.items ++ counts statements.now) }
{
    let count = statements.len();
    let lines = count_lines(statements);
    let text = format!(in alloc; "{count} statements, {lines} lines\n")?;
    out.extend_from_slice(text.as_bytes())
}

/// How many lines the statements have together.
fn count_lines(statements: &[Statement]) -> u64
    ensures { result ≡ count_of_lines statements.now }
{
    let mut lines = 0u64;
    for statement in statements {
        lines = lines.saturating_add(statement.lines.len() as u64);
    }
    lines
}
