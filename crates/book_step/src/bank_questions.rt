ghost use Rattle.std.specs.Prelude.{◌≡◌, ◌++◌, [], ◌∷◌, IfOk};
ghost use Rattle.book_commodity.specs.Rules.{ReportsFirst};
ghost use Rattle.book_undo.specs.Book.{book_of};
ghost use Rattle.book_command.specs.declared.answer.Answer.TheVariants.{Lines as LinesAnswer};
ghost use Rattle.book_command.specs.declared.answer.Answer.TheVariants.{Statements as StatementsAnswer};
ghost use Rattle.book_step.specs.BankLines.{account_asked, lines_of, statements_of};
ghost use Rattle.book_step.specs.Schedules.{Finds};

use crate::{Answer, HeldShown, LineShown, Refusal, Rule};
use book_commodity::{Kind, Many, OutOfMemory};
use book_statement::{Held, Line};
use book_undo::Plain;
use std::alloc::Global;

/// The answer that shows the lines of the account's bank statements, by number. Broken where the book has no account of
/// this number; out of memory.
pub fn lines_answer(alloc: Global, plain: &Plain, account: u64) -> Result<Answer, Refusal>
    ensures { Finds (account_asked (book_of plain.now) account)
        (λ answer. answer ≡ LinesAnswer (lines_of account (book_of plain.now).lines)) result }
{
    check_account(plain, account)?;
    let lines = lines_of(alloc, account, plain.lines.as_slice())?;
    Ok(Answer::Lines { lines })
}

/// The answer that shows the account's bank statements, by number. Broken where the book has no account of this number;
/// out of memory.
pub fn statements_answer(alloc: Global, plain: &Plain, account: u64) -> Result<Answer, Refusal>
    ensures { Finds (account_asked (book_of plain.now) account)
        (λ answer. answer ≡ StatementsAnswer (statements_of account (book_of plain.now).statements)) result }
{
    check_account(plain, account)?;
    let statements = statements_of(alloc, account, plain.statements.as_slice())?;
    Ok(Answer::Statements { statements })
}

/// The account of this number is one of the book's.
pub(crate) fn check_account(plain: &Plain, number: u64) -> Result<(), Rule>
    ensures { ReportsFirst (account_asked (book_of plain.now) number) result }
{
    match plain.accounts.find(number) {
        Some(_) => Ok(()),
        None => Err(Rule::Unknown {
            kind: Kind::Account,
            id: number,
        }),
    }
}

/// Copies of the lines of the account, each with its number, in order.
fn lines_of(
    alloc: Global,
    account: u64,
    lines: &[(u64, Line)],
) -> Result<Many<LineShown>, OutOfMemory>
    ensures { IfOk result (λ shown. shown ≡ lines_of account lines.now) }
{
    let mut shown = Many::new(alloc);
    for (number, line) in lines {
        add_line(&mut shown, account, *number, line)?;
    }
    Ok(shown)
}

/// Adds a copy of the line with its number where it is one of the account.
fn add_line(
    shown: &mut Many<LineShown>,
    account: u64,
    number: u64,
    line: &Line,
) -> Result<(), OutOfMemory>
    ensures { IfOk result (λ _. shown.new ≡ shown.old ++ lines_of account ((number, line.now) ∷ [])) }
{
    if line.account != account {
        return Ok(());
    }
    shown.push(LineShown {
        id: number,
        line: line.copy()?,
    })?;
    Ok(())
}

/// Copies of the statements of the account, each with its number, in order.
fn statements_of(
    alloc: Global,
    account: u64,
    statements: &[(u64, Held)],
) -> Result<Many<HeldShown>, OutOfMemory>
    ensures { IfOk result (λ shown. shown ≡ statements_of account statements.now) }
{
    let mut shown = Many::new(alloc);
    for (number, held) in statements {
        add_statement(&mut shown, account, *number, held)?;
    }
    Ok(shown)
}

/// Adds a copy of the statement with its number where it is one of the account.
fn add_statement(
    shown: &mut Many<HeldShown>,
    account: u64,
    number: u64,
    held: &Held,
) -> Result<(), OutOfMemory>
    ensures { IfOk result (λ _. shown.new ≡ shown.old ++ statements_of account ((number, held.now) ∷ [])) }
{
    if held.account != account {
        return Ok(());
    }
    shown.push(HeldShown {
        id: number,
        held: held.copy()?,
    })?;
    Ok(())
}
