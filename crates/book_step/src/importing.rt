ghost use Rattle.std.specs.Prelude.{◌≡◌, [], ◌∷◌, None, IfOk, List, Option};
ghost use Rattle.book_commodity.specs.Rules.{ReportsFirst, first_broken};
ghost use Rattle.book_command.specs.declared.rule.Rule.{Rule as BrokenRule};
ghost use Rattle.book_import.specs.Laws.{HasDrawn};
ghost use Rattle.book_step.specs.Importing.{adds_nothing, currency_given, given_rules, import_answer, import_edit};
ghost use Rattle.book_step.specs.Importing.{import_file, import_of, import_statements, room_rules};
ghost use Rattle.book_step.specs.Importing.{too_many_lines, too_many_statements, whole_edit, wrong_given_currency};
ghost use Rattle.book_step.specs.Outcome.{StepsTo};

use crate::accounts::{check_given, check_given_commodity};
use crate::bound_statements::bind_all;
use crate::commodities::is_currency;
use crate::present::Present;
use crate::statement_files::read_file;
use crate::{Answer, Refusal, Rule, Step};
use book_command::Format;
use book_commodity::{Commodities, Counted, Many, OutOfMemory, Text};
use book_import::{Additions, import_statements as additions_of};
use book_statement::{ReadError, Statement};
use book_undo::Edit;
use std::alloc::Global;

const MAX_LINES: usize = 1_000_000;

const MAX_STATEMENTS: usize = 100_000;

/// The statements of the file that are not in the book, and their lines that are not, are added. They go to the account
/// that is given, or else to those that their account texts stand for. It is one change of the book.
pub(crate) fn import_file(
    present: &Present,
    format: Format,
    text: Text,
    given: Option<u64>,
) -> Result<Step, Refusal>
    ensures { StepsTo present.now (import_file present.now format text given) result }
{
    check_asked(present, format, given)?;
    match read_file(present, format, &text) {
        Ok(statements) => import_all(present, given, statements.as_slice()),
        Err(ReadError::Fault(fault)) => Err(Refusal::Broken(Rule::BadStatement { fault })),
        Err(ReadError::OutOfMemory) => Err(Refusal::OutOfMemory),
    }
}

/// What is given is in the book: the account, and the commodity, which is a currency.
fn check_asked(present: &Present, format: Format, given: Option<u64>) -> Result<(), Rule>
    ensures { ReportsFirst (given_rules present.now.book format given) result }
{
    let commodities = &present.plain.commodities;
    let currency = currency_given(format);
    check_given(present, given)?;
    check_given_commodity(commodities, currency)?;
    check_given_currency(commodities, currency)
}

/// The commodity that is given with the format.
fn currency_given(format: Format) -> Option<u64>
    ensures { result ≡ currency_given format }
{
    match format {
        Format::Mt940 | Format::Bai2 => None,
        Format::QifMonthFirst { currency } | Format::QifDayFirst { currency } => Some(currency),
    }
}

/// The commodity of this number is a currency, where a number is given.
fn check_given_currency(commodities: &Commodities, number: Option<u64>) -> Result<(), Rule>
    ensures { ReportsFirst (wrong_given_currency commodities.now.entries number ∷ []) result }
{
    match number {
        Some(number) if !is_currency(commodities, number) => {
            Err(Rule::WrongCurrency { commodity: number })
        }
        _ => Ok(()),
    }
}

/// The statements of a file are added, behind some rules that are kept.
fn import_all(
    present: &Present,
    given: Option<u64>,
    statements: &[Statement],
) -> Result<Step, Refusal>
    ensures { (rules : List (Option BrokenRule)) → first_broken rules ≡ None
        → StepsTo present.now (import_statements present.now rules given statements.now) result }
{
    let file = match bind_all(present, given, statements) {
        Ok(file) => file,
        Err(refusal) => return Err(refusal),
    };
    let plain = present.plain;
    let added = additions_of(
        present.alloc,
        &plain.statements,
        &plain.lines,
        file.as_slice(),
        present.next,
    )?;
    add(present, added)
}

/// What an import adds stands in the book, behind some rules that are kept.
fn add(present: &Present, added: Additions) -> Result<Step, Refusal>
    requires { HasDrawn present.now.next added }
    ensures { (rules : List (Option BrokenRule)) → first_broken rules ≡ None
        → StepsTo present.now (import_of present.now rules added) result }
{
    check_room(present, &added)?;
    let answer = import_answer(present.alloc, &added)?;
    if adds_nothing(&added) {
        return Ok(Step::leaving(present, answer));
    }
    let drawn = added.statements.len() as u64 + added.lines.len() as u64;
    let edit = import_edit(present.alloc, added)?;
    Step::changing(present, drawn, edit, answer)
}

/// Whether nothing is added.
fn adds_nothing(added: &Additions) -> bool
    ensures { result ≡ adds_nothing added.now }
{
    added.statements.is_empty() && added.lines.is_empty()
}

/// The book has room for what is added.
fn check_room(present: &Present, added: &Additions) -> Result<(), Rule>
    ensures { ReportsFirst (room_rules present.now.book added.now) result }
{
    check_lines(present, added)?;
    check_statements(present, added)
}

/// The book has room for the lines that are added.
fn check_lines(present: &Present, added: &Additions) -> Result<(), Rule>
    ensures { ReportsFirst (too_many_lines present.now.book.lines added.now.lines ∷ []) result }
{
    let room = MAX_LINES - present.plain.lines.len();
    if added.lines.len() > room {
        return Err(Rule::Limit {
            which: Counted::Lines,
            at: MAX_LINES as u64,
        });
    }
    Ok(())
}

/// The book has room for the statements that are added.
fn check_statements(present: &Present, added: &Additions) -> Result<(), Rule>
    ensures { ReportsFirst (too_many_statements present.now.book.statements added.now.statements ∷ []) result }
{
    let room = MAX_STATEMENTS - present.plain.statements.len();
    if added.statements.len() > room {
        return Err(Rule::Limit {
            which: Counted::Statements,
            at: MAX_STATEMENTS as u64,
        });
    }
    Ok(())
}

/// The numbers of what is added, and how many lines of the file were there before.
fn import_answer(alloc: Global, added: &Additions) -> Result<Answer, OutOfMemory>
    ensures { IfOk result (λ answer. answer ≡ import_answer added.now) }
{
    Ok(Answer::Import {
        statements: added.statement_numbers(alloc)?,
        lines: added.line_numbers(alloc)?,
        seen: added.seen,
    })
}

/// The edit that puts what is added: one edit alone, or else the list of all.
fn import_edit(alloc: Global, added: Additions) -> Result<Edit, OutOfMemory>
    ensures { IfOk result (λ edit. edit ≡ import_edit added) }
{
    let edits = added.into_edits(alloc)?;
    Ok(whole_edit(edits))
}

/// One edit alone, or else the list of all.
pub(crate) fn whole_edit(edits: Many<Edit>) -> Edit
    ensures { result ≡ whole_edit edits }
{
    let mut edits = edits.into_vec();
    if edits.len() == 1 {
        if let Some(edit) = edits.pop() {
            return edit;
        }
    }
    Edit::All(Many::of(edits))
}
