ghost use Rattle.std.specs.Prelude.{◌≡◌, [], ◌∷◌, None, IfErr, IfOk};
ghost use Rattle.book_commodity.specs.Rules.{ReportsFirst, first_broken};
ghost use Rattle.book_ledger.specs.Ledger.{Keeps};
ghost use Rattle.book_report_answers.specs.LotsAsked.{account_of_lots, is_security_in, lots_asked};
ghost use Rattle.book_report_answers.specs.Reports.{IsAskRefusal, basis, day_range, first_day as first_of, form_of};
ghost use Rattle.book_report_answers.specs.Reports.{last_day as last_of, report_answer, report_rules};
ghost use Rattle.book_sound.specs.Soundness.{IsSoundBook};
ghost use Rattle.book_step.specs.Accounts.{unknown_account};
ghost use Rattle.book_undo.specs.Book.{book_of};

use book_accounts::Tree;
use book_command::{Answer, Refusal, Report, Rule, What};
use book_commodity::{Day, Kind, OutOfMemory};
use book_ledger::Registers;
use book_reports::{Form, View, gains, income, lots_text, register_text, sheet, trial};
use book_undo::Plain;
use std::alloc::Global;

/// The number of the first day of all, 1900-01-01.
const FIRST: i32 = -25_567;

/// The number of the last day of all, 2199-12-31.
const LAST: i32 = 84_005;

/// The answer to a question for a report on a sound book whose registers are kept. Refused by the first of the report's
/// rules that is broken, or out of memory.
pub fn report_answer(
    alloc: Global,
    plain: &Plain,
    registers: &Registers,
    report: &Report,
) -> Result<Answer, Refusal>
    requires sound { IsSoundBook (book_of plain.now) }
    requires kept { Keeps registers.now.entries (book_of plain.now) }
    ensures rules { IfOk result (λ answer. first_broken (report_rules (book_of plain.now) report.now) ≡ None) }
    ensures answer { IfOk result (λ answer. answer ≡ report_answer (book_of plain.now) report.now) }
    ensures refused { IfErr result (IsAskRefusal (report_rules (book_of plain.now) report.now)) }
{
    if let Err(rule) = check_report(plain, report) {
        return Err(Refusal::Broken(rule));
    }
    match made(alloc, &View::of(plain, registers), report) {
        Ok(answer) => Ok(answer),
        Err(OutOfMemory) => Err(Refusal::OutOfMemory),
    }
}

/// The rules of the report.
fn check_report(plain: &Plain, report: &Report) -> Result<(), Rule>
    ensures { ReportsFirst (report_rules (book_of plain.now) report.now) result }
{
    match report {
        Report::Register {
            account,
            from,
            to,
            csv: _,
        } => {
            check_account(&plain.accounts, *account)?;
            check_days(first_day(*from), last_day(*to))
        }
        Report::Trial { day: _, csv: _ } => Ok(()),
        Report::Sheet { day: _, csv: _ } => Ok(()),
        Report::Income { from, to, csv: _ } => check_days(*from, *to),
        Report::Lots { account, csv: _ } => check_security(&plain.accounts, *account),
        Report::Gains { account, from, to } => {
            check_security(&plain.accounts, *account)?;
            check_days(*from, *to)
        }
    }
}

/// The answer with the text of the report; for gains with their sum.
fn made(alloc: Global, view: &View, report: &Report) -> Result<Answer, OutOfMemory>
    requires { first_broken (report_rules view.now report.now) ≡ None }
    ensures { IfOk result (λ answer. answer ≡ report_answer view.now report.now) }
{
    Ok(match report {
        Report::Register {
            account,
            from,
            to,
            csv,
        } => {
            let (first, last) = (first_day(*from), last_day(*to));
            let text = register_text(alloc, view, *account, first, last, form(*csv))?;
            Answer::Register { text }
        }
        Report::Trial { day, csv } => Answer::Trial {
            text: trial(alloc, view, *day, form(*csv))?,
        },
        Report::Sheet { day, csv } => Answer::Sheet {
            text: sheet(alloc, view, *day, form(*csv))?,
        },
        Report::Lots { account, csv } => Answer::Lots {
            text: lots_text(alloc, view, *account, form(*csv))?,
        },
        Report::Gains { account, from, to } => Answer::Gains {
            gain: gains(alloc, view, *account, *from, *to)?,
        },
        Report::Income { from, to, csv } => Answer::Income {
            text: income(alloc, view, *from, *to, form(*csv))?,
        },
    })
}

/// The account of this number is one of the book's.
fn check_account(accounts: &Tree, number: u64) -> Result<(), Rule>
    ensures { ReportsFirst (unknown_account accounts.now.entries number ∷ []) result }
{
    match accounts.find(number) {
        Some(_) => Ok(()),
        None => Err(Rule::Unknown {
            kind: Kind::Account,
            id: number,
        }),
    }
}

/// The account of this number is a security account of the book.
fn check_security(accounts: &Tree, number: u64) -> Result<(), Rule>
    ensures { ReportsFirst (unknown_account accounts.now.entries number ∷ basis accounts.now.entries number ∷ [])
        result }
{
    match accounts.find(number) {
        Some(account) if account.kind.is_security() => Ok(()),
        Some(_) => Err(Rule::Basis { account: number }),
        None => Err(Rule::Unknown {
            kind: Kind::Account,
            id: number,
        }),
    }
}

/// Whether the account of this number is a security account of the book.
pub fn is_security(accounts: &Tree, number: u64) -> bool
    ensures { result ≡ is_security_in accounts.now.entries number }
{
    match accounts.find(number) {
        Some(account) => account.kind.is_security(),
        None => false,
    }
}

/// The security account of the book on whose lots a report is asked, if there is one.
pub fn lots_asked(accounts: &Tree, what: &What) -> Option<u64>
    ensures { result ≡ lots_asked accounts.now.entries what.now }
{
    let What::Report(report) = what else {
        return None;
    };
    let account = account_of_lots(report)?;
    if !is_security(accounts, account) {
        return None;
    }
    Some(account)
}

/// The account of whose lots the report is made, if it is one on lots.
fn account_of_lots(report: &Report) -> Option<u64>
    ensures { result ≡ account_of_lots report.now }
{
    match report {
        Report::Lots { account, csv: _ } => Some(*account),
        Report::Gains {
            account,
            from: _,
            to: _,
        } => Some(*account),
        _ => None,
    }
}

/// The period has a day.
fn check_days(first: Day, last: Day) -> Result<(), Rule>
    ensures { ReportsFirst (day_range first last ∷ []) result }
{
    if last.number() < first.number() {
        return Err(Rule::DayRange);
    }
    Ok(())
}

/// The first day of a period.
fn first_day(given: Option<Day>) -> Day
    ensures { result ≡ first_of given }
{
    let Some(day) = given.or(Day::of_number(FIRST)) else {
        unreachable!()
    };
    day
}

/// The last day of a period.
fn last_day(given: Option<Day>) -> Day
    ensures { result ≡ last_of given }
{
    let Some(day) = given.or(Day::of_number(LAST)) else {
        unreachable!()
    };
    day
}

/// How a report is laid out.
fn form(csv: bool) -> Form
    ensures { result ≡ form_of csv }
{
    if csv { Form::Csv } else { Form::Plain }
}
