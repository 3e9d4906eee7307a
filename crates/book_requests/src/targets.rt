ghost use Rattle.std.specs.Prelude.{◌≡◌, codes};
ghost use Rattle.book_command.specs.declared.command.What.TheVariants.{Report as WhatReport};
ghost use Rattle.book_json.specs.Forms.{day_named};
ghost use Rattle.book_numerals.specs.Numerals.{number_of};
ghost use Rattle.book_requests.specs.Reading.{IsMissing, Reads, asks_what};
ghost use Rattle.book_requests.specs.Requests.{HasAsked, asked_of_account, asked_of_day, asked_of_days};
ghost use Rattle.book_requests.specs.Requests.{asked_of_status};
ghost use Rattle.book_wire.specs.Asked.{Asks};

use book_command::{Command, Report, What, WireError};
use book_commodity::{Day, Text};
use book_numerals::number_of;
use std::alloc::Global;

/// A command for whatever version the book has.
fn command(what: What) -> Command
    ensures { result ≡ asks_what what }
{
    Command { at: None, what }
}

/// A command that asks for a report.
fn reporting(report: Report) -> Command
    ensures { result ≡ asks_what (WhatReport report) }
{
    command(What::Report(report))
}

/// The fault of a parameter that is of another form.
fn not_command(alloc: Global, name: &str) -> WireError
    ensures { IsMissing name.now result }
{
    match String::from_str(alloc, name) {
        Ok(field) => WireError::NotCommand {
            field: Text::of(field),
        },
        Err(_) => WireError::OutOfMemory,
    }
}

/// The day that a parameter names.
/// NotCommand: it names none.
fn day_of(alloc: Global, name: &str, text: &str) -> Result<Day, WireError>
    ensures { Reads (day_named text.now) name.now result }
{
    match Day::of_text(text.as_bytes()) {
        Some(day) => Ok(day),
        None => Err(not_command(alloc, name)),
    }
}

/// The account that a parameter names by its number.
/// NotCommand: it is no numeral of a number below 2^62.
fn account_of(alloc: Global, text: &str) -> Result<u64, WireError>
    ensures { Reads (number_of text.now) (codes "account") result }
{
    match number_of(text) {
        Some(account) => Ok(account),
        None => Err(not_command(alloc, "account")),
    }
}

/// What the target of the book's state asks.
pub(crate) fn status() -> Command
    ensures { asked_of_status ≡ Asks result }
{
    command(What::Status)
}

/// What the target of a trial balance asks.
pub(crate) fn trial(alloc: Global, day: &str) -> Result<Command, WireError>
    ensures { HasAsked (asked_of_day (codes "trial") day.now) result }
{
    let day = day_of(alloc, "day", day)?;
    Ok(reporting(Report::Trial { day, csv: false }))
}

/// What the target of a balance sheet asks.
pub(crate) fn sheet(alloc: Global, day: &str) -> Result<Command, WireError>
    ensures { HasAsked (asked_of_day (codes "sheet") day.now) result }
{
    let day = day_of(alloc, "day", day)?;
    Ok(reporting(Report::Sheet { day, csv: false }))
}

/// What the target of income and expenses asks.
pub(crate) fn income(alloc: Global, from: &str, to: &str) -> Result<Command, WireError>
    ensures { HasAsked (asked_of_days from.now to.now) result }
{
    let from = day_of(alloc, "from", from)?;
    let to = day_of(alloc, "to", to)?;
    Ok(reporting(Report::Income {
        from,
        to,
        csv: false,
    }))
}

/// What the target of a register asks.
pub(crate) fn register(alloc: Global, account: &str) -> Result<Command, WireError>
    ensures { HasAsked (asked_of_account (codes "register") account.now) result }
{
    let account = account_of(alloc, account)?;
    Ok(reporting(Report::Register {
        account,
        from: None,
        to: None,
        csv: false,
    }))
}

/// What the target of lots asks.
pub(crate) fn lots(alloc: Global, account: &str) -> Result<Command, WireError>
    ensures { HasAsked (asked_of_account (codes "lots") account.now) result }
{
    let account = account_of(alloc, account)?;
    Ok(reporting(Report::Lots {
        account,
        csv: false,
    }))
}
