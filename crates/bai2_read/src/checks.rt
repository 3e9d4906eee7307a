ghost use Rattle.std.specs.Prelude.{◌≡◌, ◌<◌, ◌^◌, ◌∷◌, []};
ghost use Rattle.book_statement.specs.Checks.{Tells, first_fault};
ghost use Rattle.bai2_read.specs.Kept.{said_in, sums_in};
ghost use Rattle.bai2_read.specs.Kinds.{may_follow};
ghost use Rattle.bai2_read.specs.Reading.{account_checks, checks, count_check, count_checks, detail_checks};
ghost use Rattle.bai2_read.specs.Reading.{end_place, file_checks, group_checks, has_counts, own_checks};
ghost use Rattle.bai2_read.specs.Reading.{record_place, trailer_checks};

use crate::amounts::{count, is_amount, is_count, is_total, total};
use crate::context::Context;
use crate::details::{detail_amount, funds_part, is_type};
use crate::fields::field;
use crate::funds::{funds_date, funds_form};
use crate::kind::Kind;
use crate::pending::Pending;
use crate::statements::currency_with;
use crate::summaries::{have_amounts, have_dates, have_forms};
use crate::tally::Tally;
use book_commodity::Commodities;
use book_statement::{
    Bad, CountOf, Level, MAX_LINES, MAX_STATEMENTS, StatementFault, fraction_of, short_date,
};

/// Whether a record may stand behind one of another kind.
fn may_follow(before: Kind, kind: Kind) -> bool
    ensures { result ≡ may_follow before kind }
{
    match kind {
        Kind::FileHeader => matches!(before, Kind::Blank),
        Kind::GroupHeader => matches!(before, Kind::FileHeader | Kind::GroupTrailer),
        Kind::AccountHeader | Kind::GroupTrailer => {
            matches!(before, Kind::GroupHeader | Kind::AccountTrailer)
        }
        Kind::Detail | Kind::AccountTrailer => {
            matches!(before, Kind::AccountHeader | Kind::Detail)
        }
        Kind::FileTrailer => matches!(before, Kind::GroupTrailer),
        Kind::NoRecord => true,
        Kind::Blank | Kind::Continuation | Kind::Unknown => false,
    }
}

/// A file's header is of version 2.
#[tactic(auto, unfolding(crate::specs::Reading::file_checks))]
fn check_file(body: &[u8]) -> Result<(), Bad>
    ensures { Tells (file_checks body.now) tt result }
{
    if field(body, 7) != b"2".as_slice() {
        return Err(Bad::Version);
    }
    Ok(())
}

/// A group's header has the status 1 and an as-of date.
#[tactic(auto, unfolding(crate::specs::Reading::group_checks))]
fn check_group(body: &[u8]) -> Result<(), Bad>
    ensures { Tells (group_checks body.now) tt result }
{
    if field(body, 2) != b"1".as_slice() {
        return Err(Bad::GroupStatus);
    }
    if short_date(field(body, 3)).is_none() {
        return Err(Bad::DateForm);
    }
    Ok(())
}

/// An account's header has an account and items of the right form, a known currency, and fewer than 1,000 statements
/// before it.
#[tactic(auto, unfolding(crate::specs::Reading::account_checks))]
fn check_account(known: &Commodities, before: &Context, body: &str) -> Result<(), Bad>
    ensures { Tells (account_checks known.now.entries (said_in before.now) body.now) tt result }
{
    let bytes = body.as_bytes();
    if field(bytes, 0).is_empty() || !have_forms(bytes) {
        return Err(Bad::FieldForm);
    }
    if !have_dates(bytes) {
        return Err(Bad::DateForm);
    }
    if !have_amounts(bytes) {
        return Err(Bad::AmountForm);
    }
    let currency = currency_with(before.currency.as_str(), body);
    if fraction_of(currency.as_bytes(), known).is_none() {
        return Err(Bad::UnknownCurrency);
    }
    if before.statements.len() as u64 >= MAX_STATEMENTS {
        return Err(Bad::TooMany);
    }
    Ok(())
}

/// A detail has a type, a funds type and an amount of the right form, and fewer than 10,000 lines before its own.
#[tactic(auto, unfolding(crate::specs::Reading::detail_checks))]
fn check_detail(before: &Context, body: &[u8]) -> Result<(), Bad>
    ensures { Tells (detail_checks (said_in before.now) body.now) tt result }
{
    let funds = funds_part(body);
    if !is_type(field(body, 0)) || !funds_form(funds) {
        return Err(Bad::FieldForm);
    }
    if !funds_date(funds) {
        return Err(Bad::DateForm);
    }
    if !is_amount(field(body, 1)) {
        return Err(Bad::AmountForm);
    }
    if before.lines.len() as u64 >= MAX_LINES && detail_amount(body).is_some() {
        return Err(Bad::TooMany);
    }
    Ok(())
}

/// A trailer has counts and a control total of the right form.
fn has_counts(level: Level, body: &[u8]) -> bool
    ensures { result ≡ has_counts level body.now }
{
    match level {
        Level::Account => is_count(field(body, 1)),
        Level::Group | Level::File => is_count(field(body, 1)) && is_count(field(body, 2)),
    }
}

/// A count says what was counted.
fn check_count(what: CountOf, text: &[u8], reckoned: u128) -> Result<(), Bad>
    requires { reckoned < 2 ^ 65 }
    ensures { Tells (count_check what text.now reckoned ∷ []) tt result }
{
    let said = count(text);
    if said as u128 != reckoned {
        return Err(Bad::Count {
            what,
            said: said as i128,
            reckoned: reckoned as i128,
        });
    }
    Ok(())
}

/// The counts of a trailer, of parts and then of records, say what was counted; the trailer has `own` lines.
fn check_counts(level: Level, sums: Tally, own: u64, body: &[u8]) -> Result<(), Bad>
    ensures { Tells (count_checks level (sums_in sums) own body.now) tt result }
{
    let records = sums.records as u128 + own as u128;
    let parts = sums.parts as u128;
    match level {
        Level::Account => check_count(CountOf::AccountRecords, field(body, 1), records),
        Level::Group => {
            check_count(CountOf::GroupAccounts, field(body, 1), parts)?;
            check_count(CountOf::GroupRecords, field(body, 2), records)
        }
        Level::File => {
            check_count(CountOf::FileGroups, field(body, 1), parts)?;
            check_count(CountOf::FileRecords, field(body, 2), records)
        }
    }
}

/// A trailer has the right form, and its control total and counts are those of what it closes.
#[tactic(auto, unfolding(crate::specs::Reading::trailer_checks))]
fn check_trailer(level: Level, sums: Tally, own: u64, body: &[u8]) -> Result<(), Bad>
    ensures { Tells (trailer_checks level (sums_in sums) own body.now) tt result }
{
    if !has_counts(level, body) {
        return Err(Bad::FieldForm);
    }
    let said_text = field(body, 0);
    if !is_total(said_text) {
        return Err(Bad::AmountForm);
    }
    let said = total(said_text) as i128;
    if said != sums.total {
        return Err(Bad::ControlTotal {
            level,
            said,
            reckoned: sums.total,
        });
    }
    check_counts(level, sums, own, body)
}

/// What is checked of a record by itself and against the records before it.
fn check_own(known: &Commodities, before: &Context, entry: &Pending) -> Result<(), Bad>
    ensures { Tells (own_checks known.now.entries (said_in before.now) entry.now.kind entry.now.lines entry.now.body) tt
        result }
{
    let body = entry.body().as_bytes();
    let own = entry.lines();
    match entry.kind() {
        Kind::FileHeader => check_file(body),
        Kind::GroupHeader => check_group(body),
        Kind::AccountHeader => check_account(known, before, entry.body()),
        Kind::Detail => check_detail(before, body),
        Kind::AccountTrailer => check_trailer(Level::Account, before.of_account, own, body),
        Kind::GroupTrailer => check_trailer(Level::Group, before.of_group, own, body),
        Kind::FileTrailer => check_trailer(Level::File, before.of_file, own, body),
        Kind::NoRecord => Err(Bad::FieldForm),
        Kind::Blank | Kind::Continuation | Kind::Unknown => Ok(()),
    }
}

/// The first check that fails at a record: that it may stand there, and then its own.
#[tactic(auto, unfolding(crate::specs::Reading::checks))]
fn check(known: &Commodities, before: &Context, entry: &Pending) -> Result<(), Bad>
    ensures { Tells (checks known.now.entries (said_in before.now) entry.now) tt result }
{
    if !may_follow(before.place, entry.kind()) {
        return Err(Bad::RecordOrder);
    }
    check_own(known, before, entry)
}

/// The fault at a record, where one of its checks fails.
#[tactic(auto, unfolding(crate::specs::Reading::record_place))]
pub fn fault_at(known: &Commodities, before: &Context, entry: &Pending) -> Option<StatementFault>
    ensures { result ≡ first_fault (record_place known.now.entries (said_in before.now) entry.now ∷ []) }
{
    if before.place == Kind::Blank && entry.kind() != Kind::FileHeader {
        return Some(StatementFault {
            line: 0,
            bad: Bad::NoStatement,
        });
    }
    match check(known, before, entry) {
        Ok(()) => None,
        Err(bad) => Some(StatementFault {
            line: entry.line(),
            bad,
        }),
    }
}

/// The fault at the end of a file of so many lines, behind a record of this kind: its trailer is missing.
#[tactic(auto, unfolding(crate::specs::Reading::end_place))]
pub fn fault_at_end(lines: u64, last: Kind) -> Option<StatementFault>
    ensures { result ≡ first_fault (end_place lines last ∷ []) }
{
    match last {
        Kind::Blank => Some(StatementFault {
            line: 0,
            bad: Bad::NoStatement,
        }),
        Kind::FileTrailer => None,
        _ => Some(StatementFault {
            line: lines,
            bad: Bad::CutOff,
        }),
    }
}
