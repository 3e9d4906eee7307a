ghost use Rattle.std.specs.Prelude.{◌≡◌, ◌==◌, ◌&&◌, Some, nat_eq};
ghost use Rattle.std.specs.Option.{option_copied, option_eq};
ghost use Rattle.book_commodity.specs.Rules.{stands_before};
ghost use Rattle.book_statement.specs.Keys.{same_text};
ghost use Rattle.book_sound.specs.LineRules.{fits_in_state, fits_line, has_same_key, line_rules, shares_split};
ghost use Rattle.book_sound.specs.LineRules.{is_over_limit, matched_split, split_among, split_at};
ghost use Rattle.book_broken.specs.Broken.{broken_in};
ghost use Rattle.book_broken.specs.Names.{line_names};

use crate::BrokenRule;
use book_accounts::Tree;
use book_commodity::Table;
use book_splits::{Mark, Split, Txn, Txns};
use book_statement::{Held, LARGEST_AMOUNT, Line, LineState};

/// The rule that the line under the number breaks, if a line is there.
pub(crate) fn in_lines(
    accounts: &Tree,
    statements: &Table<Held>,
    transactions: &Txns,
    lines: &Table<Line>,
    number: u64,
) -> Option<BrokenRule>
    ensures { result ≡ broken_in
        (line_rules accounts.now.entries statements.now.entries transactions.now.entries lines.now.entries)
        (λ _. line_names) number lines.now.entries }
{
    let Some(line) = lines.find(number) else {
        return None;
    };
    if accounts.find(line.account).is_none() {
        return Some(BrokenRule::UnknownAccount);
    }
    if statements.find(line.statement).is_none() {
        return Some(BrokenRule::UnknownStatement);
    }
    if is_over_limit(line.body.amount) {
        return Some(BrokenRule::Amount);
    }
    if has_same_before(lines.as_slice(), number, line) {
        return Some(BrokenRule::SameKey);
    }
    if !fits_in_state(transactions.as_slice(), line) {
        return Some(BrokenRule::MatchedSplit);
    }
    if shares_before(lines.as_slice(), number, line) {
        return Some(BrokenRule::MatchedTwice);
    }
    Some(BrokenRule::TooMany)
}

/// Whether the amount of a line is above 10^12 in size.
fn is_over_limit(amount: i64) -> bool
    ensures { result ≡ is_over_limit amount }
{
    amount.unsigned_abs() > LARGEST_AMOUNT
}

/// Whether a line with a smaller number has the same key.
fn has_same_before(lines: &[(u64, Line)], number: u64, line: &Line) -> bool
    ensures { result ≡ stands_before (has_same_key line.now) number lines.now }
{
    let mut entries = lines.iter();
    entries.any(|(other, thing)| *other < number && has_same_key(line, thing))
}

/// Whether another line has the same key.
fn has_same_key(line: &Line, other: &Line) -> bool
    ensures { result ≡ has_same_key line.now other.now }
{
    other.account == line.account
        && other.body.day.number() == line.body.day.number()
        && other.body.amount == line.body.amount
        && has_same_texts(line, other)
}

/// Whether another line has the same type, the same references, the same text and the same ordinal.
fn has_same_texts(line: &Line, other: &Line) -> bool
    ensures { result ≡ (same_text other.now.body.kind line.now.body.kind
        && (same_text other.now.body.ref_own line.now.body.ref_own
        && (same_text other.now.body.ref_bank line.now.body.ref_bank
        && (same_text other.now.body.text line.now.body.text && (other.now.ordinal == line.now.ordinal))))) }
{
    other.body.kind.as_str() == line.body.kind.as_str()
        && other.body.ref_own.as_str() == line.body.ref_own.as_str()
        && other.body.ref_bank.as_str() == line.body.ref_bank.as_str()
        && other.body.text.as_str() == line.body.text.as_str()
        && other.ordinal == line.ordinal
}

/// Whether a split of the book is what the line says, if the line is matched with one.
fn fits_in_state(transactions: &[(u64, Txn)], line: &Line) -> bool
    ensures { result ≡ fits_in_state transactions.now line.now line.now.state }
{
    match line.state {
        LineState::Open | LineState::Dismissed => true,
        LineState::Matched(split) => fits_split(transactions, split, line),
    }
}

/// Whether the split with the number is there, of the line's account and with its amount as quantity, and not voided.
fn fits_split(transactions: &[(u64, Txn)], number: u64, line: &Line) -> bool
    ensures { result ≡ fits_line line.now (split_at number transactions.now) }
{
    for (_, transaction) in transactions {
        if let Some(split) = split_among(transaction.splits.as_slice(), number) {
            return fits_line(line, split);
        }
    }
    false
}

/// Whether the split is of the line's account and with its amount as quantity, and not voided.
fn fits_line(line: &Line, split: &Split) -> bool
    ensures { result ≡ fits_line line.now (Some split.now) }
{
    split.account == line.account
        && split.quantity == line.body.amount
        && split.mark != Mark::Voided
}

/// The first of the splits that has the number.
fn split_among(splits: &[Split], number: u64) -> Option<&Split>
    ensures { option_copied result ≡ split_among number splits.now }
{
    splits.iter().find(|split| split.id == number)
}

/// Whether a line with a smaller number is matched with the same split, if this one is matched.
fn shares_before(lines: &[(u64, Line)], number: u64, line: &Line) -> bool
    ensures { result ≡ stands_before (shares_split line.now) number lines.now }
{
    let mut entries = lines.iter();
    entries.any(|(other, thing)| *other < number && shares_split(line, thing))
}

/// Whether another line is matched with the same split, if this one is matched.
fn shares_split(line: &Line, other: &Line) -> bool
    ensures { result ≡ shares_split line.now other.now }
{
    match line.state {
        LineState::Open | LineState::Dismissed => false,
        LineState::Matched(split) => is_matched_with(other, split),
    }
}

/// Whether the line is matched with the split.
fn is_matched_with(line: &Line, split: u64) -> bool
    ensures { result ≡ option_eq nat_eq (matched_split line.now.state) (Some split) }
{
    match line.state {
        LineState::Open | LineState::Dismissed => false,
        LineState::Matched(other) => other == split,
    }
}
