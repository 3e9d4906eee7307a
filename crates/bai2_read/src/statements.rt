ghost use Rattle.std.specs.Prelude.{◌≡◌, ◌*◌, ◌^◌, ◌≤ℤ◌, ◌+ℤ◌, pos, neg_ℤ, IfOk, length};
ghost use Rattle.std.specs.Ordering.{int_eq};
ghost use Rattle.bai2_read.specs.Statements.{currency_with, or_else, statement_with, sum_of_lines, ties_with};

use crate::fields::field_text;
use crate::summaries::{closing, opening};
use crate::texts::copy_of;
use book_commodity::{Day, Many, OutOfMemory, Text};
use book_statement::{Statement, StatementLine};
use std::alloc::Global;

/// The first of two texts that is not empty.
fn or_else<'a>(text: &'a str, otherwise: &'a str) -> &'a str
    ensures { result.now ≡ or_else text.now otherwise.now }
{
    if text.is_empty() { otherwise } else { text }
}

/// The currency of an account: that of its header, else of its group's header, else US dollars.
pub fn currency_with<'a>(currency: &'a str, account: &'a str) -> &'a str
    ensures { result.now ≡ currency_with currency.now account.now }
{
    or_else(field_text(account, 1), or_else(currency, "USD"))
}

/// The sum of the amounts of lines.
fn sum_of_lines(lines: &[StatementLine]) -> i128
    ensures value { result ≡ sum_of_lines lines.now }
    ensures low { neg_ℤ (pos (2 ^ 63 * length lines.now)) ≤ℤ result }
    ensures high { result ≤ℤ pos (2 ^ 63 * length lines.now) }
{
    let mut sum = 0i128;
    for line in lines {
        sum += i128::from(line.amount);
    }
    sum
}

/// Whether an opening balance and lines sum to a closing balance.
fn do_tie(opens: i64, closes: i64, lines: &[StatementLine]) -> bool
    ensures { result ≡ int_eq (opens +ℤ sum_of_lines lines.now) closes }
{
    is_equal(i128::from(opens) + sum_of_lines(lines), i128::from(closes))
}

fn is_equal(a: i128, b: i128) -> bool
    ensures { result ≡ int_eq a b }
{
    a == b
}

/// Whether opening balance and lines sum to the closing balance; `None` where a balance is not given.
fn ties_with(opens: Option<i64>, closes: Option<i64>, lines: &[StatementLine]) -> Option<bool>
    ensures { result ≡ ties_with opens closes lines.now }
{
    let opens = opens?;
    let closes = closes?;
    Some(do_tie(opens, closes, lines))
}

/// The statement of an account, by the fields of its header and its lines.
#[tactic(auto, unfolding(crate::specs::Statements::statement_with))]
pub fn statement_with(
    alloc: Global,
    number: &Text,
    day: Day,
    currency: &str,
    account: &str,
    lines: Many<StatementLine>,
) -> Result<Statement, OutOfMemory>
    ensures { IfOk result (λ statement. statement ≡ statement_with number.now day currency.now account.now lines) }
{
    let opens = opening(account.as_bytes());
    let closes = closing(account.as_bytes());
    Ok(Statement {
        account_text: copy_of(alloc, field_text(account, 0))?,
        number: number.copy()?,
        currency: copy_of(alloc, currency_with(currency, account))?,
        opening: opens,
        closing: closes,
        day,
        ties: ties_with(opens, closes, lines.as_slice()),
        lines,
    })
}
