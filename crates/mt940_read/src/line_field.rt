ghost use Rattle.std.specs.Prelude.{ℕ, List, ◌≡◌, ◌+◌, ◌-◌, ◌≤◌, [], IfOk, IsTrue, None, length, take, drop};
ghost use Rattle.std.specs.List.{list_all};
ghost use Rattle.book_statement.specs.Checks.{Tells, first_bad};
ghost use Rattle.mt940_read.specs.Amounts.{amount_checks, is_amount};
ghost use Rattle.mt940_read.specs.LineField.{
  amount_len,
  amount_part,
  amount_place,
  entry_len,
  entry_part,
  entry_place,
  funds_len,
  funds_place,
  is_kind,
  is_kind_byte,
  is_taken,
  kind_part,
  kind_place,
  line,
  line_amount,
  line_days,
  line_form,
  mark_len,
  mark_part,
  mark_place,
  value_part,
};

use crate::amount::{amount, is_amount};
use crate::entry_date::entry_date;
use crate::fraction::Fraction;
use crate::slashes::parted_by_slashes;
use crate::texts::{ascii_text, text_of};
use book_commodity::{Day, Many, OutOfMemory, Text};
use book_statement::{
    Bad, StatementLine, after_chars, first_chars, has_digits, short_date, text_behind,
};
use std::alloc::Global;

/// Where the parts of a line begin: the entry date, the mark, the funds code, the amount and the type.
#[derive(Clone, Copy)]
pub struct Places {
    entry: usize,
    mark: usize,
    funds: usize,
    amount: usize,
    kind: usize,
}

/// Where the parts of a line begin.
fn places_of(text: &[u8]) -> Places
    ensures entry { result.entry ≡ entry_place text.now }
    ensures mark { result.mark ≡ mark_place text.now }
    ensures funds { result.funds ≡ funds_place text.now }
    ensures amount { result.amount ≡ amount_place text.now }
    ensures kind { result.kind ≡ kind_place text.now }
    ensures order { (result.entry ≤ result.mark) × (result.mark ≤ result.funds) × (result.funds ≤ result.amount)
        × (result.amount ≤ result.kind) × (result.kind ≤ length text.now) }
{
    let entry = entry_place(text);
    let mark = mark_place(text, entry);
    let funds = funds_place(text, mark);
    let amount = amount_place(text, funds);
    let kind = kind_place(text, amount);
    Places {
        entry,
        mark,
        funds,
        amount,
        kind,
    }
}

/// Where the entry date begins.
#[tactic(auto, unfolding(crate::specs::LineField::entry_place))]
fn entry_place(text: &[u8]) -> usize
    ensures value { result ≡ entry_place text.now }
    ensures within { result ≤ length text.now }
{
    text.len() - after_chars(text, 6).len()
}

/// Where the mark begins.
#[tactic(auto, unfolding(crate::specs::LineField::mark_place))]
fn mark_place(text: &[u8], entry: usize) -> usize
    requires place { entry ≡ entry_place text.now }
    requires within { entry ≤ length text.now }
    ensures value { result ≡ mark_place text.now }
    ensures order { (entry ≤ result) × (result ≤ length text.now) }
{
    entry + entry_len(&text[entry..])
}

/// Where the funds code begins.
#[tactic(auto, unfolding(crate::specs::LineField::funds_place))]
fn funds_place(text: &[u8], mark: usize) -> usize
    requires place { mark ≡ mark_place text.now }
    requires within { mark ≤ length text.now }
    ensures value { result ≡ funds_place text.now }
    ensures order { (mark ≤ result) × (result ≤ length text.now) }
{
    mark + mark_len(&text[mark..])
}

/// Where the amount begins.
#[tactic(auto, unfolding(crate::specs::LineField::amount_place))]
fn amount_place(text: &[u8], funds: usize) -> usize
    requires place { funds ≡ funds_place text.now }
    requires within { funds ≤ length text.now }
    ensures value { result ≡ amount_place text.now }
    ensures order { (funds ≤ result) × (result ≤ length text.now) }
{
    funds + funds_len(&text[funds..])
}

/// Where the type begins.
#[tactic(auto, unfolding(crate::specs::LineField::kind_place))]
fn kind_place(text: &[u8], amount: usize) -> usize
    requires place { amount ≡ amount_place text.now }
    requires within { amount ≤ length text.now }
    ensures value { result ≡ kind_place text.now }
    ensures order { (amount ≤ result) × (result ≤ length text.now) }
{
    amount + amount_len(&text[amount..])
}

/// How long the entry date is: four digits, or nothing.
fn entry_len(text: &[u8]) -> usize
    ensures value { result ≡ entry_len text.now }
    ensures within { result ≤ length text.now }
{
    if text.len() >= 4 && has_digits(&text[..4], 4, 4) {
        4
    } else {
        0
    }
}

/// How long the mark is; 0 where there is none.
fn mark_len(text: &[u8]) -> usize
    ensures value { result ≡ mark_len text.now }
    ensures within { result ≤ length text.now }
{
    if text.starts_with(b"RC") || text.starts_with(b"RD") {
        2
    } else if text.starts_with(b"C") || text.starts_with(b"D") {
        1
    } else {
        0
    }
}

/// How long the funds code is: a capital letter, or nothing.
fn funds_len(text: &[u8]) -> usize
    ensures value { result ≡ funds_len text.now }
    ensures within { result ≤ length text.now }
{
    if !text.is_empty() && text[0].is_ascii_uppercase() {
        1
    } else {
        0
    }
}

/// How long the amount is: the longest run of digits and commas.
fn amount_len(text: &[u8]) -> usize
    ensures value { result ≡ amount_len text.now }
    ensures within { result ≤ length text.now }
{
    for (place, byte) in text.iter().enumerate() {
        if !(byte.is_ascii_digit() || *byte == b',') {
            return place;
        }
    }
    text.len()
}

/// The value date, six characters.
#[tactic(auto, unfolding(crate::specs::LineField::entry_place))]
fn value_part(text: &[u8]) -> &[u8]
    ensures { result.now ≡ value_part text.now }
{
    first_chars(text, 6)
}

/// The parts of a line behind its value date, and where its type begins.
#[derive(Clone, Copy)]
struct Parts<'a> {
    entry: &'a [u8],
    mark: &'a [u8],
    amount: &'a [u8],
    kind: &'a [u8],
    kind_place: usize,
}

/// The parts of a line; the entry date and the mark are empty where the line has none.
fn parts_of(text: &[u8]) -> Parts<'_>
    ensures entry { result.entry.now ≡ entry_part text.now }
    ensures mark { result.mark.now ≡ mark_part text.now }
    ensures amount { result.amount.now ≡ amount_part text.now }
    ensures kind { result.kind.now ≡ kind_part text.now }
    ensures place { result.kind_place ≡ kind_place text.now }
    ensures within { result.kind_place ≤ length text.now }
{
    let places = places_of(text);
    Parts {
        entry: &text[places.entry..places.mark],
        mark: &text[places.mark..places.funds],
        amount: &text[places.amount..places.kind],
        kind: first_four(&text[places.kind..]),
        kind_place: places.kind,
    }
}

/// The first four characters of a text, or all of a shorter one.
fn first_four(text: &[u8]) -> &[u8]
    ensures { result.now ≡ take 4 text.now }
{
    if text.len() < 4 { text } else { &text[..4] }
}

/// Whether a text is a type: a capital letter and three capital letters or digits.
fn is_kind(text: &[u8]) -> bool
    ensures { result ≡ is_kind text.now }
{
    text.len() == 4 && text[0].is_ascii_uppercase() && are_kind_bytes(text)
}

/// Whether a text has only capital letters and digits.
fn are_kind_bytes(text: &[u8]) -> bool
    ensures { result ≡ list_all is_kind_byte text.now }
{
    text.iter()
        .all(|byte| byte.is_ascii_uppercase() || byte.is_ascii_digit())
}

/// The day of a line with this entry date, and its value day; `None` where one of its dates is broken.
#[tactic(auto, unfolding(crate::specs::LineField::line_days, crate::specs::LineField::line_day))]
fn days(text: &[u8], entry: &[u8]) -> Option<(Day, Day)>
    requires { entry.now ≡ entry_part text.now }
    ensures { result ≡ line_days text.now }
{
    let date = value_part(text);
    let value = short_date(date)?;
    if entry.is_empty() {
        return Some((value, value));
    }
    let day = entry_date(date, value, entry)?;
    Some((day, value))
}

/// The form of a line: `FieldForm`, then `DateForm`, then `AmountForm`.
#[tactic(auto, unfolding(crate::specs::LineField::line_form))]
pub fn check_line_form(text: &[u8]) -> Result<(), Bad>
    ensures { Tells (line_form text.now) tt result }
{
    let parts = parts_of(text);
    if parts.mark.is_empty() || !is_kind(parts.kind) {
        return Err(Bad::FieldForm);
    }
    if days(text, parts.entry).is_none() {
        return Err(Bad::DateForm);
    }
    if !is_amount(parts.amount) {
        return Err(Bad::AmountForm);
    }
    Ok(())
}

/// Whether a line with this mark takes from the account: a debit, or the reversal of a credit.
fn takes(mark: &[u8]) -> bool
    ensures { (text : List ℕ) → mark.now ≡ mark_part text → result ≡ is_taken text }
{
    mark == b"D".as_slice() || mark == b"RC".as_slice()
}

/// The amount of a line in smallest units, negative where it takes from the account.
#[tactic(auto, unfolding(crate::specs::LineField::line_amount, crate::specs::LineField::line_form))]
pub fn line_amount(text: &[u8], fraction: Fraction) -> Result<i64, Bad>
    requires { first_bad (line_form text.now) ≡ None }
    ensures { Tells (amount_checks fraction (amount_part text.now)) (line_amount fraction text.now) result }
{
    let parts = parts_of(text);
    amount(parts.amount, fraction, takes(parts.mark))
}

/// The line that a field gives, with this amount, and with no text as yet.
pub fn line(alloc: Global, text: &str, amount: i64) -> Result<StatementLine, OutOfMemory>
    requires { first_bad (line_form text.now) ≡ None }
    ensures { IfOk result (λ given. (fraction : ℕ) → amount ≡ line_amount fraction text.now
        → given ≡ line fraction text.now []) }
{
    let bytes = text.as_bytes();
    let parts = parts_of(bytes);
    let Some(days) = days(bytes, parts.entry) else {
        unreachable!()
    };
    let kind = ascii_text(alloc, parts.kind)?;
    let references = text_behind(text, parts.kind_place + 3);
    let parted = parted_by_slashes(references);
    Ok(StatementLine {
        day: days.0,
        value_day: days.1,
        amount,
        kind,
        ref_own: text_of(alloc, parted.0)?,
        ref_bank: text_of(alloc, parted.1)?,
        text: Text::new(alloc),
        category: Text::new(alloc),
        parts: Many::new(alloc),
    })
}
