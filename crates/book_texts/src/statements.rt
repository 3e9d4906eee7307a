ghost use Rattle.std.specs.Prelude.{◌≡◌, IfOk};
ghost use Rattle.book_texts.specs.Fields.{members_of, with_all};
ghost use Rattle.book_texts.specs.Statements.{body_members, held_data, held_members, held-plain, import, line_add};
ghost use Rattle.book_texts.specs.Statements.{line_data, line_members, line-plain, lines, matched_split, part_data};
ghost use Rattle.book_texts.specs.Statements.{part-plain, state_word, statements};
ghost use Rattle.book_texts.specs.Statements.{match_auto, pair_data, pair-plain};

use crate::fields::Fields;
use crate::shown::Shown;
use book_command::{HeldShown, LineShown, Word};
use book_commodity::Many;
use book_match::Matched;
use book_statement::{LineState, Part, StatementLine};
use serde_json::Value;
use std::alloc::{AllocError, Global};

/// The answer of `import`.
pub(crate) fn import(
    alloc: Global,
    statements: &Many<u64>,
    lines: &Many<u64>,
    seen: u64,
    version: u64,
) -> Result<Fields, AllocError>
    ensures { IfOk result (λ fields. members_of fields ≡ import statements.now lines.now seen version) }
{
    let fields = Fields::answered(alloc, Word::Import, version)?;
    let fields = fields.with("lines", lines)?;
    let fields = fields.with("seen", &seen)?;
    Ok(fields.with("statements", statements)?)
}

/// The answer of `line_add`.
pub(crate) fn line_add(
    alloc: Global,
    transaction: u64,
    splits: &Many<u64>,
    version: u64,
) -> Result<Fields, AllocError>
    ensures { IfOk result (λ fields. members_of fields ≡ line_add transaction splits.now version) }
{
    let fields = Fields::answered(alloc, Word::LineAdd, version)?;
    let fields = fields.with("splits", splits)?;
    Ok(fields.with("transaction", &transaction)?)
}

/// The answer of `match_auto`.
pub(crate) fn match_auto(
    alloc: Global,
    pairs: &Many<Matched>,
    version: u64,
) -> Result<Fields, AllocError>
    ensures { IfOk result (λ fields. members_of fields ≡ match_auto pairs.now version) }
{
    let fields = Fields::answered(alloc, Word::MatchAuto, version)?;
    Ok(fields.with("pairs", pairs)?)
}

/// The answer of `lines`.
pub(crate) fn listed_lines(
    alloc: Global,
    shown: &Many<LineShown>,
    version: u64,
) -> Result<Fields, AllocError>
    ensures { IfOk result (λ fields. members_of fields ≡ lines shown.now version) }
{
    let fields = Fields::answered(alloc, Word::Lines, version)?;
    Ok(fields.with("lines", shown)?)
}

/// The answer of `statements`.
pub(crate) fn listed_statements(
    alloc: Global,
    shown: &Many<HeldShown>,
    version: u64,
) -> Result<Fields, AllocError>
    ensures { IfOk result (λ fields. members_of fields ≡ statements shown.now version) }
{
    let fields = Fields::answered(alloc, Word::Statements, version)?;
    Ok(fields.with("statements", shown)?)
}

/// A line with the split that it takes, as their two numbers.
impl Shown for Matched {
    ghost shown = { pair_data };

    ghost plain = { pair-plain };

    fn value(&self, alloc: Global) -> Result<Value, AllocError> {
        let mut numbers = Vec::new(alloc);
        numbers.push(Value::from(self.line))?;
        numbers.push(Value::from(self.split))?;
        Ok(Value::Array(numbers))
    }
}

/// A line of a statement, by its members.
impl Shown for LineShown {
    ghost shown = { line_data };

    ghost plain = { line-plain };

    fn value(&self, alloc: Global) -> Result<Value, AllocError> {
        Ok(line_fields(alloc, self)?.into_value())
    }
}

/// A part of a line as its category, its memo and its amount.
impl Shown for Part {
    ghost shown = { part_data };

    ghost plain = { part-plain };

    fn value(&self, alloc: Global) -> Result<Value, AllocError> {
        let mut part = Vec::new(alloc);
        part.push(self.category.value(alloc)?)?;
        part.push(self.memo.value(alloc)?)?;
        part.push(self.amount.value(alloc)?)?;
        Ok(Value::Array(part))
    }
}

/// A statement, by its members.
impl Shown for HeldShown {
    ghost shown = { held_data };

    ghost plain = { held-plain };

    fn value(&self, alloc: Global) -> Result<Value, AllocError> {
        Ok(held_fields(alloc, self)?.into_value())
    }
}

/// The members of a line.
fn line_fields(alloc: Global, shown: &LineShown) -> Result<Fields, AllocError>
    ensures { IfOk result (λ fields. members_of fields ≡ line_members shown.now) }
{
    let line = &shown.line;
    let fields = Fields::new(alloc).with("id", &shown.id)?;
    let fields = fields.with("ordinal", &line.ordinal)?;
    let fields = fields.with("split", &matched_split(line.state))?;
    let fields = fields.with_text("state", state_word(line.state))?;
    let fields = fields.with("statement", &line.statement)?;
    with_body(fields, &line.body)
}

/// The members, and those of what the file says of a line.
fn with_body(fields: Fields, body: &StatementLine) -> Result<Fields, AllocError>
    ensures { IfOk result (λ all. members_of all ≡ with_all (members_of fields) (body_members body.now)) }
{
    let fields = fields.with("amount", &body.amount)?;
    let fields = fields.with("category", &body.category)?;
    let fields = fields.with("day", &body.day)?;
    let fields = fields.with("kind", &body.kind)?;
    let fields = fields.with("parts", &body.parts)?;
    let fields = fields.with("ref_bank", &body.ref_bank)?;
    let fields = fields.with("ref_own", &body.ref_own)?;
    let fields = fields.with("text", &body.text)?;
    Ok(fields.with("value_day", &body.value_day)?)
}

/// The word for what became of a line.
fn state_word(state: LineState) -> &'static str
    ensures { result.now ≡ state_word state }
{
    match state {
        LineState::Open => "open",
        LineState::Matched(_) => "matched",
        LineState::Dismissed => "dismissed",
    }
}

/// The split that a line is matched with.
fn matched_split(state: LineState) -> Option<u64>
    ensures { result ≡ matched_split state }
{
    match state {
        LineState::Matched(split) => Some(split),
        _ => None,
    }
}

/// The members of a statement.
fn held_fields(alloc: Global, shown: &HeldShown) -> Result<Fields, AllocError>
    ensures { IfOk result (λ fields. members_of fields ≡ held_members shown.now) }
{
    let held = &shown.held;
    let fields = Fields::new(alloc).with("account_text", &held.account_text)?;
    let fields = fields.with("closing", &held.closing)?;
    let fields = fields.with("day", &held.day)?;
    let fields = fields.with("id", &shown.id)?;
    let fields = fields.with("number", &held.number)?;
    let fields = fields.with("opening", &held.opening)?;
    Ok(fields.with("ties", &held.ties)?)
}
