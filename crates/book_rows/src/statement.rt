ghost use Rattle.std.specs.Prelude.{◌≡◌, ◌++◌, OnOk};
ghost use Rattle.book_rows.specs.StatementBytes.{IsLineState, line_state_bytes, IsHeld, held_bytes, IsPart};
ghost use Rattle.book_rows.specs.StatementBytes.{part_bytes};
ghost use Rattle.book_rows.specs.StatementBytes.{IsStatementLine, statement_line_bytes, IsLine, line_bytes};
ghost use Rattle.book_rows.specs.StatementBytes.{IsBinding, binding_bytes};
ghost use Rattle.book_rows.specs.StatementBytes.{held_made, part_made, statement_line_made};
ghost use Rattle.book_rows.specs.StatementBytes.{line_made, binding_made, held_rest, IsHeldRest};
ghost use Rattle.book_rows.specs.StatementBytes.{statement_line_rest, IsStatementLineRest};

use crate::Rows;
use book_codec::{DecodeError, Field};
use book_commodity::{Day, Many, OutOfMemory, Text};
use book_statement::{Binding, Held, Line, LineState, Part, StatementLine};
use std::alloc::Global;

/// The state of a line: the byte 1 where it is open; 2 and the split that it is matched with; or 3 where it is
/// dismissed.
impl Field<Rows> for LineState {
    ghost fits = { IsLineState };

    ghost spelling = { line_state_bytes };

    fn spell(&self, out: &mut Vec<u8>) -> Result<(), OutOfMemory> {
        match self {
            LineState::Open => {
                out.push(1)?;
                Ok(())
            }
            LineState::Matched(value) => {
                out.push(2)?;
                Field::<Rows>::spell(value, out)
            }
            LineState::Dismissed => {
                out.push(3)?;
                Ok(())
            }
        }
    }

    fn read(alloc: Global, bytes: &[u8]) -> Result<(LineState, &[u8]), DecodeError> {
        match bytes {
            [1, rest @ ..] => Ok((LineState::Open, rest)),
            [2, rest @ ..] => match <u64 as Field<Rows>>::read(alloc, rest) {
                Ok((value, rest)) => Ok((LineState::Matched(value), rest)),
                Err(error) => Err(error),
            },
            [3, rest @ ..] => Ok((LineState::Dismissed, rest)),
            _ => Err(DecodeError::Bad),
        }
    }
}

/// The fields of a statement, in the order of their bytes.
type HeldFields = (
    u64,
    (
        Text,
        (Text, (Option<i64>, (Option<i64>, (Day, Option<bool>)))),
    ),
);

/// A statement in the book: its account, its account text, its number, its two balances, its day, and whether it ties.
impl Field<Rows> for Held {
    ghost fits = { IsHeld };

    ghost spelling = { held_bytes };

    fn spell(&self, out: &mut Vec<u8>) -> Result<(), OutOfMemory> {
        Field::<Rows>::spell(&self.account, out)?;
        Field::<Rows>::spell(&self.account_text, out)?;
        Field::<Rows>::spell(&self.number, out)?;
        Field::<Rows>::spell(&self.opening, out)?;
        spell_held_rest(self, out)
    }

    fn read(alloc: Global, bytes: &[u8]) -> Result<(Held, &[u8]), DecodeError> {
        let (fields, rest) = match <HeldFields as Field<Rows>>::read(alloc, bytes) {
            Ok(found) => found,
            Err(error) => return Err(error),
        };
        Ok((held_of(fields), rest))
    }
}

/// Writes the bytes of the fields from `closing` on.
fn spell_held_rest(it: &Held, out: &mut Vec<u8>) -> Result<(), OutOfMemory>
    ensures spelled { OnOk result (out.new.items ≡ out.old.items ++ held_rest it.now) }
    ensures fits { OnOk result (IsHeldRest it.now) }
{
    Field::<Rows>::spell(&it.closing, out)?;
    Field::<Rows>::spell(&it.day, out)?;
    Field::<Rows>::spell(&it.ties, out)
}

/// The statement whose fields these are.
fn held_of(fields: HeldFields) -> Held
    ensures { result ≡ held_made fields }
{
    let (account, (account_text, (number, (opening, (closing, (day, ties)))))) = fields;
    Held {
        account,
        account_text,
        number,
        opening,
        closing,
        day,
        ties,
    }
}

/// The fields of a part of a line, in the order of their bytes.
type PartFields = (Text, (Text, i64));

/// A part of a line: its category, its memo and its amount.
impl Field<Rows> for Part {
    ghost fits = { IsPart };

    ghost spelling = { part_bytes };

    fn spell(&self, out: &mut Vec<u8>) -> Result<(), OutOfMemory> {
        Field::<Rows>::spell(&self.category, out)?;
        Field::<Rows>::spell(&self.memo, out)?;
        Field::<Rows>::spell(&self.amount, out)
    }

    fn read(alloc: Global, bytes: &[u8]) -> Result<(Part, &[u8]), DecodeError> {
        let (fields, rest) = match <PartFields as Field<Rows>>::read(alloc, bytes) {
            Ok(found) => found,
            Err(error) => return Err(error),
        };
        Ok((part_of(fields), rest))
    }
}

/// The part whose fields these are.
fn part_of(fields: PartFields) -> Part
    ensures { result ≡ part_made fields }
{
    let (category, (memo, amount)) = fields;
    Part {
        category,
        memo,
        amount,
    }
}

/// The fields of what a line says, in the order of their bytes.
type StatementLineFields = (
    Day,
    (
        Day,
        (i64, (Text, (Text, (Text, (Text, (Text, Many<Part>)))))),
    ),
);

/// What a line says: its two days, its amount, its kind, its two references, its text, its category and its parts.
impl Field<Rows> for StatementLine {
    ghost fits = { IsStatementLine };

    ghost spelling = { statement_line_bytes };

    fn spell(&self, out: &mut Vec<u8>) -> Result<(), OutOfMemory> {
        Field::<Rows>::spell(&self.day, out)?;
        Field::<Rows>::spell(&self.value_day, out)?;
        Field::<Rows>::spell(&self.amount, out)?;
        Field::<Rows>::spell(&self.kind, out)?;
        spell_statement_line_rest(self, out)
    }

    fn read(alloc: Global, bytes: &[u8]) -> Result<(StatementLine, &[u8]), DecodeError> {
        let (fields, rest) = match <StatementLineFields as Field<Rows>>::read(alloc, bytes) {
            Ok(found) => found,
            Err(error) => return Err(error),
        };
        Ok((statement_line_of(fields), rest))
    }
}

/// Writes the bytes of the fields from `ref_own` on.
fn spell_statement_line_rest(it: &StatementLine, out: &mut Vec<u8>) -> Result<(), OutOfMemory>
    ensures spelled { OnOk result (out.new.items ≡ out.old.items ++ statement_line_rest it.now) }
    ensures fits { OnOk result (IsStatementLineRest it.now) }
{
    Field::<Rows>::spell(&it.ref_own, out)?;
    Field::<Rows>::spell(&it.ref_bank, out)?;
    Field::<Rows>::spell(&it.text, out)?;
    Field::<Rows>::spell(&it.category, out)?;
    Field::<Rows>::spell(&it.parts, out)
}

/// The line of a statement file whose fields these are.
fn statement_line_of(fields: StatementLineFields) -> StatementLine
    ensures { result ≡ statement_line_made fields }
{
    let (day, (value_day, (amount, (kind, (ref_own, (ref_bank, (text, (category, parts)))))))) =
        fields;
    StatementLine {
        day,
        value_day,
        amount,
        kind,
        ref_own,
        ref_bank,
        text,
        category,
        parts,
    }
}

/// The fields of a line, in the order of their bytes.
type LineFields = (u64, (u64, (u64, (StatementLine, LineState))));

/// A line: its account, its statement, its ordinal, what it says, and its state.
impl Field<Rows> for Line {
    ghost fits = { IsLine };

    ghost spelling = { line_bytes };

    fn spell(&self, out: &mut Vec<u8>) -> Result<(), OutOfMemory> {
        Field::<Rows>::spell(&self.account, out)?;
        Field::<Rows>::spell(&self.statement, out)?;
        Field::<Rows>::spell(&self.ordinal, out)?;
        Field::<Rows>::spell(&self.body, out)?;
        Field::<Rows>::spell(&self.state, out)
    }

    fn read(alloc: Global, bytes: &[u8]) -> Result<(Line, &[u8]), DecodeError> {
        let (fields, rest) = match <LineFields as Field<Rows>>::read(alloc, bytes) {
            Ok(found) => found,
            Err(error) => return Err(error),
        };
        Ok((line_of(fields), rest))
    }
}

/// The line whose fields these are.
fn line_of(fields: LineFields) -> Line
    ensures { result ≡ line_made fields }
{
    let (account, (statement, (ordinal, (body, state)))) = fields;
    Line {
        account,
        statement,
        ordinal,
        body,
        state,
    }
}

/// The fields of a binding, in the order of their bytes.
type BindingFields = (Text, u64);

/// A binding: its text and its account.
impl Field<Rows> for Binding {
    ghost fits = { IsBinding };

    ghost spelling = { binding_bytes };

    fn spell(&self, out: &mut Vec<u8>) -> Result<(), OutOfMemory> {
        Field::<Rows>::spell(&self.text, out)?;
        Field::<Rows>::spell(&self.account, out)
    }

    fn read(alloc: Global, bytes: &[u8]) -> Result<(Binding, &[u8]), DecodeError> {
        let (fields, rest) = match <BindingFields as Field<Rows>>::read(alloc, bytes) {
            Ok(found) => found,
            Err(error) => return Err(error),
        };
        Ok((binding_of(fields), rest))
    }
}

/// The binding whose fields these are.
fn binding_of(fields: BindingFields) -> Binding
    ensures { result ≡ binding_made fields }
{
    let (text, account) = fields;
    Binding { text, account }
}
