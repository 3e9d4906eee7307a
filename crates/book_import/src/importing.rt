ghost use Rattle.std.specs.Prelude.{◌≡◌, ◌+◌, IfOk, ◌++◌, unwrap_or};
ghost use Rattle.book_statement.specs.declared.held.Held.{Held as KeptStatement};
ghost use Rattle.book_import.specs.Import.{imported, number_among, new_line, held_of};
ghost use Rattle.book_import.specs.Import.{with_held, with_line, with_lines, with_statement, with_statements};
ghost use Rattle.book_import.specs.Laws.{AddsKeys, AreNamed, AreNew, AreThere, HasDrawn, count_lines, only_seen};
ghost use Rattle.book_import.specs.Steps.{AreKeysOf, Takes};
ghost use Rattle.book_statement.specs.Keys.{key as key_at, same_text};
ghost use Rattle.book_sound.specs.StatementRules.{is_same_statement};

use crate::known_keys::KnownKeys;
use crate::{Additions, Bound};
use book_commodity::{Many, OutOfMemory, Table, Text};
use book_statement::{Held, Line, LineKey, LineState, StatementLine, keys_of};
use std::alloc::Global;

/// What the import of these statements of a file adds to a book with these statements and lines. Its numbers are drawn
/// from the next one on. It is out of memory where a number would not fit.
pub fn import_statements<'a>(
    alloc: Global,
    statements: &Table<Held>,
    lines: &'a Table<Line>,
    file: &'a [Bound<'a>],
    next: u64,
) -> Result<Additions, OutOfMemory>
    ensures added { IfOk result (λ added. added
        ≡ imported statements.now.entries lines.now.entries file.now next) }
    ensures drawn { IfOk result (HasDrawn next) }
    ensures new { IfOk result (AreNew statements.now.entries lines.now.entries) }
    ensures named { IfOk result (AreNamed statements.now.entries) }
    ensures keys { IfOk result (AddsKeys lines.now.entries file.now) }
    ensures nothing { IfOk result (λ added. AreThere statements.now.entries lines.now.entries file.now
        → added ≡ only_seen (count_lines file.now) next) }
{
    let known = KnownKeys::of(alloc, lines)?;
    let mut importing = Importing {
        alloc,
        known,
        added: Additions {
            statements: Many::new(alloc),
            lines: Many::new(alloc),
            seen: 0,
            next,
        },
    };
    importing.add_statements(statements.as_slice(), file)?;
    Ok(importing.added)
}

/// An import on its way: the keys of the book's lines and of those that were added, and what was added.
#[derive(Drop)]
struct Importing<'a> {
    alloc: Global,
    known: KnownKeys<'a>,
    added: Additions,
}

impl<'a> Importing<'a> {
    /// Adds the statements of a file, in their order.
    fn add_statements(
        &mut self,
        statements: &[(u64, Held)],
        file: &'a [Bound<'a>],
    ) -> Result<(), OutOfMemory>
        ensures { IfOk result (λ _. Takes (λ lines. with_statements statements.now lines file.now) self.old self.new) }
    {
        for bound in file {
            self.add_statement(statements, bound)?;
        }
        Ok(())
    }

    /// Adds a statement, where no equal one is there, and then its lines.
    fn add_statement(
        &mut self,
        statements: &[(u64, Held)],
        bound: &'a Bound<'a>,
    ) -> Result<(), OutOfMemory>
        ensures { IfOk result (λ _. Takes (λ lines. with_statement statements.now lines bound.now) self.old self.new) }
    {
        let keys = keys_of(self.alloc, bound.account, bound.statement)?;
        let number = self.statement_number(statements, bound)?;
        self.add_lines(
            number,
            bound.account,
            keys.as_slice(),
            bound.statement.lines.as_slice(),
        )
    }

    /// The number of the statement, which is added where no equal one is there.
    fn statement_number(
        &mut self,
        statements: &[(u64, Held)],
        bound: &Bound,
    ) -> Result<u64, OutOfMemory>
        ensures number { IfOk result (λ number. number
            ≡ unwrap_or (number_among (held_of bound.now) (statements.now ++ self.old.added.statements))
            self.old.added.next) }
        ensures adds { IfOk result (λ _. Takes (λ lines. with_held
            (number_among (held_of bound.now) (statements.now ++ self.old.added.statements)) (held_of bound.now))
            self.old self.new) }
    {
        let held = bound.held()?;
        if let Some(number) = self.number_there(statements, &held) {
            return Ok(number);
        }
        let number = self.added.next;
        self.added.next = after(number)?;
        self.added.statements.push((number, held))?;
        Ok(number)
    }

    /// The number of the statement that is equal in all fields: one of these, or one that was added.
    #[tactic(auto, using(crate::proofs::StepLemmas::number_append))]
    fn number_there(&self, statements: &[(u64, Held)], held: &Held) -> Option<u64>
        ensures { result ≡ number_among held.now (statements.now ++ self.now.added.statements) }
    {
        match number_among(held, statements) {
            Some(number) => Some(number),
            None => number_among(held, self.added.statements.as_slice()),
        }
    }

    /// Adds the lines of the statement of this number, each with its key, in their order.
    fn add_lines(
        &mut self,
        statement: u64,
        account: u64,
        keys: &[LineKey],
        bodies: &'a [StatementLine],
    ) -> Result<(), OutOfMemory>
        requires { AreKeysOf account keys.now bodies.now }
        ensures { IfOk result (λ _. Takes (λ lines. with_lines lines statement keys.now bodies.now) self.old self.new) }
    {
        for (key, body) in keys.iter().zip(bodies) {
            self.add_line(statement, key, body)?;
        }
        Ok(())
    }

    /// Adds a line of the statement of this number where no line has its key, and counts it as seen where one has.
    fn add_line(
        &mut self,
        statement: u64,
        key: &LineKey,
        body: &'a StatementLine,
    ) -> Result<(), OutOfMemory>
        requires { key.now ≡ key_at key.now.account body.now key.now.ordinal }
        ensures { IfOk result (λ _. Takes (λ lines. with_line lines statement key.now body.now) self.old self.new) }
    {
        if !self.known.insert(key.account, body, key.ordinal)? {
            self.added.seen = after(self.added.seen)?;
            return Ok(());
        }
        let number = self.added.next;
        self.added.next = after(number)?;
        let line = new_line(statement, key, body)?;
        self.added.lines.push((number, line))?;
        Ok(())
    }
}

/// The line that a book holds once it is added.
fn new_line(statement: u64, key: &LineKey, body: &StatementLine) -> Result<Line, OutOfMemory>
    ensures { IfOk result (λ line. line ≡ new_line statement key.now body.now) }
{
    Ok(Line {
        account: key.account,
        statement,
        ordinal: key.ordinal,
        body: body.copy()?,
        state: LineState::Open,
    })
}

/// The number of the first of the statements that is equal to this one in all fields.
fn number_among(statement: &Held, statements: &[(u64, Held)]) -> Option<u64>
    ensures { result ≡ number_among statement.now statements.now }
{
    for (number, other) in statements {
        if is_same_statement(statement, other) {
            return Some(*number);
        }
    }
    None
}

/// Whether the other statement is equal in all fields.
fn is_same_statement(statement: &Held, other: &Held) -> bool
    ensures { result ≡ is_same_statement statement.now other.now }
{
    other.day == statement.day
        && other.account == statement.account
        && is_same_text(&other.account_text, &statement.account_text)
        && is_same_text(&other.number, &statement.number)
        && other.opening == statement.opening
        && other.closing == statement.closing
        && other.ties == statement.ties
}

/// Whether the texts are the same.
fn is_same_text(one: &Text, other: &Text) -> bool
    ensures { result ≡ same_text one.now other.now }
{
    one.as_str() == other.as_str()
}

/// The next number.
fn after(number: u64) -> Result<u64, OutOfMemory>
    ensures { IfOk result (λ next. next ≡ number + 1) }
{
    number.checked_add(1).ok_or(OutOfMemory)
}
