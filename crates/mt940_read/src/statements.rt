ghost use Rattle.std.specs.Prelude.{◌≡◌, ◌++◌, ◌∷◌, ◌<◌, ◌≤◌, ◌^◌, [], IfOk, OnOk, IsTrue, ◌↔◌, if◌then◌else◌, length};
ghost use Rattle.book_statement.specs.Lists.{on_last};
ghost use Rattle.mt940_read.specs.Pages.{statement_alone, with_end};
ghost use Rattle.mt940_read.specs.Statements.{last_lines};

use crate::kept::statement_of;
use crate::message::Message;
use book_commodity::{Day, Many, OutOfMemory};
use book_statement::{Statement, StatementLine};
use std::alloc::Global;
use std::marker::Model;

/// The statements of a file, as far as it was read.
#[derive(Drop)]
pub struct Statements {
    items: Vec<Statement>,
}

impl Model for Statements {
    ghost use Rattle.std.specs.Prelude.{List};
    ghost use Rattle.book_statement.specs.declared.statement.Statement.{Statement};

    ghost Value = { List Statement };

    ghost view = { λ s. s.items.items };
}

impl Statements {
    /// No statements.
    pub fn new(alloc: Global) -> Statements
        ensures { result ≡ [] }
    {
        Statements {
            items: Vec::new(alloc),
        }
    }

    /// Whether there is none.
    pub fn is_empty(&self) -> bool
        ensures { IsTrue result ↔ (self.now ≡ []) }
    {
        self.items.is_empty()
    }

    /// How many statements there are.
    pub fn len(&self) -> usize
        ensures { result ≡ length self.now }
    {
        self.items.len()
    }

    /// How many lines the last statement has, 0 where there is no statement.
    pub fn last_lines(&self) -> usize
        ensures { result ≡ last_lines self.now }
    {
        let items = self.items.as_slice();
        if items.is_empty() {
            return 0;
        }
        items[items.len() - 1].lines.len()
    }

    /// Adds a statement at the end.
    fn push(&mut self, statement: Statement) -> Result<(), OutOfMemory>
        ensures { OnOk result (self.new ≡ self.old ++ statement ∷ []) }
    {
        self.items.push(statement)?;
        Ok(())
    }

    /// Puts a page behind the last statement: its closing balance, its day and its lines; nothing where there is no
    /// statement.
    fn add_page(
        &mut self,
        closing: Option<i64>,
        day: Day,
        lines: Vec<StatementLine>,
    ) -> Result<(), OutOfMemory>
        ensures { OnOk result (self.new ≡ on_last (with_end closing day lines.items) self.old) }
    {
        let Some(statement) = self.items.pop() else {
            return Ok(());
        };
        self.items.push(with_end(statement, closing, day, lines)?)?;
        Ok(())
    }

    /// Adds a message with these lines, as a page of the last statement or as a statement of its own.
    pub fn add(
        &mut self,
        joined: bool,
        message: &Message,
        lines: Vec<StatementLine>,
    ) -> Result<(), OutOfMemory>
        ensures { OnOk result (self.new ≡
            (if joined then on_last (with_end message.now.closing message.now.day lines.items) self.old else self.old
            ++ (record (statement_alone message.now) { lines = lines.items }) ∷ [])) }
    {
        if joined {
            return self.add_page(message.closing, message.day, lines);
        }
        self.push(statement_of(message, lines)?)
    }

    /// The statements.
    pub fn into_many(self) -> Many<Statement>
        ensures { result ≡ self }
    {
        let Statements { items } = self;
        Many::of(items)
    }
}

/// A statement with this closing balance and day, and these lines behind its own.
fn with_end(
    mut statement: Statement,
    closing: Option<i64>,
    day: Day,
    mut lines: Vec<StatementLine>,
) -> Result<Statement, OutOfMemory>
    ensures { IfOk result (λ s. s ≡ with_end closing day lines.items statement) }
{
    let Statement {
        account_text,
        number,
        currency,
        opening,
        closing: _,
        day: _,
        ties,
        lines: first,
    } = statement;
    let mut all = first.into_vec();
    all.append(&mut lines)?;
    Ok(Statement {
        account_text,
        number,
        currency,
        opening,
        closing,
        day,
        ties,
        lines: Many::of(all),
    })
}
