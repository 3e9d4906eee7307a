ghost use Rattle.std.specs.Prelude.{◌≡◌, ◌++◌, ◌∷◌, [], OnOk, length, unwrap_or, pos, ◌+ℤ◌, ◌-ℤ◌, ◌≤ℤ◌, ◌-◌, ◌^◌};
ghost use Rattle.book_statement.specs.Lists.{on_last};
ghost use Rattle.mt940_read.specs.LineField.{add_text};
ghost use Rattle.mt940_read.specs.Totals.{total_of};

use book_commodity::OutOfMemory;
use book_statement::{StatementLine, add_piece};
use std::alloc::Global;
use std::marker::Model;

/// The lines of a message.
#[derive(Drop)]
pub struct Lines {
    items: Vec<StatementLine>,
}

impl Model for Lines {
    ghost use Rattle.std.specs.Prelude.{List};
    ghost use Rattle.book_statement.specs.declared.statement_line.StatementLine.{StatementLine};

    ghost Value = { List StatementLine };

    ghost view = { λ l. l.items.items };
}

impl Lines {
    /// No lines.
    pub fn new(alloc: Global) -> Lines
        ensures { result ≡ [] }
    {
        Lines {
            items: Vec::new(alloc),
        }
    }

    /// How many lines there are.
    pub fn len(&self) -> usize
        ensures { result ≡ length self.now }
    {
        self.items.len()
    }

    /// The balance that the lines make of an opening balance; no opening balance counts as 0.
    pub fn from_opening(&self, opening: Option<i64>) -> i128
        ensures { result ≡ unwrap_or opening (pos 0) +ℤ total_of self.now }
    {
        opening.unwrap_or(0) as i128 + total_of(self.items.as_slice())
    }

    /// Adds a line at the end.
    pub fn push(&mut self, line: StatementLine) -> Result<(), OutOfMemory>
        ensures { OnOk result (self.new ≡ self.old ++ line ∷ []) }
    {
        self.items.push(line)?;
        Ok(())
    }

    /// Joins a piece to the text of the last line; nothing where there is none.
    pub fn add_text(&mut self, alloc: Global, piece: &str) -> Result<(), OutOfMemory>
        ensures { OnOk result (self.new ≡ on_last (add_text piece.now) self.old) }
    {
        let Some(mut line) = self.items.pop() else {
            return Ok(());
        };
        add_piece(alloc, &mut line.text, piece)?;
        self.push(line)
    }

    /// The lines alone.
    pub fn into_vec(self) -> Vec<StatementLine>
        ensures { result.items ≡ self }
    {
        let Lines { items } = self;
        items
    }
}

/// The sum of the amounts of lines.
fn total_of(lines: &[StatementLine]) -> i128
    ensures value { result ≡ total_of lines.now }
    ensures low { (pos 0 -ℤ pos (2 ^ 127 - 2 ^ 63)) ≤ℤ result }
    ensures high { result ≤ℤ pos (2 ^ 127 - 2 ^ 63) }
{
    let mut sum = 0i128;
    for line in lines {
        sum += i128::from(line.amount);
    }
    sum
}
