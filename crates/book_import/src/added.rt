ghost use Rattle.std.specs.Prelude.{◌≡◌, ◌++◌, map, IfOk, OnOk};
ghost use Rattle.book_import.specs.Edits.{edits_of, line_edits, statement_edits};

use book_commodity::{Many, OutOfMemory};
use book_statement::{Held, Line};
use book_undo::{Edit, Thing};
use std::alloc::Global;

/// What an import adds to a book: statements and lines under their numbers, both by rising numbers; how many lines of
/// the file were there before; and the next number after those that were drawn.
#[derive(Drop)]
pub struct Additions {
    pub statements: Many<(u64, Held)>,
    pub lines: Many<(u64, Line)>,
    pub seen: u64,
    pub next: u64,
}

impl Additions {
    /// The numbers of the statements.
    pub fn statement_numbers(&self, alloc: Global) -> Result<Many<u64>, OutOfMemory>
        ensures { IfOk result (λ numbers. numbers ≡ map (λ entry. entry.0) self.now.statements) }
    {
        numbers_of(alloc, self.statements.as_slice())
    }

    /// The numbers of the lines.
    pub fn line_numbers(&self, alloc: Global) -> Result<Many<u64>, OutOfMemory>
        ensures { IfOk result (λ numbers. numbers ≡ map (λ entry. entry.0) self.now.lines) }
    {
        numbers_of(alloc, self.lines.as_slice())
    }

    /// The edits that put what is added into a book, by rising keys: first the statements, then the lines.
    pub fn into_edits(self, alloc: Global) -> Result<Many<Edit>, OutOfMemory>
        ensures { IfOk result (λ edits. edits ≡ edits_of self) }
    {
        let mut edits = Many::new(alloc);
        put_statements(&mut edits, self.statements)?;
        put_lines(&mut edits, self.lines)?;
        Ok(edits)
    }
}

/// The numbers of the entries.
fn numbers_of<T>(alloc: Global, entries: &[(u64, T)]) -> Result<Many<u64>, OutOfMemory>
    ensures { IfOk result (λ numbers. numbers ≡ map (λ entry. entry.0) entries.now) }
{
    let mut numbers = Many::new(alloc);
    for (number, _) in entries {
        numbers.push(*number)?;
    }
    Ok(numbers)
}

/// Adds the edits that put the statements.
fn put_statements(edits: &mut Many<Edit>, statements: Many<(u64, Held)>) -> Result<(), OutOfMemory>
    ensures { OnOk result (edits.new ≡ edits.old ++ statement_edits statements) }
{
    for (number, statement) in statements.into_vec() {
        edits.push(Edit::Put(number, Thing::Held(statement)))?;
    }
    Ok(())
}

/// Adds the edits that put the lines.
fn put_lines(edits: &mut Many<Edit>, lines: Many<(u64, Line)>) -> Result<(), OutOfMemory>
    ensures { OnOk result (edits.new ≡ edits.old ++ line_edits lines) }
{
    for (number, line) in lines.into_vec() {
        edits.push(Edit::Put(number, Thing::Line(line)))?;
    }
    Ok(())
}
