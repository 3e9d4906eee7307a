ghost use Rattle.std.specs.Prelude.{◌≡◌};
ghost use Rattle.book_statement.specs.declared.read_error.ReadError.TheVariants.{Fault};
ghost use Rattle.book_statement.specs.Checks.{Gives, unless_fault};
ghost use Rattle.mt940_read.specs.Steps.{no_statement};

use crate::statements::Statements;
use book_commodity::Many;
use book_statement::{Bad, ReadError, Statement, StatementFault};

/// The statements of a file that is sound, or `NoStatement` where there is none.
pub fn answer(done: Statements) -> Result<Many<Statement>, ReadError>
    ensures { Gives (unless_fault (no_statement done) done) result }
{
    if done.is_empty() {
        return Err(fault(0, Bad::NoStatement));
    }
    Ok(done.into_many())
}

/// What is wrong at a line.
pub fn fault(line: u64, bad: Bad) -> ReadError
    ensures { result ≡ Fault (record { line = line; bad = bad }) }
{
    ReadError::Fault(StatementFault { line, bad })
}
