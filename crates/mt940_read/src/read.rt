ghost use Rattle.book_statement.specs.Checks.{Gives};
ghost use Rattle.book_statement.specs.Currencies.{HaveFractions};
ghost use Rattle.mt940_read.specs.Reading.{reading};

use crate::reader::Reader;
use book_commodity::{Commodities, Many, Text};
use book_statement::{ReadError, Statement, next_line};
use std::alloc::Global;

/// The statements of a text in MT940 (SWIFT, customer statement message), in the order of the text; pages of one
/// statement are joined. `known` are the commodities of the book, whose currencies alone are read. Amounts are in
/// smallest units of the statement's currency. `Fault` for a text that breaks a rule of the format: the first line at
/// which a check fails, and the first check that fails there; `NoStatement`, at line 0, where no line begins a message.
/// `OutOfMemory` where memory runs out. The rules are those of `reading` in `specs/Reading.antt`.
pub fn read_mt940(
    alloc: Global,
    text: &Text,
    known: &Commodities,
) -> Result<Many<Statement>, ReadError>
    requires { HaveFractions known.now.entries }
    ensures exact { Gives (reading known.now.entries text.now) result }
{
    let mut reader = Reader::new(alloc);
    let mut rest = text.as_str();
    let mut count = 0;
    while !rest.is_empty() {
        let (line, behind) = next_line(rest);
        match reader.take(alloc, known, count, line) {
            Ok(()) => {}
            Err(error) => return Err(error),
        }
        count += 1;
        rest = behind;
    }
    reader.finish(alloc, count)
}
