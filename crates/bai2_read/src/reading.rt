ghost use Rattle.std.specs.Prelude.{IfOk};
ghost use Rattle.book_statement.specs.Checks.{Gives};
ghost use Rattle.book_statement.specs.Texts.{lines_of};
ghost use Rattle.bai2_read.specs.Lines.{records_of};
ghost use Rattle.bai2_read.specs.Reading.{reading};
ghost use Rattle.bai2_read.specs.TreeRules.{HasTree, ReadsTrees};

use crate::reader::Reader;
use book_commodity::{Commodities, Many, Text};
use book_statement::{ReadError, Statement, next_line};
use std::alloc::Global;

/// The statements of a BAI2 file, one for each account. Amounts are in smallest units of the statement's currency.
/// A file is read exactly where its records are those of a tree that keeps the rules of BAI2. `Fault` for any other
/// file: the first line at which a check fails, and what is wrong there. `OutOfMemory` where memory runs out; also
/// where a sum passes 128 bits or a count 64 bits, which takes a file of more than 2^60 bytes.
pub fn read_bai2(
    alloc: Global,
    text: &Text,
    known: &Commodities,
) -> Result<Many<Statement>, ReadError>
    ensures exact { Gives (reading known.now.entries text.now) result }
    ensures tree { IfOk result (λ said. HasTree known.now.entries (records_of (lines_of text.now)) said) }
    ensures every_tree { ReadsTrees known.now.entries (records_of (lines_of text.now)) result }
{
    let mut reader = Reader::new(alloc);
    let mut rest = text.as_str();
    let mut lines = 0u64;
    while !rest.is_empty() {
        let (line, behind) = next_line(rest);
        lines += 1;
        reader.take(alloc, known, lines, line)?;
        rest = behind;
    }
    reader.end(alloc, known, lines)
}
