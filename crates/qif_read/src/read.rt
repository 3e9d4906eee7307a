ghost use Rattle.std.specs.Prelude.{◌≡◌};
ghost use Rattle.book_statement.specs.Checks.{Gives};
ghost use Rattle.book_statement.specs.Currencies.{IsFraction};
ghost use Rattle.book_statement.specs.Texts.{lines_of};
ghost use Rattle.qif_read.specs.Qif.{reading, result_of};
ghost use Rattle.qif_read.specs.Tree.{listings_of};

use crate::reader::Reader;
use crate::{DateOrder, Form};
use book_commodity::{Commodity, Many, Text};
use book_statement::{ReadError, Statement, next_line};
use std::alloc::Global;

/// The statements of a QIF file (Quicken's description of QIF), one for each register with an entry, in the order of
/// the file. The file says neither its currency nor which number of a date is the month: both are handed in. Amounts
/// are in smallest units of the currency. `Fault` for a file that breaks a rule of the format: the first line at which
/// a check fails, and the first check that fails there; `NoStatement`, at line 0, where no register has an entry.
/// `OutOfMemory` where memory runs out. The rules are those of `reading` in `specs/Qif.antt`.
#[tactic(auto, unfolding(crate::specs::Qif::reading))]
pub fn read_qif(
    alloc: Global,
    text: &Text,
    currency: &Commodity,
    order: DateOrder,
) -> Result<Many<Statement>, ReadError>
    requires { IsFraction currency.now.fraction }
    ensures exact { Gives (reading currency.now order text.now) result }
{
    let Ok(name) = currency.name.copy() else {
        return Err(ReadError::OutOfMemory);
    };
    let form = Form {
        order,
        fraction: currency.fraction,
        currency: name,
    };
    read_lines(alloc, &form, text.as_str())
}

/// The statements that the lines of a text give, or their fault.
fn read_lines(alloc: Global, form: &Form, text: &str) -> Result<Many<Statement>, ReadError>
    requires { IsFraction form.now.fraction }
    ensures { Gives (result_of form.now (listings_of (lines_of text.now))) result }
{
    let mut reader = Reader::new(alloc);
    let mut rest = text;
    let mut count = 0;
    while !rest.is_empty() {
        let (line, behind) = next_line(rest);
        reader.take(alloc, form, count, line)?;
        rest = behind;
        count += 1;
    }
    reader.finish(alloc, form, count)
}
