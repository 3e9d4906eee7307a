ghost use Rattle.book_commodity.specs.Table.{value_of};
ghost use Rattle.book_statement.specs.Checks.{Gives};
ghost use Rattle.book_step.specs.Importing.{said, said_in};

use crate::present::Present;
use bai2_read::read_bai2;
use book_command::Format;
use book_commodity::{Many, Text};
use book_statement::{ReadError, Statement};
use mt940_read::read_mt940;
use qif_read::{DateOrder, read_qif};

/// What the text of a file says in the format, where the book's currencies are those that it may be in: its statements,
/// or its first fault. It says nothing where the currency that is given with the format is not in the book.
pub(crate) fn read_file(
    present: &Present,
    format: Format,
    text: &Text,
) -> Result<Many<Statement>, ReadError>
    ensures { Gives (said present.now.book.commodities text.now format) result }
{
    let known = &present.plain.commodities;
    match format {
        Format::Mt940 => read_mt940(present.alloc, text, known),
        Format::Bai2 => read_bai2(present.alloc, text, known),
        Format::QifMonthFirst { currency } => {
            read_in(present, DateOrder::MonthDay, text, currency)
        }
        Format::QifDayFirst { currency } => read_in(present, DateOrder::DayMonth, text, currency),
    }
}

/// What the text of a QIF file says in the commodity of this number; nothing where the book has none.
fn read_in(
    present: &Present,
    order: DateOrder,
    text: &Text,
    currency: u64,
) -> Result<Many<Statement>, ReadError>
    ensures { Gives (said_in order text.now (value_of currency present.now.book.commodities)) result }
{
    match present.plain.commodities.find(currency) {
        Some(commodity) => read_qif(present.alloc, text, commodity, order),
        None => Ok(Many::new(present.alloc)),
    }
}
