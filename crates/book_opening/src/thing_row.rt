ghost use Rattle.std.specs.Prelude.{◌≡◌, IfOk};
ghost use Rattle.book_rows.specs.Row.{IsRecord, IsWithin};
ghost use Rattle.book_rows.specs.declared.format.RowFormat.TheVariants.{Two};
ghost use Rattle.book_opening.specs.BookRows.{row_of};

use book_codec::write_whole;
use book_commodity::OutOfMemory;
use book_keeper::{Row, RowKey};
use book_rows::{Head, Record, Rows, WRITTEN_FORMAT, kind_byte, write_thing};
use book_undo::Thing;
use std::alloc::Global;

/// The row of a head.
pub(crate) fn head_row(alloc: Global, head: Head) -> Result<Row, OutOfMemory>
    requires { IsWithin head }
    ensures row { IfOk result (λ row. row ≡ row_of Two (0, Record.Head head)) }
    ensures fits { IfOk result (λ row. IsRecord Two (Record.Head head)) }
{
    let body = write_whole::<Rows, Head>(alloc, WRITTEN_FORMAT, &head)?;
    Ok(Row {
        key: RowKey { kind: 1, id: 0 },
        body,
    })
}

/// The row of a thing under a number.
pub(crate) fn thing_row(alloc: Global, number: u64, thing: &Thing) -> Result<Row, OutOfMemory>
    ensures row { IfOk result (λ row. row ≡ row_of Two (number, Record.Thing thing.now)) }
    ensures fits { IfOk result (λ row. IsRecord Two (Record.Thing thing.now)) }
{
    let body = write_thing(alloc, thing)?;
    Ok(Row {
        key: RowKey {
            kind: kind_byte(thing.kind()),
            id: number,
        },
        body,
    })
}
