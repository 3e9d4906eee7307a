ghost use Rattle.std.specs.Prelude.{◌≡◌, ◌≤◌, IfOk};
ghost use Rattle.book_undo.specs.Edit.{depth};
ghost use Rattle.book_rows.specs.declared.format.RowFormat.TheVariants.{Two};
ghost use Rattle.book_rows.specs.EditBytes.{edit_bytes, IsEdit};
ghost use Rattle.book_opening.specs.Changes.{PutBack, GoneBack, PutForth, GoneForth, StepFits, entry_put, step_change};

use crate::steps::{BACK, FORTH};
use book_commodity::OutOfMemory;
use book_keeper::{Change, Row, RowKey};
use book_rows::write_edit;
use book_undo::Edit;
use std::alloc::Global;

/// The change that puts the row of a step back under a number.
pub fn back_put(alloc: Global, number: u64, edit: &Edit) -> Result<Change, OutOfMemory>
    requires { depth edit.now ≤ 8 }
    ensures change { IfOk result (λ change. change ≡ step_change (PutBack number edit.now)) }
    ensures fits { IfOk result (λ change. StepFits (PutBack number edit.now)) }
{
    step_put(alloc, BACK, number, edit)
}

/// The change that puts the row of a step forth under a number.
pub fn forth_put(alloc: Global, number: u64, edit: &Edit) -> Result<Change, OutOfMemory>
    requires { depth edit.now ≤ 8 }
    ensures change { IfOk result (λ change. change ≡ step_change (PutForth number edit.now)) }
    ensures fits { IfOk result (λ change. StepFits (PutForth number edit.now)) }
{
    step_put(alloc, FORTH, number, edit)
}

/// The change by which the row of a step back under a number is gone.
pub fn back_gone(number: u64) -> Change
    ensures { result ≡ step_change (GoneBack number) }
{
    Change::Gone(RowKey {
        kind: BACK,
        id: number,
    })
}

/// The change by which the row of a step forth under a number is gone.
pub fn forth_gone(number: u64) -> Change
    ensures { result ≡ step_change (GoneForth number) }
{
    Change::Gone(RowKey {
        kind: FORTH,
        id: number,
    })
}

/// The change that puts the row of this kind of a step under a number.
pub(crate) fn step_put(
    alloc: Global,
    kind: u8,
    number: u64,
    edit: &Edit,
) -> Result<Change, OutOfMemory>
    requires { depth edit.now ≤ 8 }
    ensures change { IfOk result (λ change. change ≡ entry_put kind (edit_bytes Two) (number, edit.now)) }
    ensures fits { IfOk result (λ change. IsEdit Two edit.now) }
{
    let body = write_edit(alloc, edit)?;
    Ok(Change::Put(Row {
        key: RowKey { kind, id: number },
        body,
    }))
}
