ghost use Rattle.std.specs.Prelude.{◌≡◌, ◌≢◌, ◌↔◌, ◌<◌, ◌≤◌, List, Some, None, Option, IfOk, IfErr, IfSome, IfNone};
ghost use Rattle.std.specs.Prelude.{IsTrue, OnOk};
ghost use Rattle.std.specs.List.{AllByRecursion};
ghost use Rattle.book_keeper.specs.Rows.{rank};
ghost use Rattle.book_keeper.specs.declared.row.Row.{Row as HeldRow};
ghost use Rattle.book_rows.specs.Format.{format_in};
ghost use Rattle.book_rows.specs.Row.{IsWithin, kind_of};
ghost use Rattle.book_opening.specs.BookRows.{records_of, row_of, rows_of};
ghost use Rattle.book_opening.specs.Opening.{Answers, Begins, HasOpenCause, IsBadFor, IsBadHead, IsBadThing};
ghost use Rattle.book_opening.specs.Opening.{IsOnlyRecord, IsOpened, OpenAs, OpenIn, StaysSure, WasRead, WhereRead};
ghost use Rattle.book_opening.specs.Opening.{head_key};
ghost use Rattle.book_opening.specs.Reading.{IsBegun, IsFirstBad, IsReadable, IsWhole, bad_key};
ghost use Rattle.book_opening.specs.State.{State, state_of, head_of};
ghost use Rattle.book_opening.specs.Steps.{AreCounted};

use crate::steps::first_odd;
use crate::{OpenFault, Saved};
use book_commodity::{Table, discard};
use book_keeper::{KeepError, Keeper, Row, RowKey};
use book_rows::{Head, Record, RowError, RowFormat, format_in, read_row};
use book_undo::Plain;
use std::alloc::Global;

/// The format of the keeper's rows, and the state as which they open in it; None exactly where it holds none. Each row
/// is asked for and read once. Whether the keeper knows its rows or not, the state is one whose records have spellings
/// and whose steps are those that its head counts.
/// Keeper: the keeper failed, and its count of faults rose in this call.
/// BadRows: the least key whose row can't be opened in the format, or is needed and missing, or is that of a step which
/// the head doesn't count.
pub fn read_rows<K: Keeper>(
    alloc: Global,
    keeper: &mut K,
) -> Result<Option<(RowFormat, Saved)>, OpenFault>
    ensures keeper { WasRead K.Keeper keeper.old keeper.new }
    ensures answer { IsTrue (K.sure keeper.new) → (rows : List HeldRow) → K.holds keeper.old rows
        → Answers rows result }
    ensures again { IsTrue (K.sure keeper.new) → (rows : List HeldRow) → K.holds keeper.old rows
        → (state : State) → OpenAs rows state → IsOpened state result }
    ensures known { WhereRead result (StaysSure K.Keeper keeper.old keeper.new) }
    ensures readable { IfOk result (λ found. IfSome found (λ saved. IsReadable (state_of saved.1))) }
    ensures cause { HasOpenCause (K.faults keeper.old) (K.faults keeper.new) result }
{
    let row = match keeper.next_row(None) {
        Ok(Some(row)) => row,
        Ok(None) => return Ok(None),
        Err(error) => return Err(keeper_fault(error)),
    };
    let format = format_in(row.body.as_slice());
    let head = match read_head(alloc, format, &row) {
        Ok(head) => head,
        Err(fault) => return Err(fault),
    };
    match read_behind(alloc, keeper, format, begun(alloc, &head)) {
        Ok(saved) => Ok(Some((format, saved))),
        Err(fault) => Err(fault),
    }
}

/// Why the keeper answered no row.
fn keeper_fault(error: KeepError) -> OpenFault
    ensures failed { result ≡ OpenFault.Keeper → error ≡ KeepError.Failed }
    ensures unread { bad_key result ≡ None }
{
    match error {
        KeepError::Failed => OpenFault::Keeper,
        KeepError::OutOfMemory => OpenFault::OutOfMemory,
    }
}

/// The state of this head before a row behind it was read.
fn begun(alloc: Global, head: &Head) -> Saved
    ensures { IsBegun head.now (state_of result) }
{
    Saved {
        plain: Plain::new(alloc, head.currency),
        next: head.next,
        version: head.version,
        position: head.position,
        past: head.past,
        later: head.later,
        back: Table::new(alloc),
        forth: Table::new(alloc),
    }
}

/// The head that the first row stands for, in its own format.
fn read_head(alloc: Global, format: RowFormat, row: &Row) -> Result<Head, OpenFault>
    requires { format ≡ format_in row.now.body }
    ensures found { IfOk result (λ head. row.now ≡ row_of format (0, Record.Head head)) }
    ensures read { IfOk result (λ head. IsOnlyRecord format (0, Record.Head head)) }
    ensures bad { IfErr result (IsBadHead row.now) }
{
    if row.key.kind > 1 || (row.key.kind == 1 && row.key.id > 0) {
        return Err(OpenFault::BadRows { kind: 1, id: 0 });
    }
    match read_row(alloc, format, row.key, row.body.as_slice()) {
        Ok(it) => match head_in(it) {
            Some(head) => Ok(head),
            None => Err(bad(row.key)),
        },
        Err(RowError::Bad { .. }) => Err(bad(row.key)),
        Err(RowError::OutOfMemory) => Err(OpenFault::OutOfMemory),
    }
}

/// The head that a record is; None where it is another record.
fn head_in(it: Record) -> Option<Head>
    ensures head { IfSome result (λ head. it ≡ Record.Head head) }
    ensures none { IfNone result (kind_of it ≢ 1) }
{
    let head = seen_head(&it);
    discard(it, head)
}

/// The head that a record is, which stays; None where it is another record.
fn seen_head(it: &Record) -> Option<Head>
    ensures head { IfSome result (λ head. it.now ≡ Record.Head head) }
    ensures none { IfNone result (kind_of it.now ≢ 1) }
{
    match it {
        Record::Head(head) => Some(*head),
        Record::Thing(_) | Record::Back(_) | Record::Forth(_) => None,
    }
}

/// That the row of the key is bad.
fn bad(key: RowKey) -> OpenFault
    ensures { result ≡ OpenFault.BadRows key.kind key.id }
{
    OpenFault::BadRows {
        kind: key.kind,
        id: key.id,
    }
}

/// The state with what the rows behind the head stand for, in the format.
fn read_behind<K: Keeper>(
    alloc: Global,
    keeper: &mut K,
    format: RowFormat,
    state: Saved,
) -> Result<Saved, OpenFault>
    requires only { AllByRecursion (IsOnlyRecord format) (records_of (state_of state)) }
    requires begun { IsBegun (head_of (state_of state)) (state_of state) }
    ensures keeper { WasRead K.Keeper keeper.old keeper.new }
    ensures head { IfOk result (λ saved. head_of (state_of saved) ≡ head_of (state_of state)) }
    ensures read { IfOk result (λ saved. AllByRecursion (IsOnlyRecord format) (records_of (state_of saved))) }
    ensures counted { IfOk result (λ saved. AreCounted (state_of saved)) }
    ensures known { WhereRead result (StaysSure K.Keeper keeper.old keeper.new) }
    ensures rows { IfOk result (λ saved. IsTrue (K.sure keeper.new) → (rows : List HeldRow) → K.holds keeper.old rows
        → Begins format rows (head_of (state_of state)) → OpenIn format rows (state_of saved)) }
    ensures bad { IfErr result (λ fault. IsTrue (K.sure keeper.new) → (rows : List HeldRow)
        → K.holds keeper.old rows → Begins format rows (head_of (state_of state)) → IsBadFor rows fault) }
    ensures cause { HasOpenCause (K.faults keeper.old) (K.faults keeper.new) result }
{
    let mut saved = state;
    match read_into(alloc, keeper, format, &mut saved) {
        Ok(()) => whole(saved),
        Err(fault) => Err(discard(saved, fault)),
    }
}

/// Puts what the rows behind the head stand for, in the format, into a state that has its head alone.
fn read_into<K: Keeper>(
    alloc: Global,
    keeper: &mut K,
    format: RowFormat,
    saved: &mut Saved,
) -> Result<(), OpenFault>
    requires only { AllByRecursion (IsOnlyRecord format) (records_of (state_of saved.old)) }
    requires begun { IsBegun (head_of (state_of saved.old)) (state_of saved.old) }
    ensures keeper { WasRead K.Keeper keeper.old keeper.new }
    ensures head { OnOk result (head_of (state_of saved.new) ≡ head_of (state_of saved.old)) }
    ensures read { OnOk result (AllByRecursion (IsOnlyRecord format) (records_of (state_of saved.new))) }
    ensures known { WhereRead result (StaysSure K.Keeper keeper.old keeper.new) }
    ensures rows { OnOk result (IsTrue (K.sure keeper.new) → (rows : List HeldRow) → K.holds keeper.old rows
        → Begins format rows (head_of (state_of saved.old)) → rows ≡ rows_of format (state_of saved.new)) }
    ensures bad { IfErr result (λ fault. IsTrue (K.sure keeper.new) → (rows : List HeldRow)
        → K.holds keeper.old rows → Begins format rows (head_of (state_of saved.old)) → IsBadFor rows fault) }
    ensures cause { HasOpenCause (K.faults keeper.old) (K.faults keeper.new) result }
{
    let mut last = RowKey { kind: 1, id: 0 };
    'rows: loop {
        let row = match keeper.next_row(Some(last)) {
            Ok(Some(row)) => row,
            Ok(None) => return Ok(()),
            Err(error) => return Err(keeper_fault(error)),
        };
        let it = match read_behind_head(alloc, format, &row) {
            Ok(it) => it,
            Err(OpenFault::BadRows { .. }) => return Err(bad(first_bad(saved, row.key))),
            Err(OpenFault::OutOfMemory) => return Err(OpenFault::OutOfMemory),
            Err(OpenFault::Keeper) => unreachable!(),
        };
        let Ok(()) = saved.put(row.key.id, it) else {
            return Err(OpenFault::OutOfMemory);
        };
        last = row.key;
    }
}

/// The state of which all rows were read, or the first step that is missing, or that its head doesn't count.
fn whole(saved: Saved) -> Result<Saved, OpenFault>
    requires { IsWithin (head_of (state_of saved)) }
    ensures { IsWhole (state_of saved) result }
{
    match first_odd(&saved) {
        Some(key) => Err(discard(saved, bad(key))),
        None => Ok(saved),
    }
}

/// The first bad key where the row of a key is bad: a step below it may be missing, or one that the head doesn't count.
fn first_bad(saved: &Saved, key: RowKey) -> RowKey
    requires { IsWithin (head_of (state_of saved.now)) }
    ensures { IsFirstBad (state_of saved.now) key result }
{
    match first_odd(saved) {
        Some(odd) if is_before(odd, key) => odd,
        Some(_) | None => key,
    }
}

/// Whether a key stands before another.
fn is_before(key: RowKey, other: RowKey) -> bool
    ensures { IsTrue result ↔ (rank key < rank other) }
{
    key.kind < other.kind || (key.kind == other.kind && key.id < other.id)
}

/// What a row behind the head stands for in the format, which is no head.
#[tactic(auto, using(crate::proofs::ReadLaws::behind_kind))]
fn read_behind_head(alloc: Global, format: RowFormat, row: &Row) -> Result<Record, OpenFault>
    requires { rank head_key < rank row.now.key }
    ensures found { IfOk result (λ it. row.now ≡ row_of format (row.now.key.id, it)) }
    ensures behind { IfOk result (λ it. 2 ≤ kind_of it) }
    ensures read { IfOk result (λ it. IsOnlyRecord format (row.now.key.id, it)) }
    ensures bad { IfErr result (IsBadThing format row.now) }
{
    match read_row(alloc, format, row.key, row.body.as_slice()) {
        Ok(it) => Ok(it),
        Err(RowError::Bad { .. }) => Err(bad(row.key)),
        Err(RowError::OutOfMemory) => Err(OpenFault::OutOfMemory),
    }
}
