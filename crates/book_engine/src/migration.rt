ghost use Rattle.std.specs.Prelude.{◌≡◌, ◌↔◌, ◌⊎◌, IfOk, IfErr, OnOk, OnErr, IsTrue, List};
ghost use Rattle.book_keeper.specs.Rows.{after_changes};
ghost use Rattle.book_keeper.specs.declared.row.Row.{Row};
ghost use Rattle.book_opening.specs.Changes.{all_put};
ghost use Rattle.book_opening.specs.Reading.{IsReadable};
ghost use Rattle.book_turns.specs.Whole.{IsWhole};
ghost use Rattle.book_engine.specs.Opening.{HasOpenCause, IsOfKeeperOrMemory, IsMigration, KeepsRows};

use crate::{Engine, OpenError};
use book_commodity::{Many, OutOfMemory, discard};
use book_keeper::{Change, KeepError, Keeper};
use book_opening::all_rows;
use book_rows::RowFormat;
use std::alloc::Global;

/// The engine of a book whose rows have this format, once they have format 2: those of format 1 are all written anew,
/// as one commit. The engine is the same. At an error a keeper that still knows its rows has those of before.
/// Keeper: the keeper failed, and its count of faults rose in this call.
pub(crate) fn migrate<K: Keeper>(
    alloc: Global,
    keeper: &mut K,
    format: RowFormat,
    engine: Engine,
) -> Result<Engine, OpenError>
    requires readable { IsReadable engine.state }
    ensures engine { IfOk result (λ new. new ≡ engine) }
    ensures error { IfErr result IsOfKeeperOrMemory }
    ensures written { IsMigration K.Keeper format engine.state keeper.old keeper.new result }
    ensures cause { HasOpenCause (K.faults keeper.old) (K.faults keeper.new) result }
{
    match format {
        RowFormat::One => match write_anew(alloc, keeper, &engine) {
            Ok(()) => Ok(engine),
            Err(error) => Err(discard(engine, error)),
        },
        RowFormat::Two => Ok(engine),
    }
}

/// Writes all rows of the engine's state, in format 2, as one commit.
fn write_anew<K: Keeper>(alloc: Global, keeper: &mut K, engine: &Engine) -> Result<(), OpenError>
    requires readable { IsReadable engine.now.state }
    ensures error { IfErr result IsOfKeeperOrMemory }
    ensures written { IsMigration K.Keeper RowFormat.One engine.now.state keeper.old keeper.new result }
    ensures cause { HasOpenCause (K.faults keeper.old) (K.faults keeper.new) result }
{
    engine.known();
    let Ok(changes) = all_rows(alloc, &engine.state) else {
        return Err(OpenError::OutOfMemory);
    };
    match keeper.commit(changes.as_slice()) {
        Ok(()) => Ok(()),
        Err(KeepError::Failed) => Err(OpenError::Keeper),
        Err(KeepError::OutOfMemory) => Err(OpenError::OutOfMemory),
    }
}
