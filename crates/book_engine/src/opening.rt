ghost use Rattle.std.specs.Prelude.{◌≡◌, IfOk, IfErr, true};
ghost use Rattle.book_free.specs.Kept.{Keeps as KeepsFree};
ghost use Rattle.book_ledger.specs.Ledger.{Keeps};
ghost use Rattle.book_ledger.specs.Opening.{AreNew};
ghost use Rattle.book_opening.specs.Reading.{IsReadable};
ghost use Rattle.book_opening.specs.State.{state_of};
ghost use Rattle.book_sound.specs.Soundness.{IsSoundBook};
ghost use Rattle.book_state_check.specs.SoundState.{IsSoundState};
ghost use Rattle.book_step.specs.Soundness.{IsSound};
ghost use Rattle.book_turns.specs.Whole.{step_state};
ghost use Rattle.book_undo.specs.Book.{book_of};
ghost use Rattle.book_engine.specs.Kept.{IsNew};
ghost use Rattle.book_engine.specs.Opening.{IsBegun, IsChecked, open_error};

use crate::{Engine, OpenError};
use book_commodity::{OutOfMemory, Table, discard};
use book_free::FreeSplits;
use book_ledger::Registers;
use book_opening::{OpenFault, Saved};
use book_state_check::first_unsound_key;
use book_turns::{FIRST_NUMBER, fresh_book};
use book_undo::Plain;
use std::alloc::Global;

/// The engine of the fresh state, before a keeper was given rows.
pub(crate) fn begin(alloc: Global) -> Result<Engine, OpenError>
    ensures begun { IsBegun result }
    ensures new { IfOk result IsNew }
    ensures sound { IfOk result (λ engine. IsSound (step_state engine.state)) }
{
    let plain = match fresh_book(alloc) {
        Ok(plain) => plain,
        Err(OutOfMemory) => return Err(OpenError::OutOfMemory),
    };
    let state = Saved {
        plain,
        next: FIRST_NUMBER,
        version: 0,
        position: 0,
        past: 0,
        later: 0,
        back: Table::new(alloc),
        forth: Table::new(alloc),
    };
    match kept_of(alloc, &state.plain) {
        Ok((registers, free)) => Ok(Engine {
            alloc,
            state,
            registers,
            free,
            saved: false,
        }),
        Err(OutOfMemory) => Err(OpenError::OutOfMemory),
    }
}

/// The engine of a state that was read, or the first key at which that is unsound.
pub(crate) fn checked(alloc: Global, state: Saved) -> Result<Engine, OpenError>
    requires { IsReadable (state_of state) }
    ensures checked { IsChecked (state_of state) result }
    ensures new { IfOk result IsNew }
    ensures sound { IfOk result (λ engine. IsSound (step_state engine.state)) }
{
    let mut state = state;
    match first_unsound_key(alloc, &mut state) {
        Ok(None) => kept(alloc, state),
        Ok(Some(key)) => Err(OpenError::UnsoundBook {
            kind: key.kind,
            id: key.id,
        }),
        Err(OutOfMemory) => Err(OpenError::OutOfMemory),
    }
}

/// The engine of a sound state that was read.
fn kept(alloc: Global, state: Saved) -> Result<Engine, OpenError>
    requires { IsSoundState (state_of state) }
    ensures kept { IfOk result (λ engine. (engine.state ≡ state_of state) × (engine.saved ≡ true)) }
    ensures new { IfOk result IsNew }
    ensures memory { IfErr result (λ error. error ≡ OpenError.OutOfMemory) }
{
    match kept_of(alloc, &state.plain) {
        Ok((registers, free)) => Ok(Engine {
            alloc,
            state,
            registers,
            free,
            saved: true,
        }),
        Err(OutOfMemory) => Err(OpenError::OutOfMemory),
    }
}

/// What is kept beside a sound book: the registers of its accounts, and its free splits.
fn kept_of(alloc: Global, plain: &Plain) -> Result<(Registers, FreeSplits), OutOfMemory>
    requires { IsSoundBook (book_of plain.now) }
    ensures registers { IfOk result (λ kept. Keeps kept.0.entries (book_of plain.now)) }
    ensures free { IfOk result (λ kept. KeepsFree kept.1 (book_of plain.now)) }
    ensures new { IfOk result (λ kept. AreNew kept.0.entries) }
    ensures unchanged { IfOk result (λ kept. kept.1.index.changes ≡ 0) }
{
    let registers = Registers::of(alloc, plain)?;
    match FreeSplits::of(alloc, plain) {
        Ok(free) => Ok((registers, free)),
        Err(error) => Err(discard(registers, error)),
    }
}

/// Why no engine is opened from rows that could not be read.
pub(crate) fn open_error(fault: OpenFault) -> OpenError
    ensures { result ≡ open_error fault }
{
    match fault {
        OpenFault::Keeper => OpenError::Keeper,
        OpenFault::BadRows { kind, id } => OpenError::BadRows { kind, id },
        OpenFault::OutOfMemory => OpenError::OutOfMemory,
    }
}
