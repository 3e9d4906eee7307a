ghost use Rattle.std.specs.Prelude.{◌≡◌, ◌||◌, IfNone, IfOk, nat_lt, not};
ghost use Rattle.book_commodity.specs.Table.{Rises};
ghost use Rattle.book_opening.specs.Reading.{IsReadable};
ghost use Rattle.book_opening.specs.State.{head_of, state_of};
ghost use Rattle.book_opening.specs.Steps.{counts_fit};
ghost use Rattle.book_state_check.specs.SoundState.{AreStepsSound, IsSoundState, unsound_at, unsound_step};

use book_check::first_unsound;
use book_commodity::OutOfMemory;
use book_history::{first_fault_back, first_fault_forth};
use book_keeper::RowKey;
use book_opening::Saved;
use std::alloc::Global;

/// How many steps are kept.
const STEPS_LIMIT: u64 = 256;

/// The first key at which a state is unsound. Where there is none, the state is as it was.
pub fn first_unsound_key(alloc: Global, state: &mut Saved) -> Result<Option<RowKey>, OutOfMemory>
    requires { IsReadable (state_of state.old) }
    ensures key { IfOk result (λ found. found ≡ unsound_at (state_of state.old)) }
    ensures same { IfOk result (λ found. IfNone found (state_of state.new ≡ state_of state.old)) }
    ensures sound { IfOk result (λ found. IfNone found (IsSoundState (state_of state.old))) }
{
    rising(state);
    if !keeps_head(state) {
        return Ok(Some(RowKey { kind: 1, id: 0 }));
    }
    if let Some(key) = first_unsound(alloc, &state.plain, state.next)? {
        return Ok(Some(key));
    }
    first_unsound_step(alloc, state)
}

/// The numbers of the steps rise, as those of every table.
fn rising(state: &Saved)
    ensures back { Rises state.now.back.entries }
    ensures forth { Rises state.now.forth.entries }
{
    let _ = (state.back.len(), state.forth.len());
}

/// Whether the position is at most the version, and the head counts no more steps back than lead to the present book,
/// and at most 256 steps in all.
fn keeps_head(state: &Saved) -> bool
    requires { IsReadable (state_of state.now) }
    ensures { result ≡ not (nat_lt state.now.version state.now.position
        || not (counts_fit (head_of (state_of state.now)))) }
{
    state.position <= state.version
        && state.past <= state.position
        && state.later <= STEPS_LIMIT
        && state.past + state.later <= STEPS_LIMIT
}

/// The key of the first step that is broken, asked from the present book outward.
fn first_unsound_step(alloc: Global, state: &mut Saved) -> Result<Option<RowKey>, OutOfMemory>
    ensures key { IfOk result (λ found. found ≡ unsound_step (state_of state.old)) }
    ensures same { IfOk result (λ found. IfNone found (state_of state.new ≡ state_of state.old)) }
    ensures sound { IfOk result (λ found. IfNone found (AreStepsSound (state_of state.old))) }
{
    let next = state.next;
    if let Some(id) = first_fault_back(alloc, &mut state.plain, next, state.back.as_slice())? {
        return Ok(Some(RowKey { kind: 11, id }));
    }
    match first_fault_forth(alloc, &mut state.plain, next, state.forth.as_slice())? {
        Some(id) => Ok(Some(RowKey { kind: 12, id })),
        None => Ok(None),
    }
}
