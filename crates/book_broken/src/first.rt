ghost use Rattle.std.specs.Prelude.{◌≡◌, ◌||◌, IfNone, IfOk, IfSome, Some, nat_lt, not};
ghost use Rattle.book_commodity.specs.Table.{Rises};
ghost use Rattle.book_check.specs.FirstUnsound.{first_unsound};
ghost use Rattle.book_opening.specs.Opening.{head_key};
ghost use Rattle.book_opening.specs.Reading.{IsReadable};
ghost use Rattle.book_opening.specs.State.{head_of, state_of};
ghost use Rattle.book_opening.specs.Steps.{counts_fit};
ghost use Rattle.book_undo.specs.Book.{book_of};
ghost use Rattle.book_state_check.specs.SoundState.{AreStepsSound, IsSoundState, unsound_at, unsound_step};
ghost use Rattle.book_broken.specs.Broken.{HasRule, broken_at, broken_key};

use crate::BrokenRule;
use crate::broken::broken_rule;
use crate::head::{counts_fit, in_head};
use book_check::first_unsound;
use book_commodity::OutOfMemory;
use book_history::{first_fault_back, first_fault_forth};
use book_keeper::RowKey;
use book_opening::Saved;
use std::alloc::Global;

/// A key at which a state is unsound, and the rule that is broken there.
#[derive(Clone, Copy, Debug, PartialEq, Eq)]
pub struct Broken {
    pub key: RowKey,
    pub rule: BrokenRule,
}

/// The first key at which a state is unsound, as `book_state_check` finds it, with the rule that is broken there. Where
/// there is none, the state is as it was.
pub fn first_broken_rule(alloc: Global, state: &mut Saved) -> Result<Option<Broken>, OutOfMemory>
    requires { IsReadable (state_of state.old) }
    ensures key { IfOk result (λ found. broken_key found ≡ unsound_at (state_of state.old)) }
    ensures rule { IfOk result (λ found. IfSome found (HasRule (state_of state.old))) }
    ensures same { IfOk result (λ found. IfNone found (state_of state.new ≡ state_of state.old)) }
    ensures sound { IfOk result (λ found. IfNone found (IsSoundState (state_of state.old))) }
{
    rising(state);
    if !keeps_head(state) {
        return Ok(Some(broken_head(state)));
    }
    if let Some(key) = first_unsound(alloc, &state.plain, state.next)? {
        return Ok(Some(broken_row(alloc, state, key)?));
    }
    first_broken_step(alloc, state)
}

/// The head with the rule that it breaks.
#[tactic(auto, unfolding(crate::specs::Broken::broken_at))]
fn broken_head(state: &Saved) -> Broken
    ensures key { result.key ≡ head_key }
    ensures rule { HasRule (state_of state.now) result }
{
    Broken {
        key: RowKey { kind: 1, id: 0 },
        rule: in_head(state),
    }
}

/// The first key at which the book is unsound, with the rule that is broken there.
fn broken_row(alloc: Global, state: &Saved, key: RowKey) -> Result<Broken, OutOfMemory>
    requires { first_unsound (book_of state.now.plain) state.now.next ≡ Some key }
    ensures key { IfOk result (λ broken. broken.key ≡ key) }
    ensures rule { IfOk result (HasRule (state_of state.now)) }
{
    let Some(rule) = broken_rule(alloc, state, key)? else {
        unreachable!()
    };
    Ok(Broken { key, rule })
}

/// The numbers of the steps rise, as those of every table.
fn rising(state: &Saved)
    ensures back { Rises state.now.back.entries }
    ensures forth { Rises state.now.forth.entries }
{
    let _ = (state.back.len(), state.forth.len());
}

/// Whether the position is at most the version, and the counts of steps fit.
fn keeps_head(state: &Saved) -> bool
    ensures { result ≡ not (nat_lt state.now.version state.now.position
        || not (counts_fit (head_of (state_of state.now)))) }
{
    state.position <= state.version && counts_fit(state)
}

/// The first step that is broken, asked from the present book outward.
fn first_broken_step(alloc: Global, state: &mut Saved) -> Result<Option<Broken>, OutOfMemory>
    ensures key { IfOk result (λ found. broken_key found ≡ unsound_step (state_of state.old)) }
    ensures rule { IfOk result (λ found. IfSome found (HasRule (state_of state.old))) }
    ensures same { IfOk result (λ found. IfNone found (state_of state.new ≡ state_of state.old)) }
    ensures sound { IfOk result (λ found. IfNone found (AreStepsSound (state_of state.old))) }
{
    let next = state.next;
    if let Some(id) = first_fault_back(alloc, &mut state.plain, next, state.back.as_slice())? {
        return Ok(Some(step_at(11, id, BrokenRule::StepBack)));
    }
    match first_fault_forth(alloc, &mut state.plain, next, state.forth.as_slice())? {
        Some(id) => Ok(Some(step_at(12, id, BrokenRule::StepForth))),
        None => Ok(None),
    }
}

/// The step of a kind and an id, with its rule.
fn step_at(kind: u8, id: u64, rule: BrokenRule) -> Broken
    ensures { result ≡ record { key = record { kind = kind; id = id }; rule = rule } }
{
    Broken {
        key: RowKey { kind, id },
        rule,
    }
}
