ghost use Rattle.std.specs.Prelude.{◌≡◌, ◌≤◌};
ghost use Rattle.book_undo.specs.Edit.{depth};
ghost use Rattle.book_undo.specs.Room.{HasRoom};
ghost use Rattle.book_opening.specs.State.{state_of};
ghost use Rattle.book_turns.specs.Turned.{CanTurn, HasBounds, HasNextHead, turn_of, turned, with_head};
ghost use Rattle.book_turns.specs.Turned.{with_moved_steps};
ghost use Rattle.book_turns.specs.declared.turn.Way.TheVariants.{Change as ToNew, Redo, Undo};

use crate::head::head_after;
use book_commodity::Table;
use book_opening::Saved;
use book_rows::Head;
use book_undo::Edit;
use std::alloc::Global;

/// How many steps are kept.
pub(crate) const STEPS_LIMIT: u64 = 256;

/// The ways from a state to the next: the book is changed; the last step is taken back; or the step that was taken back
/// last is taken again.
#[derive(Clone, Copy)]
pub enum Way {
    Change,
    Undo,
    Redo,
}

/// What a command makes of the state: the way that it takes, the edit of the book, the edit that leads back from there,
/// and the head of the state to which it leads.
#[derive(Drop)]
pub struct Turn {
    pub way: Way,
    pub edit: Edit,
    pub inverse: Edit,
    pub head: Head,
}

impl Turn {
    /// The turn on a way by an edit, with the edit that leads back, and the next number after a change.
    pub fn of(state: &Saved, way: Way, edit: Edit, inverse: Edit, next: u64) -> Turn
        requires can { CanTurn way (state_of state.now) }
        requires bounds { HasBounds (state_of state.now) }
        ensures { result ≡ turn_of (state_of state.now) way edit inverse next }
    {
        let head = head_after(state, way, &edit, next);
        Turn {
            way,
            edit,
            inverse,
            head,
        }
    }
}

/// Makes the state after a turn, whose head it is given. It can't fail and takes no memory.
pub fn make_turn(alloc: Global, state: &mut Saved, turn: Turn)
    requires head { HasNextHead (state_of state.old) turn }
    requires bounds { HasBounds (state_of state.old) }
    requires shallow { depth turn.edit ≤ 8 }
    requires room { HasRoom state.old.plain turn.edit }
    requires back { 1 ≤ state.old.back.spare }
    requires forth { 1 ≤ state.old.forth.spare }
    ensures { state_of state.new ≡ turned turn (state_of state.old) }
{
    let Turn {
        way,
        edit,
        inverse,
        head,
    } = turn;
    state.plain.apply(edit);
    match way {
        Way::Change => change(alloc, state, inverse),
        Way::Undo => undo(state, inverse),
        Way::Redo => redo(state, inverse),
    }
    set_head(state, head);
}

/// Gives the state a head, whose currency the book has.
fn set_head(state: &mut Saved, head: Head)
    ensures { state_of state.new ≡ with_head head (state_of state.old) }
{
    state.next = head.next;
    state.version = head.version;
    state.position = head.position;
    state.past = head.past;
    state.later = head.later;
}

/// Adds the step that leads back from a change of the book. Of 256 steps the oldest is deleted first, and no step forth
/// stays.
fn change(alloc: Global, state: &mut Saved, inverse: Edit)
    requires bounds { HasBounds (state_of state.old) }
    requires room { 1 ≤ state.old.back.spare }
    ensures { state_of state.new ≡ with_moved_steps ToNew inverse (state_of state.old) }
{
    if state.past == STEPS_LIMIT {
        drop(state.back.take(state.position - (STEPS_LIMIT - 1)));
    }
    drop(state.back.put(state.position + 1, inverse));
    state.forth = Table::new(alloc);
}

/// Takes the last step back out, and adds the step that leads forth again.
fn undo(state: &mut Saved, inverse: Edit)
    requires room { 1 ≤ state.old.forth.spare }
    ensures { state_of state.new ≡ with_moved_steps Undo inverse (state_of state.old) }
{
    drop(state.back.take(state.position));
    drop(state.forth.put(state.position, inverse));
}

/// Takes the next step forth out, and adds the step that leads back again.
fn redo(state: &mut Saved, inverse: Edit)
    requires bounds { HasBounds (state_of state.old) }
    requires room { 1 ≤ state.old.back.spare }
    ensures { state_of state.new ≡ with_moved_steps Redo inverse (state_of state.old) }
{
    drop(state.forth.take(state.position + 1));
    drop(state.back.put(state.position + 1, inverse));
}
