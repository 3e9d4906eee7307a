ghost use Rattle.std.specs.Prelude.{◌≡◌, flat_map};
ghost use Rattle.book_undo.specs.Edit.{leaves};
ghost use Rattle.book_opening.specs.State.{head_of, state_of};
ghost use Rattle.book_turns.specs.Changes.{currency_after};
ghost use Rattle.book_turns.specs.Turned.{CanTurn, HasBounds, moved};

use crate::turn::{STEPS_LIMIT, Way};
use book_opening::Saved;
use book_rows::Head;
use book_undo::Edit;

/// The head of the state to which a way leads by an edit, with the next number after a change.
pub(crate) fn head_after(state: &Saved, way: Way, edit: &Edit, next: u64) -> Head
    requires can { CanTurn way (state_of state.now) }
    requires bounds { HasBounds (state_of state.now) }
    ensures { (inverse : _) → result ≡ head_of (moved way edit.now inverse next (state_of state.now)) }
{
    let version = state.version + 1;
    let currency = currency_after(edit, state.plain.currency);
    match way {
        Way::Change => Head {
            next,
            version,
            position: state.position + 1,
            past: (state.past + 1).min(STEPS_LIMIT),
            later: 0,
            currency,
        },
        Way::Undo => Head {
            next: state.next,
            version,
            position: state.position - 1,
            past: state.past - 1,
            later: state.later + 1,
            currency,
        },
        Way::Redo => Head {
            next: state.next,
            version,
            position: state.position + 1,
            past: state.past + 1,
            later: state.later - 1,
            currency,
        },
    }
}

/// The currency of a book after an edit.
#[cycle(currency)]
#[tactic(auto, using(book_undo::proofs::PartLaws::leaves_of_all))]
fn currency_after(edit: &Edit, currency: u64) -> u64
    ensures { result ≡ currency_after (leaves edit.now) currency }
{
    match edit {
        Edit::Currency(new) => *new,
        Edit::All(parts) => currency_after_all(parts.as_slice(), currency),
        Edit::Put(_, _) | Edit::Gone(_, _) => currency,
    }
}

/// The currency of a book after edits, one after another.
#[cycle(currency)]
fn currency_after_all(parts: &[Edit], currency: u64) -> u64
    ensures { result ≡ currency_after (flat_map leaves parts.now) currency }
{
    let mut now = currency;
    for part in parts {
        now = currency_after(part, now);
    }
    now
}
