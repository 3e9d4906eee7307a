ghost use Rattle.std.specs.Prelude.{◌≡◌, IfOk, option_map};
ghost use Rattle.book_commodity.specs.Table.{value_of};
ghost use Rattle.book_opening.specs.State.{state_of};
ghost use Rattle.book_undo.specs.Book.{book_of};
ghost use Rattle.book_broken.specs.Broken.{broken_at, broken_head, broken_thing};

use crate::BrokenRule;
use crate::accounts::in_accounts;
use crate::bindings::in_bindings;
use crate::commodities::in_commodities;
use crate::head::in_head;
use crate::lines::in_lines;
use crate::prices::in_prices;
use crate::reconciliations::in_reconciliations;
use crate::schedules::in_schedules;
use crate::statements::in_statements;
use crate::transactions::in_transactions;
use book_commodity::{OutOfMemory, Table};
use book_keeper::RowKey;
use book_opening::Saved;
use book_undo::{Edit, Plain};
use std::alloc::Global;

/// The rule that is broken at a key where a state is not sound; `None` exactly where nothing stands under the key. Out
/// of memory, where a voided transaction is brought back to be checked.
#[tactic(auto, unfolding(crate::specs::Broken::broken_at))]
pub fn broken_rule(
    alloc: Global,
    state: &Saved,
    key: RowKey,
) -> Result<Option<BrokenRule>, OutOfMemory>
    ensures { IfOk result (λ found. found ≡ broken_at (state_of state.now) key) }
{
    match key.kind {
        1 => Ok(head_rule(state, key.id)),
        11 => Ok(step_rule(&state.back, key.id, BrokenRule::StepBack)),
        12 => Ok(step_rule(&state.forth, key.id, BrokenRule::StepForth)),
        _ => thing_rule(alloc, &state.plain, key),
    }
}

/// The rule that the head breaks, which has the id 0.
fn head_rule(state: &Saved, id: u64) -> Option<BrokenRule>
    ensures { result ≡ broken_head (state_of state.now) id }
{
    if id == 0 { Some(in_head(state)) } else { None }
}

/// The rule where a step has the id.
fn step_rule(steps: &Table<Edit>, id: u64, rule: BrokenRule) -> Option<BrokenRule>
    ensures { result ≡ option_map (λ _. rule) (value_of id steps.now.entries) }
{
    match steps.find(id) {
        Some(_) => Some(rule),
        None => None,
    }
}

/// The rule that a thing of the book breaks.
#[tactic(auto, unfolding(crate::specs::Broken::broken_thing))]
fn thing_rule(alloc: Global, plain: &Plain, key: RowKey) -> Result<Option<BrokenRule>, OutOfMemory>
    ensures { IfOk result (λ found. found ≡ broken_thing (book_of plain.now) key) }
{
    let id = key.id;
    match key.kind {
        2 => Ok(in_commodities(&plain.commodities, id)),
        3 => Ok(in_accounts(&plain.commodities, &plain.accounts, id)),
        4 => in_transactions(
            alloc,
            &plain.commodities,
            &plain.accounts,
            &plain.reconciliations,
            &plain.transactions,
            id,
        ),
        5 => Ok(in_prices(&plain.commodities, &plain.prices, id)),
        6 => Ok(in_schedules(&plain.commodities, &plain.accounts, &plain.schedules, id)),
        7 => Ok(in_statements(&plain.accounts, &plain.statements, id)),
        8 => Ok(in_lines(
            &plain.accounts,
            &plain.statements,
            &plain.transactions,
            &plain.lines,
            id,
        )),
        9 => Ok(in_bindings(&plain.accounts, &plain.bindings, id)),
        10 => Ok(in_reconciliations(&plain.accounts, &plain.reconciliations, id)),
        _ => Ok(None),
    }
}
