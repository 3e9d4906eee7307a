ghost use Rattle.std.specs.Prelude.{◌≡◌, true, Ok, None, Some, IfOk, IfErr};
ghost use Rattle.book_free.specs.Kept.{Keeps as KeepsFree};
ghost use Rattle.book_ledger.specs.Ledger.{Keeps};
ghost use Rattle.book_undo.specs.Edit.{outline};
ghost use Rattle.book_undo.specs.Inverse.{LeadsBack};
ghost use Rattle.book_step.specs.Outcome.{numbers};
ghost use Rattle.book_step.specs.Step.{outcome};
ghost use Rattle.book_step.specs.BankLines.{account_asked, lines_of, statements_of};
ghost use Rattle.book_step.specs.Reconciling.{recons_of};
ghost use Rattle.book_step.specs.Schedules.{Finds, day_rules, due_of};
ghost use Rattle.book_command.specs.declared.answer.Answer.TheVariants.{Due as DueAnswer};
ghost use Rattle.book_command.specs.declared.answer.Answer.TheVariants.{Lines as LinesAnswer};
ghost use Rattle.book_command.specs.declared.answer.Answer.TheVariants.{Statements as StatementsAnswer};
ghost use Rattle.book_command.specs.declared.answer.Answer.TheVariants.{Recons as ReconsAnswer};
ghost use Rattle.book_command.specs.declared.answer.Answer.TheVariants.{Voided as VoidedAnswer};
ghost use Rattle.book_step.specs.Voiding.{voided_of};
ghost use Rattle.book_command.specs.declared.command.What.TheVariants.{Redo as AskRedo, Undo as AskUndo};
ghost use Rattle.book_opening.specs.State.{state_of};
ghost use Rattle.book_report_answers.specs.Reports.{report_answer as report_answer_of, report_rules};
ghost use Rattle.book_turns.specs.Turned.{HaveSpellings, IsChangeTo, IsKeptStep, IsTurnFor, turn_of, turned};
ghost use Rattle.book_turns.specs.Whole.{IsWhole, step_state};
ghost use Rattle.book_turns.specs.declared.turn.Way.TheVariants.{Change as ToNew};
ghost use Rattle.book_engine.specs.Books.{machine_of};
ghost use Rattle.book_engine.specs.Machine.{asked, reply, status, step as step_from, updated};
ghost use Rattle.book_engine.specs.Planned.{IsLimitRefusal, IsPlanOf, IsPlanTo, IsRefusal, IsTurnPlan};
ghost use Rattle.book_engine.specs.Planned.{stay_plan, turn_plan};

use crate::Plan;
use book_balances::answered_step;
use book_command::{Report, What};
use book_commodity::{Counted, Day, Many, OutOfMemory, discard};
use book_free::{FreeSplits, Moves};
use book_ledger::Registers;
use book_opening::Saved;
use book_report_answers::report_answer;
use book_step::{
    Answer, Command, Refusal, Rule, Step, Update, check_version, due_answer, lines_answer,
    rate_answer, recons_answer, statements_answer, voided_answer,
};
use book_turns::{Turn, Way, row_changes};
use book_undo::Edit;
use std::alloc::Global;

/// The version stays below this.
const NUMBERS_LIMIT: u64 = 1 << 62;

/// The plan of a command for a state. Refused by the first rule that the command breaks, or out of memory.
pub(crate) fn plan_of(
    alloc: Global,
    state: &Saved,
    registers: &Registers,
    free: &FreeSplits,
    saved: bool,
    command: Command,
) -> Result<Plan, Refusal>
    requires whole { IsWhole (state_of state.now) saved }
    requires registers { Keeps registers.now.entries (state_of state.now).book }
    requires free { KeepsFree free.now (state_of state.now).book }
    ensures planned { IfOk result (IsPlanOf (state_of state.now) saved command) }
    ensures refused { IfErr result (IsRefusal (step_from (machine_of (state_of state.now)) command)) }
{
    if let Err(rule) = check_version(state.version, command.at) {
        return Err(Refusal::Broken(rule));
    }
    plan_at(alloc, state, registers, free, saved, command.what)
}

/// The plan of what is asked at the present version.
fn plan_at(
    alloc: Global,
    state: &Saved,
    registers: &Registers,
    free: &FreeSplits,
    saved: bool,
    what: What,
) -> Result<Plan, Refusal>
    requires whole { IsWhole (state_of state.now) saved }
    requires registers { Keeps registers.now.entries (state_of state.now).book }
    requires free { KeepsFree free.now (state_of state.now).book }
    ensures planned { IfOk result (IsPlanTo (state_of state.now) saved
        (reply (machine_of (state_of state.now)) what)) }
    ensures refused { IfErr result (IsRefusal (reply (machine_of (state_of state.now)) what)) }
{
    match what {
        What::Update(update) => plan_update(alloc, state, registers, free, saved, update),
        What::Undo => plan_undo(alloc, state, saved),
        What::Redo => plan_redo(alloc, state, saved),
        What::Price {
            commodity,
            currency,
            day,
        } => match rate_answer(&state.plain, commodity, currency, day) {
            Ok(answer) => Ok(plan_stay(alloc, state, answer)),
            Err(rule) => Err(Refusal::Broken(rule)),
        },
        What::Report(report) => plan_report(alloc, state, registers, saved, &report),
        What::Lines { account } => plan_lines(alloc, state, account),
        What::Statements { account } => plan_statements(alloc, state, account),
        What::Recons { account } => plan_recons(alloc, state, account),
        What::Voided { account } => plan_voided(alloc, state, account),
        What::Due { upto } => plan_due(alloc, state, upto),
        What::Status => Ok(plan_stay(alloc, state, status(state))),
    }
}

/// The plan of a question for a report, which leaves the state as it is.
#[tactic(auto, using(crate::proofs::PlanLemmas::ask_refused))]
fn plan_report(
    alloc: Global,
    state: &Saved,
    registers: &Registers,
    saved: bool,
    report: &Report,
) -> Result<Plan, Refusal>
    requires whole { IsWhole (state_of state.now) saved }
    requires registers { Keeps registers.now.entries (state_of state.now).book }
    ensures planned { IfOk result (IsPlanTo (state_of state.now) saved
        (asked (machine_of (state_of state.now)) (report_rules (state_of state.now).book report.now)
        (report_answer_of (state_of state.now).book report.now))) }
    ensures refused { IfErr result (IsRefusal
        (asked (machine_of (state_of state.now)) (report_rules (state_of state.now).book report.now)
        (report_answer_of (state_of state.now).book report.now))) }
{
    let _ = saved;
    let answer = report_answer(alloc, &state.plain, registers, report)?;
    Ok(plan_stay(alloc, state, answer))
}

/// The plan of the question which days are due up to the day. It leaves the state as it is.
fn plan_due(alloc: Global, state: &Saved, upto: Day) -> Result<Plan, Refusal>
    requires { IsWhole (state_of state.now) true }
    ensures { Finds (day_rules upto (state_of state.now).book.schedules)
        (λ plan. plan ≡ stay_plan (state_of state.now) (DueAnswer (due_of (state_of state.now).book upto))) result }
{
    let answer = due_answer(alloc, &state.plain, upto)?;
    Ok(plan_stay(alloc, state, answer))
}

/// The plan of the question for the lines of an account. It leaves the state as it is.
fn plan_lines(alloc: Global, state: &Saved, account: u64) -> Result<Plan, Refusal>
    ensures { Finds (account_asked (state_of state.now).book account)
        (λ plan. plan ≡ stay_plan (state_of state.now)
        (LinesAnswer (lines_of account (state_of state.now).book.lines))) result }
{
    let answer = lines_answer(alloc, &state.plain, account)?;
    Ok(plan_stay(alloc, state, answer))
}

/// The plan of the question for the statements of an account. It leaves the state as it is.
fn plan_statements(alloc: Global, state: &Saved, account: u64) -> Result<Plan, Refusal>
    ensures { Finds (account_asked (state_of state.now).book account)
        (λ plan. plan ≡ stay_plan (state_of state.now)
        (StatementsAnswer (statements_of account (state_of state.now).book.statements))) result }
{
    let answer = statements_answer(alloc, &state.plain, account)?;
    Ok(plan_stay(alloc, state, answer))
}

/// The plan of the question for the reconciliations of an account. It leaves the state as it is.
fn plan_recons(alloc: Global, state: &Saved, account: u64) -> Result<Plan, Refusal>
    requires { IsWhole (state_of state.now) true }
    ensures { Finds (account_asked (state_of state.now).book account)
        (λ plan. plan ≡ stay_plan (state_of state.now)
        (ReconsAnswer (recons_of account (state_of state.now).book))) result }
{
    let answer = recons_answer(alloc, &state.plain, account)?;
    Ok(plan_stay(alloc, state, answer))
}

/// The plan of the question for an account's splits of voided transactions. It leaves the state as it is.
fn plan_voided(alloc: Global, state: &Saved, account: u64) -> Result<Plan, Refusal>
    ensures { Finds (account_asked (state_of state.now).book account)
        (λ plan. plan ≡ stay_plan (state_of state.now)
        (VoidedAnswer (voided_of account (state_of state.now).book.transactions))) result }
{
    let answer = voided_answer(alloc, &state.plain, account)?;
    Ok(plan_stay(alloc, state, answer))
}

/// How much of each kind there is.
fn status(state: &Saved) -> Answer
    requires { IsWhole (state_of state.now) true }
    ensures { result ≡ status (machine_of (state_of state.now)) }
{
    Answer::Status {
        accounts: state.plain.accounts.len() as u64,
        later: state.later,
        lines: state.plain.lines.len() as u64,
        past: state.past,
        recons: state.plain.reconciliations.len() as u64,
        splits: state.plain.transactions.count_splits(),
        transactions: state.plain.transactions.len() as u64,
    }
}

/// The plan that leaves the state as it is.
fn plan_stay(alloc: Global, state: &Saved, answer: Answer) -> Plan
    ensures { result ≡ stay_plan (state_of state.now) answer }
{
    Plan {
        turn: None,
        version: state.version,
        answer,
        changes: Many::new(alloc),
        moves: Moves::none(alloc),
    }
}

/// The plan of a change of the book. One that leaves the book as it is leaves the state.
fn plan_update(
    alloc: Global,
    state: &Saved,
    registers: &Registers,
    free: &FreeSplits,
    saved: bool,
    update: Update,
) -> Result<Plan, Refusal>
    requires whole { IsWhole (state_of state.now) saved }
    requires registers { Keeps registers.now.entries (state_of state.now).book }
    requires free { KeepsFree free.now (state_of state.now).book }
    ensures planned { IfOk result (IsPlanTo (state_of state.now) saved
        (updated (machine_of (state_of state.now)) (outcome (step_state (state_of state.now)) update))) }
    ensures refused { IfErr result (IsRefusal
        (updated (machine_of (state_of state.now)) (outcome (step_state (state_of state.now)) update))) }
{
    let step = answered_step(
        alloc,
        &state.plain,
        state.next,
        state.version,
        registers,
        free.index(),
        update,
    )?;
    let Step { edit, next, answer } = step;
    if edit.is_nothing() {
        drop(edit);
        return Ok(plan_stay(alloc, state, answer));
    }
    match plan_change(alloc, state, saved, edit, next, answer) {
        Ok(plan) => Ok(plan),
        Err(OutOfMemory) => Err(Refusal::OutOfMemory),
    }
}

/// The plan of an edit that changes the book.
fn plan_change(
    alloc: Global,
    state: &Saved,
    saved: bool,
    edit: Edit,
    next: u64,
    answer: Answer,
) -> Result<Plan, OutOfMemory>
    requires whole { IsWhole (state_of state.now) saved }
    requires sound { IsChangeTo (state_of state.now) edit next }
    ensures { IfOk result (IsTurnPlan (state_of state.now) saved ToNew edit next answer) }
{
    let inverse = match state.plain.inverse(alloc, &edit) {
        Ok(inverse) => inverse,
        Err(error) => return Err(discard(edit, discard(answer, error))),
    };
    let turn = Turn::of(state, Way::Change, edit, inverse, next);
    plan_turn(alloc, state, saved, turn, answer)
}

/// The plan of a turn.
fn plan_turn(
    alloc: Global,
    state: &Saved,
    saved: bool,
    turn: Turn,
    answer: Answer,
) -> Result<Plan, OutOfMemory>
    requires whole { IsWhole (state_of state.now) saved }
    requires after { IsWhole (turned turn (state_of state.now)) true }
    requires turn { IsTurnFor (state_of state.now) saved turn }
    ensures plan { IfOk result (λ plan. plan ≡ turn_plan saved (state_of state.now) turn answer) }
    ensures fits { IfOk result (λ plan. HaveSpellings saved (state_of state.now) turn) }
{
    match row_changes(alloc, state, saved, &turn) {
        Ok(changes) => Ok(Plan {
            version: turn.head.version,
            turn: Some(turn),
            answer,
            changes,
            moves: Moves::none(alloc),
        }),
        Err(error) => Err(discard(turn, discard(answer, error))),
    }
}

/// The plan of the last step back.
fn plan_undo(alloc: Global, state: &Saved, saved: bool) -> Result<Plan, Refusal>
    requires { IsWhole (state_of state.now) saved }
    ensures planned { IfOk result (IsPlanTo (state_of state.now) saved
        (reply (machine_of (state_of state.now)) AskUndo)) }
    ensures refused { IfErr result (IsRefusal (reply (machine_of (state_of state.now)) AskUndo)) }
{
    match state.back.find(state.position) {
        Some(edit) => plan_kept(alloc, state, saved, Way::Undo, edit, Answer::Undo),
        None => Err(Refusal::Broken(Rule::NothingToUndo)),
    }
}

/// The plan of the next step forth.
fn plan_redo(alloc: Global, state: &Saved, saved: bool) -> Result<Plan, Refusal>
    requires { IsWhole (state_of state.now) saved }
    ensures planned { IfOk result (IsPlanTo (state_of state.now) saved
        (reply (machine_of (state_of state.now)) AskRedo)) }
    ensures refused { IfErr result (IsRefusal (reply (machine_of (state_of state.now)) AskRedo)) }
{
    match state.forth.find(state.position + 1) {
        Some(edit) => plan_kept(alloc, state, saved, Way::Redo, edit, Answer::Redo),
        None => Err(Refusal::Broken(Rule::NothingToRedo)),
    }
}

/// The plan of a kept step, back or forth. Refused where one more version goes past the limit.
fn plan_kept(
    alloc: Global,
    state: &Saved,
    saved: bool,
    way: Way,
    edit: &Edit,
    answer: Answer,
) -> Result<Plan, Refusal>
    requires whole { IsWhole (state_of state.now) saved }
    requires kept { IsKeptStep way (state_of state.now) edit.now }
    ensures planned { IfOk result
        (IsTurnPlan (state_of state.now) saved way edit.now state.now.next answer) }
    ensures within { IfOk result (λ plan. numbers (step_state (state_of state.now)) 0 ≡ None) }
    ensures refused { IfErr result (IsLimitRefusal (state_of state.now)) }
{
    if state.version + 1 >= NUMBERS_LIMIT {
        return Err(Refusal::Broken(Rule::Limit {
            which: Counted::Numbers,
            at: NUMBERS_LIMIT,
        }));
    }
    match kept_turn(alloc, state, saved, way, edit) {
        Ok(turn) => planned(plan_turn(alloc, state, saved, turn, answer)),
        Err(OutOfMemory) => Err(Refusal::OutOfMemory),
    }
}

/// The turn of a kept step.
fn kept_turn(
    alloc: Global,
    state: &Saved,
    saved: bool,
    way: Way,
    edit: &Edit,
) -> Result<Turn, OutOfMemory>
    requires whole { IsWhole (state_of state.now) saved }
    requires kept { IsKeptStep way (state_of state.now) edit.now }
    ensures turn { IfOk result (λ turn. turn
        ≡ turn_of (state_of state.now) way edit.now turn.inverse state.now.next) }
    ensures back { IfOk result (λ turn. LeadsBack (state_of state.now).book edit.now turn.inverse) }
    ensures form { IfOk result (λ turn. outline turn.inverse ≡ outline edit.now) }
{
    let _ = saved;
    let inverse = state.plain.inverse(alloc, edit)?;
    match edit.copy(alloc) {
        Ok(copy) => Ok(Turn::of(state, way, copy, inverse, state.next)),
        Err(error) => Err(discard(inverse, error)),
    }
}

/// A plan, or the refusal that the program is out of memory.
fn planned(made: Result<Plan, OutOfMemory>) -> Result<Plan, Refusal>
    ensures plan { IfOk result (λ plan. made ≡ Ok plan) }
    ensures refused { IfErr result (λ refusal. refusal ≡ Refusal.OutOfMemory) }
{
    match made {
        Ok(plan) => Ok(plan),
        Err(OutOfMemory) => Err(Refusal::OutOfMemory),
    }
}
