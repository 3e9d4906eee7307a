ghost use Rattle.std.specs.Prelude.{◌≡◌, ℕ, ◌<◌, ◌≤◌, ◌^◌, List, Option, [], ◌∷◌, true, false, IfOk};
ghost use Rattle.book_commodity.specs.Rules.{ReportsFirst};
ghost use Rattle.book_command.specs.declared.command.Format.{Format as FileFormat};
ghost use Rattle.book_command.specs.declared.command.Update.TheVariants.{Import};
ghost use Rattle.book_undo.specs.Book.{book_of};
ghost use Rattle.book_undo.specs.Edit.{edited, is_nothing};
ghost use Rattle.book_undo.specs.Exact.{IsExact};
ghost use Rattle.book_free.specs.FreeSplits.{free_splits};
ghost use Rattle.book_ledger.specs.Ledger.{Keeps};
ghost use Rattle.book_step.specs.Laws.{HasFile, KeepsLines, KeepsStatements};
ghost use Rattle.book_step.specs.Outcome.{ChangesBy, LeavesBy, StepsTo, numbers};
ghost use Rattle.book_step.specs.Soundness.{IsSound};
ghost use Rattle.book_step.specs.State.{state_of};
ghost use Rattle.book_step.specs.Step.{outcome, stale};

use crate::account_edit::account_edit;
use crate::accounts::{account_add, account_drop};
use crate::auto_matching::match_auto;
use crate::bank_lines::{line_dismiss, line_reopen};
use crate::bindings::bind;
use crate::commodities::{book_currency, commodity_add};
use crate::editing::{drop, edit};
use crate::importing::import_file;
use crate::line_adding::line_add;
use crate::line_matching::line_match;
use crate::marking::mark;
use crate::posting::post;
use crate::present::Present;
use crate::prices::{price_drop, price_set};
use crate::reconciling::{reconcile, reconcile_statement};
use crate::schedule_runs::schedule_run;
use crate::schedules::{schedule_add, schedule_drop};
use crate::voiding::{unvoid, void};
use crate::{Answer, Refusal, Rule, Update};
use book_commodity::{Counted, discard};
use book_ledger::Registers;
use book_match::AmountIndex;
use book_undo::{Edit, Plain};
use std::alloc::Global;

const NUMBERS_LIMIT: u64 = 1 << 62;

/// What a command comes to that breaks no rule: the edit of the book, the next number after it, and the answer, whose
/// balances are left empty.
#[derive(Drop)]
pub struct Step {
    pub edit: Edit,
    pub next: u64,
    pub answer: Answer,
}

impl Step {
    /// The step that leaves the book as it is.
    pub(crate) fn leaving(present: &Present, answer: Answer) -> Step
        ensures { LeavesBy present.now answer result }
    {
        Step {
            edit: Edit::nothing(present.alloc),
            next: present.next,
            answer,
        }
    }

    /// The step of an edit that changes the book and draws so many numbers, and breaks no rule but, it may be, the
    /// limit of numbers.
    pub(crate) fn changing(
        present: &Present,
        drawn: u64,
        edit: Edit,
        answer: Answer,
    ) -> Result<Step, Refusal>
        requires drawn { drawn ≤ 2 ^ 62 }
        requires changes { is_nothing edit ≡ false }
        requires exact { IsSound present.now → IsExact present.now.book edit }
        ensures { ChangesBy present.now edit drawn answer result }
    {
        match check_numbers(present, drawn) {
            Ok(()) => Ok(Step {
                edit,
                next: present.next + drawn,
                answer,
            }),
            Err(rule) => Err(discard(edit, discard(answer, Refusal::Broken(rule)))),
        }
    }
}

/// What a change comes to that is asked of a book with this next number and this version, all of which stay as they
/// are. It is broken with the first rule in its order that it breaks; else it is done by the step, whose edit has a
/// leaf for each key at which the book becomes different and for no other. The version is the same after it if the edit
/// changes nothing, and one more if not. The answer is whole but for its balances. Out of memory where there is none
/// for texts, for the edit or for the answer. Whether the change is for this version is asked by `check_version`. The
/// registers are those of the book, and the index holds exactly its splits that may be matched.
///
/// Whatever the change is, the edit leaves each bank statement of the book as it is, and each of their lines but for
/// what became of it. An import of a file that is all in the book changes nothing.
pub fn step_of(
    alloc: Global,
    plain: &Plain,
    next: u64,
    version: u64,
    registers: &Registers,
    index: &AmountIndex,
    update: Update,
) -> Result<Step, Refusal>
    requires sound { IsSound (state_of plain.now next version) }
    requires registers { Keeps registers.now.entries (book_of plain.now) }
    requires index { index.now.entries ≡ free_splits (book_of plain.now) }
    ensures steps { StepsTo (state_of plain.now next version)
        (outcome (state_of plain.now next version) update) result }
    ensures lines { IfOk result (λ step. KeepsLines (book_of plain.now) (edited step.edit (book_of plain.now))) }
    ensures statements { IfOk result (λ step.
        KeepsStatements (book_of plain.now) (edited step.edit (book_of plain.now))) }
    ensures leaves { (format : FileFormat) (text : List ℕ) (given : Option ℕ) → update ≡ Import format text given
        → HasFile (book_of plain.now) format text given → IfOk result (λ step. is_nothing step.edit ≡ true) }
{
    let present = &Present {
        alloc,
        plain,
        next,
        version,
    };
    step_at(present, registers, index, update)
}

/// What a change comes to that is asked of the present state.
fn step_at(
    present: &Present,
    registers: &Registers,
    index: &AmountIndex,
    update: Update,
) -> Result<Step, Refusal>
    requires registers { Keeps registers.now.entries present.now.book }
    requires index { index.now.entries ≡ free_splits present.now.book }
    ensures { StepsTo present.now (outcome present.now update) result }
{
    match update {
        Update::BookCurrency { commodity } => book_currency(present, commodity),
        Update::CommodityAdd { commodity } => commodity_add(present, commodity),
        Update::AccountAdd { account } => account_add(present, account),
        Update::AccountEdit { account, given } => account_edit(present, account, given),
        Update::AccountDrop { account } => account_drop(present, account),
        Update::Post { day, given } => post(present, day, given),
        Update::Edit {
            transaction,
            force,
            day,
            given,
        } => edit(present, transaction, force, day, given),
        Update::Drop { transaction, force } => drop(present, transaction, force),
        Update::Void {
            transaction,
            reason,
            force,
        } => void(present, transaction, reason, force),
        Update::Unvoid { transaction } => unvoid(present, transaction),
        Update::PriceSet { price } => price_set(present, price),
        Update::PriceDrop { price } => price_drop(present, price),
        Update::ScheduleAdd { given } => schedule_add(present, given),
        Update::ScheduleDrop { schedule } => schedule_drop(present, schedule),
        Update::ScheduleRun { upto, schedule } => schedule_run(present, upto, schedule),
        Update::LineAdd {
            line,
            others,
            description,
        } => line_add(present, line, others, description),
        Update::Bind { binding } => bind(present, binding),
        Update::LineDismiss { line } => line_dismiss(present, line),
        Update::LineReopen { line } => line_reopen(present, line),
        Update::Import {
            format,
            text,
            account,
        } => import_file(present, format, text, account),
        Update::Mark {
            split,
            cleared,
            force,
        } => mark(present, split, cleared, force),
        Update::LineMatch { line, split } => line_match(present, line, split),
        Update::MatchAuto { account, window } => match_auto(present, index, account, window),
        Update::Reconcile {
            account,
            day,
            closing,
        } => reconcile(present, registers, account, day, closing),
        Update::ReconcileStatement { statement } => {
            reconcile_statement(present, registers, statement)
        }
    }
}

/// A command may be for one version alone. Where that is another than the present one it breaks `Stale`, before all
/// other rules.
pub fn check_version(version: u64, at: Option<u64>) -> Result<(), Rule>
    ensures { ReportsFirst (stale version at ∷ []) result }
{
    match at {
        Some(at) if at != version => Err(Rule::Stale { now: version }),
        _ => Ok(()),
    }
}

/// So many more numbers of things, and one more version, stay below the limit of numbers.
fn check_numbers(present: &Present, drawn: u64) -> Result<(), Rule>
    requires { drawn ≤ 2 ^ 62 }
    ensures { ReportsFirst (numbers present.now drawn ∷ []) result }
{
    if present.next + drawn >= NUMBERS_LIMIT || present.version + 1 >= NUMBERS_LIMIT {
        return Err(Rule::Limit {
            which: Counted::Numbers,
            at: NUMBERS_LIMIT,
        });
    }
    Ok(())
}
