ghost use Rattle.std.specs.Prelude.{◌≡◌, ◌≢◌, ◌+◌, ◌*◌, ◌<◌, ◌≤◌, ◌^◌, [], ◌∷◌, ◌++◌, None, IfOk, List, Option, length};
ghost use Rattle.book_commodity.specs.Rules.{ReportsFirst, first_broken};
ghost use Rattle.book_commodity.specs.Table.{Rises};
ghost use Rattle.book_command.specs.declared.rule.Rule.{Rule as BrokenRule};
ghost use Rattle.book_splits.specs.Balance.{splits_of};
ghost use Rattle.book_undo.specs.Book.{book_of};
ghost use Rattle.book_step.specs.Outcome.{StepsTo};
ghost use Rattle.book_step.specs.Soundness.{IsSound};
ghost use Rattle.book_step.specs.ScheduleRuns.{HasMade, asked, asked_rules, drawn_by, drawn_of, drawn_on, last_day_of};
ghost use Rattle.book_step.specs.ScheduleRuns.{made_by, made_on, made_split, made_splits, made_transaction, ran};
ghost use Rattle.book_step.specs.ScheduleRuns.{ran_by};
ghost use Rattle.book_step.specs.ScheduleRuns.{schedule_edits, schedule_run, schedule_run_of, too_many_made};
ghost use Rattle.book_step.specs.ScheduleRuns.{too_many_splits_made};
ghost use Rattle.book_step.specs.Schedules.{Finds, runs_of};
ghost use Rattle.book_step.specs.ScheduleRuns.{AreRuns, MadeBelow};

use crate::due_schedules::{Run, add_run, runs_of};
use crate::posting::MAX_SPLITS;
use crate::present::Present;
use crate::{Answer, Refusal, Rule, Step};
use book_commodity::{Counted, Day, Kind, Many, OutOfMemory};
use book_schedule::Timing;
use book_splits::{Mark, Split, Txn};
use book_undo::{Edit, Plain, Schedule, Thing};
use std::alloc::Global;

const MAX_TRANSACTIONS: usize = 200_000;

/// The transactions that are due up to the day are made, of all schedules or of the one of this number, in order of the
/// schedules and of the days. Each draws its number, and then those of its splits. It is one change of the book.
pub(crate) fn schedule_run(present: &Present, upto: Day, only: Option<u64>) -> Result<Step, Refusal>
    ensures { StepsTo present.now (schedule_run present.now upto only) result }
{
    let runs = match asked_runs(present, upto, only) {
        Ok(runs) => runs,
        Err(refusal) => return Err(refusal),
    };
    if runs.is_empty() {
        let answer = Answer::ScheduleRun {
            transactions: Many::new(present.alloc),
        };
        return Ok(Step::leaving(present, answer));
    }
    run_all(present, runs.as_slice())
}

/// The schedules that are asked for and have a day that is due, with these days.
fn asked_runs<'a>(
    present: &Present<'a>,
    upto: Day,
    only: Option<u64>,
) -> Result<Many<Run<'a>>, Refusal>
    ensures { Finds (asked_rules present.now upto only)
        (λ runs. runs ≡ runs_of upto (asked only present.now.book.schedules)) result }
{
    let schedules = &present.plain.schedules;
    let Some(number) = only else {
        return runs_of(present.alloc, schedules.as_slice(), upto);
    };
    let Some(schedule) = schedules.find(number) else {
        return Err(Refusal::Broken(Rule::Unknown {
            kind: Kind::Schedule,
            id: number,
        }));
    };
    let mut runs = Many::new(present.alloc);
    add_run(present.alloc, &mut runs, number, schedule, upto)?;
    Ok(runs)
}

/// A run of these schedules, each of which has a day that is due.
fn run_all(present: &Present, runs: &[Run]) -> Result<Step, Refusal>
    requires some { runs.now ≢ [] }
    requires runs { IsSound present.now → AreRuns present.now.book.schedules runs.now }
    requires rise { IsSound present.now → Rises (ran_by runs.now) }
    ensures { (rules : List (Option BrokenRule)) → first_broken rules ≡ None
        → StepsTo present.now (schedule_run_of present.now rules runs.now) result }
{
    check_counts(present.plain, runs)?;
    let mut making = Making {
        alloc: present.alloc,
        edits: Many::new(present.alloc),
        numbers: Many::new(present.alloc),
        next: present.next,
    };
    making.make_all(runs)?;
    let Making {
        alloc: _,
        edits,
        numbers,
        next,
    } = making;
    let edit = Edit::All(with_schedules(edits, runs)?);
    let answer = Answer::ScheduleRun {
        transactions: numbers,
    };
    Step::changing(present, next - present.next, edit, answer)
}

/// The book has room for the transactions that these schedules make, and for their splits.
fn check_counts(plain: &Plain, runs: &[Run]) -> Result<(), Rule>
    requires transactions { length plain.now.transactions.entries ≤ 200_000 }
    requires splits { length (splits_of plain.now.transactions.entries) ≤ 1_000_000 }
    ensures { ReportsFirst (too_many_made (book_of plain.now) runs.now
        ∷ too_many_splits_made (book_of plain.now) runs.now ∷ []) result }
{
    check_transactions(plain, runs)?;
    check_splits(plain, runs)
}

/// The book has room for the transactions that these schedules make.
fn check_transactions(plain: &Plain, runs: &[Run]) -> Result<(), Rule>
    requires { length plain.now.transactions.entries ≤ 200_000 }
    ensures { ReportsFirst (too_many_made (book_of plain.now) runs.now ∷ []) result }
{
    let mut room = MAX_TRANSACTIONS - plain.transactions.len();
    for run in runs {
        let count = run.days.len();
        if count > room {
            return Err(Rule::Limit {
                which: Counted::Transactions,
                at: MAX_TRANSACTIONS as u64,
            });
        }
        room -= count;
    }
    Ok(())
}

/// The book has room for the splits of the transactions that these schedules make.
fn check_splits(plain: &Plain, runs: &[Run]) -> Result<(), Rule>
    requires { length (splits_of plain.now.transactions.entries) ≤ 1_000_000 }
    ensures { ReportsFirst (too_many_splits_made (book_of plain.now) runs.now ∷ []) result }
{
    let mut room = u128::from(MAX_SPLITS - plain.transactions.count_splits());
    for run in runs {
        let count = splits_made(run);
        if count > room {
            return Err(Rule::Limit {
                which: Counted::Splits,
                at: MAX_SPLITS,
            });
        }
        room -= count;
    }
    Ok(())
}

/// How many splits the transactions of a schedule have.
fn splits_made(run: &Run) -> u128
    ensures { result ≡ length run.now.days * length run.now.schedule.template.splits }
{
    run.days.len() as u128 * run.schedule.template.splits.len() as u128
}

/// What is made on the way of a run: the edits so far, the numbers of their transactions, and the next number.
#[derive(Drop)]
struct Making {
    alloc: Global,
    edits: Many<Edit>,
    numbers: Many<u64>,
    next: u64,
}

impl Making {
    /// Makes the transactions of these schedules, one schedule after another.
    fn make_all(&mut self, runs: &[Run]) -> Result<(), OutOfMemory>
        requires { self.old.next + drawn_by runs.now < 2 ^ 63 }
        ensures { IfOk result (λ _. HasMade self.old (made_by self.old.next runs.now)
            (self.old.next + drawn_by runs.now) self.new) }
    {
        for run in runs {
            self.make_days(run)?;
        }
        Ok(())
    }

    /// Makes the transactions of a schedule, one for each of its days.
    fn make_days(&mut self, run: &Run) -> Result<(), OutOfMemory>
        requires { self.old.next + drawn_on run.now < 2 ^ 63 }
        ensures { IfOk result (λ _. HasMade self.old
            (made_on self.old.next run.now.schedule.template run.now.days)
            (self.old.next + drawn_on run.now) self.new) }
    {
        for day in run.days.as_slice() {
            self.make(&run.schedule.template, *day)?;
        }
        Ok(())
    }

    /// Makes a transaction of the template on the day.
    fn make(&mut self, template: &Txn, day: Day) -> Result<(), OutOfMemory>
        requires { self.old.next + drawn_of template.now < 2 ^ 63 }
        ensures { IfOk result (λ _. HasMade self.old
            ((self.old.next, made_transaction self.old.next day template.now) ∷ [])
            (self.old.next + drawn_of template.now) self.new) }
    {
        let number = self.next;
        let transaction = made_transaction(self.alloc, number, day, template)?;
        self.edits.push(Edit::Put(number, Thing::Txn(transaction)))?;
        self.numbers.push(number)?;
        self.next = number + 1 + template.splits.len() as u64;
        Ok(())
    }
}

/// The transaction that is made of a template on a day draws its number, the next for its first split, and so on.
fn made_transaction(
    alloc: Global,
    number: u64,
    day: Day,
    template: &Txn,
) -> Result<Txn, OutOfMemory>
    requires { number + drawn_of template.now < 2 ^ 63 }
    ensures { IfOk result (λ transaction. transaction ≡ made_transaction number day template.now) }
{
    Ok(Txn {
        currency: template.currency,
        day,
        num: template.num.copy()?,
        description: template.description.copy()?,
        splits: made_splits(alloc, number + 1, template.splits.as_slice())?,
        voided: None,
    })
}

/// The splits that are made of a template's, of which the first gets the number.
fn made_splits(alloc: Global, number: u64, splits: &[Split]) -> Result<Many<Split>, OutOfMemory>
    requires { number + length splits.now < 2 ^ 63 }
    ensures { IfOk result (λ made. made ≡ made_splits number splits.now) }
{
    let mut made = Many::new(alloc);
    let mut next = number;
    for split in splits {
        made.push(made_split(next, split)?)?;
        next += 1;
    }
    Ok(made)
}

/// The split that is made of one of a template is new, and of no reconciliation.
fn made_split(number: u64, split: &Split) -> Result<Split, OutOfMemory>
    ensures { IfOk result (λ made. made ≡ made_split number split.now) }
{
    Ok(Split {
        id: number,
        account: split.account,
        memo: split.memo.copy()?,
        action: split.action.copy()?,
        mark: Mark::New,
        recon: None,
        value: split.value,
        quantity: split.quantity,
    })
}

/// These edits, and behind them those that put the schedules which made transactions.
fn with_schedules(edits: Many<Edit>, runs: &[Run]) -> Result<Many<Edit>, OutOfMemory>
    requires { MadeBelow (2 ^ 63) runs.now }
    ensures { IfOk result (λ all. all ≡ edits ++ schedule_edits (ran_by runs.now)) }
{
    let mut edits = edits;
    for run in runs {
        edits.push(Edit::Put(run.number, Thing::Schedule(ran(run)?)))?;
    }
    Ok(edits)
}

/// The schedule after its transactions are made on these days.
fn ran(run: &Run) -> Result<Schedule, OutOfMemory>
    requires { run.now.schedule.timing.made + length run.now.days < 2 ^ 63 }
    ensures { IfOk result (λ schedule. schedule ≡ ran run.now) }
{
    let Schedule {
        name,
        timing,
        template,
    } = run.schedule.copy()?;
    let timing = Timing {
        last: last_of(timing.last, run.days.as_slice()),
        made: timing.made + run.days.len() as u64,
        ..timing
    };
    Ok(Schedule {
        name,
        timing,
        template,
    })
}

/// The last of the days, or the one given where there is none.
fn last_of(given: Option<Day>, days: &[Day]) -> Option<Day>
    ensures { result ≡ last_day_of given days.now }
{
    match days.last() {
        Some(day) => Some(*day),
        None => given,
    }
}
