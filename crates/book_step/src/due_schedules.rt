ghost use Rattle.std.specs.Prelude.{◌≡◌, ◌∷◌, ◌++◌, [], All, IfOk};
ghost use Rattle.book_commodity.specs.Day.{IsDay};
ghost use Rattle.book_sound.specs.Soundness.{IsSoundBook};
ghost use Rattle.book_undo.specs.Book.{book_of};
ghost use Rattle.book_command.specs.declared.answer.Answer.TheVariants.{Due as DueAnswer};
ghost use Rattle.book_step.specs.DueDays.{due_days};
ghost use Rattle.book_step.specs.Schedules.{AreTimed, Finds, StepOn, day_rule, day_rules, days_due, days_of_run};
ghost use Rattle.book_step.specs.Schedules.{due_on};
ghost use Rattle.book_step.specs.Schedules.{due_of, runs_of, with_run};

use crate::{Answer, DueDay, Refusal, Rule};
use book_commodity::{Counted, Day, Many, OutOfMemory};
use book_schedule::{DueError, Recurrence, Timing, due};
use book_undo::{Plain, Schedule};
use std::alloc::Global;
use std::marker::Model;

const MAX_DAYS: u64 = 1_000;

/// A schedule under its number, borrowed, with its days that are due.
#[derive(Drop)]
pub(crate) struct Run<'a> {
    pub(crate) number: u64,
    pub(crate) schedule: &'a Schedule,
    pub(crate) days: Many<Day>,
}

impl<'a> Model for Run<'a> {
    ghost use Rattle.book_step.specs.Schedules.{Run};

    ghost Value = { Run };

    ghost view = { λ r. record { number = r.number; schedule = r.schedule.now; days = r.days } };
}

/// The answer that lists the days of all schedules of a sound book that are due up to the day. Refused where a schedule
/// has more than 1,000 of them, and out of memory.
pub fn due_answer(alloc: Global, plain: &Plain, upto: Day) -> Result<Answer, Refusal>
    requires { IsSoundBook (book_of plain.now) }
    ensures { Finds (day_rules upto (book_of plain.now).schedules)
        (λ answer. answer ≡ DueAnswer (due_of (book_of plain.now) upto)) result }
{
    let runs = runs_of(alloc, plain.schedules.as_slice(), upto)?;
    let due = days_due(alloc, runs.as_slice())?;
    Ok(Answer::Due { due })
}

/// The days of these schedules, in order of the schedules and of the days.
fn days_due(alloc: Global, runs: &[Run]) -> Result<Many<DueDay>, OutOfMemory>
    ensures { IfOk result (λ days. days ≡ days_due runs.now) }
{
    let mut due = Many::new(alloc);
    for run in runs {
        add_days(&mut due, run)?;
    }
    Ok(due)
}

/// Adds the days of one schedule.
fn add_days(due: &mut Many<DueDay>, run: &Run) -> Result<(), OutOfMemory>
    ensures { IfOk result (λ _. due.new ≡ due.old ++ days_of_run run.now) }
{
    for day in run.days.as_slice() {
        due.push(DueDay {
            schedule: run.number,
            day: *day,
        })?;
    }
    Ok(())
}

/// The schedules with a day that is due up to the day, in order of their numbers, with these days.
pub(crate) fn runs_of<'a>(
    alloc: Global,
    schedules: &'a [(u64, Schedule)],
    upto: Day,
) -> Result<Many<Run<'a>>, Refusal>
    requires { AreTimed schedules.now }
    ensures { Finds (day_rules upto schedules.now) (λ runs. runs ≡ runs_of upto schedules.now) result }
{
    let mut runs = Many::new(alloc);
    for (number, schedule) in schedules {
        add_run(alloc, &mut runs, *number, schedule, upto)?;
    }
    Ok(runs)
}

/// Adds the schedule of this number where it has a day that is due up to the day.
pub(crate) fn add_run<'a>(
    alloc: Global,
    runs: &mut Many<Run<'a>>,
    number: u64,
    schedule: &'a Schedule,
    upto: Day,
) -> Result<(), Refusal>
    requires { StepOn schedule.now.timing.recurrences }
    ensures { Finds (day_rule upto schedule.now.timing ∷ []) (λ _. runs.new
        ≡ runs.old ++ with_run (number, schedule.now) (due_days schedule.now.timing upto) []) result }
{
    let days = due_days(alloc, &schedule.timing, upto)?;
    if !days.is_empty() {
        runs.push(Run {
            number,
            schedule,
            days,
        })?;
    }
    Ok(())
}

/// The days that are due up to the day, in order.
pub(crate) fn due_days(alloc: Global, timing: &Timing, upto: Day) -> Result<Many<Day>, Refusal>
    requires { StepOn timing.now.recurrences }
    ensures { Finds (day_rule upto timing.now ∷ []) (λ days. days ≡ due_days timing.now upto) result }
{
    start_in_range(timing.recurrences.as_slice());
    match due(alloc, timing, upto) {
        Ok(days) => Ok(days),
        Err(DueError::Limit) => Err(Refusal::Broken(Rule::Limit {
            which: Counted::Days,
            at: MAX_DAYS,
        })),
        Err(DueError::OutOfMemory) => Err(Refusal::OutOfMemory),
    }
}

/// Each recurrence starts on a day of the book's range, as each day lies in it.
fn start_in_range(recurrences: &[Recurrence])
    ensures { All (λ recurrence. IsDay recurrence.start) recurrences.now }
{
    for recurrence in recurrences {
        in_range(recurrence.start);
    }
}

/// A day lies in the book's range.
fn in_range(day: Day)
    ensures { IsDay day }
{
    let _ = day.number();
}
