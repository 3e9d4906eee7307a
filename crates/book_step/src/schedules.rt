ghost use Rattle.std.specs.Prelude.{◌≡◌, ◌∷◌, [], IfOk, map};
ghost use Rattle.book_commodity.specs.Rules.{ReportsFirst};
ghost use Rattle.book_sound.specs.ScheduleRules.{has_occurrences};
ghost use Rattle.book_step.specs.Outcome.{StepsTo};
ghost use Rattle.book_step.specs.Posting.{new_split};
ghost use Rattle.book_step.specs.Schedules.{add_rules, entry_rules, has_shape, multiplier_rule};
ghost use Rattle.book_step.specs.Schedules.{multipliers, range_rule};
ghost use Rattle.book_step.specs.Schedules.{new_schedule, schedule_add, schedule_drop, schedule_put, shape_rules};
ghost use Rattle.book_step.specs.Schedules.{template};
ghost use Rattle.book_step.specs.Schedules.{too_many_schedules, unknown_schedule};

use crate::posting::{check_transaction, new_split};
use crate::present::Present;
use crate::{Answer, GivenSchedule, GivenSplit, GivenTxn, Refusal, Rule, Step};
use book_commodity::{Counted, Day, Kind, Many, OutOfMemory, Table};
use book_schedule::{End, Recurrence, Timing};
use book_splits::{Split, Txn};
use book_undo::{Edit, Schedule, Thing, ThingKind};
use std::alloc::Global;

const MAX_SCHEDULES: usize = 1_000;

const MAX_RECURRENCES: usize = 12;

const MAX_MULTIPLIER: u32 = 10_000;

const MAX_ADVANCE: u32 = 366;

/// The schedule stands in the book, under the next number. Its template is of the day on which the first recurrence
/// starts.
pub(crate) fn schedule_add(present: &Present, given: GivenSchedule) -> Result<Step, Refusal>
    ensures { StepsTo present.now (schedule_add present.now given) result }
{
    let Some(first) = given.recurrences.as_slice().first() else {
        return Err(Refusal::Broken(Rule::RecurrenceShape { place: 0 }));
    };
    let day = first.start;
    let schedule = new_schedule(present.alloc, day, given)?;
    add_new(present, schedule)
}

/// The new schedule stands in the book, under the next number.
fn add_new(present: &Present, schedule: Schedule) -> Result<Step, Refusal>
    ensures { StepsTo present.now (schedule_put present.now schedule) result }
{
    check_new(present, &schedule)?;
    let number = present.next;
    let edit = Edit::Put(number, Thing::Schedule(schedule));
    Step::changing(present, 1, edit, Answer::ScheduleAdd { schedule: number })
}

/// A new schedule keeps its rules, and the book has room for it.
fn check_new(present: &Present, schedule: &Schedule) -> Result<(), Rule>
    ensures { ReportsFirst (add_rules present.now.book schedule.now) result }
{
    check_shape(&schedule.timing)?;
    check_entry(present, schedule)
}

/// The template of a new schedule keeps the rules of transactions, and the book has room for the schedule.
fn check_entry(present: &Present, schedule: &Schedule) -> Result<(), Rule>
    ensures { ReportsFirst (entry_rules present.now.book schedule.now) result }
{
    check_transaction(present.plain, &schedule.template)?;
    check_room(&present.plain.schedules)
}

/// The recurrences, the end and the days in advance are in their ranges.
fn check_shape(timing: &Timing) -> Result<(), Rule>
    ensures { ReportsFirst (shape_rules timing.now) result }
{
    check_multipliers(timing.recurrences.as_slice())?;
    check_ranges(timing)
}

/// The count of the recurrences, the end and the days in advance are in their ranges.
fn check_ranges(timing: &Timing) -> Result<(), Rule>
    ensures { ReportsFirst (range_rule timing.now ∷ []) result }
{
    if !has_shape(timing) {
        return Err(Rule::RecurrenceShape {
            place: timing.recurrences.len() as u64,
        });
    }
    Ok(())
}

/// Each recurrence steps on by a number in its range.
fn check_multipliers(recurrences: &[Recurrence]) -> Result<(), Rule>
    ensures { ReportsFirst (multipliers 0 recurrences.now) result }
{
    for (place, recurrence) in recurrences.iter().enumerate() {
        check_multiplier(place, recurrence)?;
    }
    Ok(())
}

/// The recurrence at a place steps on by a number in its range.
fn check_multiplier(place: usize, recurrence: &Recurrence) -> Result<(), Rule>
    ensures { ReportsFirst (multiplier_rule place recurrence.now ∷ []) result }
{
    if recurrence.every < 1 || recurrence.every > MAX_MULTIPLIER {
        return Err(Rule::RecurrenceShape {
            place: place as u64,
        });
    }
    Ok(())
}

/// Whether the count of the recurrences, the end and the days in advance are in their ranges.
fn has_shape(timing: &Timing) -> bool
    ensures { result ≡ has_shape timing.now }
{
    let count = timing.recurrences.len();
    count >= 1
        && count <= MAX_RECURRENCES
        && has_occurrences(&timing.end)
        && timing.advance <= MAX_ADVANCE
}

/// Whether the end leaves room for an occurrence.
fn has_occurrences(end: &End) -> bool
    ensures { result ≡ has_occurrences end.now }
{
    match end {
        End::After(count) => *count > 0,
        End::Never | End::Until(_) => true,
    }
}

/// The book has room for one schedule more.
fn check_room(schedules: &Table<Schedule>) -> Result<(), Rule>
    ensures { ReportsFirst (too_many_schedules schedules.now.entries ∷ []) result }
{
    if schedules.len() >= MAX_SCHEDULES {
        return Err(Rule::Limit {
            which: Counted::Schedules,
            at: MAX_SCHEDULES as u64,
        });
    }
    Ok(())
}

/// A new schedule with a template of the day: nothing is made yet.
fn new_schedule(alloc: Global, day: Day, given: GivenSchedule) -> Result<Schedule, OutOfMemory>
    ensures { IfOk result (λ schedule. schedule ≡ new_schedule day given) }
{
    let timing = Timing {
        recurrences: given.recurrences,
        end: given.end,
        advance: given.advance,
        last: None,
        made: 0,
    };
    Ok(Schedule {
        name: given.name,
        timing,
        template: template(alloc, day, given.template)?,
    })
}

/// The transaction of a schedule, as the schedule keeps it.
fn template(alloc: Global, day: Day, given: GivenTxn) -> Result<Txn, OutOfMemory>
    ensures { IfOk result (λ transaction. transaction ≡ template day given) }
{
    Ok(Txn {
        currency: given.currency,
        day,
        num: given.num,
        description: given.description,
        splits: template_splits(alloc, given.splits)?,
        voided: None,
    })
}

/// The splits of a template, which have no numbers yet.
fn template_splits(alloc: Global, given: Many<GivenSplit>) -> Result<Many<Split>, OutOfMemory>
    ensures { IfOk result (λ splits. splits ≡ map (new_split 0) given) }
{
    let mut splits = Vec::new(alloc);
    for split in given.into_vec() {
        splits.push(new_split(0, split))?;
    }
    Ok(Many::of(splits))
}

/// The schedule of this number is deleted.
pub(crate) fn schedule_drop(present: &Present, number: u64) -> Result<Step, Refusal>
    ensures { StepsTo present.now (schedule_drop present.now number) result }
{
    check_there(&present.plain.schedules, number)?;
    let edit = Edit::Gone(ThingKind::Schedule, number);
    Step::changing(present, 0, edit, Answer::ScheduleDrop)
}

/// The schedule of this number is one of the book's.
fn check_there(schedules: &Table<Schedule>, number: u64) -> Result<(), Rule>
    ensures { ReportsFirst (unknown_schedule schedules.now.entries number ∷ []) result }
{
    match schedules.find(number) {
        Some(_) => Ok(()),
        None => Err(Rule::Unknown {
            kind: Kind::Schedule,
            id: number,
        }),
    }
}
