ghost use Rattle.std.specs.Prelude.{◌≡◌, IfOk};
ghost use Rattle.std.specs.List.{list_all};
ghost use Rattle.book_sound.specs.ScheduleRules.{has_multiplier, has_occurrences, is_blank, schedule_rules};
ghost use Rattle.book_sound.specs.Tests.{is_within};
ghost use Rattle.book_check.specs.FirstUnsound.{all_hold, first_of_table};

use crate::passes::passes_check;
use crate::walk::{Checked, first_broken};
use book_accounts::Tree;
use book_commodity::{Commodities, OutOfMemory, Table};
use book_schedule::{End, Recurrence};
use book_splits::{Mark, Split};
use book_undo::Schedule;

/// How many schedules a book has at most.
const MOST: usize = 1_000;

/// A walk over schedules.
#[derive(Drop)]
struct ScheduleWalk<'a> {
    commodities: &'a Commodities,
    accounts: &'a Tree,
    schedules: &'a Table<Schedule>,
}

impl<'a> Checked for ScheduleWalk<'a> {
    ghost use Rattle.std.specs.Prelude.{⊤};

    type Thing = Schedule;

    ghost entries = { λ w. w.schedules.now.entries };

    ghost rules = { λ w. schedule_rules w.commodities.now.entries w.accounts.now.entries };

    ghost knows = { λ _ _. ⊤ };

    fn count(&self) -> usize {
        self.schedules.len()
    }

    fn number_at(&self, place: usize) -> u64 {
        self.schedules.number_at(place)
    }

    fn keeps(&mut self, place: usize) -> Result<bool, OutOfMemory> {
        let schedule = self.schedules.value_at(place);
        Ok(keeps_rules(self.commodities, self.accounts, schedule))
    }
}

/// The first number at which a schedule breaks a rule of its kind, or is one too many.
pub(crate) fn first_schedule(
    commodities: &Commodities,
    accounts: &Tree,
    schedules: &Table<Schedule>,
) -> Result<Option<u64>, OutOfMemory>
    ensures { IfOk result (λ found. found ≡ first_of_table
        (schedule_rules commodities.now.entries accounts.now.entries) 1000 schedules.now.entries) }
{
    let walk = ScheduleWalk {
        commodities,
        accounts,
        schedules,
    };
    first_broken(walk, MOST)
}

/// Whether the schedule keeps its rules, whatever its number.
fn keeps_rules(commodities: &Commodities, accounts: &Tree, schedule: &Schedule) -> bool
    ensures { (number : _)
        → result ≡ all_hold (schedule_rules commodities.now.entries accounts.now.entries number schedule.now) }
{
    let recurrences = schedule.timing.recurrences.as_slice();
    have_multipliers(recurrences)
        && is_count(recurrences.len())
        && has_occurrences(schedule.timing.end)
        && schedule.timing.advance <= 366
        && passes_check(commodities, accounts, &schedule.template)
        && are_blank(schedule.template.splits.as_slice())
        && schedule.template.voided.is_none()
}

/// Whether each recurrence goes on by 1 to 10,000 at a time.
fn have_multipliers(recurrences: &[Recurrence]) -> bool
    ensures { result ≡ list_all has_multiplier recurrences.now }
{
    recurrences.iter().all(has_multiplier)
}

/// Whether the recurrence goes on by 1 to 10,000 at a time.
fn has_multiplier(recurrence: &Recurrence) -> bool
    ensures { result ≡ has_multiplier recurrence.now }
{
    recurrence.every >= 1 && recurrence.every <= 10_000
}

/// Whether a schedule may have so many recurrences.
fn is_count(count: usize) -> bool
    ensures { result ≡ is_within 1 12 count }
{
    count >= 1 && count <= 12
}

/// Whether the end leaves room for an occurrence.
fn has_occurrences(end: End) -> bool
    ensures { result ≡ has_occurrences end }
{
    match end {
        End::Never | End::Until(_) => true,
        End::After(count) => count > 0,
    }
}

/// Whether each split of a template is none of the book.
fn are_blank(splits: &[Split]) -> bool
    ensures { result ≡ list_all is_blank splits.now }
{
    splits.iter().all(is_blank)
}

/// Whether the split has no number, and is unmarked.
fn is_blank(split: &Split) -> bool
    ensures { result ≡ is_blank split.now }
{
    split.id == 0 && split.mark == Mark::New && split.recon.is_none()
}
