ghost use Rattle.std.specs.Prelude.{◌≡◌};
ghost use Rattle.std.specs.List.{list_all};
ghost use Rattle.book_sound.specs.ScheduleRules.{has_multiplier, has_occurrences, is_blank, schedule_rules};
ghost use Rattle.book_sound.specs.Tests.{is_within};
ghost use Rattle.book_broken.specs.Broken.{broken_in};
ghost use Rattle.book_broken.specs.Names.{schedule_names};

use crate::BrokenRule;
use book_accounts::Tree;
use book_commodity::{Commodities, Table};
use book_schedule::{End, Recurrence};
use book_splits::{Mark, Split, check_txn};
use book_undo::Schedule;

/// The rule that the schedule under the number breaks, if a schedule is there.
pub(crate) fn in_schedules(
    commodities: &Commodities,
    accounts: &Tree,
    schedules: &Table<Schedule>,
    number: u64,
) -> Option<BrokenRule>
    ensures { result ≡ broken_in (schedule_rules commodities.now.entries accounts.now.entries)
        (schedule_names commodities.now.entries accounts.now.entries) number schedules.now.entries }
{
    let Some(schedule) = schedules.find(number) else {
        return None;
    };
    let recurrences = schedule.timing.recurrences.as_slice();
    if !have_multipliers(recurrences) {
        return Some(BrokenRule::Multiplier);
    }
    if !is_count(recurrences.len()) {
        return Some(BrokenRule::RecurrenceCount);
    }
    if !has_occurrences(schedule.timing.end) {
        return Some(BrokenRule::NoOccurrence);
    }
    if schedule.timing.advance > 366 {
        return Some(BrokenRule::Advance);
    }
    if let Err(rule) = check_txn(commodities, accounts, &schedule.template) {
        return Some(BrokenRule::Transaction(rule));
    }
    if !are_blank(schedule.template.splits.as_slice()) {
        return Some(BrokenRule::TemplateSplit);
    }
    if schedule.template.voided.is_some() {
        return Some(BrokenRule::TemplateVoided);
    }
    Some(BrokenRule::TooMany)
}

/// Whether each recurrence goes on by 1 to 10,000 at a time.
fn have_multipliers(recurrences: &[Recurrence]) -> bool
    ensures { result ≡ list_all has_multiplier recurrences.now }
{
    recurrences.iter().all(has_multiplier)
}

/// Whether the recurrence goes on by 1 to 10,000 at a time.
fn has_multiplier(recurrence: &Recurrence) -> bool
    ensures { result ≡ has_multiplier recurrence.now }
{
    recurrence.every >= 1 && recurrence.every <= 10_000
}

/// Whether a schedule may have so many recurrences.
fn is_count(count: usize) -> bool
    ensures { result ≡ is_within 1 12 count }
{
    count >= 1 && count <= 12
}

/// Whether the end leaves room for an occurrence.
fn has_occurrences(end: End) -> bool
    ensures { result ≡ has_occurrences end }
{
    match end {
        End::Never | End::Until(_) => true,
        End::After(count) => count > 0,
    }
}

/// Whether each split of a template is none of the book.
fn are_blank(splits: &[Split]) -> bool
    ensures { result ≡ list_all is_blank splits.now }
{
    splits.iter().all(is_blank)
}

/// Whether the split has no number, and is unmarked.
fn is_blank(split: &Split) -> bool
    ensures { result ≡ is_blank split.now }
{
    split.id == 0 && split.mark == Mark::New && split.recon.is_none()
}
