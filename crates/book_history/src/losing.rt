ghost use Rattle.std.specs.Prelude.{◌≡◌};
ghost use Rattle.std.specs.Option.{option_copied};
ghost use Rattle.book_sound.specs.Dismissal.{is_lost_split, loses_split, stays_as};
ghost use Rattle.book_sound.specs.LineRules.{split_among};
ghost use Rattle.book_history.specs.Leaving.{none_loses};

use book_commodity::Table;
use book_splits::{Mark, Split};
use book_statement::{Line, LineState};

/// Whether no line loses the split that it is matched with, where the new splits stand in the place of the old ones.
pub(crate) fn none_loses(lines: &Table<Line>, old: &[Split], new: &[Split]) -> bool
    ensures { result ≡ none_loses old.now new.now lines.now.entries }
{
    let mut entries = lines.as_slice().iter();
    entries.all(|(_, line)| !loses_split(old, new, line))
}

/// Whether the line is matched with a split that is lost.
fn loses_split(old: &[Split], new: &[Split], line: &Line) -> bool
    ensures { result ≡ loses_split old.now new.now line.now }
{
    match line.state {
        LineState::Matched(number) => is_lost_split(
            find_split(old, number),
            find_split(new, number),
        ),
        LineState::Open | LineState::Dismissed => false,
    }
}

/// Whether there was a split that is gone, whose account or quantity is another, or that is voided.
fn is_lost_split(old: Option<&Split>, new: Option<&Split>) -> bool
    ensures { result ≡ is_lost_split (option_copied old.entry) (option_copied new.entry) }
{
    match old {
        Some(split) => !stays_as(split, new),
        None => false,
    }
}

/// Whether there is a later split, it has the account and the quantity of this one, and it is not voided.
fn stays_as(split: &Split, new: Option<&Split>) -> bool
    ensures { result ≡ stays_as split.now (option_copied new.entry) }
{
    match new {
        Some(later) => {
            later.account == split.account
                && later.quantity == split.quantity
                && later.mark != Mark::Voided
        }
        None => false,
    }
}

/// The split with the number among these, if there is one.
pub(crate) fn find_split(splits: &[Split], number: u64) -> Option<&Split>
    ensures { option_copied result ≡ split_among number splits.now }
{
    splits.iter().find(|split| split.id == number)
}
