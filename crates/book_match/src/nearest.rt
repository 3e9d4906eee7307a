ghost use Rattle.std.specs.Prelude.{◌≡◌, Some};
ghost use Rattle.std.specs.Option.{option_copied};
ghost use Rattle.book_match.specs.Proposal.{choice, distance, is_candidate, is_nearer, nearer, same_number};
ghost use Rattle.book_match.specs.Taken.{left};

use crate::{LineView, SplitView};
use book_commodity::Day;
use std::collections::BTreeSet;

/// How many days lie between two days.
pub(crate) fn distance(one: Day, other: Day) -> u32
    ensures { result ≡ distance one other }
{
    one.number().abs_diff(other.number())
}

/// Whether the split has the line's amount and is at most so many days away.
fn is_candidate(line: &LineView, split: &SplitView, window: u32) -> bool
    ensures { result ≡ is_candidate window line.now split.now }
{
    split.quantity == line.amount && distance(line.day, split.day) <= window
}

/// Whether the split has the line's number, and the line has one.
fn same_number(line: &LineView, split: &SplitView) -> bool
    ensures { result ≡ same_number line.now split.now }
{
    !line.number.is_empty() && split.num.as_str() == line.number.as_str()
}

/// Whether one split is nearer to the line than another: by days, then by number, then by the split's number.
fn is_nearer(line: &LineView, one: &SplitView, other: &SplitView) -> bool
    ensures { result ≡ is_nearer line.now one.now other.now }
{
    let (days, other_days) = (distance(line.day, one.day), distance(line.day, other.day));
    if days != other_days {
        return days < other_days;
    }
    let (same, other_same) = (same_number(line, one), same_number(line, other));
    if same != other_same {
        return same;
    }
    one.split < other.split
}

/// The nearer to the line of a split and the nearest before it, if there was one.
fn nearer<'a>(
    line: &LineView,
    best: Option<&'a SplitView>,
    split: &'a SplitView,
) -> Option<&'a SplitView>
    ensures { option_copied result ≡ Some (nearer line.now (option_copied best.entry) split.now) }
{
    match best {
        Some(best) if !is_nearer(line, split, best) => Some(best),
        _ => Some(split),
    }
}

/// The split that the line takes of those that aren't taken; `None` where there is no candidate left.
pub(crate) fn nearest<'a>(
    line: &LineView,
    splits: &'a [SplitView],
    taken: &BTreeSet<u64>,
    window: u32,
) -> Option<&'a SplitView>
    ensures { option_copied result ≡ choice window line.now (left taken.now splits.now) }
{
    let mut best = None;
    for split in splits {
        if !is_candidate(line, split, window) {
            continue;
        }
        if taken.contains(&split.split) {
            continue;
        }
        best = nearer(line, best, split);
    }
    best
}
