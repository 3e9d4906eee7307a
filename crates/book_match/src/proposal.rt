ghost use Rattle.std.specs.Prelude.{◌≡◌, IfOk};
ghost use Rattle.book_match.specs.Proposal.{proposal};

use crate::nearest::nearest;
use crate::order::in_order;
use crate::{LineView, Matched, SplitView};
use book_commodity::{Many, OutOfMemory};
use std::alloc::Global;
use std::collections::BTreeSet;

/// The pairs of lines and splits, in the order of the lines by day and number. Each line takes one of the splits that
/// no line before it took, with its amount and at most `window` days away: the nearest in days, of those as near one
/// that has the line's number, where the line has one, and of those the one with the least split number.
pub fn propose(
    alloc: Global,
    lines: &[LineView],
    splits: &[SplitView],
    window: u32,
) -> Result<Many<Matched>, OutOfMemory>
    ensures { IfOk result (λ pairs. pairs ≡ proposal window lines.now splits.now) }
{
    let order = in_order(alloc, lines)?;
    let mut taken = BTreeSet::new(alloc);
    let mut pairs = Many::new(alloc);
    for line in order.as_slice() {
        let Some(split) = nearest(line, splits, &taken, window) else {
            continue;
        };
        taken.insert(split.split)?;
        pairs.push(Matched {
            line: line.line,
            split: split.split,
        })?;
    }
    Ok(pairs)
}
