ghost use Rattle.std.specs.Prelude.{◌≡◌, ◌++◌, [], ◌∷◌, IfOk, OnOk, map};
ghost use Rattle.book_match.specs.Proposal.{in_order};

use crate::LineView;
use book_commodity::OutOfMemory;
use std::alloc::Global;

/// The lines by day, and those of one day by number.
pub(crate) fn in_order<'a>(
    alloc: Global,
    lines: &'a [LineView],
) -> Result<Vec<&'a LineView>, OutOfMemory>
    ensures { IfOk result (λ order. map (λ line. line.now) order.items ≡ in_order lines.now) }
{
    let mut order = Vec::new(alloc);
    for line in lines {
        order.push(line)?;
    }
    sort(&mut order)?;
    Ok(order)
}

/// Sorts lines by day, and those of one day by number.
fn sort(lines: &mut Vec<&LineView>) -> Result<(), OutOfMemory>
    ensures { OnOk result (map (λ line. line.now) lines.new.items ≡ in_order (map (λ line. line.now) lines.old.items)) }
{
    lines.sort_by_key(|line| (line.day.number(), line.line))?;
    Ok(())
}
