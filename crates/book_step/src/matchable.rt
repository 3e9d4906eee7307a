ghost use Rattle.std.specs.Prelude.{◌≡◌, ◌++◌, ◌∷◌, [], IfOk};
ghost use Rattle.book_step.specs.Matchable.{line_view, open_lines};

use crate::bank_lines::is_open;
use book_commodity::OutOfMemory;
use book_match::LineView;
use book_statement::Line;
use std::alloc::Global;

/// The open lines of the account, as they are matched.
pub(crate) fn open_lines(
    alloc: Global,
    lines: &[(u64, Line)],
    account: u64,
) -> Result<Vec<LineView>, OutOfMemory>
    ensures { IfOk result (λ views. views.items ≡ open_lines account lines.now) }
{
    let mut views = Vec::new(alloc);
    for (number, line) in lines {
        add_open(&mut views, account, *number, line)?;
    }
    Ok(views)
}

/// Adds the line where it is an open one of the account.
fn add_open(
    views: &mut Vec<LineView>,
    account: u64,
    number: u64,
    line: &Line,
) -> Result<(), OutOfMemory>
    ensures { IfOk result (λ _. views.new.items
        ≡ views.old.items ++ open_lines account ((number, line.now) ∷ [])) }
{
    if line.account == account && is_open(line) {
        views.push(line_view(number, line)?)?;
    }
    Ok(())
}

/// The line as it is matched, with its own reference as its number.
fn line_view(number: u64, line: &Line) -> Result<LineView, OutOfMemory>
    ensures { IfOk result (λ view. view ≡ line_view (number, line.now)) }
{
    Ok(LineView {
        line: number,
        day: line.body.day,
        amount: line.body.amount,
        number: line.body.ref_own.copy()?,
    })
}
