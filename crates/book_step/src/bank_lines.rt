ghost use Rattle.std.specs.Prelude.{◌≡◌, [], ◌∷◌, Some, IfOk};
ghost use Rattle.book_commodity.specs.Rules.{ReportsFirst};
ghost use Rattle.book_commodity.specs.Table.{value_of};
ghost use Rattle.book_undo.specs.declared.edit.Edit.{Put};
ghost use Rattle.book_undo.specs.declared.thing.Thing.TheVariants as thing;
ghost use Rattle.book_step.specs.BankLines.{in_state, is_open, line_dismiss, line_reopen, line_taken, unknown_line};
ghost use Rattle.book_step.specs.Outcome.{StepsTo};

use crate::present::Present;
use crate::{Answer, Refusal, Rule, Step};
use book_commodity::{Kind, OutOfMemory};
use book_statement::{Line, LineState};
use book_undo::{Edit, Thing};

/// The open line of this number is dismissed.
pub(crate) fn line_dismiss(present: &Present, number: u64) -> Result<Step, Refusal>
    ensures { StepsTo present.now (line_dismiss present.now number) result }
{
    let line = known(present, number)?;
    check_open(number, line)?;
    let edit = put_in_state(number, line, LineState::Dismissed)?;
    Step::changing(present, 0, edit, Answer::LineDismiss)
}

/// The line of this number is open again.
pub(crate) fn line_reopen(present: &Present, number: u64) -> Result<Step, Refusal>
    ensures { StepsTo present.now (line_reopen present.now number) result }
{
    let line = known(present, number)?;
    if is_open(line) {
        return Ok(Step::leaving(present, Answer::LineReopen));
    }
    let edit = put_in_state(number, line, LineState::Open)?;
    Step::changing(present, 0, edit, Answer::LineReopen)
}

/// The line of this number, which is one of the book's.
pub(crate) fn known<'a>(present: &Present<'a>, number: u64) -> Result<&'a Line, Rule>
    ensures there { IfOk result (λ line. value_of number present.now.book.lines ≡ Some line.now) }
    ensures unknown { ReportsFirst (unknown_line present.now.book.lines number ∷ []) result }
{
    match present.plain.lines.find(number) {
        Some(line) => Ok(line),
        None => Err(Rule::Unknown {
            kind: Kind::Line,
            id: number,
        }),
    }
}

/// The line of this number is open.
pub(crate) fn check_open(number: u64, line: &Line) -> Result<(), Rule>
    ensures { ReportsFirst (line_taken number line.now ∷ []) result }
{
    if is_open(line) {
        Ok(())
    } else {
        Err(Rule::LineTaken { line: number })
    }
}

/// Whether the line is neither matched with a split nor dismissed.
pub(crate) fn is_open(line: &Line) -> bool
    ensures { result ≡ is_open line.now.state }
{
    match line.state {
        LineState::Open => true,
        LineState::Matched(_) | LineState::Dismissed => false,
    }
}

/// The edit that puts the line in another state in the place of the line of this number.
fn put_in_state(number: u64, line: &Line, state: LineState) -> Result<Edit, OutOfMemory>
    ensures { IfOk result (λ edit. edit ≡ Put number (thing.Line (in_state line.now state))) }
{
    let line = Line {
        state,
        ..line.copy()?
    };
    Ok(Edit::Put(number, Thing::Line(line)))
}
