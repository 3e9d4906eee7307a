ghost use Rattle.std.specs.Prelude.{◌≡◌, ◌∷◌, [], IfOk, Some};
ghost use Rattle.book_commodity.specs.Rules.{ReportsFirst};
ghost use Rattle.book_sound.specs.LineRules.{fits_line};
ghost use Rattle.book_step.specs.LineMatching.{is_matched_with, line_amount, line_match, match_rules, pairing_edit};
ghost use Rattle.book_step.specs.LineMatching.{split_taken};
ghost use Rattle.book_step.specs.Outcome.{StepsTo};

use crate::bank_lines::{check_open, known as known_line};
use crate::line_adding::matched_with;
use crate::marking::remarked;
use crate::present::Present;
use crate::same_transaction::is_mark;
use crate::split_search::{Held, known_split};
use crate::voiding::check_holder_not_voided;
use crate::{Answer, Refusal, Rule, Step};
use book_commodity::{Many, OutOfMemory, Table};
use book_splits::{Mark, Split};
use book_statement::{Line, LineState};
use book_undo::{Edit, Thing};
use std::alloc::Global;

/// The open line of this number is matched with the split, which becomes cleared where it was new. Broken where the
/// book has no such line or split, where the split's transaction is voided, where the line isn't open, where a line has
/// the split, and where the split doesn't fit.
pub(crate) fn line_match(present: &Present, number: u64, split: u64) -> Result<Step, Refusal>
    ensures { StepsTo present.now (line_match present.now number split) result }
{
    let line = known_line(present, number)?;
    let held = known_split(present, split)?;
    check_holder_not_voided(present, split, &held)?;
    check_match(present, number, line, split, held.split)?;
    let edit = pairing_edit(present.alloc, number, line, split, &held)?;
    Step::changing(present, 0, edit, Answer::LineMatch)
}

/// The line is open, no line has the split, and the split fits the line.
fn check_match(
    present: &Present,
    number: u64,
    line: &Line,
    wanted: u64,
    split: &Split,
) -> Result<(), Rule>
    ensures { ReportsFirst (match_rules present.now.book.lines number line.now wanted split.now) result }
{
    check_open(number, line)?;
    check_free(&present.plain.lines, wanted)?;
    check_amount(number, line, split)
}

/// None of the lines is matched with the split.
fn check_free(lines: &Table<Line>, split: u64) -> Result<(), Rule>
    ensures { ReportsFirst (split_taken split lines.now.entries ∷ []) result }
{
    for (number, line) in lines.as_slice() {
        if is_matched_with(line, split) {
            return Err(Rule::LineTaken { line: *number });
        }
    }
    Ok(())
}

/// Whether the line is matched with the split.
fn is_matched_with(line: &Line, split: u64) -> bool
    ensures { result ≡ is_matched_with split line.now }
{
    match line.state {
        LineState::Matched(number) => number == split,
        LineState::Open | LineState::Dismissed => false,
    }
}

/// The split stands in the line's account, has the line's amount as its quantity, and is not voided.
fn check_amount(number: u64, line: &Line, split: &Split) -> Result<(), Rule>
    ensures { ReportsFirst (line_amount number line.now split.now ∷ []) result }
{
    if fits_line(line, split) {
        Ok(())
    } else {
        Err(Rule::LineAmount { line: number })
    }
}

/// Whether the split stands in the line's account, has the line's amount as its quantity, and is not voided.
fn fits_line(line: &Line, split: &Split) -> bool
    ensures { result ≡ fits_line line.now (Some split.now) }
{
    split.account == line.account
        && split.quantity == line.body.amount
        && split.mark != Mark::Voided
}

/// The edit that matches the line with the split, and clears the split where it is new. Its parts are in the order of
/// keys: transactions stand before lines.
fn pairing_edit(
    alloc: Global,
    number: u64,
    line: &Line,
    wanted: u64,
    held: &Held,
) -> Result<Edit, OutOfMemory>
    ensures { IfOk result (λ edit. edit
        ≡ pairing_edit number line.now wanted held.now.number held.now.transaction held.now.split) }
{
    let matched = Edit::Put(number, Thing::Line(matched_with(wanted, line)?));
    if !is_mark(held.split.mark, Mark::New) {
        return Ok(matched);
    }
    let cleared = remarked(alloc, held.transaction, wanted, Mark::Cleared)?;
    let mut edits = Many::new(alloc);
    edits.push(Edit::Put(held.number, Thing::Txn(cleared)))?;
    edits.push(matched)?;
    Ok(Edit::All(edits))
}
