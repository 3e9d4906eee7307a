ghost use Rattle.std.specs.Prelude.{◌≡◌, ◌==◌, ◌&&◌, is_none};
ghost use Rattle.std.specs.Option.{option_copied};
ghost use Rattle.book_statement.specs.Keys.{same_text};
ghost use Rattle.book_sound.specs.LineRules.{fits_line, has_same_key, matched_split, split_at};
ghost use Rattle.book_check.specs.LineWalk.{is_matched_with};
ghost use Rattle.book_undo.specs.Book.{book_of};
ghost use Rattle.book_history.specs.Leaving.{is_same_line};
ghost use Rattle.book_history.specs.Placing.{is_free, may_be};

use crate::losing::find_split;
use book_commodity::Table;
use book_splits::{Mark, Split, Txns};
use book_statement::{Line, LineState};
use book_undo::Plain;

/// Whether there is a line, and it has the key and the statement of the new one.
pub(crate) fn is_same_line(new: &Line, found: Option<&Line>) -> bool
    ensures { result ≡ is_same_line new.now (option_copied found.entry) }
{
    match found {
        Some(old) => new.statement == old.statement && has_same_key(new, old),
        None => false,
    }
}

/// Whether a line in this state is matched with no split.
pub(crate) fn is_free_state(state: LineState) -> bool
    ensures { result ≡ is_none (matched_split state) }
{
    match state {
        LineState::Open | LineState::Dismissed => true,
        LineState::Matched(_) => false,
    }
}

/// Whether the other line has the same key.
fn has_same_key(line: &Line, other: &Line) -> bool
    ensures { result ≡ has_same_key line.now other.now }
{
    other.account == line.account
        && other.body.day == line.body.day
        && other.body.amount == line.body.amount
        && has_same_texts(line, other)
}

/// Whether the other line has the same type, references and text, and the same ordinal.
fn has_same_texts(line: &Line, other: &Line) -> bool
    ensures { result ≡ (same_text other.now.body.kind line.now.body.kind
        && (same_text other.now.body.ref_own line.now.body.ref_own
        && (same_text other.now.body.ref_bank line.now.body.ref_bank
        && (same_text other.now.body.text line.now.body.text && (other.now.ordinal == line.now.ordinal))))) }
{
    let (one, two) = (&line.body, &other.body);
    two.kind.as_str() == one.kind.as_str()
        && two.ref_own.as_str() == one.ref_own.as_str()
        && two.ref_bank.as_str() == one.ref_bank.as_str()
        && two.text.as_str() == one.text.as_str()
        && other.ordinal == line.ordinal
}

/// Whether the line under the number may be in its state: where it is matched, it is with a split of the book that is
/// what the line says, and with which no other line is matched.
pub(crate) fn may_be(plain: &Plain, number: u64, line: &Line) -> bool
    ensures { result ≡ may_be (book_of plain.now) number line.now line.now.state }
{
    match line.state {
        LineState::Open | LineState::Dismissed => true,
        LineState::Matched(split) => {
            fits_line(line, find_in(&plain.transactions, split))
                && is_free(&plain.lines, number, split)
        }
    }
}

/// Whether there is a split, and it is what the line says.
fn fits_line(line: &Line, found: Option<&Split>) -> bool
    ensures { result ≡ fits_line line.now (option_copied found.entry) }
{
    match found {
        Some(split) => {
            split.account == line.account
                && split.quantity == line.body.amount
                && split.mark != Mark::Voided
        }
        None => false,
    }
}

/// The split with the number, if it is one of the book's.
fn find_in(transactions: &Txns, number: u64) -> Option<&Split>
    ensures { option_copied result ≡ split_at number transactions.now.entries }
{
    for (_, transaction) in transactions.as_slice() {
        if let Some(split) = find_split(transaction.splits.as_slice(), number) {
            return Some(split);
        }
    }
    None
}

/// Whether no line but that of the number is matched with the split.
fn is_free(lines: &Table<Line>, number: u64, split: u64) -> bool
    ensures { result ≡ is_free number split lines.now.entries }
{
    let mut entries = lines.as_slice().iter();
    entries.all(|(own, line)| *own == number || !is_matched_with(line, split))
}

/// Whether the line is matched with the split.
fn is_matched_with(line: &Line, split: u64) -> bool
    ensures { result ≡ is_matched_with split line.now }
{
    match line.state {
        LineState::Matched(own) => own == split,
        LineState::Open | LineState::Dismissed => false,
    }
}
