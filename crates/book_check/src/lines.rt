ghost use Rattle.std.specs.Prelude.{◌≡◌, ◌&&◌, not, IfOk, OnOk};
ghost use Rattle.std.specs.List.{list_any};
ghost use Rattle.book_splits.specs.Balance.{splits_of};
ghost use Rattle.book_sound.specs.LineRules.{fits_in_state, is_over_limit, line_rules, shares_split};
ghost use Rattle.book_sound.specs.Tests.{is_live};
ghost use Rattle.book_check.specs.FirstUnsound.{first_of_table};
ghost use Rattle.book_check.specs.Keys.{line_keys};
ghost use Rattle.book_check.specs.LineWalk.{AddsMatched, HasMatched};
ghost use Rattle.book_check.specs.Splits.{HasSplits};

use crate::seen::Seen;
use crate::splits::Splits;
use crate::walk::{Checked, first_broken};
use book_accounts::Tree;
use book_commodity::{OutOfMemory, Table};
use book_splits::Txns;
use book_statement::{Held, LARGEST_AMOUNT, Line, LineState};
use std::alloc::Global;

/// How many lines a book has at most.
const MOST: usize = 1_000_000;

/// The key of a line: its account, day and amount; its type, its references and its text; its ordinal.
type LineParts<'a> = ((u64, i32, i64), (&'a str, &'a str, &'a str, &'a str), u64);

/// A walk over lines, the splits of the book, and the keys and the splits of the lines that were asked.
#[derive(Drop)]
struct LineWalk<'a> {
    accounts: &'a Tree,
    statements: &'a Table<Held>,
    transactions: &'a Txns,
    lines: &'a Table<Line>,
    splits: Splits,
    matched: Seen<u64>,
    keys: Seen<LineParts<'a>>,
}

impl<'a> Checked for LineWalk<'a> {
    ghost use Rattle.std.specs.Prelude.{take};
    ghost use Rattle.book_check.specs.Keys.{line_keys};
    ghost use Rattle.book_check.specs.LineWalk.{HasMatched};
    ghost use Rattle.book_check.specs.Walk.{HasKeys};

    type Thing = Line;

    ghost entries = { λ w. w.lines.now.entries };

    ghost rules = { λ w. line_rules w.accounts.now.entries w.statements.now.entries w.transactions.now.entries
        w.lines.now.entries };

    ghost knows = { λ w place. HasSplits (splits_of w.transactions.now.entries) w.splits
        × HasMatched w.matched (take place w.lines.now.entries)
        × HasKeys line_keys w.keys (take place w.lines.now.entries) };

    fn count(&self) -> usize {
        self.lines.len()
    }

    fn number_at(&self, place: usize) -> u64 {
        self.lines.number_at(place)
    }

    fn keeps(&mut self, place: usize) -> Result<bool, OutOfMemory> {
        let line = self.lines.value_at(place);
        if !keeps_alone(self.accounts, self.statements, &self.splits, line) {
            return Ok(false);
        }
        if add_matched(&mut self.matched, line)? {
            return Ok(false);
        }
        let is_taken = self.keys.insert(parts_of(line))?;
        Ok(!is_taken)
    }
}

/// The first number at which a line breaks a rule of its kind, or is one too many. Where there are lines, a map of all
/// splits is made for those that are matched.
pub(crate) fn first_line(
    alloc: Global,
    accounts: &Tree,
    statements: &Table<Held>,
    transactions: &Txns,
    lines: &Table<Line>,
) -> Result<Option<u64>, OutOfMemory>
    ensures { IfOk result (λ found. found ≡ first_of_table
        (line_rules accounts.now.entries statements.now.entries transactions.now.entries lines.now.entries)
        1000000 lines.now.entries) }
{
    if lines.len() == 0 {
        return Ok(None);
    }
    let splits = Splits::of(alloc, transactions)?;
    let walk = LineWalk {
        accounts,
        statements,
        transactions,
        lines,
        splits,
        matched: Seen::new(alloc),
        keys: Seen::new(alloc),
    };
    first_broken(walk, MOST)
}

/// Whether the line keeps the rules that ask for no other line.
fn keeps_alone(accounts: &Tree, statements: &Table<Held>, splits: &Splits, line: &Line) -> bool
    ensures { (transactions : _) → HasSplits (splits_of transactions) splits.now
        → result ≡ (is_live accounts.now.entries line.now.account
        && (is_live statements.now.entries line.now.statement && (not (is_over_limit line.now.body.amount)
        && fits_in_state transactions line.now line.now.state))) }
{
    accounts.find(line.account).is_some()
        && statements.find(line.statement).is_some()
        && line.body.amount.unsigned_abs() <= LARGEST_AMOUNT
        && fits_in_state(splits, line)
}

/// Whether a split of the book is what the line says, if the line is matched with one.
fn fits_in_state(splits: &Splits, line: &Line) -> bool
    ensures { (transactions : _) → HasSplits (splits_of transactions) splits.now
        → result ≡ fits_in_state transactions line.now line.now.state }
{
    match line.state {
        LineState::Open | LineState::Dismissed => true,
        LineState::Matched(split) => splits.fits(split, line.account, line.body.amount),
    }
}

/// Adds the split that the line is matched with, if it is, and says whether a line before is matched with it.
fn add_matched(splits: &mut Seen<u64>, line: &Line) -> Result<bool, OutOfMemory>
    ensures before { IfOk result (λ before. (lines : _) → HasMatched splits.old lines
        → before ≡ list_any (λ entry. shares_split line.now entry.1) lines) }
    ensures adds { OnOk result (AddsMatched splits.old line.now splits.new) }
{
    match line.state {
        LineState::Open | LineState::Dismissed => Ok(false),
        LineState::Matched(split) => splits.insert(split),
    }
}

/// The key of the line.
fn parts_of(line: &Line) -> LineParts<'_>
    ensures { line_keys.shown result ≡ line_keys.parts line.now }
{
    let body = &line.body;
    (
        (line.account, body.day.number(), body.amount),
        (
            body.kind.as_str(),
            body.ref_own.as_str(),
            body.ref_bank.as_str(),
            body.text.as_str(),
        ),
        line.ordinal,
    )
}
