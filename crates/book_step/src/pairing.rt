ghost use Rattle.std.specs.Prelude.{◌≡◌, ℕ, ◌++◌, IfOk, map};
ghost use Rattle.std.specs.BTreeMap.{get};
ghost use Rattle.std.specs.List.Sorted.{IsStrictlyIncreasing};
ghost use Rattle.std.specs.Option.{option_copied};
ghost use Rattle.std.specs.Ordering.{nat_cmp};
ghost use Rattle.book_commodity.specs.Table.{value_of};
ghost use Rattle.book_undo.specs.declared.edit.Edit.{Put};
ghost use Rattle.book_undo.specs.declared.thing.Thing.TheVariants as thing;
ghost use Rattle.book_import.specs.Edits.{line_edits};
ghost use Rattle.book_step.specs.AutoMatching.{HasTaking, lines_newly_paired, pairing_edit as edit_of, pairing_one};
ghost use Rattle.book_step.specs.AutoMatching.{split_of};
ghost use Rattle.book_step.specs.LineAdding.{matched_with};
ghost use Rattle.book_step.specs.UnderNumbers.{made_of, made_under};

use crate::clearing::clearing_paired;
use crate::importing::whole_edit;
use crate::line_adding::matched_with;
use crate::present::Present;
use book_commodity::{Many, OutOfMemory};
use book_finish::sort_once;
use book_match::Matched;
use book_statement::Line;
use book_undo::{Edit, Thing};
use std::alloc::Global;
use std::collections::BTreeMap;

/// The edit that matches the line of each pair with its split, and clears the split where it is new. The work grows
/// with the pairs, and not with the book, unless one of the splits was added to its transaction later.
pub(crate) fn pairing_edit(present: &Present, pairs: &[Matched]) -> Result<Edit, OutOfMemory>
    ensures { IfOk result (λ edit. edit ≡ edit_of pairs.now present.now.book) }
{
    let mut edits = clearing_paired(present, pairs)?;
    add_matching(&mut edits, present, pairs)?;
    Ok(whole_edit(Many::of(edits)))
}

/// Adds the edits that match the lines of the pairs, each with its split, by number.
fn add_matching(
    edits: &mut Vec<Edit>,
    present: &Present,
    pairs: &[Matched],
) -> Result<(), OutOfMemory>
    ensures { IfOk result (λ _. edits.new.items ≡ edits.old.items
        ++ line_edits (lines_newly_paired (split_of pairs.now) present.now.book.lines)) }
{
    let takes = splits_by_line(present.alloc, pairs)?;
    let numbers = paired_lines(present.alloc, pairs)?;
    add_lines(edits, present, numbers.as_slice(), &takes)
}

/// The number of the split that each line takes.
fn splits_by_line(alloc: Global, pairs: &[Matched]) -> Result<BTreeMap<u64, u64>, OutOfMemory>
    ensures { IfOk result (λ takes. (number : ℕ) → get nat_cmp takes number ≡ split_of pairs.now number) }
{
    let mut takes = BTreeMap::new(alloc);
    for place in (0..pairs.len()).rev() {
        let pair = pairs[place];
        takes.insert(pair.line, pair.split)?;
    }
    Ok(takes)
}

/// The numbers of the lines of the pairs, rising, each once.
fn paired_lines(alloc: Global, pairs: &[Matched]) -> Result<Vec<u64>, OutOfMemory>
    ensures rises { IfOk result (λ numbers. IsStrictlyIncreasing numbers.items) }
    ensures has { IfOk result (λ numbers. HasTaking (split_of pairs.now) numbers.items) }
{
    let mut numbers = lines_of(alloc, pairs)?;
    sort_once(&mut numbers);
    Ok(numbers)
}

/// The numbers of the lines of the pairs, in their order.
fn lines_of(alloc: Global, pairs: &[Matched]) -> Result<Vec<u64>, OutOfMemory>
    ensures { IfOk result (λ numbers. numbers.items ≡ map (λ pair. pair.line) pairs.now) }
{
    let numbers = pairs.iter().map(|pair| pair.line).collect(alloc)?;
    Ok(numbers)
}

/// Adds the edits that match the lines under these numbers, each with the split that it takes.
fn add_lines(
    edits: &mut Vec<Edit>,
    present: &Present,
    numbers: &[u64],
    takes: &BTreeMap<u64, u64>,
) -> Result<(), OutOfMemory>
    ensures { IfOk result (λ _. edits.new.items ≡ edits.old.items
        ++ made_under (pairing_one (get nat_cmp takes.now)) present.now.book.lines numbers.now) }
{
    for number in numbers {
        let found = line_of(present, *number);
        add_line(edits, *number, found, takes)?;
    }
    Ok(())
}

/// The line of this number, if there is one.
fn line_of<'a>(present: &Present<'a>, number: u64) -> Option<&'a Line>
    ensures { option_copied result ≡ value_of number present.now.book.lines }
{
    present.plain.lines.find(number)
}

/// Adds the edit that matches the line with the split that it takes, if there is a line and it takes one.
fn add_line(
    edits: &mut Vec<Edit>,
    number: u64,
    line: Option<&Line>,
    takes: &BTreeMap<u64, u64>,
) -> Result<(), OutOfMemory>
    ensures { IfOk result (λ _. edits.new.items ≡ edits.old.items
        ++ made_of (pairing_one (get nat_cmp takes.now)) number (option_copied line.entry)) }
{
    let Some(line) = line else {
        return Ok(());
    };
    if let Some(split) = takes.get(&number) {
        edits.push(matching(number, line, *split)?)?;
    }
    Ok(())
}

/// The edit that matches the line of this number with the split.
fn matching(number: u64, line: &Line, split: u64) -> Result<Edit, OutOfMemory>
    ensures { IfOk result (λ edit. edit ≡ Put number (thing.Line (matched_with split line.now))) }
{
    let matched = matched_with(split, line)?;
    Ok(Edit::Put(number, Thing::Line(matched)))
}
